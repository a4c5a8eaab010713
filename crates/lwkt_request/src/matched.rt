//! What a parse found for the arguments, as texts.
ghost use Rattle.std.specs.Prelude.{◌≡◌};
ghost use Rattle.std.specs.Option.{option_copied};
ghost use Rattle.clap.specs.Words.{first_of};
ghost use Rattle.lwkt_request.specs.Tasks.{is_on, is_true, rows_in};

use clap::ArgMatches;

/// The value of an option.
pub(crate) fn value_in<'a>(matches: &ArgMatches<'a>, name: &str) -> Option<&'a str>
    ensures { option_copied result ≡ first_of name.now (rows_in matches.now) }
{
    matches.get_str(name)
}

// Whether a flag with this value is named.
fn is_true(value: Option<&str>) -> bool
    ensures { result ≡ is_true (option_copied value.entry) }
{
    match value {
        Some(text) => text == "true",
        None => false,
    }
}

/// Whether a flag is named.
pub(crate) fn is_on(matches: &ArgMatches<'_>, name: &str) -> bool
    ensures { result ≡ is_on name.now (rows_in matches.now) }
{
    is_true(value_in(matches, name))
}
