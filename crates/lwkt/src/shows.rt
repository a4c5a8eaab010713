//! Runs of a script, shown.
ghost use Rattle.std.specs.Prelude.{◌≡◌, IfErr, IfOk, Ok, string_bytes};
ghost use Rattle.std.specs.Option.{option_copied};
ghost use Rattle.lwkt_run.specs.Run.{exit_status};
ghost use Rattle.lwkt.specs.Failing.{DeclinesShown};
ghost use Rattle.lwkt.specs.Making.{IsShow, names_in};

use crate::failures::Failure;
use crate::written::Made;
use lwkt_run::exit_status;
use lwkt_script::Script;
use lwkt_show::{Options, Shown, show_script, show_threads};
use lwkt_text::{Input, Names};
use std::alloc::Global;
use std::thread::Threads;

// A run that is shown, with the status of how it ended.
fn made_of(alloc: Global, shown: Shown) -> Made
    ensures text { string_bytes result.text ≡ string_bytes shown.text }
    ensures status { result.status ≡ exit_status (Ok shown.end) }
{
    let Shown { text, end } = shown;
    Made {
        text,
        status: exit_status(&Ok(end)),
        verdicts: String::new(alloc),
    }
}

/// The names in which the run of an input is shown: those of a text, unless numbers are asked for.
pub fn names_in(in_numbers: bool, input: &Input) -> Option<&Names>
    ensures { option_copied result ≡ names_in in_numbers input.now }
{
    match &input.names {
        Some(names) if !in_numbers => Some(names),
        _ => None,
    }
}

/// Runs a script and shows the run, in names if some are given: in rounds, along an order of its processors, or on threads.
pub fn shown_of<R: Threads + Sync>(
    rt: &R,
    alloc: Global,
    on_threads: bool,
    names: Option<&Names>,
    options: Options,
    order: Option<&[u8]>,
    script: &Script,
) -> Result<Made, Failure>
    ensures made { IfOk result (λ made. IsShow on_threads (option_copied names.entry) options (option_copied order.entry) script.now (string_bytes made.text) made.status) }
    ensures declined { IfErr result (DeclinesShown on_threads options (option_copied order.entry) script.now) }
{
    if on_threads {
        return Ok(made_of(alloc, show_threads(rt, alloc, names, script)?));
    }
    match show_script(alloc, names, script, options, order)? {
        Some(shown) => Ok(made_of(alloc, shown)),
        None => Err(Failure::Past),
    }
}
