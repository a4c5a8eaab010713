//! The old names of the subcommands: `lwkt_run`, `lwkt_show`, `lwkt_check`, `lwkt_text` and `lwkt_explore`.
ghost use Rattle.std.specs.Prelude.{◌≡◌, ◌++◌, IfOk, map, string_bytes};
ghost use Rattle.std.specs.Option.{option_copied, option_to_list};
ghost use Rattle.clap.specs.Walk.{texts};
ghost use Rattle.lwkt_request.specs.OldNames.{call_by, help_of, is_dashed, is_mode, is_question, named, new_words, old_check, old_explore, old_file, old_pair, old_run, old_show, old_three, old_word};

use lwkt_base::OutOfMemory;
use lwkt_base::memory::push;
use std::alloc::Global;

/// What the words behind `lwkt_run` are.
#[derive(Clone, Copy)]
pub(crate) enum OldRun<'a> {
    /// A run, on threads or in rounds, of a file or of standard input.
    Direct(bool, Option<&'a str>),
    /// A question for the help: `-h` or `--help`.
    Help(&'a str),
    /// A question for the version.
    Version,
    /// Nothing that `lwkt_run` does.
    Misused,
}

// The words that `rest` are behind up to three words.
fn behind<'a>(
    alloc: Global,
    first: Option<&'a str>,
    second: Option<&'a str>,
    third: Option<&'a str>,
    rest: &'a [String],
) -> Result<Vec<&'a str>, OutOfMemory>
    ensures { IfOk result (λ words. texts words.items ≡ (option_to_list (option_copied first.entry) ++ option_to_list (option_copied second.entry) ++ option_to_list (option_copied third.entry)) ++ map string_bytes rest.entry.now) }
{
    let mut words = Vec::new(alloc);
    if let Some(word) = first {
        push(&mut words, word)?;
    }
    if let Some(word) = second {
        push(&mut words, word)?;
    }
    if let Some(word) = third {
        push(&mut words, word)?;
    }
    for word in rest {
        push(&mut words, word.as_str())?;
    }
    Ok(words)
}

// The words of a subcommand, by those behind its old name.
fn named<'a>(alloc: Global, sub: &'a str, words: &'a [String]) -> Result<Vec<&'a str>, OutOfMemory>
    ensures { IfOk result (λ new. texts new.items ≡ named sub.entry.now (map string_bytes words.entry.now)) }
{
    match words.first() {
        Some(word) if word.as_str() == "help" => behind(
            alloc,
            Some(sub),
            Some("--help"),
            None,
            &[],
        ),
        Some(word) if word.as_str() == "--version" => {
            behind(alloc, Some("--version"), None, None, &[])
        }
        _ => behind(alloc, Some(sub), None, None, words),
    }
}

// The words of a run that is shown in numbers.
fn old_show<'a>(alloc: Global, words: &'a [String]) -> Result<Vec<&'a str>, OutOfMemory>
    ensures { IfOk result (λ new. texts new.items ≡ old_show (map string_bytes words.entry.now)) }
{
    match words.split_first() {
        Some((word, rest)) if word.as_str() == "turns" => {
            behind(alloc, Some("show"), Some("--numbers"), None, rest)
        }
        Some((word, rest)) if word.as_str() == "threads" => {
            let threads = Some("--threads");
            behind(alloc, Some("show"), Some("--numbers"), threads, rest)
        }
        Some((word, _)) if word.as_str() == "help" || word.as_str() == "--version" => {
            named(alloc, "show", words)
        }
        _ => behind(alloc, Some("show"), Some("--numbers"), None, words),
    }
}

fn old_check<'a>(alloc: Global, words: &'a [String]) -> Result<Vec<&'a str>, OutOfMemory>
    ensures { IfOk result (λ new. texts new.items ≡ old_check (map string_bytes words.entry.now)) }
{
    match words.split_first() {
        Some((word, rest)) if word.as_str() == "lines" => {
            behind(alloc, Some("check"), Some("--lines"), None, rest)
        }
        _ => named(alloc, "check", words),
    }
}

// The words of a search in numbers.
fn old_explore<'a>(alloc: Global, words: &'a [String]) -> Result<Vec<&'a str>, OutOfMemory>
    ensures { IfOk result (λ new. texts new.items ≡ old_explore (map string_bytes words.entry.now)) }
{
    match words.first() {
        Some(word) if word.as_str() == "help" || word.as_str() == "--version" => {
            named(alloc, "explore", words)
        }
        _ => behind(alloc, Some("explore"), Some("--numbers"), None, words),
    }
}

// `help` and `help SUBCOMMAND`.
fn help_of<'a>(alloc: Global, words: &'a [String]) -> Result<Vec<&'a str>, OutOfMemory>
    ensures { IfOk result (λ new. texts new.items ≡ help_of (map string_bytes words.entry.now)) }
{
    match words.first() {
        Some(sub) => behind(alloc, Some(sub.as_str()), Some("--help"), None, &[]),
        None => behind(alloc, Some("--help"), None, None, &[]),
    }
}

/// The words that stand for the word `name` and those behind it, if it is the old name of a subcommand, or `help`; else these.
pub(crate) fn new_words<'a>(
    alloc: Global,
    name: &'a str,
    words: &'a [String],
) -> Result<Vec<&'a str>, OutOfMemory>
    ensures { IfOk result (λ new. texts new.items ≡ new_words name.entry.now (map string_bytes words.entry.now)) }
{
    match name {
        "lwkt_show" => old_show(alloc, words),
        "lwkt_check" => old_check(alloc, words),
        "lwkt_text" => named(alloc, "text", words),
        "lwkt_explore" => old_explore(alloc, words),
        "help" => help_of(alloc, words),
        _ => behind(alloc, Some(name), None, None, words),
    }
}

fn is_mode(word: &str) -> bool
    ensures { result ≡ is_mode word.now }
{
    word == "turns" || word == "threads"
}

fn is_question(word: &str) -> bool
    ensures { result ≡ is_question word.now }
{
    word == "-h" || word == "--help"
}

// Whether a word begins with a dash, and isn't one.
fn is_dashed(word: &str) -> bool
    ensures { result ≡ is_dashed word.now }
{
    match word.as_bytes() {
        [first, _, ..] => *first == b'-',
        _ => false,
    }
}

// One word behind `lwkt_run`.
fn old_word<'a>(word: &'a str) -> OldRun<'a>
    ensures { call_by result ≡ old_word word.entry.now }
{
    if is_mode(word) {
        return OldRun::Direct(word == "threads", None);
    }
    if is_question(word) {
        return OldRun::Help(word);
    }
    match word {
        "help" => OldRun::Help("--help"),
        "--version" => OldRun::Version,
        _ => OldRun::Misused,
    }
}

// A mode and a file.
fn old_file<'a>(mode: &str, file: &'a str) -> OldRun<'a>
    ensures { call_by result ≡ old_file mode.now file.entry.now }
{
    if is_mode(mode) {
        OldRun::Direct(mode == "threads", Some(file))
    } else {
        OldRun::Misused
    }
}

// Two words behind `lwkt_run`.
fn old_pair<'a>(mode: &str, file: &'a str) -> OldRun<'a>
    ensures { call_by result ≡ old_pair mode.now file.entry.now }
{
    if is_question(file) && is_mode(mode) {
        return OldRun::Help(file);
    }
    if is_dashed(file) {
        return OldRun::Misused;
    }
    old_file(mode, file)
}

// Three words behind `lwkt_run`.
fn old_three<'a>(mode: &str, dashes: &str, file: &'a str) -> OldRun<'a>
    ensures { call_by result ≡ old_three mode.now dashes.now file.entry.now }
{
    if dashes == "--" {
        old_file(mode, file)
    } else {
        OldRun::Misused
    }
}

/// What the words behind `lwkt_run` are: exactly `turns` or `threads`, or that and a file, which may stand behind `--`; or a question
/// for the help or the version.
pub(crate) fn old_run<'a>(words: &'a [String]) -> OldRun<'a>
    ensures { call_by result ≡ old_run (map string_bytes words.entry.now) }
{
    match words {
        [word] => old_word(word.as_str()),
        [mode, file] => old_pair(mode.as_str(), file.as_str()),
        [mode, dashes, file] => old_three(mode.as_str(), dashes.as_str(), file.as_str()),
        _ => OldRun::Misused,
    }
}
