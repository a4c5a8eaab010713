//! Numbers, ranges and orders, as texts.
ghost use Rattle.std.specs.Prelude.{◌≡◌, ◌<◌, ◌++◌, List, ℕ, IfOk, OnOk};
ghost use Rattle.std.specs.List.{list_all};
ghost use Rattle.std.specs.Option.{option_copied, option_map};
ghost use Rattle.std.specs.Result.{result_ok};
ghost use Rattle.clap.specs.Words.{Text};
ghost use Rattle.lwkt_request.specs.Texts.{before_end, behind_stop, bound_or, bytes_named, bytes_or, ends_of, is_digit, is_part, number_named, number_of, number_or, path_of, range_between, range_named, range_of, rising, times_number, turn_of_byte, turns_of, whole_before};

use crate::wrongs::Wrong;
use lwkt_base::OutOfMemory;
use lwkt_base::memory::push;
use lwkt_show::Counted;
use std::alloc::Global;

/// All turns, or rounds, from one to another.
#[derive(Clone, Copy)]
pub(crate) struct Range {
    pub(crate) counted: Counted,
    pub(crate) first: usize,
    pub(crate) last: usize,
}

fn size(text: &str) -> Option<usize>
    ensures { result ≡ number_of text.now }
{
    text.parse::<usize>().ok()
}

fn number(text: &str) -> Option<u64>
    ensures { result ≡ number_of text.now }
{
    text.parse::<u64>().ok()
}

/// The number that an option has, or that stands for one that isn't named.
pub(crate) fn size_or<'a>(
    name: &'static str,
    value: Option<&'a str>,
    without: usize,
) -> Result<usize, Wrong<'a>>
    ensures { result_ok result ≡ number_or without (option_copied value.entry) }
{
    match value {
        Some(text) => size(text).ok_or(Wrong::Number(name, text)),
        None => Ok(without),
    }
}

/// The same of a number.
pub(crate) fn number_or<'a>(
    name: &'static str,
    value: Option<&'a str>,
    without: u64,
) -> Result<u64, Wrong<'a>>
    ensures { result_ok result ≡ number_or without (option_copied value.entry) }
{
    match value {
        Some(text) => number(text).ok_or(Wrong::Number(name, text)),
        None => Ok(without),
    }
}

/// The number that an option has, if it is named.
pub(crate) fn number_named<'a>(
    name: &'static str,
    value: Option<&'a str>,
) -> Result<Option<u64>, Wrong<'a>>
    ensures { result_ok result ≡ number_named (option_copied value.entry) }
{
    let Some(text) = value else {
        return Ok(None);
    };
    match number(text) {
        Some(number) => Ok(Some(number)),
        None => Err(Wrong::Number(name, text)),
    }
}

// A text behind which nothing stands.
fn whole_before<'a>(front: &'a str, back: &str) -> Option<&'a str>
    ensures { option_copied result ≡ whole_before front.entry.now back.now }
{
    if back.is_empty() {
        return Some(front);
    }
    None
}

// What stands before a letter that ends a text and stands nowhere else in it.
fn before_end(text: &str, letter: char) -> Option<&str>
    requires { letter < 128 }
    ensures { option_copied result ≡ before_end letter text.now }
{
    match text.split_once(letter) {
        Some((front, back)) => whole_before(front, back),
        None => None,
    }
}

// So many times the number that a text is.
fn times_number(unit: u64, text: &str) -> Option<u64>
    ensures { result ≡ times_number unit text.now }
{
    number(text)?.checked_mul(unit)
}

// How many bytes a text names.
fn bytes_named(text: &str) -> Option<u64>
    ensures { result ≡ bytes_named text.now }
{
    if let Some(front) = before_end(text, 'K') {
        return times_number(1024, front);
    }
    if let Some(front) = before_end(text, 'M') {
        return times_number(1_048_576, front);
    }
    if let Some(front) = before_end(text, 'G') {
        return times_number(1_073_741_824, front);
    }
    number(text)
}

/// How many bytes an option has, or those that stand for one that isn't named.
pub(crate) fn bytes_or<'a>(
    name: &'static str,
    value: Option<&'a str>,
    without: u64,
) -> Result<u64, Wrong<'a>>
    ensures { result_ok result ≡ bytes_or without (option_copied value.entry) }
{
    match value {
        Some(text) => bytes_named(text).ok_or(Wrong::Size(name, text)),
        None => Ok(without),
    }
}

// One end of a range, or what stands for one that is left out.
fn bound_or(text: &str, without: usize) -> Option<usize>
    ensures { result ≡ bound_or without text.now }
{
    if text.is_empty() {
        return Some(without);
    }
    size(text)
}

// What stands behind a full stop.
fn behind_stop(text: &str) -> Option<&str>
    ensures { option_copied result ≡ behind_stop text.now }
{
    text.strip_prefix('.')
}

// What stands before the two full stops of a range, and behind them.
fn ends_of(text: &str) -> Option<(&str, &str)>
    ensures { option_map (λ ends. (ends.0.now, ends.1.now)) result ≡ ends_of text.now }
{
    let (from, rest) = text.split_once('.')?;
    let to = behind_stop(rest)?;
    Some((from, to))
}

// The range of these numbers.
fn rising<'a>(
    counted: Counted,
    first: usize,
    last: usize,
    wrong: Wrong<'a>,
) -> Result<Range, Wrong<'a>>
    ensures { result_ok result ≡ rising counted first last }
{
    if first > last {
        return Err(wrong);
    }
    Ok(Range {
        counted,
        first,
        last,
    })
}

// The range `A..B` of an option.
fn range_of<'a>(name: &'static str, counted: Counted, text: &'a str) -> Result<Range, Wrong<'a>>
    ensures { result_ok result ≡ range_of counted text.entry.now }
{
    let wrong = Wrong::Range(name, text);
    let (from, to) = ends_of(text).ok_or(wrong)?;
    let first = bound_or(from, 0).ok_or(wrong)?;
    let last = bound_or(to, usize::MAX).ok_or(wrong)?;
    rising(counted, first, last, Wrong::Falls(name, text))
}

/// The range that `--turns` or `--rounds` has, and all turns without one.
pub(crate) fn range_named<'a>(
    turns: Option<&'a str>,
    rounds: Option<&'a str>,
) -> Result<Range, Wrong<'a>>
    ensures { result_ok result ≡ range_named (option_copied turns.entry) (option_copied rounds.entry) }
{
    match (turns, rounds) {
        (None, None) => Ok(Range {
            counted: Counted::Turns,
            first: 0,
            last: usize::MAX,
        }),
        (Some(text), None) => range_of("--turns", Counted::Turns, text),
        (None, Some(text)) => range_of("--rounds", Counted::Rounds, text),
        (Some(_), Some(_)) => Err(Wrong::Apart("--turns", "--rounds")),
    }
}

// Whether a byte is a digit.
fn is_digit(byte: u8) -> bool
    ensures { result ≡ is_digit byte }
{
    b'0' <= byte && byte <= b'9'
}

// Whether a byte may stand in the text of an order: a digit, or a blank, a comma or a dash.
fn is_part(byte: u8) -> bool
    ensures { result ≡ is_part byte }
{
    is_digit(byte) || byte == b' ' || byte == b',' || byte == b'-'
}

/// Whether a text is that of an order.
pub(crate) fn are_parts(text: &str) -> bool
    ensures { result ≡ list_all is_part text.now }
{
    text.as_bytes().iter().all(|byte| is_part(*byte))
}

// Appends the turn that a byte names, if it names one.
fn add_turn(order: &mut Vec<u8>, byte: u8) -> Result<(), OutOfMemory>
    ensures { OnOk result (order.new.items ≡ order.old.items ++ turn_of_byte byte) }
{
    if is_digit(byte) {
        push(order, byte - b'0')?;
    }
    Ok(())
}

/// The order that a text is.
pub(crate) fn turns_of(alloc: Global, text: &str) -> Result<Vec<u8>, OutOfMemory>
    ensures { IfOk result (λ order. order.items ≡ turns_of text.now) }
{
    let mut order = Vec::new(alloc);
    for byte in text.as_bytes() {
        add_turn(&mut order, *byte)?;
    }
    Ok(order)
}

/// The file that is named; none for standard input, which `-` is too.
pub(crate) fn path_of<'a>(file: Option<&'a str>) -> Option<&'a str>
    ensures { option_copied result ≡ path_of (option_copied file.entry) }
{
    let file = file?;
    if file == "-" {
        return None;
    }
    Some(file)
}
