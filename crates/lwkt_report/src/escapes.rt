//! What is shown of input.
ghost use Rattle.std.specs.Prelude.{◌≡◌, ◌++◌, OnOk, IfOk, string_bytes};
ghost use Rattle.lwkt_report.specs.Escape.{lies_between, is_control, is_direction, is_separator, is_shown_as_is, code_text, closed_code, escape, letter_shown, escaped, IsPlain};

use lwkt_base::OutOfMemory;
use lwkt_base::hexes::show_hex;
use lwkt_base::memory::{push_char, push_str};
use std::alloc::Global;

fn lies_between(letter: char, low: char, high: char) -> bool
    ensures { result ≡ lies_between letter low high }
{
    low <= letter && letter <= high
}

fn is_control(letter: char) -> bool
    ensures { result ≡ is_control letter }
{
    lies_between(letter, '\0', '\u{1f}') || lies_between(letter, '\u{7f}', '\u{9f}')
}

// Whether a character turns the direction in which others are read.
fn is_direction(letter: char) -> bool
    ensures { result ≡ is_direction letter }
{
    lies_between(letter, '\u{61c}', '\u{61c}')
        || lies_between(letter, '\u{200e}', '\u{200f}')
        || lies_between(letter, '\u{202a}', '\u{202e}')
        || lies_between(letter, '\u{2066}', '\u{2069}')
}

// Whether a character ends a line, or a paragraph, for those who read Unicode.
fn is_separator(letter: char) -> bool
    ensures { result ≡ is_separator letter }
{
    lies_between(letter, '\u{2028}', '\u{2029}')
}

/// Whether a character of input is shown as it is: it is no control character, no mark of direction and no separator of lines.
pub fn is_shown_as_is(letter: char) -> bool
    ensures { result ≡ is_shown_as_is letter }
{
    !(is_control(letter) || is_direction(letter) || is_separator(letter))
}

// Appends the code of a character below U+10000.
#[tactic(auto, unfolding(crate::specs::Escape::code_text))]
fn push_code(out: &mut String, letter: char) -> Result<(), OutOfMemory>
    ensures { OnOk result (string_bytes out.new ≡ string_bytes out.old ++ code_text letter) }
{
    let code = letter as u32;
    if code > 255 {
        show_hex(&[(code / 256 % 256) as u8], out)?;
    }
    show_hex(&[(code % 256) as u8], out)
}

// Appends the code, and what ends an escape.
fn push_closed(out: &mut String, letter: char) -> Result<(), OutOfMemory>
    ensures { OnOk result (string_bytes out.new ≡ string_bytes out.old ++ closed_code letter) }
{
    push_code(out, letter)?;
    push_str(out, "}")
}

// Appends the escape of a character below U+10000.
fn push_escape(out: &mut String, letter: char) -> Result<(), OutOfMemory>
    ensures { OnOk result (string_bytes out.new ≡ string_bytes out.old ++ escape letter) }
{
    push_str(out, "\\u{")?;
    push_closed(out, letter)
}

/// Appends a character of input as it is shown: it, or its escape, such as `\u{9b}`.
pub fn push_shown(out: &mut String, letter: char) -> Result<(), OutOfMemory>
    ensures { OnOk result (string_bytes out.new ≡ string_bytes out.old ++ letter_shown letter) }
{
    if is_shown_as_is(letter) {
        push_char(out, letter)
    } else {
        push_escape(out, letter)
    }
}

/// Appends a text of input as it is shown: each character, or its escape.
pub fn push_escaped(out: &mut String, text: &str) -> Result<(), OutOfMemory>
    ensures { OnOk result (string_bytes out.new ≡ string_bytes out.old ++ escaped text.now) }
{
    for letter in text.chars() {
        push_shown(out, letter)?;
    }
    Ok(())
}

/// A text of input as it is shown. Whatever of input reaches a terminal passes this function, or one of the two above: names and words
/// of texts, parts of JSON, names of files.
///
/// Refused if memory is.
pub fn escaped(alloc: Global, text: &str) -> Result<String, OutOfMemory>
    ensures exact { IfOk result (λ shown. string_bytes shown ≡ escaped text.now) }

    // Each character of it is shown as it is.
    ensures plain { IfOk result (λ shown. IsPlain (string_bytes shown)) }

    // A text of such characters stays.
    ensures same { IsPlain text.now → IfOk result (λ shown. string_bytes shown ≡ text.now) }
{
    let mut out = String::new(alloc);
    push_escaped(&mut out, text)?;
    Ok(out)
}
