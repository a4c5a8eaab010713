//! Texts that grow.
ghost use Rattle.std.specs.Prelude.{◌≡◌, ℕ, ◌++◌, List, [], length, nat_eq, IfOk, OnOk, string_bytes, encode_utf8, decimal};
ghost use Rattle.std.specs.Str.{chars};
ghost use Rattle.strsim.specs.Edits.{levenshtein_row};

use super::{OutOfMemory, refused};
use itoa::Buffer;
use std::alloc::Global;
use strsim::levenshtein;

/// A text with these characters, in memory of its own.
pub fn from_str(alloc: Global, text: &str) -> Result<String, OutOfMemory>
    ensures { IfOk result (λ s. string_bytes s ≡ text.now) }
{
    match String::from_str(alloc, text) {
        Ok(string) => Ok(string),
        Err(_) => Err(refused()),
    }
}

/// Appends a text.
#[inline(always)]
pub fn push_str(out: &mut String, text: &str) -> Result<(), OutOfMemory>
    ensures { OnOk result (string_bytes out.new ≡ string_bytes out.old ++ text.now) }
{
    match out.push_str(text) {
        Ok(()) => Ok(()),
        Err(_) => Err(refused()),
    }
}

/// Appends a character.
#[inline(always)]
pub fn push_char(out: &mut String, character: char) -> Result<(), OutOfMemory>
    ensures { OnOk result (string_bytes out.new ≡ string_bytes out.old ++ encode_utf8 character) }
{
    match out.push(character) {
        Ok(()) => Ok(()),
        Err(_) => Err(refused()),
    }
}

/// Appends a number, in decimal.
pub fn push_number(out: &mut String, number: u64) -> Result<(), OutOfMemory>
    ensures { OnOk result (string_bytes out.new ≡ string_bytes out.old ++ decimal number) }
{
    let mut buffer = Buffer::new();
    push_str(out, buffer.format(number))
}

/// How many characters have to be changed, added or left out to make one text of another.
pub fn changes_between(alloc: Global, one: &str, other: &str) -> Result<usize, OutOfMemory>
    ensures { IfOk result (λ count. count ≡ levenshtein_row nat_eq (chars one.now) (chars other.now) (length (chars other.now))) }
{
    match levenshtein(alloc, one, other) {
        Ok(count) => Ok(count),
        Err(_) => Err(refused()),
    }
}
