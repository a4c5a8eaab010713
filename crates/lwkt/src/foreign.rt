//! Words and names that aren't UTF-8, as they are shown.

use lwkt_base::OutOfMemory;
use lwkt_base::hexes::show_hex;
use lwkt_base::memory::push_str;
use lwkt_report::push_escaped;
use std::alloc::Global;
use std::rt::Env;
use std::str::from_utf8;

// The most bytes of a word that is shown.
const LONGEST_WORD: usize = 4096;

// Appends bytes that are no text: `\x` and two digits for each.
fn push_foreign(out: &mut String, bytes: &[u8]) -> Result<(), OutOfMemory> {
    for byte in bytes {
        push_str(out, "\\x")?;
        show_hex(&[*byte], out)?;
    }
    Ok(())
}

/// Bytes as they are shown: text with its escapes, and each byte that is no text as `\x` and two digits.
///
/// Refused if memory is.
pub fn shown_of(alloc: Global, bytes: &[u8]) -> Result<String, OutOfMemory> {
    let mut out = String::new(alloc);
    for chunk in bytes.utf8_chunks() {
        push_escaped(&mut out, chunk.valid())?;
        push_foreign(&mut out, chunk.invalid())?;
    }
    Ok(out)
}

/// The first argument of the program that isn't UTF-8, as it is shown. None if it, or one before it, is longer than a path can be, or if
/// memory is refused.
pub fn foreign_word<R: Env>(rt: &R, alloc: Global) -> Option<String> {
    let mut room = [0; LONGEST_WORD];
    for place in 1..usize::MAX {
        let Ok(count) = rt.arg(place, &mut room) else {
            return None;
        };
        let word = &room[..count];
        if from_utf8(word).is_err() {
            return shown_of(alloc, word).ok();
        }
    }
    None
}
