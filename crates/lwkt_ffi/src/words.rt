ghost use Rattle.std.specs.Prelude.{◌≡◌, IfOk, map, string_bytes};
ghost use Rattle.lwkt_ffi.specs.Answers.{words_in, asks_names, without_names};

use lwkt_base::OutOfMemory;
use lwkt_base::memory::{collect, from_str, push};
use std::alloc::Global;

// The parts of a text that blanks stand between.
fn parts_of(alloc: Global, text: &str) -> Result<Vec<&str>, OutOfMemory>
    ensures { IfOk result (λ parts. map (λ part. part.now) parts.items ≡ words_in text.now) }
{
    collect(alloc, text.split(' '))
}

/// The words of arguments, with one blank between each two.
///
/// Refused if memory is.
pub fn words_of(alloc: Global, arguments: &str) -> Result<Vec<String>, OutOfMemory>
    ensures { IfOk result (λ words. map string_bytes words.items ≡ words_in arguments.now) }
{
    let parts = parts_of(alloc, arguments)?;
    let mut words = Vec::new(alloc);
    for part in &parts {
        push(&mut words, from_str(alloc, part)?)?;
    }
    Ok(words)
}

/// Whether the word behind the first asks for the names of a text.
pub fn asks_names(words: &[String]) -> bool
    ensures { result ≡ asks_names (map string_bytes words.now) }
{
    match words {
        [_, word, ..] => word.as_str() == "--names",
        _ => false,
    }
}

/// The words without that word.
pub fn without_names(words: Vec<String>) -> Vec<String>
    ensures { map string_bytes result.items ≡ without_names (map string_bytes words.items) }
{
    let mut words = words;
    if asks_names(&words) {
        let _asked = words.remove(1);
    }
    words
}
