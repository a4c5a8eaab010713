//! The words of a sentence, and the sentences of a text, by their places.
use crate::places::{part_from, part_of};
use lwkt_base::OutOfMemory;
use lwkt_base::memory::push;
use std::alloc::Global;

// What a byte is to a word.
#[derive(Clone, Copy, PartialEq, Eq)]
enum Kind {
    // It parts words and belongs to none.
    Gap,
    // It ends a sentence, or begins a comment, which does so too.
    End,
    // A letter, a digit or `_`.
    Letter,
    // A full stop or a bracket, a word of its own.
    Point,
    // Any other.
    Sign,
}

// What a byte is.
fn kind_of(byte: u8) -> Kind {
    match byte {
        b' ' | b'\t' | b'\r' | b',' | b':' => Kind::Gap,
        b'\n' | b';' | b'#' => Kind::End,
        b'0'..=b'9' | b'A'..=b'Z' | b'a'..=b'z' | b'_' => Kind::Letter,
        b'.' | b'(' | b')' | b'[' | b']' => Kind::Point,
        _ => Kind::Sign,
    }
}

// How many of these bytes stand before the first of another kind.
fn run_length(bytes: &[u8], kind: Kind) -> usize {
    match bytes.iter().position(|byte| kind_of(*byte) != kind) {
        Some(count) => count,
        None => bytes.len(),
    }
}

// How many bytes the word has that these bytes begin with, if they begin with one.
fn word_length(bytes: &[u8]) -> usize {
    let Some(first) = bytes.first() else {
        return 0;
    };
    match kind_of(*first) {
        Kind::Gap | Kind::End => 0,
        Kind::Letter => run_length(bytes, Kind::Letter),
        Kind::Point => 1,
        Kind::Sign => run_length(bytes, Kind::Sign),
    }
}

/// The word that begins at a place, at most so many bytes of it; none if no word begins there.
pub fn word_from(bytes: &[u8], at: usize, most: usize) -> &[u8] {
    let rest = part_from(bytes, at, most);
    part_of(rest, 0, word_length(rest))
}

/// The most characters of a word for which a name is proposed, and of such a name.
pub(crate) const NAME_LIMIT: usize = 64;

/// The word that begins at a place, or `?` if it is no text; of one that is too long for a name its beginning, which is too long too.
pub(crate) fn word_at(bytes: &[u8], at: usize) -> &str {
    let word = word_from(bytes, at, NAME_LIMIT.saturating_add(1));
    str::from_utf8(word).unwrap_or("?")
}

// Where the next word begins, or where the sentence ends, from a place behind a word on.
fn past_gap(bytes: &[u8], from: usize) -> usize {
    let rest = part_of(bytes, from, bytes.len());
    from.saturating_add(run_length(rest, Kind::Gap))
}

// Where the word ends that begins at a place.
fn past_word(bytes: &[u8], from: usize) -> usize {
    let rest = part_of(bytes, from, bytes.len());
    from.saturating_add(word_length(rest))
}

// Where the sentence of a place begins.
fn sentence_start(bytes: &[u8], at: usize) -> usize {
    let mut start = at;
    for byte in part_of(bytes, 0, at).iter().rev() {
        if matches!(*byte, b'\n' | b';') {
            return start;
        }
        start = start.saturating_sub(1);
    }
    start
}

/// Where word `number` of the sentence of a place begins, counted from 0, or where the sentence ends before it.
pub fn place_in_sentence(bytes: &[u8], at: usize, number: usize) -> usize {
    let mut place = past_gap(bytes, sentence_start(bytes, at));
    for _word in 0..number {
        place = past_gap(bytes, past_word(bytes, place));
    }
    place
}

/// Word `number` of the sentence of a place, as `word_at` reads it.
pub(crate) fn word_in_sentence(bytes: &[u8], at: usize, number: usize) -> &str {
    word_at(bytes, place_in_sentence(bytes, at, number))
}

// Where in a text a byte stands.
#[derive(Clone, Copy, PartialEq, Eq)]
enum Stage {
    // Before the first word of a sentence.
    Before,
    // Behind the beginning of that word.
    Inside,
    // In a comment.
    Remark,
}

// Where the byte behind this one stands.
fn stage_behind(stage: Stage, byte: u8) -> Stage {
    match byte {
        b'\n' => Stage::Before,
        _ if stage == Stage::Remark => Stage::Remark,
        b'#' => Stage::Remark,
        b';' => Stage::Before,
        _ if stage == Stage::Before && kind_of(byte) == Kind::Gap => Stage::Before,
        _ => Stage::Inside,
    }
}

/// Where the sentences of a text begin, in order.
///
/// Refused if memory is.
pub fn starts_of(alloc: Global, bytes: &[u8]) -> Result<Vec<usize>, OutOfMemory> {
    let mut starts = Vec::new(alloc);
    let mut stage = Stage::Before;
    for (at, byte) in bytes.iter().enumerate() {
        let next = stage_behind(stage, *byte);
        if stage == Stage::Before && next == Stage::Inside {
            push(&mut starts, at)?;
        }
        stage = next;
    }
    Ok(starts)
}

/// Where the sentence of a number begins, among those of a text that begin with this word; counted from 0.
pub fn sentence_at(bytes: &[u8], word: &str, number: usize) -> Option<usize> {
    let most = word.len().saturating_add(1);
    let mut stage = Stage::Before;
    let mut left = number;
    for (at, byte) in bytes.iter().enumerate() {
        if stage == Stage::Before && word_from(bytes, at, most) == word.as_bytes() {
            if left == 0 {
                return Some(at);
            }
            left = left.saturating_sub(1);
        }
        stage = stage_behind(stage, *byte);
    }
    None
}
