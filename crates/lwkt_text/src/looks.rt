// What the words of a sentence say, by their places.
ghost use Rattle.std.specs.Prelude.{◌≡◌, ◌≤◌, ◌+◌, length, option_and_then, IfSome, IfOk};
ghost use Rattle.lwkt_script.specs.Field.{within};
ghost use Rattle.lwkt_text.specs.Looking.{text_at, is_at, sentence_end, place_of_word, wrong_at, demand_at, ends_at, digit_added, digits, decimal_number, number_at, bytes_of, bytes_at, past_key, past, optional, is_name, name_at};

use crate::words::Word;
use crate::wrongs::{What, Wrong};
use lwkt_base::Blob;
use lwkt_script::records::blob_of;

/// The characters of word i, and none behind the last word.
pub fn text_at(words: &[Word], i: usize) -> &str
    ensures { result.now ≡ text_at words.now i }
{
    match words.get(i) {
        Some(word) => word.text.as_str(),
        None => "",
    }
}

/// Whether word i is this one.
pub fn is_at(words: &[Word], i: usize, text: &str) -> bool
    ensures { result ≡ is_at words.now i text.now }
{
    text_at(words, i) == text
}

// Where the last word ends.
fn sentence_end(words: &[Word]) -> usize
    ensures { result ≡ sentence_end words.now }
{
    match words.last() {
        Some(word) => word.end,
        None => 0,
    }
}

/// Where word i begins, or where it is missing.
pub fn place_of_word(words: &[Word], i: usize) -> usize
    ensures { result ≡ place_of_word words.now i }
{
    match words.get(i) {
        Some(word) => word.at,
        None => sentence_end(words),
    }
}

/// What is wrong with word i.
pub fn wrong_at(words: &[Word], i: usize, what: What) -> Wrong
    ensures { result ≡ wrong_at words.now i what }
{
    Wrong {
        at: place_of_word(words, i),
        what,
    }
}

/// Asks that word i passes a test.
pub fn demand_at(words: &[Word], i: usize, what: What, ok: bool) -> Result<(), Wrong>
    ensures { result ≡ demand_at words.now i what ok }
{
    if ok {
        Ok(())
    } else {
        Err(wrong_at(words, i, what))
    }
}

/// Asks that nothing stands behind word i.
pub fn ends_at(words: &[Word], i: usize) -> Result<(), Wrong>
    ensures { result ≡ ends_at words.now i }
{
    demand_at(words, i, What::Further, words.len() <= i)
}

// A number with one more digit.
fn digit_added(n: u64, byte: u8) -> Option<u64>
    ensures { result ≡ digit_added n byte }
{
    if byte < b'0' || byte > b'9' {
        return None;
    }
    n.checked_mul(10)?.checked_add((byte - b'0') as u64)
}

/// The number that decimal digits are.
pub fn decimal_number(text: &str) -> Option<u64>
    ensures { result ≡ decimal_number text.now }
{
    if text.is_empty() {
        return None;
    }
    let mut n = 0u64;
    for byte in text.as_bytes() {
        n = digit_added(n, *byte)?;
    }
    Some(n)
}

/// The number that decimal digits are, if it is within these limits.
pub fn number_within(text: &str, low: u64, high: u64) -> Option<u64>
    ensures exact { result ≡ option_and_then (within low high) (decimal_number text.now) }
    ensures limits { IfSome result (λ n. (low ≤ n) × (n ≤ high)) }
{
    match decimal_number(text) {
        Some(n) if low <= n && n <= high => Some(n),
        _ => None,
    }
}

/// Word i, a number within these limits.
pub fn number_at(words: &[Word], i: usize, low: u64, high: u64) -> Result<u64, Wrong>
    ensures exact { result ≡ number_at words.now i low high }
    ensures limits { IfOk result (λ n. (low ≤ n) × (n ≤ high)) }
{
    match number_within(text_at(words, i), low, high) {
        Some(n) => Ok(n),
        None => Err(wrong_at(words, i, What::Number { low, high })),
    }
}

// The record of at most so many bytes that a word is.
fn bytes_of(most: usize, text: &str) -> Option<Blob>
    requires { most ≤ 65 }
    ensures exact { result ≡ bytes_of most text.now }
    ensures short { IfSome result (λ blob. length blob ≤ most) }
{
    if text.is_empty() {
        return None;
    }
    if text == "-" {
        return Some(Blob::of(&[]));
    }
    blob_of(most, text.as_bytes())
}

/// Word i, a record of at most so many bytes.
pub fn bytes_at(words: &[Word], i: usize, most: usize) -> Result<Blob, Wrong>
    requires { most ≤ 65 }
    ensures exact { result ≡ bytes_at words.now i most }
    ensures short { IfOk result (λ blob. length blob ≤ most) }
{
    match bytes_of(most, text_at(words, i)) {
        Some(blob) => Ok(blob),
        None => Err(wrong_at(words, i, What::Bytes { most })),
    }
}

/// The place behind a key and its value, where word i is this key, and else i.
pub fn past_key(words: &[Word], i: usize, key: &str) -> usize
    requires { i ≤ 100000 }
    ensures exact { result ≡ past_key words.now i key.now }
    ensures most { result ≤ i + 2 }
{
    if is_at(words, i, key) { i + 2 } else { i }
}

/// The place behind a word that may stand at i.
pub fn past(words: &[Word], i: usize, text: &str) -> usize
    requires { i ≤ 10000 }
    ensures exact { result ≡ past words.now i text.now }
    ensures most { result ≤ i + 1 }
{
    if is_at(words, i, text) { i + 1 } else { i }
}

/// The value of the key that word i may be, or what stands for it.
pub fn optional(
    words: &[Word],
    i: usize,
    key: &str,
    low: u64,
    high: u64,
    default: u64,
) -> Result<u64, Wrong>
    requires few { i ≤ 100000 }
    requires least { low ≤ default }
    requires most { default ≤ high }
    ensures exact { result ≡ optional words.now i key.now low high default }
    ensures limits { IfOk result (λ n. (low ≤ n) × (n ≤ high)) }
{
    if is_at(words, i, key) {
        number_at(words, i + 1, low, high)
    } else {
        Ok(default)
    }
}

/// Whether a word is a name.
pub fn is_name(text: &str) -> bool
    ensures { result ≡ is_name text.now }
{
    match text.as_bytes() {
        [first, ..] => matches!(*first, b'A'..=b'Z' | b'a'..=b'z' | b'_'),
        [] => false,
    }
}

/// Asks that word i is a name.
pub fn name_at(words: &[Word], i: usize) -> Result<(), Wrong>
    ensures { result ≡ name_at words.now i }
{
    demand_at(words, i, What::Name, is_name(text_at(words, i)))
}
