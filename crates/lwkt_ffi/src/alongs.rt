//! Arguments that ask for a run along an order, shown.
ghost use Rattle.std.specs.Prelude.{◌≡◌, ◌≤◌, ◌∷◌, ◌++◌, false, ℕ, List, IfOk, IfSome, IsSomeAnd, OnOk, codes, map, string_bytes};
ghost use Rattle.std.specs.List.{list_all};
ghost use Rattle.lwkt_show.specs.declared.options.Counted.TheVariants.{Turns};
ghost use Rattle.lwkt_show.specs.declared.options.Options.{Options};
ghost use Rattle.lwkt_ffi.specs.Arguments.{Say, has_range, no_end};
ghost use Rattle.lwkt_ffi.specs.Alongs.{is_digit, is_part, turn_of_byte, turns_of, AreAlong};

use crate::arguments::read_options;
use lwkt_base::OutOfMemory;
use lwkt_base::memory::push;
use lwkt_show::{Counted, Options};
use std::alloc::Global;

/// An order of turns, and how the run along it is shown.
#[derive(Drop)]
pub struct Along {
    /// How the run is shown. Its range counts turns.
    pub options: Options,
    /// The processor of each turn, 0 to 9: whether it is there isn't asked.
    pub order: Vec<u8>,
}

// Whether a byte is a digit.
fn is_digit(byte: u8) -> bool
    ensures { result ≡ is_digit byte }
{
    b'0' <= byte && byte <= b'9'
}

// Whether a byte may stand in the text of an order: a digit, or a blank, a comma or a dash.
fn is_part(byte: u8) -> bool
    ensures { result ≡ is_part byte }
{
    is_digit(byte) || byte == b' ' || byte == b',' || byte == b'-'
}

// Whether bytes are the text of an order.
fn are_parts(bytes: &[u8]) -> bool
    ensures { result ≡ list_all is_part bytes.now }
{
    bytes.iter().all(|byte| is_part(*byte))
}

// Appends the turn that a byte names, if it names one.
fn add_turn(order: &mut Vec<u8>, byte: u8) -> Result<(), OutOfMemory>
    ensures { OnOk result (order.new.items ≡ order.old.items ++ turn_of_byte byte) }
{
    if is_digit(byte) {
        push(order, byte - b'0')?;
    }
    Ok(())
}

// The order that the bytes of a text are.
fn turns_of(alloc: Global, bytes: &[u8]) -> Result<Vec<u8>, OutOfMemory>
    ensures { IfOk result (λ order. order.items ≡ turns_of bytes.now) }
{
    let mut order = Vec::new(alloc);
    for byte in bytes {
        add_turn(&mut order, *byte)?;
    }
    Ok(order)
}

// The text behind `turns --order`, and the words behind it.
fn text_of(words: &[String]) -> Option<(&str, &[String])>
    ensures some { IfSome result (λ found. map string_bytes words.now ≡ codes "turns" ∷ codes "--order" ∷ found.0.now ∷ map string_bytes found.1.now) }
    ensures only { (text : List ℕ) (behind : List (List ℕ)) → map string_bytes words.now ≡ codes "turns" ∷ codes "--order" ∷ text ∷ behind → IsSomeAnd result (λ found. (found.0.now ≡ text) × (map string_bytes found.1.now ≡ behind)) }
{
    let (mode, rest) = words.split_first()?;
    let (word, rest) = rest.split_first()?;
    let (text, rest) = rest.split_first()?;
    if mode.as_str() != "turns" || word.as_str() != "--order" {
        return None;
    }
    Some((text.as_str(), rest))
}

// What the words behind an order say of its turns.
fn options_behind(words: &[String]) -> Option<Options>
    ensures some { IfSome result (λ options. Say (map string_bytes words.now) options × (options.first ≤ options.last) × (has_range options.rendering ≡ false → (options.first ≡ 0) × (options.last ≡ no_end)) × (options.counted ≡ Turns)) }
    ensures only { (options : Options) → Say (map string_bytes words.now) options → options.first ≤ options.last → (has_range options.rendering ≡ false → (options.first ≡ 0) × (options.last ≡ no_end)) → options.counted ≡ Turns → result ≡ Some options }
{
    let options = read_options(words)?;
    match options.counted {
        Counted::Turns => Some(options),
        Counted::Rounds => None,
    }
}

// The text of an order that the arguments name, and what they say of its turns.
fn asked(words: &[String]) -> Option<(&str, Options)>
    ensures some { IfSome result (λ found. AreAlong (map string_bytes words.now) found.1 (turns_of found.0.now)) }
    ensures only { (options : Options) (order : List ℕ) → AreAlong (map string_bytes words.now) options order → IsSomeAnd result (λ found. (found.1 ≡ options) × (turns_of found.0.now ≡ order)) }
{
    let (text, rest) = text_of(words)?;
    let options = options_behind(rest)?;
    if !are_parts(text.as_bytes()) {
        return None;
    }
    Some((text, options))
}

/// The order that the arguments name, and what they say of its turns: `turns`, `--order` and a text, and then what may stand after
/// `turns` alone, but no rounds. Each digit of the text is the processor of a turn; blanks, commas and dashes may part them. `None`
/// if the arguments name no order.
///
/// Refused if memory is.
pub fn along_of(alloc: Global, words: &[String]) -> Result<Option<Along>, OutOfMemory>
    ensures some { IfOk result (λ found. IfSome found (λ along. AreAlong (map string_bytes words.now) along.options along.order.items)) }
    ensures only { IfOk result (λ found. (options : Options) (order : List ℕ) → AreAlong (map string_bytes words.now) options order → IsSomeAnd found (λ along. (along.options ≡ options) × (along.order.items ≡ order))) }
{
    let Some((text, options)) = asked(words) else {
        return Ok(None);
    };
    let order = turns_of(alloc, text.as_bytes())?;
    Ok(Some(Along { options, order }))
}
