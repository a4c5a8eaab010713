//! How a token breaks its law, and why the opening of a text is refused.
use crate::json_parts::Part;
use crate::pages::Page;
use crate::sentences::{place_in_sentence, sentence_at};
use crate::words::Words;
use lwkt_base::blobs::length_of;
use lwkt_base::{Law, TokSpec};
use lwkt_text::Names;
use std::alloc::Global;

/// Appends how cells break a law: `cells 9 5 do not add up to 10`.
pub fn show_breach(out: &mut Page, law: Law, param: u64, cells: &[u64]) {
    out.say("cells");
    out.numbers(cells);
    match law {
        Law::Any => out.say(" obey every law"),
        Law::Sum => out.say((" do not add up to ", param)),
        Law::Order => out.say(" are not in rising order"),
        Law::Cap => out.say((" are not all at most ", param)),
        Law::Tally => out.say((" are not the one cell ", param)),
        Law::Len => out.say(" do not begin with the length of the record"),
    }
}

// Appends how the opening of a token breaks its law, with the length of its record where the law asks for it:
// `cells 3 do not begin with the length of the record, which has 2 bytes`.
fn show_opening_breach(out: &mut Page, spec: &TokSpec) {
    show_breach(out, spec.law, spec.param, spec.cells.as_slice());
    if spec.law == Law::Len {
        if let Some(length) = length_of(&spec.blob) {
            let noun = if length == 1 { " byte" } else { " bytes" };
            out.say((", which has ", length, noun));
        }
    }
}

// Whether the cells of a token obey its law.
fn is_lawful(spec: &TokSpec) -> bool {
    spec.law
        .holds(spec.cells.as_slice(), spec.param, length_of(&spec.blob))
}

// Where the token of a number is in a list in JSON, or its name in a text.
fn place_of(bytes: &[u8], names: Option<&Names>, number: usize) -> usize {
    if names.is_none() {
        let tokens = Part::whole(bytes).member("tokens");
        let item = tokens.and_then(|tokens| tokens.item(number));
        return item.map_or(0, |item| item.from);
    }
    match sentence_at(bytes, "token", number) {
        Some(at) => place_in_sentence(bytes, at, 1),
        None => 0,
    }
}

// What is said of a token whose opening breaks its law.
fn breach_of(
    alloc: Global,
    bytes: &[u8],
    names: Option<&Names>,
    number: usize,
    spec: &TokSpec,
) -> Words {
    let mut words = Words::new(alloc);
    words.place = place_of(bytes, names, number);
    words.page.say("the opening of token ");
    match names {
        Some(names) => {
            let name = names.tokens.as_slice().get(number);
            words.page.say(name.map_or("", |name| name.as_str()));
        }
        None => words.page.say(number),
    }
    words.page.say(": ");
    show_opening_breach(&mut words.page, spec);
    words
}

/// What is said of the first token whose opening breaks its law, if there is one; of a text, which gives names, by its name.
pub(crate) fn breach_in(
    alloc: Global,
    bytes: &[u8],
    tokens: &[TokSpec],
    names: Option<&Names>,
) -> Option<Words> {
    for (number, spec) in tokens.iter().enumerate() {
        if !is_lawful(spec) {
            return Some(breach_of(alloc, bytes, names, number, spec));
        }
    }
    None
}
