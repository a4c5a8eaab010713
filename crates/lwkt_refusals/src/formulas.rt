//! What is bad of an expression or a condition.
use crate::json_parts::Part;
use crate::words::Words;

// The most operators of an expression or a condition.
const OPERATOR_LIMIT: usize = 16;

// What a list begins with that is an expression.
const OPERATORS: [&str; 5] = ["+", "-", "*", "/", "%"];

// What a list begins with that is a condition on two expressions.
const COMPARISONS: [&str; 6] = ["=", "!=", "<", "<=", ">", ">="];

/// What a part has to be.
#[derive(Clone, Copy, PartialEq, Eq)]
pub(crate) enum Formula {
    /// An expression.
    Expression,
    /// A condition.
    Condition,
}

// Whether a part is one of these texts.
fn is_one_of(part: Part<'_>, words: &[&'static str]) -> bool {
    words.iter().any(|word| part.is_text(word))
}

// Whether a part is a list that begins with one of these words and has so many items.
fn begins_with(part: Part<'_>, words: &[&'static str], count: usize) -> bool {
    part.count() == Some(count) && matches!(part.item(0), Some(word) if is_one_of(word, words))
}

// Whether a part is a number or a variable.
fn is_leaf(part: Part<'_>) -> bool {
    part.number().is_some() || is_one_of(part, &["v0", "v1", "v2", "v3", "v4", "v5", "v6", "v7"])
}

impl Formula {
    // Whether a part is one as far as its word and the number of its items say.
    fn begins(self, part: Part<'_>) -> bool {
        match self {
            Formula::Expression => is_leaf(part) || begins_with(part, &OPERATORS, 3),
            Formula::Condition => begins_with(part, &COMPARISONS, 3)
                || begins_with(part, &["and", "or"], 3)
                || begins_with(part, &["not"], 2),
        }
    }

    // What the items of such a list have to be.
    fn of_items(list: Part<'_>) -> Formula {
        match list.item(0) {
            Some(word) if is_one_of(word, &["and", "or", "not"]) => Formula::Condition,
            _ => Formula::Expression,
        }
    }

    // What it is called, and how it is written.
    fn words(self) -> (&'static str, &'static str) {
        match self {
            Formula::Expression => (
                "expression",
                "a whole number 0 to 18446744073709551615, \"v0\" to \"v7\", or [\"+\",E,E] or one with - * / %",
            ),
            Formula::Condition => (
                "condition",
                "[\"<\",E,E] or one with = != <= > >=, [\"and\",C,C], [\"or\",C,C] or [\"not\",C]",
            ),
        }
    }
}

// The first item of a list of a formula that isn't what it has to be.
fn bad_item<'a>(list: Part<'a>, wanted: Formula) -> Option<Part<'a>> {
    let mut next = list.behind(list.item(0)?);
    for _turn in 0..OPERATOR_LIMIT {
        let item = next?;
        if !wanted.begins(item) {
            return Some(item);
        }
        next = list.behind(item);
    }
    None
}

// The part behind one within a formula, in the order of reading.
fn next_in<'a>(part: Part<'a>) -> Part<'a> {
    match part.first() {
        b'[' | b']' | b',' => part.past_first(),
        _ => part.past(),
    }
}

/// The first part of a formula that isn't what it has to be, and what that is.
pub(crate) fn bad_part<'a>(part: Part<'a>, wanted: Formula) -> Option<(Part<'a>, Formula)> {
    if !wanted.begins(part) {
        return Some((part, wanted));
    }
    let mut here = part;
    for _turn in 0..part.len() {
        if here.first() == b'[' {
            let inner = Formula::of_items(here);
            if let Some(item) = bad_item(here, inner) {
                return Some((item, inner));
            }
        }
        here = next_in(here);
        if !part.holds(here) {
            break;
        }
    }
    None
}

/// How many operators a formula has, if it has too many.
pub(crate) fn too_many_operators(part: Part<'_>) -> Option<usize> {
    let mut count = 0usize;
    let mut here = part;
    for _turn in 0..part.len() {
        if here.first() == b'[' {
            count = count.saturating_add(1);
        }
        here = next_in(here);
        if !part.holds(here) {
            break;
        }
    }
    if count > OPERATOR_LIMIT {
        Some(count)
    } else {
        None
    }
}

/// Appends that a part of a formula isn't what it has to be.
pub(crate) fn show_bad_part(out: &mut Words, part: Part<'_>, wanted: Formula) {
    let (name, form) = wanted.words();
    out.quote(" in which ", part, "");
    out.page.say((" is no ", name, ": that is ", form));
}

/// Appends how many operators a formula has, of which it has too many.
pub(crate) fn show_operators(out: &mut Words, part: Part<'_>, count: usize) {
    out.point(part);
    out.page.say((
        " with ",
        count,
        " operators, and one expression or condition may have ",
        OPERATOR_LIMIT,
    ));
}
