//! What is bad of a list that begins with a word and goes on with numbers and rows.
use crate::checks::{WHOLE, show_numbers};
use crate::formulas::{Formula, bad_part, show_bad_part};
use crate::json_parts::Part;
use crate::tokens::{is_record, show_no_record};
use crate::words::Words;
use lwkt_base::limits::CELL_LIMIT;
use lwkt_base::steps::verb_written;
use lwkt_base::{PartKind, VERBS};

// The most bytes of a record in a list.
const RECORD_LIMIT: usize = 65;

/// What may stand at a place of a list.
#[derive(Clone, Copy)]
pub(crate) enum Want {
    /// A whole number from 0 to this one; in version 3 any expression.
    UpTo(u64),
    /// A whole number from one to another, in version 3 too.
    Between(u64, u64),
    /// A condition.
    Condition,
    /// A list of steps.
    Steps,
    /// The flags of a send: 0 to 3, or to 7 where there is one for priority.
    Flags,
    /// A list of at most four whole numbers.
    Row,
    /// A text of two small hexadecimal digits for each byte of a record, of which there are at most 65.
    Record,
}

// The number of a token, a cell, a message, a processor or a thread.
const SMALL: Want = Want::UpTo(255);

// A number of 32 bits.
const CODE: Want = Want::UpTo(4_294_967_295);

// Any whole number.
const ANY: Want = Want::UpTo(WHOLE);

/// What may stand for a part of this kind in JSON, and how it is written in a text, in the letters of docs/LANGUAGE.md.
pub(crate) fn form_of_part(kind: PartKind) -> (&'static [Want], &'static str) {
    match kind {
        PartKind::Token => (&[SMALL], " T"),
        PartKind::Cell => (&[SMALL, SMALL], " T.C"),
        PartKind::Value => (&[ANY], " N"),
        PartKind::Record => (&[Want::Record], " BYTES"),
        PartKind::Message => (&[SMALL], " M"),
        PartKind::Target => (&[SMALL, SMALL], " -> TH"),
        PartKind::Call => (&[CODE, ANY], " [op N] [arg N]"),
        PartKind::Flags => (&[Want::Flags], " [dropable] [abortable] [priority]"),
        PartKind::Code => (&[CODE], " [ERROR"),
        PartKind::Outcome => (&[ANY], " [RESULT]]"),
    }
}

/// What a list stands for.
#[derive(Clone, Copy, PartialEq, Eq)]
pub(crate) enum Kind {
    /// A step of a script of version 1.
    Step,
    /// A step of a script of version 2.
    SecondStep,
    /// A step of a script of version 3.
    ThirdStep,
    /// An event of a trace.
    Event,
    /// The end of a message in a trace.
    End,
}

// A word that a list may begin with, the parts that may stand behind it, and what may stand behind those.
type Shape = (&'static str, &'static [PartKind], &'static [Want]);

// A processor, and a token or a message; in JSON two numbers as a token and a cell are.
const PLACE: PartKind = PartKind::Cell;

const EVENTS: [Shape; 19] = [
    ("load", &[PLACE], &[]),
    ("take", &[PLACE], &[]),
    ("share", &[PLACE], &[]),
    ("again", &[PLACE], &[]),
    ("mark", &[PLACE], &[]),
    ("give_one", &[PLACE], &[]),
    ("give_clean", &[PLACE], &[]),
    ("give_written", &[PLACE], &[]),
    (
        "give_written",
        &[PLACE, PartKind::Value],
        &[Want::Row, Want::Row],
    ),
    ("read", &[PLACE, PartKind::Token, PartKind::Value], &[]),
    ("write", &[PLACE, PartKind::Token, PartKind::Value], &[]),
    ("read_record", &[PLACE, PartKind::Record], &[]),
    ("write_record", &[PLACE, PartKind::Record], &[]),
    ("send", &[PLACE, PartKind::Token, PartKind::Value], &[]),
    ("take_msg", &[PLACE, PartKind::Value], &[]),
    ("drop", &[PLACE], &[]),
    ("reply", &[PLACE], &[]),
    ("reap", &[PLACE], &[]),
    ("abort", &[PLACE], &[]),
];

// The number of a variable.
const VARIABLE: Want = Want::Between(0, 7);

// The steps that only version 3 has.
const SENTENCES: [Shape; 9] = [
    ("set", &[], &[VARIABLE, ANY]),
    ("fault", &[], &[VARIABLE]),
    ("if", &[], &[Want::Condition, Want::Steps]),
    ("if", &[], &[Want::Condition, Want::Steps, Want::Steps]),
    ("while", &[], &[Want::Condition, Want::Steps]),
    ("times", &[], &[Want::Between(1, 1_000_000), Want::Steps]),
    ("loop", &[], &[Want::Steps]),
    ("break", &[], &[]),
    (
        "assert",
        &[],
        &[Want::Condition, Want::Between(0, 4_294_967_295)],
    ),
];

const ENDS: [Shape; 4] = [
    ("rest", &[PartKind::Token, PartKind::Value], &[]),
    ("out", &[PLACE, PartKind::Value], &[]),
    ("with", &[PLACE, PartKind::Value], &[]),
    ("back", &[PLACE, PartKind::Value], &[]),
];

// How many words of steps have their parts in the table of all versions.
const VERB_COUNT: usize = 20;

// The most shapes of a kind.
const SHAPE_LIMIT: usize = 29;

// Whether only steps of version 2 have this word.
fn is_later(word: &str) -> bool {
    matches!(verb_written(word), Some(verb) if verb.is_later())
}

impl Kind {
    // What it is called.
    fn name(self) -> &'static str {
        match self {
            Kind::Step | Kind::SecondStep | Kind::ThirdStep => "step",
            Kind::Event => "event",
            Kind::End => "end of a message",
        }
    }

    // One of the words that it may begin with, and what may stand behind it, if there are so many.
    fn shape(self, i: usize) -> Option<Shape> {
        match self {
            Kind::ThirdStep if i >= VERB_COUNT => SENTENCES.get(i - VERB_COUNT).copied(),
            Kind::Step | Kind::SecondStep | Kind::ThirdStep => match VERBS.get(i) {
                Some(verb) if verb.is_written() => Some((verb.word(), verb.kinds(), &[])),
                _ => None,
            },
            Kind::Event => EVENTS.get(i).copied(),
            Kind::End => ENDS.get(i).copied(),
        }
    }

    // Notes the word of this kind that a word is most like, among those that only steps of version 2 have or among the others.
    fn propose(self, out: &mut Words, word: Part<'_>, are_later: bool) {
        for i in 0..SHAPE_LIMIT {
            if let Some(shape) = self.shape(i) {
                if is_later(shape.0) == are_later {
                    out.propose(word, shape.0);
                }
            }
        }
    }

    // From what to what a number at a place may be, if it has to be one.
    fn range(self, want: Want) -> Option<(u64, u64)> {
        match want {
            Want::UpTo(_) if self == Kind::ThirdStep => None,
            Want::UpTo(limit) => Some((0, limit)),
            Want::Between(low, high) => Some((low, high)),
            Want::Flags if self == Kind::Step => Some((0, 3)),
            Want::Flags => Some((0, 7)),
            _ => None,
        }
    }

    // What formula has to be at a place, if it has to be one.
    fn formula(self, want: Want) -> Option<Formula> {
        match want {
            Want::UpTo(_) if self == Kind::ThirdStep => Some(Formula::Expression),
            Want::Condition => Some(Formula::Condition),
            _ => None,
        }
    }
}

// How many parts a list of a shape has.
fn count_of(shape: Shape) -> usize {
    let mut count = shape.2.len().saturating_add(1);
    for kind in shape.1 {
        count = count.saturating_add(form_of_part(*kind).0.len());
    }
    count
}

// What may stand at a place behind the word of a shape.
fn want_at(shape: Shape, place: usize) -> Option<Want> {
    let mut left = place;
    for kind in shape.1 {
        let wants = form_of_part(*kind).0;
        if let Some(want) = wants.get(left) {
            return Some(*want);
        }
        left = left.saturating_sub(wants.len());
    }
    shape.2.get(left).copied()
}

// The shape that begins with a word and has so many parts, if there is one.
fn shape_of(word: Part<'_>, count: usize, kind: Kind) -> Option<Shape> {
    for i in 0..SHAPE_LIMIT {
        let shape = kind.shape(i)?;
        if word.is_text(shape.0) && count_of(shape) == count {
            return Some(shape);
        }
    }
    None
}

// Whether a part is a list of at most so many parts as a row has cells.
fn is_short_list(part: Part<'_>) -> bool {
    matches!(part.count(), Some(count) if count <= CELL_LIMIT)
}

// Whether a part is a whole number from one to another.
fn is_between(part: Part<'_>, low: u64, high: u64) -> bool {
    matches!(part.number(), Some(number) if low <= number && number <= high)
}

// Whether a part is what is wanted.
fn fits(part: Part<'_>, want: Want, kind: Kind) -> bool {
    if let Some(formula) = kind.formula(want) {
        return bad_part(part, formula).is_none();
    }
    match want {
        Want::Row => is_short_list(part) && part.odd_item().is_none(),
        Want::Record => is_record(part, RECORD_LIMIT),
        Want::Steps => part.first() == b'[',
        _ => matches!(kind.range(want), Some((low, high)) if is_between(part, low, high)),
    }
}

// Appends what is bad of a part that isn't a row.
fn show_no_row(out: &mut Words, part: Part<'_>) {
    if is_short_list(part) {
        out.page.say(" in which ");
        show_numbers(out, part, "a cell");
    } else {
        out.page
            .say((" that is no list of at most ", CELL_LIMIT, " cells"));
    }
}

// Appends what is bad of a part that isn't the formula that it has to be.
fn show_no_formula(out: &mut Words, part: Part<'_>, formula: Formula) {
    if let Some((bad, wanted)) = bad_part(part, formula) {
        show_bad_part(out, bad, wanted);
    }
}

// Appends what is bad of the part at a place of a list, which isn't what is wanted.
fn show_unfit(out: &mut Words, part: Part<'_>, place: usize, want: Want, kind: Kind) {
    out.point(part);
    out.page.say((" has a part ", place));
    if let Some((low, high)) = kind.range(want) {
        return out
            .page
            .say((" that is no whole number ", low, " to ", high));
    }
    if let Some(formula) = kind.formula(want) {
        return show_no_formula(out, part, formula);
    }
    match want {
        Want::Row => show_no_row(out, part),
        Want::Steps => out.page.say(" that is no list of steps"),
        _ => {
            out.page.say(" that is ");
            show_no_record(out, RECORD_LIMIT);
        }
    }
}

// Appends which part of a list is bad; says whether one is.
fn show_part(out: &mut Words, list: Part<'_>, shape: Shape, kind: Kind) -> bool {
    for place in 1..count_of(shape) {
        let (Some(want), Some(part)) = (want_at(shape, place - 1), list.item(place)) else {
            return false;
        };
        if !fits(part, want, kind) {
            show_unfit(out, part, place, want, kind);
            return true;
        }
    }
    false
}

// Whether a part is a variable, or a list of one to three.
fn is_variables(part: Part<'_>) -> bool {
    let Some(count) = part.count() else {
        return is_between(part, 0, 7);
    };
    let are_variables = (0..count.min(4)).all(
        |i| matches!(part.item(i), Some(item) if is_between(item, 0, 7)),
    );
    0 < count && count < 4 && are_variables
}

// Whether a part says into which variables an answer goes.
fn is_places(part: Part<'_>) -> bool {
    part.stranger(&["to"]).is_none()
        && matches!(part.member("to"), Some(variables) if is_variables(variables))
}

// The part behind the others of a step of version 3 with a word, if it is an object, as an ask may have one.
fn places_of<'a>(list: Part<'a>, word: Part<'a>, kind: Kind) -> Option<Part<'a>> {
    let last = list.last()?;
    let is_ask = VERBS
        .iter()
        .any(|verb| verb.is_written() && word.is_text(verb.word()));
    if kind == Kind::ThirdStep && is_ask && last.first() == b'{' {
        Some(last)
    } else {
        None
    }
}

// Appends that a part doesn't say into which variables an answer goes; says whether that is so.
fn show_no_places(out: &mut Words, places: Option<Part<'_>>) -> bool {
    let Some(part) = places else {
        return false;
    };
    if is_places(part) {
        return false;
    }
    out.quote(
        " ends with ",
        part,
        ", and an answer goes to {\"to\":V} or {\"to\":[V,..]}, one to three variables 0 to 7",
    );
    true
}

// Appends how many parts a list with a word has, and how many it may have, if there is a shape with the word; says whether
// there is.
fn show_count(out: &mut Words, word: Part<'_>, count: usize, kind: Kind, behind: &str) -> bool {
    let noun = if count == 1 { " part" } else { " parts" };
    let mut is_known = false;
    for i in 0..SHAPE_LIMIT {
        if let Some(shape) = kind.shape(i) {
            if word.is_text(shape.0) {
                if is_known {
                    out.page.say(" or ");
                } else {
                    out.page.say((" has ", count, noun, behind));
                    out.page.say((shape.0, " has "));
                }
                out.page.say(count_of(shape));
                is_known = true;
            }
        }
    }
    is_known
}

// Appends that a list begins with a word that no list of its kind has.
fn show_no_word(out: &mut Words, word: Part<'_>, kind: Kind) {
    out.page.say((" has a word that no ", kind.name(), " has"));
    kind.propose(out, word, false);
    if matches!(kind, Kind::SecondStep | Kind::ThirdStep) {
        kind.propose(out, word, true);
    }
}

// The version from which on steps have a word, if those of a kind don't have it.
fn version_with(word: Part<'_>, kind: Kind) -> Option<u64> {
    if !matches!(kind, Kind::Step | Kind::SecondStep) {
        return None;
    }
    if SENTENCES.iter().any(|shape| word.is_text(shape.0)) {
        return Some(3);
    }
    let is_second = VERBS
        .iter()
        .any(|verb| verb.is_later() && word.is_text(verb.word()));
    if kind == Kind::Step && is_second {
        Some(2)
    } else {
        None
    }
}

// Appends what is bad of a list that begins with a word; says whether something is.
fn show_behind(out: &mut Words, list: Part<'_>, word: Part<'_>, kind: Kind) -> bool {
    if let Some(version) = version_with(word, kind) {
        out.page.say((" has a word that steps have from version ", version, " on"));
        return true;
    }
    let places = places_of(list, word, kind);
    let count = list.count().unwrap_or(0);
    let (count, behind) = match places {
        Some(_) => (count.saturating_sub(1), " before its variables, "),
        None => (count, ", "),
    };
    if let Some(shape) = shape_of(word, count, kind) {
        return show_part(out, list, shape, kind) || show_no_places(out, places);
    }
    if !show_count(out, word, count, kind, behind) {
        show_no_word(out, word, kind);
    }
    true
}

/// Appends a list, and what is bad of it if it is of a kind; says whether something is, as far as the list alone says.
pub(crate) fn show_bad_row(out: &mut Words, list: Part<'_>, kind: Kind) -> bool {
    out.quote("", list, "");
    match list.item(0) {
        Some(word) if word.first() == b'"' => return show_behind(out, list, word, kind),
        _ if list.first() == b'[' => out.page.say(" doesn't begin with a word"),
        _ => out.page.say(" is no list"),
    }
    true
}

/// Appends what is bad of a list of a kind.
pub(crate) fn show_row(out: &mut Words, list: Part<'_>, kind: Kind) {
    if !show_bad_row(out, list, kind) {
        out.page.say(" is refused");
    }
}
