//! Where a step of a thread of version 3 stands, which may stand in others, and what is bad of one that is well written.
use crate::formulas::{show_operators, too_many_operators};
use crate::json_parts::Part;
use crate::rows::{Kind, show_bad_row};
use crate::words::Words;
use lwkt_base::Verb;
use lwkt_base::steps::verb_written;

// In how many others a step may stand.
const AROUND_LIMIT: usize = 8;

/// A step, and what it stands in.
#[derive(Clone, Copy)]
pub(crate) struct Spot<'a> {
    pub(crate) step: Part<'a>,
    // In how many others it stands.
    around: usize,
    // For each of these a bit, of the innermost the lowest: whether it is a `times`.
    times: u32,
}

// The list of steps in a step that has one: of an `if` the first.
fn block_of<'a>(step: Part<'a>) -> Option<Part<'a>> {
    let word = step.item(0)?;
    let place = if word.is_text("loop") {
        1
    } else if word.is_text("if") || word.is_text("while") || word.is_text("times") {
        2
    } else {
        return None;
    };
    let block = step.item(place)?;
    if block.first() == b'[' {
        Some(block)
    } else {
        None
    }
}

// Whether a step is a `times`.
fn is_times(step: Part<'_>) -> bool {
    matches!(step.item(0), Some(word) if word.is_text("times"))
}

impl<'a> Spot<'a> {
    // The same place, but for what begins there.
    fn at(self, step: Part<'a>) -> Spot<'a> {
        Spot { step, ..self }
    }

    // Within a list of steps of a step, what stands behind its bracket.
    fn inside(self, step: Part<'a>, is_times: bool) -> Spot<'a> {
        Spot {
            step,
            around: self.around.saturating_add(1),
            times: self.times.wrapping_mul(2) | u32::from(is_times),
        }
    }

    // Behind such a list.
    fn outside(self, step: Part<'a>) -> Spot<'a> {
        Spot {
            step,
            around: self.around.saturating_sub(1),
            times: self.times / 2,
        }
    }

    // What stands in a step, or else behind it.
    fn behind(self) -> Spot<'a> {
        match block_of(self.step) {
            Some(block) => self.inside(block.past_first(), is_times(self.step)),
            None => self.at(self.step.past()),
        }
    }
}

// The next step in the order of reading, at most so many bytes behind one.
fn next_step<'a>(spot: Spot<'a>, most: usize) -> Option<Spot<'a>> {
    let mut here = spot.behind();
    let mut is_in_block = true;
    for _turn in 0..most {
        let next = here.step.past_first();
        match (here.step.first(), is_in_block) {
            (b',', _) => here = here.at(next),
            (b']', true) if here.around == 0 => return None,
            (b']', true) => {
                here = here.outside(next);
                is_in_block = false;
            }
            (b']', false) => {
                here = here.at(next);
                is_in_block = true;
            }
            (b'[', false) => {
                here = here.inside(next, false);
                is_in_block = true;
            }
            (_, true) => return Some(here),
            _ => return None,
        }
    }
    None
}

/// The step of a list that so many others stand before, in the order of reading.
pub(crate) fn spot_of<'a>(steps: Part<'a>, number: usize) -> Option<Spot<'a>> {
    let mut spot = Spot {
        step: steps.item(0)?,
        around: 0,
        times: 0,
    };
    for _before in 0..number {
        spot = next_step(spot, steps.len())?;
    }
    Some(spot)
}

impl Spot<'_> {
    // Appends that it stands in too many others; says whether it does.
    fn show_depth(self, out: &mut Words) -> bool {
        if self.around <= AROUND_LIMIT {
            return false;
        }
        out.quote("", self.step, "");
        out.page.say((
            " stands in ",
            self.around,
            " others, and may in ",
            AROUND_LIMIT,
        ));
        true
    }

    // Whether it is a `times` within 8 others.
    fn is_times_too_deep(self) -> bool {
        is_times(self.step) && self.times % 256 == 255
    }
}

// How many variables an object says that an answer goes to.
fn count_of_places(last: Part<'_>) -> usize {
    match last.member("to") {
        Some(to) => to.count().unwrap_or(1),
        None => 0,
    }
}

// How many numbers the answer to an ask with a word has.
fn most_places(word: Part<'_>) -> usize {
    match verb_written(word.unquoted()) {
        Some(Verb::Read | Verb::IsAborted | Verb::TryGet) => 1,
        Some(Verb::Do) => 2,
        Some(Verb::WaitPort | Verb::GetPort) => 3,
        _ => 0,
    }
}

// Appends that an answer goes to more variables than it has numbers; says whether it does.
fn show_places(out: &mut Words, step: Part<'_>) -> bool {
    let (Some(word), Some(last)) = (step.item(0), step.last()) else {
        return false;
    };
    let (count, most) = (count_of_places(last), most_places(word));
    if count <= most {
        return false;
    }
    out.point(last);
    let noun = if count == 1 {
        " variable, and may into "
    } else {
        " variables, and may into "
    };
    out.page.say((" puts its answer into ", count, noun, most));
    true
}

// Whether a part is the list of steps of one.
fn is_block_of(step: Part<'_>, part: Part<'_>) -> bool {
    matches!(block_of(step), Some(block) if block.from == part.from)
}

// Appends which part of a step before its list of steps has too many operators; says whether one has.
fn show_large(out: &mut Words, step: Part<'_>) -> bool {
    for place in 1..step.count().unwrap_or(0) {
        let Some(part) = step.item(place) else {
            return false;
        };
        if is_block_of(step, part) {
            return false;
        }
        if let Some(count) = too_many_operators(part) {
            out.page.say((" has a part ", place));
            show_operators(out, part, count);
            return true;
        }
    }
    false
}

// Appends what is bad of a step whose parts are what they have to be.
fn show_flaw(out: &mut Words, spot: Spot<'_>) {
    let step = spot.step;
    match step.item(0) {
        Some(word) if word.is_text("break") => out.page.say(" stands in no loop"),
        _ if show_large(out, step) || show_places(out, step) => {}
        _ if spot.is_times_too_deep() => out
            .page
            .say(" stands in 8 others of its kind, and may in 7"),
        _ => out.page.say(" can go round without an ask"),
    }
}

/// Appends what is bad of a step of a thread of version 3.
pub(crate) fn show_spot(out: &mut Words, spot: Spot<'_>) {
    if !spot.show_depth(out) && !show_bad_row(out, spot.step, Kind::ThirdStep) {
        show_flaw(out, spot);
    }
}
