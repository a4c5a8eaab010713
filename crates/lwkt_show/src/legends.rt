//! What the parts of a picture mean, of those that it has.
use crate::boxes::{Below, Content, Kind, Labelled, show_box, width_for};
use crate::columns::Column;
use crate::drawings::show_stored;
use crate::labels::{Label, Tag};
use crate::shapes::{
    BOLD, Look, Point, digits, show_bar, show_flag, show_label, show_line, show_ring, show_text_at,
    show_word, text_width,
};
use crate::sketches::{Bar, Sketch, Stored, TurnBox, Way};
use lwkt_base::{Fault, Mode};
use lwkt_refusals::Page;
use lwkt_text::Names;
use std::alloc::Global;

// How high a line of the legend is, and what stands between two of its parts.
const LINE: usize = 24;

const GAP: usize = 14;

// How far below the top of a line its words stand.
const BASE: usize = 14;

// How wide the sign of a line or a bar is.
const SIGN: usize = 24;

// The most letters of a value on a bar.
const VALUE_LETTERS: usize = 12;

// The most letters of a fault's text, and the most faults that are shown.
const FAULT_LETTERS: usize = 40;

const FAULT_LIMIT: usize = 12;

// A legend as far as it is made, and where its next part stands.
#[derive(Drop)]
struct Legend {
    page: Page,
    at: Point,
    width: usize,
}

impl Legend {
    // Where the next sign stands that is so wide, and behind which so many letters stand; on a new line if there is no room.
    fn next(&mut self, sign: usize, letters: usize) -> Point {
        let room = sign.saturating_add(text_width(letters)).saturating_add(4);
        if self.at.x > 4 && self.at.x.saturating_add(room) > self.width {
            self.at = Point {
                x: 4,
                y: self.at.y.saturating_add(LINE),
            };
        }
        let at = self.at;
        self.at = at.by(room.saturating_add(GAP), 0);
        at
    }

    // Appends a meaning behind a sign that is so wide.
    fn mean(&mut self, at: Point, sign: usize, meaning: &str) {
        let at = at.by(sign.saturating_add(4), BASE);
        show_word(&mut self.page, at, meaning);
        self.page.add("\n");
    }

    // Appends a box and its meaning.
    fn add_box(&mut self, shown: Labelled<'_>, meaning: &str) {
        let at = self.next(shown.width, meaning.len());
        show_box(&mut self.page, at, shown, false);
        self.mean(at, shown.width, meaning);
    }

    // Appends the sign of a bar and its meaning.
    fn add_bar(&mut self, tok: usize, mode: Mode, meaning: &str) {
        let at = self.next(SIGN, meaning.len());
        show_bar(&mut self.page, at.by(0, 3), SIGN, 14, tok, mode);
        self.mean(at, SIGN, meaning);
    }

    // Appends a value on a bar, and the meaning of values.
    fn add_value(&mut self, names: Option<&Names>, stored: &Stored) {
        let meaning = "a cell and its value, read or written";
        let sign = text_width(VALUE_LETTERS).saturating_add(8);
        let at = self.next(sign, meaning.len());
        let tok = stored.spot.tok;
        show_bar(&mut self.page, at.by(0, 3), sign, 14, tok, stored.mode);
        show_stored(&mut self.page, names, at.by(4, 14), stored, VALUE_LETTERS);
        self.mean(at, sign, meaning);
    }

    // Appends the flag of marks, and its meaning.
    fn add_flag(&mut self) {
        let meaning = "marked by this processor, which wants it exclusively";
        let at = self.next(SIGN / 2, meaning.len());
        show_flag(&mut self.page, at.by(1, 3));
        self.page.add("/>");
        self.mean(at, SIGN / 2, meaning);
    }

    // Appends the sign of a message's line, and its meaning.
    fn add_line(&mut self, is_reply: bool, is_urgent: bool, meaning: &str) {
        let at = self.next(SIGN, meaning.len());
        let look = Look {
            is_reply,
            is_urgent,
        };
        show_line(&mut self.page, at.by(0, 10), at.by(SIGN, 10), look, true);
        self.mean(at, SIGN, meaning);
    }

    // Appends the ring of messages that weren't taken, and its meaning.
    fn add_ring(&mut self) {
        let meaning = "not taken";
        let at = self.next(SIGN / 2, meaning.len());
        show_ring(&mut self.page, at.by(4, 2));
        self.mean(at, SIGN / 2, meaning);
    }

    // Appends a word and its meaning.
    fn add_word(&mut self, word: &str, meaning: &str) {
        let sign = text_width(word.len());
        let at = self.next(sign, meaning.len());
        show_word(&mut self.page, at.by(0, BASE), word);
        self.mean(at, sign, meaning);
    }

    // Appends how many rounds share a column, and what that means.
    fn add_rounds(&mut self, rounds: usize) {
        let meaning = "so many times nothing changes";
        let sign = text_width(digits(rounds as u64).saturating_add(1));
        let at = self.next(sign, meaning.len());
        show_label(&mut self.page, at.by(0, BASE), "", "&#215;", rounds);
        self.mean(at, sign, meaning);
    }

    // Appends a fault by its number, behind a sign, and its text.
    fn add_fault(&mut self, sign: &str, fault: Fault) {
        let at = self.next(SIGN, FAULT_LETTERS);
        let number = usize::from(fault.number());
        show_label(&mut self.page, at.by(0, BASE), BOLD, sign, number);
        show_text_at(&mut self.page, at.by(SIGN + 4, BASE), "");
        self.page.fault("", fault);
        self.page.add("</text>\n");
    }
}

// The first box that shows this; without a kind the first that shows further threads.
fn first_box(boxes: &[TurnBox], kind: Option<Kind>) -> Option<&TurnBox> {
    for turn in boxes {
        let is_it = match kind {
            Some(kind) => turn.content.kind == kind,
            None => turn.content.more,
        };
        if is_it {
            return Some(turn);
        }
    }
    None
}

// Appends what a kind of boxes means, where there is one.
fn add_kind(legend: &mut Legend, sketch: &Sketch, kind: Option<Kind>, meaning: &str) {
    if let Some(turn) = first_box(&sketch.boxes, kind) {
        let content = Content {
            more: kind.is_none(),
            ..turn.content
        };
        let label = turn.label.as_str();
        let shown = Labelled {
            content,
            label,
            below: Below::Nothing,
            width: width_for(content, label, Below::Nothing, false),
            height: 20,
        };
        legend.add_box(shown, meaning);
    }
}

// Whether the first box of a thread that runs says what it does below the thread.
fn has_deeds(boxes: &[TurnBox]) -> bool {
    match first_box(boxes, Some(Kind::Thread)) {
        Some(turn) => !turn.deed.is_empty(),
        None => false,
    }
}

// Appends what boxes mean.
fn add_boxes(legend: &mut Legend, sketch: &Sketch) {
    let reply = "none runs: one waits for the reply to this message";
    let runs = if has_deeds(&sketch.boxes) {
        "this thread runs, and does what stands below"
    } else {
        "what the thread does: = writes, + adds"
    };
    add_kind(legend, sketch, Some(Kind::Thread), runs);
    add_kind(
        legend,
        sketch,
        Some(Kind::Token),
        "none runs: one waits for this token",
    );
    add_kind(legend, sketch, Some(Kind::Reply), reply);
    add_kind(
        legend,
        sketch,
        Some(Kind::Port),
        "none runs: one waits for its port",
    );
    add_kind(legend, sketch, Some(Kind::Ready), "none runs: one is ready");
    add_kind(legend, sketch, None, "and others wait for something else");
    add_kind(legend, sketch, Some(Kind::Empty), "no thread is left");
}

// Appends what the number of rounds means that share a column, where some do.
fn add_folds(legend: &mut Legend, columns: &[Column]) {
    for column in columns {
        if column.rounds > 1 {
            return legend.add_rounds(column.rounds);
        }
    }
}

// Appends what the bars of a mode mean, where there is one.
fn add_bars(legend: &mut Legend, bars: &[Bar], mode: Mode, meaning: &str) {
    for bar in bars {
        if bar.mode == mode {
            return legend.add_bar(bar.spot.tok, mode, meaning);
        }
    }
}

// Appends what stands in the rows of tokens.
fn add_rows(legend: &mut Legend, names: Option<&Names>, sketch: &Sketch) {
    add_bars(legend, &sketch.bars, Mode::Exclusive, "held exclusively");
    add_bars(legend, &sketch.bars, Mode::Shared, "held shared");
    if let Some(stored) = sketch.values.first() {
        legend.add_value(names, stored);
    }
    if !sketch.marks.is_empty() {
        legend.add_flag();
    }
}

// Which lines of messages a picture has.
#[derive(Clone, Copy)]
struct Seen {
    sent: bool,
    urgent: bool,
    reply: bool,
    lost: bool,
}

// The lines of messages of a picture.
fn seen_ways(ways: &[Way]) -> Seen {
    let mut seen = Seen {
        sent: false,
        urgent: false,
        reply: false,
        lost: false,
    };
    for way in ways {
        let arrives = way.end.is_some();
        seen = Seen {
            sent: seen.sent || (arrives && !way.look.is_reply),
            urgent: seen.urgent || (arrives && way.look.is_urgent),
            reply: seen.reply || (arrives && way.look.is_reply),
            lost: seen.lost || !arrives,
        };
    }
    seen
}

// Appends what the lines of messages mean.
fn add_ways(legend: &mut Legend, names: Option<&Names>, ways: &[Way]) {
    let seen = seen_ways(ways);
    if !ways.is_empty() && names.is_some() {
        legend.add_word("m r1", "message m, in its round 1");
    } else if !ways.is_empty() {
        legend.add_word("m0 r1", "message 0, in its round 1");
    }
    if seen.sent {
        legend.add_line(false, false, "from its sending to its taking");
    }
    if seen.reply {
        legend.add_line(true, false, "its reply");
    }
    if seen.urgent {
        let meaning = "sent with priority, or the reply to such a message";
        legend.add_line(false, true, meaning);
    }
    if seen.lost {
        legend.add_ring();
    }
}

// The fault that a label shows, of a thread's end or of a refusal.
fn fault_of(label: &Label, ends: bool) -> Option<Fault> {
    match label.tag {
        Tag::Fault(fault, is_end) if is_end == ends => Some(fault),
        _ => None,
    }
}

// Notes a fault in a list without it that has room; says whether it was noted.
fn note_fault(noted: &mut [Option<Fault>; FAULT_LIMIT], fault: Fault) -> bool {
    for slot in noted.iter_mut() {
        let found = *slot;
        let Some(old) = found else {
            *slot = Some(fault);
            return true;
        };
        if old.number() == fault.number() {
            return false;
        }
    }
    false
}

// Appends the faults of refusals or of threads' ends, each one once, behind the meaning of their sign.
fn add_faults(legend: &mut Legend, labels: &[Label], ends: bool, sign: &str, meaning: &str) {
    let mut noted = [None; FAULT_LIMIT];
    let mut some = false;
    for label in labels {
        if let Some(fault) = fault_of(label, ends) {
            if !some {
                legend.add_word(sign, meaning);
                some = true;
            }
            if note_fault(&mut noted, fault) {
                legend.add_fault(sign, fault);
            }
        }
    }
}

/// What the parts of a picture mean that it has, in names if some are given, from this height on, so wide; and where it ends.
pub(crate) fn legend_of(
    alloc: Global,
    names: Option<&Names>,
    sketch: &Sketch,
    columns: &[Column],
    labels: &[Label],
    y: usize,
    width: usize,
) -> (Page, usize) {
    let mut legend = Legend {
        page: Page::new(alloc),
        at: Point { x: 4, y },
        width,
    };
    add_boxes(&mut legend, sketch);
    add_folds(&mut legend, columns);
    add_rows(&mut legend, names, sketch);
    add_ways(&mut legend, names, &sketch.ways);
    add_faults(
        &mut legend,
        labels,
        false,
        "!",
        "what was asked was refused:",
    );
    add_faults(&mut legend, labels, true, "x", "a thread ended:");
    let end = legend.at.y.saturating_add(LINE);
    (legend.page, end)
}
