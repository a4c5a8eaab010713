//! Labels above turns: what was refused, whose thread ended, which message was sent. No two of them overlap.
use crate::columns::Columns;
use crate::layouts::{seat_of, width_for, zeros};
use crate::shapes::text_width;
use crate::words::show_message;
use lwkt_base::limits::CPU_LIMIT;
use lwkt_base::memory::push;
use lwkt_base::{Fault, MsgId, OutOfMemory};
use lwkt_refusals::Page;
use lwkt_text::Names;
use std::alloc::Global;

// The most lines of labels above a processor.
const LINE_LIMIT: usize = 70;

/// What a label says of a turn.
#[derive(Clone, Copy)]
pub(crate) enum Tag {
    /// By this fault a thread ended, if that is so, or what was asked was refused.
    Fault(Fault, bool),
    /// A message of a round was sent or replied to, or arrived from another band.
    Mail(MsgId, u64),
    /// A message was to be aborted.
    Abort(MsgId),
}

/// What is to stand above a turn.
#[derive(Clone, Copy)]
pub(crate) struct Tagged {
    /// The turn.
    pub turn: usize,
    /// The turn's processor, 0 to 7.
    pub cpu: usize,
    /// What is said of it.
    pub tag: Tag,
    /// Of what came to the turn from another one, that one: it is said only if that stands in another band.
    pub since: Option<usize>,
}

/// A label and where it stands: above a turn of a processor, on which line from below, and how far from the left.
#[derive(Drop)]
pub(crate) struct Label {
    /// The turn.
    pub turn: usize,
    /// The turn's processor, 0 to 7.
    pub cpu: usize,
    /// Which line above the processor's turns, from the lowest, 0 to 69.
    pub line: usize,
    /// How far from the picture's left side it begins, in pixels.
    pub x: usize,
    /// What it is of.
    pub tag: Tag,
    /// What it says.
    pub text: String,
}

/// The labels of a picture, which come by rising turn.
#[derive(Drop)]
pub(crate) struct Labels {
    // The band of the last label, and where its lines' last labels end, so many for each processor.
    band: usize,
    ends: Vec<usize>,
    /// The labels, in the order in which they were added.
    pub list: Vec<Label>,
    /// How many lines there are, 8 processors for each band.
    pub lines: Vec<usize>,
}

// Appends a message, behind a letter if it is named by its number.
fn show_mail(out: &mut Page, names: Option<&Names>, msg: MsgId) {
    if names.is_none() {
        out.add("m");
    }
    show_message(out, names, msg)
}

// What a label says, in names if some are given.
fn text_of(alloc: Global, names: Option<&Names>, tag: Tag) -> Result<String, OutOfMemory> {
    let mut out = Page::new(alloc);
    match tag {
        Tag::Fault(fault, ends) => {
            out.number(if ends { "x" } else { "!" }, u64::from(fault.number()))
        }
        Tag::Mail(msg, round) => {
            show_mail(&mut out, names, msg);
            out.number(" r", round)
        }
        Tag::Abort(msg) => {
            out.add("abort ");
            show_mail(&mut out, names, msg)
        }
    }
    out.whole()
}

// Whether what came to a turn came from another band, or from a turn that isn't shown; or nothing came.
fn is_said(columns: &Columns, tagged: &Tagged) -> bool {
    match tagged.since {
        Some(since) => {
            since < columns.span.first || columns.band(since) != columns.band(tagged.turn)
        }
        None => true,
    }
}

// Where a label begins that is so wide: where no arrow crosses it that goes up from its turn, or comes to it.
fn place_of(columns: &Columns, tagged: &Tagged, width: usize) -> usize {
    let middle = columns.middle(tagged.turn);
    match tagged.tag {
        Tag::Mail(_, _) if tagged.since.is_some() => middle.saturating_add(7),
        Tag::Mail(_, _) => middle.saturating_sub(width.saturating_add(1)),
        Tag::Fault(_, _) | Tag::Abort(_) => columns.x(tagged.turn).saturating_add(2),
    }
}

impl Labels {
    // No labels yet in so many bands.
    fn blank(alloc: Global, bands: usize) -> Result<Self, OutOfMemory> {
        Ok(Labels {
            band: 0,
            ends: zeros(alloc, CPU_LIMIT * LINE_LIMIT)?,
            list: Vec::new(alloc),
            lines: zeros(alloc, seat_of(bands, 0))?,
        })
    }

    /// The labels of turns in these columns, in names if some are given. One that finds no line is left out.
    pub(crate) fn new(
        alloc: Global,
        names: Option<&Names>,
        columns: &Columns,
        tags: &[Tagged],
    ) -> Result<Self, OutOfMemory> {
        let mut labels = Labels::blank(alloc, columns.bands())?;
        for tagged in tags {
            if is_said(columns, tagged) {
                labels.add(alloc, names, columns, *tagged)?;
            }
        }
        Ok(labels)
    }

    // The lowest line above a processor that is free from here on, which is then taken up to there.
    fn take_line(&mut self, cpu: usize, from: usize, to: usize) -> Option<usize> {
        for line in 0..LINE_LIMIT {
            let place = cpu.saturating_mul(LINE_LIMIT).saturating_add(line);
            if let Some(end) = self.ends.get_mut(place) {
                if *end <= from {
                    *end = to;
                    return Some(line);
                }
            }
        }
        None
    }

    // Begins a band, in which no line has labels yet.
    fn begin_band(&mut self, band: usize) {
        self.band = band;
        for end in self.ends.iter_mut() {
            *end = 0;
        }
    }

    // Adds a label above a turn, in names if some are given, on the lowest line where nothing is in its way.
    fn add(
        &mut self,
        alloc: Global,
        names: Option<&Names>,
        columns: &Columns,
        tagged: Tagged,
    ) -> Result<(), OutOfMemory> {
        let Tagged { turn, cpu, tag, .. } = tagged;
        let band = columns.band(turn);
        if band != self.band {
            self.begin_band(band);
        }
        let text = text_of(alloc, names, tag)?;
        let width = text_width(text.len().max(3));
        let right = width_for(columns).saturating_sub(2);
        let x = place_of(columns, &tagged, width);
        let x = x.min(right.saturating_sub(width));
        let Some(line) = self.take_line(cpu, x, x.saturating_add(width).saturating_add(4)) else {
            return Ok(());
        };
        if let Some(lines) = self.lines.get_mut(seat_of(band, cpu)) {
            *lines = line.saturating_add(1).max(*lines);
        }
        let label = Label {
            turn,
            cpu,
            line,
            x,
            tag,
            text,
        };
        push(&mut self.list, label)
    }
}
