//! What a picture has, noted turn by turn, before it is known where it stands.
use crate::boxes::Content;
use crate::columns::{Need, Span};
use crate::labels::{Tag, Tagged};
use crate::layouts::{Spot, slot_of};
use crate::replays::Replay;
use crate::shapes::Look;
use lwkt_base::limits::{CPU_LIMIT, MESSAGE_LIMIT, TOKEN_LIMIT};
use lwkt_base::memory::push;
use lwkt_base::{Mode, MsgId, OutOfMemory, TokId};
use lwkt_core::Event;
use lwkt_trace::words::{Subject, subject_of};
use std::alloc::Global;

/// The box of a turn.
#[derive(Drop)]
pub(crate) struct TurnBox {
    /// The turn, counted from 0.
    pub turn: usize,
    /// Its processor, 0 to 7.
    pub cpu: usize,
    /// What stands in it.
    pub content: Content,
    /// What it says first, but for a plus.
    pub label: String,
    /// What the thread does, where that is said below.
    pub deed: String,
    /// Whether a thread ended faulted in it.
    pub crossed: bool,
    /// The turn's line.
    pub line: String,
}

/// A token that a processor held, from turn to turn.
#[derive(Clone, Copy)]
pub(crate) struct Bar {
    /// The token, and the turn in which it was taken.
    pub spot: Spot,
    /// The last turn in which it was held.
    pub until: usize,
    /// How it was held.
    pub mode: Mode,
    references: usize,
    // The last value that was stored under it, by its place in the list of values.
    value: Option<usize>,
}

/// A value that a cell was read or stored with.
#[derive(Clone, Copy)]
pub(crate) struct Stored {
    /// The token, and the turn in which that was.
    pub spot: Spot,
    /// The token.
    pub tok: TokId,
    /// The cell, 0 to 3.
    pub cell: u8,
    /// The value.
    pub value: u64,
    /// Whether it was read, and not stored.
    pub is_read: bool,
    /// How the token was held.
    pub mode: Mode,
    /// Whether further cells were read or stored in the same turn.
    pub more: bool,
    /// The turn from which on the next value stands in the same row, or the token isn't held.
    pub until: usize,
}

/// A message or a reply that left a processor in a turn.
#[derive(Clone, Copy)]
pub(crate) struct Way {
    /// The message.
    pub msg: MsgId,
    /// The message's own round.
    pub round: u64,
    /// How its line looks.
    pub look: Look,
    /// The processor that it left, 0 to 7.
    pub cpu: usize,
    /// The turn in which it left.
    pub since: usize,
    /// The processor that it came to, and when, if it did.
    pub end: Option<(usize, usize)>,
}

/// What a picture has.
#[derive(Drop)]
pub(crate) struct Sketch {
    /// The turns that it shows.
    pub span: Span,
    /// Their boxes, and what each needs of its column.
    pub boxes: Vec<TurnBox>,
    /// The same of their columns.
    pub needs: Vec<Need>,
    /// The tokens that were held.
    pub bars: Vec<Bar>,
    /// The values that were read or stored.
    pub values: Vec<Stored>,
    /// The exclusive requests that marked a token.
    pub marks: Vec<Spot>,
    /// The messages and replies.
    pub ways: Vec<Way>,
    /// What stands above turns, by rising turn.
    pub tags: Vec<Tagged>,
    // The tokens that are held now, and the messages that are on their way.
    held: Vec<Option<Bar>>,
    away: [Option<Way>; MESSAGE_LIMIT],
}

// A cell that is read or stored, and its value then.
#[derive(Clone, Copy)]
struct Seen {
    tok: TokId,
    cell: u8,
    value: u64,
    is_read: bool,
}

// What an event reads or stores.
fn seen_by(event: &Event) -> Option<Seen> {
    match *event {
        Event::Read {
            tok,
            cell,
            value,
            ..
        } => Some(Seen {
            tok,
            cell,
            value,
            is_read: true,
        }),
        Event::Write {
            tok,
            cell,
            value,
            ..
        } => Some(Seen {
            tok,
            cell,
            value,
            is_read: false,
        }),
        _ => None,
    }
}

// A table without a bar.
fn no_bars(alloc: Global) -> Result<Vec<Option<Bar>>, OutOfMemory> {
    let mut bars = Vec::new(alloc);
    for _slot in 0..CPU_LIMIT * TOKEN_LIMIT {
        push(&mut bars, None)?;
    }
    Ok(bars)
}

// A bar with so many references.
fn with_references(bar: Bar, references: usize) -> Option<Bar> {
    if references == 0 {
        return None;
    }
    Some(Bar { references, ..bar })
}

impl Sketch {
    /// A picture of these turns in which nothing is yet.
    pub(crate) fn new(alloc: Global, span: Span) -> Result<Self, OutOfMemory> {
        let held = no_bars(alloc)?;
        Ok(Sketch {
            span,
            boxes: Vec::new(alloc),
            needs: Vec::new(alloc),
            bars: Vec::new(alloc),
            values: Vec::new(alloc),
            marks: Vec::new(alloc),
            ways: Vec::new(alloc),
            tags: Vec::new(alloc),
            held,
            away: [None; MESSAGE_LIMIT],
        })
    }

    /// Notes what stands above a turn, if that is shown.
    pub(crate) fn tag(&mut self, turn: usize, cpu: usize, tag: Tag) -> Result<(), OutOfMemory> {
        self.tag_since(turn, cpu, tag, None)
    }

    // Notes what stands above a turn, if that is shown, and where something came to it from another band.
    fn tag_since(
        &mut self,
        turn: usize,
        cpu: usize,
        tag: Tag,
        since: Option<usize>,
    ) -> Result<(), OutOfMemory> {
        if turn < self.span.first {
            return Ok(());
        }
        let tagged = Tagged {
            turn,
            cpu,
            tag,
            since,
        };
        push(&mut self.tags, tagged)
    }

    // The bar of a token that a processor holds.
    fn bar(&self, cpu: usize, tok: usize) -> Option<Bar> {
        self.held.get(slot_of(cpu, tok)).copied().unwrap_or(None)
    }

    // Notes what a processor holds of a token.
    fn set_bar(&mut self, cpu: usize, tok: usize, bar: Option<Bar>) {
        if let Some(slot) = self.held.get_mut(slot_of(cpu, tok)) {
            *slot = bar;
        }
    }

    // A processor has a reference more, from this turn on.
    fn hold(&mut self, spot: Spot, mode: Mode) {
        let bar = self.bar(spot.cpu, spot.tok).unwrap_or(Bar {
            spot,
            until: spot.turn,
            mode,
            references: 0,
            value: None,
        });
        let bar = with_references(bar, bar.references.saturating_add(1));
        self.set_bar(spot.cpu, spot.tok, bar);
    }

    // The last value under a bar.
    fn value_of(&mut self, bar: Bar) -> Option<&mut Stored> {
        self.values.get_mut(bar.value?)
    }

    // The last value that is written under a bar may reach up to this turn, and not into it.
    fn end_value(&mut self, bar: Bar, turn: usize) {
        if let Some(value) = self.value_of(bar) {
            value.until = turn;
        }
    }

    // Adds a bar that goes on until this turn, if it is shown.
    fn end_bar(&mut self, bar: Bar, until: usize) -> Result<(), OutOfMemory> {
        self.end_value(bar, until.saturating_add(1));
        if !self.span.is_shown(bar.spot.turn, until) {
            return Ok(());
        }
        push(&mut self.bars, Bar { until, ..bar })
    }

    // A processor gives back a reference in this turn; the bar ends with the last one.
    fn give(&mut self, spot: Spot) -> Result<(), OutOfMemory> {
        let Some(bar) = self.bar(spot.cpu, spot.tok) else {
            return Ok(());
        };
        let left = with_references(bar, bar.references.saturating_sub(1));
        self.set_bar(spot.cpu, spot.tok, left);
        if left.is_some() {
            return Ok(());
        }
        self.end_bar(bar, spot.turn)
    }

    // Notes that further cells are read or stored in the turn of the last value under a bar; says whether there is one, or the last
    // value stands there already.
    fn is_further(&mut self, bar: Bar, seen: Seen, turn: usize) -> bool {
        match self.value_of(bar) {
            Some(value) if value.cell == seen.cell && value.value == seen.value => true,
            Some(value) if value.spot.turn == turn => {
                value.more = true;
                true
            }
            _ => false,
        }
    }

    // Adds a value that a processor read or stored, if it is shown.
    fn see(&mut self, spot: Spot, seen: Seen) -> Result<(), OutOfMemory> {
        let Some(bar) = self.bar(spot.cpu, spot.tok) else {
            return Ok(());
        };
        if spot.turn < self.span.first || self.is_further(bar, seen, spot.turn) {
            return Ok(());
        }
        self.end_value(bar, spot.turn);
        let bar = Bar {
            value: Some(self.values.len()),
            ..bar
        };
        self.set_bar(spot.cpu, spot.tok, Some(bar));
        let stored = Stored {
            spot,
            tok: seen.tok,
            cell: seen.cell,
            value: seen.value,
            is_read: seen.is_read,
            mode: bar.mode,
            more: false,
            until: spot.turn.saturating_add(1),
        };
        push(&mut self.values, stored)
    }

    // Adds a mark, if it is shown.
    fn mark(&mut self, spot: Spot) -> Result<(), OutOfMemory> {
        if spot.turn < self.span.first {
            return Ok(());
        }
        push(&mut self.marks, spot)
    }

    // A message or a reply leaves a processor.
    fn leave(&mut self, way: Way) -> Result<(), OutOfMemory> {
        if let Some(slot) = self.away.get_mut(usize::from(way.msg.0)) {
            *slot = Some(way);
        }
        let tag = Tag::Mail(way.msg, way.round);
        self.tag(way.since, way.cpu, tag)
    }

    // The way of a message that arrives, or is taken back.
    fn take_way(&mut self, msg: MsgId) -> Option<Way> {
        self.away.get_mut(usize::from(msg.0))?.take()
    }

    // A message or a reply arrives at a processor, or is taken back.
    fn arrive(&mut self, msg: MsgId, cpu: usize, turn: usize) -> Result<(), OutOfMemory> {
        let Some(way) = self.take_way(msg) else {
            return Ok(());
        };
        if !self.span.is_shown(way.since, turn) {
            return Ok(());
        }
        self.tag_since(turn, cpu, Tag::Mail(msg, way.round), Some(way.since))?;
        let end = Some((cpu, turn));
        push(&mut self.ways, Way { end, ..way })
    }

    // Notes an event of a message.
    fn note_mail(
        &mut self,
        replay: &Replay,
        event: &Event,
        msg: MsgId,
        since: usize,
    ) -> Result<(), OutOfMemory> {
        let cpu = usize::from(event.cpu().0);
        match *event {
            Event::Send { .. } | Event::Reply { .. } => {
                let look = Look {
                    is_reply: matches!(event, Event::Reply { .. }),
                    is_urgent: replay.is_urgent(msg),
                };
                let way = Way {
                    msg,
                    round: replay.round_of(event, msg),
                    look,
                    cpu,
                    since,
                    end: None,
                };
                self.leave(way)
            }
            Event::TakeMsg { .. } | Event::Reap { .. } | Event::DropMsg { .. } => {
                self.arrive(msg, cpu, since)
            }
            Event::Abort { .. } => self.tag(since, cpu, Tag::Abort(msg)),
            _ => Ok(()),
        }
    }

    // Notes an event of a token.
    fn note_token(&mut self, event: &Event, spot: Spot) -> Result<(), OutOfMemory> {
        match *event {
            Event::Take { .. } => self.hold(spot, Mode::Exclusive),
            Event::Share { .. } | Event::Again { .. } => self.hold(spot, Mode::Shared),
            Event::Mark { .. } => return self.mark(spot),
            Event::GiveOne { .. } | Event::GiveClean { .. } | Event::GiveWritten { .. } => {
                return self.give(spot);
            }
            _ => {}
        }
        match seen_by(event) {
            Some(seen) => self.see(spot, seen),
            None => Ok(()),
        }
    }

    /// Notes an event of a turn, which has been made.
    pub(crate) fn note(
        &mut self,
        replay: &Replay,
        event: &Event,
        turn: usize,
    ) -> Result<(), OutOfMemory> {
        match subject_of(event) {
            Subject::Message(msg) => self.note_mail(replay, event, msg, turn),
            Subject::Token(tok) => {
                let cpu = usize::from(event.cpu().0);
                let tok = usize::from(tok.0);
                self.note_token(event, Spot { cpu, tok, turn })
            }
        }
    }

    // Adds what a processor still holds after the last turn.
    fn finish_bars(&mut self, cpu: usize) -> Result<(), OutOfMemory> {
        for tok in 0..TOKEN_LIMIT {
            if let Some(bar) = self.bar(cpu, tok) {
                self.end_bar(bar, self.span.last)?;
            }
        }
        Ok(())
    }

    // Adds what is still on its way behind the last turn.
    fn finish_mail(&mut self) -> Result<(), OutOfMemory> {
        for msg in 0..MESSAGE_LIMIT {
            if let Some(way) = self.away.get(msg).copied().unwrap_or(None) {
                if way.since >= self.span.first {
                    push(&mut self.ways, way)?;
                }
            }
        }
        Ok(())
    }

    /// Adds a turn's box, and says what it needs of its column.
    pub(crate) fn add_box(&mut self, turn: TurnBox, need: Need) -> Result<(), OutOfMemory> {
        push(&mut self.boxes, turn)?;
        push(&mut self.needs, need)
    }

    /// Adds what is still held and still on its way after the last turn.
    pub(crate) fn finish(&mut self) -> Result<(), OutOfMemory> {
        for cpu in 0..CPU_LIMIT {
            self.finish_bars(cpu)?;
        }
        self.finish_mail()
    }
}
