//! Events without room for a section or a record, by which a trace is kept.
//!
//! An `Event` has room for a section or a record, so it is large. A written give of a token with one cell is kept by the place of a
//! short section, if its numbers fit 32 bits; any other written give, and a record that was read or stored, lie in a list of their own,
//! and are kept short by their place there. So is an event with a value or a round of more than 32 bits, by its place in another list.
//! All others are kept as they are.
//!
//! A short event has a kind, three small numbers and a number or a place of 32 bits: 8 bytes.
ghost use Rattle.std.specs.Prelude.{◌≡◌, ◌+◌, ◌<◌, ◌≤◌, min, [], ◌∷◌, ◌++◌, length, vec_len, vec_capacity, not, ◌||◌, is_some, IfSome, OnOk, List};
ghost use Rattle.lwkt_base.specs.declared.sections.Section.{Section};
ghost use Rattle.lwkt_core.specs.RunSections.{section_in};
ghost use Rattle.lwkt_drive.specs.Gives.{give_of};
ghost use Rattle.lwkt_drive.specs.Stretches.{StandFor};
ghost use Rattle.lwkt_drive.specs.ShortEvents.{section_of_cell, gave_cell, long_event, has_cell, is_wide_event, is_long_event, IsEventIn, HavePlaces, TakesBeside, room_beside};
ghost use Rattle.lwkt_drive.specs.declared.wide_events.WideEvent.{WideEvent};

use crate::gives::{Give, give_of};
use crate::rooms::lower;
use crate::stretches::Stretches;
use crate::wide_events::{WideEvent, is_wide, short_number};
use lwkt_base::{CpuId, MsgId, OutOfMemory, Row, Section, TokId};
use lwkt_core::Event;

/// A written section of a token with one cell, by numbers of 32 bits. The give names the token.
#[derive(Clone, Copy)]
pub struct CellSection {
    /// The cell at its beginning.
    pub before: u32,
    /// The cell that it left.
    pub after: u32,
    /// The generation at which it began.
    pub generation: u32,
}

/// An event as a short row. Most kinds are those of `Event`, with a number of 32 bits; a section or an event that doesn't fit stands in a
/// list beside the rows, and its row has the place there.
#[derive(Clone, Copy)]
pub enum ShortEvent {
    Load(CpuId, TokId),
    Take(CpuId, TokId),
    Share(CpuId, TokId),
    Again(CpuId, TokId),
    Mark(CpuId, TokId),
    GiveOne(CpuId, TokId),
    GiveClean(CpuId, TokId),
    /// A written give of a token with one cell, whose section is the one at this place.
    GaveCell(CpuId, TokId, u32),
    Read(CpuId, TokId, u8, u32),
    Write(CpuId, TokId, u8, u32),
    Send(CpuId, MsgId, CpuId, u32),
    TakeMsg(CpuId, MsgId, u32),
    DropMsg(CpuId, MsgId),
    Reply(CpuId, MsgId),
    Reap(CpuId, MsgId),
    Abort(CpuId, MsgId),
    /// The event at this place of the wide ones.
    Wide(u32),
    /// The event at this place of the long ones.
    Long(u32),
}

// The whole section of a token with one cell.
#[inline(always)]
fn whole_section(tok: TokId, short: &CellSection) -> Section
    ensures { result ≡ section_of_cell tok short.now }
{
    Section {
        before: Row::of(&[u64::from(short.before)]),
        after: Row::of(&[u64::from(short.after)]),
        generation: u64::from(short.generation),
        tok,
    }
}

// The written give of a token with one cell that has this section.
fn gave(cpu: CpuId, tok: TokId, short: &CellSection) -> Event
    ensures { result ≡ gave_cell cpu tok short.now }
{
    Event::GiveWritten {
        cpu,
        tok,
        section: whole_section(tok, short),
    }
}

// The short section of a written give, if its token has one cell and its numbers fit 32 bits.
fn short_section(event: &Event) -> Option<(CpuId, TokId, CellSection)>
    ensures same { IfSome result (λ g. gave_cell g.0 g.1 g.2 ≡ event.now) }
    ensures short { is_some result ≡ has_cell event.now }
{
    let Event::GiveWritten { cpu, tok, section } = *event else {
        return None;
    };
    if section.tok != tok {
        return None;
    }
    match (section.before.as_slice(), section.after.as_slice()) {
        ([before], [after]) => {
            let short = CellSection {
                before: short_number(*before)?,
                after: short_number(*after)?,
                generation: short_number(section.generation)?,
            };
            Some((cpu, tok, short))
        }
        _ => None,
    }
}

impl ShortEvent {
    // An event that needs no other list.
    #[inline(always)]
    fn of(event: &Event) -> Option<ShortEvent>
        ensures same { IfSome result (λ short. (cells wides longs : _) → long_event cells wides longs short ≡ event.now) }
        ensures inside { IfSome result (λ short. IsEventIn 0 0 0 short) }
        ensures short { is_some result ≡ not (has_cell event.now || is_wide_event event.now || is_long_event event.now) }
    {
        match *event {
            Event::Load { cpu, tok } => Some(ShortEvent::Load(cpu, tok)),
            Event::Take { cpu, tok } => Some(ShortEvent::Take(cpu, tok)),
            Event::Share { cpu, tok } => Some(ShortEvent::Share(cpu, tok)),
            Event::Again { cpu, tok } => Some(ShortEvent::Again(cpu, tok)),
            Event::Mark { cpu, tok } => Some(ShortEvent::Mark(cpu, tok)),
            Event::GiveOne { cpu, tok } => Some(ShortEvent::GiveOne(cpu, tok)),
            Event::GiveClean { cpu, tok } => Some(ShortEvent::GiveClean(cpu, tok)),
            Event::Read {
                cpu,
                tok,
                cell,
                value,
            } if !is_wide(value) => Some(ShortEvent::Read(cpu, tok, cell, value as u32)),
            Event::Write {
                cpu,
                tok,
                cell,
                value,
            } if !is_wide(value) => Some(ShortEvent::Write(cpu, tok, cell, value as u32)),
            Event::Send {
                cpu,
                msg,
                to,
                round,
            } if !is_wide(round) => Some(ShortEvent::Send(cpu, msg, to, round as u32)),
            Event::TakeMsg { cpu, msg, round } if !is_wide(round) => {
                Some(ShortEvent::TakeMsg(cpu, msg, round as u32))
            }
            Event::DropMsg { cpu, msg } => Some(ShortEvent::DropMsg(cpu, msg)),
            Event::Reply { cpu, msg } => Some(ShortEvent::Reply(cpu, msg)),
            Event::Reap { cpu, msg } => Some(ShortEvent::Reap(cpu, msg)),
            Event::Abort { cpu, msg } => Some(ShortEvent::Abort(cpu, msg)),
            _ => None,
        }
    }

    /// Puts the whole event behind those of a room that has room for it, where the short sections, the wide events and the long events
    /// are these. Each kind is put by itself, since only a section or a record takes all the room of an event.
    #[inline(always)]
    pub fn put(
        &self,
        cells: &[CellSection],
        wides: &[WideEvent],
        longs: &[Event],
        room: &mut Vec<Event>,
    )
        requires { vec_len room.old < vec_capacity room.old }
        ensures items { room.new.items ≡ room.old.items ++ long_event cells.now wides.now longs.now self.now ∷ [] }
        ensures len { vec_len room.new ≡ vec_len room.old + 1 }
        ensures capacity { vec_capacity room.new ≡ vec_capacity room.old }
    {
        match *self {
            ShortEvent::Load(cpu, tok) => room.push_reserved(Event::Load { cpu, tok }),
            ShortEvent::Take(cpu, tok) => room.push_reserved(Event::Take { cpu, tok }),
            ShortEvent::Share(cpu, tok) => room.push_reserved(Event::Share { cpu, tok }),
            ShortEvent::Again(cpu, tok) => room.push_reserved(Event::Again { cpu, tok }),
            ShortEvent::Mark(cpu, tok) => room.push_reserved(Event::Mark { cpu, tok }),
            ShortEvent::GiveOne(cpu, tok) => room.push_reserved(Event::GiveOne { cpu, tok }),
            ShortEvent::GiveClean(cpu, tok) => room.push_reserved(Event::GiveClean { cpu, tok }),
            ShortEvent::GaveCell(cpu, tok, place) => match cells.get(place as usize) {
                None => room.push_reserved(Event::Load { cpu, tok }),
                Some(section) => room.push_reserved(gave(cpu, tok, section)),
            },
            ShortEvent::Read(cpu, tok, cell, value) => room.push_reserved(Event::Read {
                cpu,
                tok,
                cell,
                value: u64::from(value),
            }),
            ShortEvent::Write(cpu, tok, cell, value) => room.push_reserved(Event::Write {
                cpu,
                tok,
                cell,
                value: u64::from(value),
            }),
            ShortEvent::Send(cpu, msg, to, round) => room.push_reserved(Event::Send {
                cpu,
                msg,
                to,
                round: u64::from(round),
            }),
            ShortEvent::TakeMsg(cpu, msg, round) => room.push_reserved(Event::TakeMsg {
                cpu,
                msg,
                round: u64::from(round),
            }),
            ShortEvent::DropMsg(cpu, msg) => room.push_reserved(Event::DropMsg { cpu, msg }),
            ShortEvent::Reply(cpu, msg) => room.push_reserved(Event::Reply { cpu, msg }),
            ShortEvent::Reap(cpu, msg) => room.push_reserved(Event::Reap { cpu, msg }),
            ShortEvent::Abort(cpu, msg) => room.push_reserved(Event::Abort { cpu, msg }),
            ShortEvent::Wide(place) => match wides.get(place as usize) {
                None => room.push_reserved(Event::Load {
                    cpu: CpuId(0),
                    tok: TokId(0),
                }),
                Some(wide) => wide.put(room),
            },
            ShortEvent::Long(place) => match longs.get(place as usize) {
                None => room.push_reserved(Event::Load {
                    cpu: CpuId(0),
                    tok: TokId(0),
                }),
                Some(long) => room.push_reserved(*long),
            },
        }
    }
}

impl ShortEvent {
    /// The written give that it stands for, where the short sections and the long events are these; None if it stands for another
    /// event.
    #[inline(always)]
    pub fn give(&self, cells: &[CellSection], longs: &[Event]) -> Option<Give>
        ensures { (wides : List WideEvent) → result ≡ give_of (long_event cells.now wides longs.now self.now) }
    {
        match *self {
            ShortEvent::GaveCell(cpu, tok, place) => {
                let short = cells.get(place as usize)?;
                Some(Give {
                    cpu,
                    section: whole_section(tok, short),
                })
            }
            ShortEvent::Long(place) => give_of(longs.get(place as usize)?),
            _ => None,
        }
    }
}

impl ShortEvent {
    /// Adds the section of the written give that it stands for to stretches, where the short sections and the long events are these. If
    /// it stands for another event, nothing is added.
    ///
    /// `OutOfMemory` if memory is refused.
    #[inline(always)]
    #[tactic(auto, using(crate::proofs::StretchMoves::no_more))]
    pub fn add_to(
        &self,
        cells: &[CellSection],
        longs: &[Event],
        stretches: &mut Stretches,
    ) -> Result<(), OutOfMemory>
        ensures { (wides : List WideEvent) → OnOk result ((sections : List Section) → StandFor stretches.old sections → StandFor stretches.new (sections ++ section_in (long_event cells.now wides longs.now self.now))) }
    {
        match *self {
            ShortEvent::GaveCell(_, tok, place) => match cells.get(place as usize) {
                Some(short) => stretches.add(&whole_section(tok, short)),
                None => Ok(()),
            },
            ShortEvent::Long(place) => match longs.get(place as usize) {
                Some(event) => stretches.add_event(event),
                None => Ok(()),
            },
            _ => Ok(()),
        }
    }
}

/// An event kept short: its short section if it has one, the event itself if it is wide or long, and nothing else, lies behind the others
/// then, which have room for it. Each of these lists takes at least `beside` more; that number is taken down where a list has fewer left.
#[inline(always)]
pub fn keep_event(
    cells: &mut Vec<CellSection>,
    wides: &mut Vec<WideEvent>,
    longs: &mut Vec<Event>,
    beside: &mut usize,
    event: &Event,
) -> ShortEvent
    requires { HavePlaces cells.old wides.old longs.old beside.old }
    ensures same { long_event cells.new.items wides.new.items longs.new.items result ≡ event.now }
    ensures inside { IsEventIn (length cells.new.items) (length wides.new.items) (length longs.new.items) result }
    ensures takes { TakesBeside event.now cells.old cells.new wides.old wides.new longs.old longs.new }
    ensures room { beside.new ≡ min beside.old (room_beside cells.new wides.new longs.new) }
{
    if let Some(short) = ShortEvent::of(event) {
        return short;
    }
    if let Some((cpu, tok, section)) = short_section(event) {
        let place = cells.len() as u32;
        cells.push_reserved(section);
        lower(beside, cells);
        return ShortEvent::GaveCell(cpu, tok, place);
    }
    match WideEvent::of(event) {
        Some(wide) => {
            let place = wides.len() as u32;
            wides.push_reserved(wide);
            lower(beside, wides);
            ShortEvent::Wide(place)
        }
        None => {
            let place = longs.len() as u32;
            longs.push_reserved(*event);
            lower(beside, longs);
            ShortEvent::Long(place)
        }
    }
}
