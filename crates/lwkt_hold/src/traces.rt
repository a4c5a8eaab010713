//! Events at the end of a trace that has room. Each kind is made in a function of its own: an event has room for a section or a
//! record, which is set to 0 at the start of the function that makes it, so only then when there is such an event.
ghost use Rattle.std.specs.Prelude.{◌≡◌, ◌+◌, ◌<◌, ◌≤◌, [], ◌∷◌, ◌++◌, length, vec_len, vec_capacity};
ghost use Rattle.lwkt_hold.specs.Rows.{write_events, record_write_events};
ghost use Rattle.lwkt_core.specs.Takings.{taking};

use lwkt_base::limits::CELL_LIMIT;
use lwkt_base::{Blob, CpuId, Mode, Ref, Section, TokId};
use lwkt_core::Event;

#[inline(always)]
pub(crate) fn note(trace: &mut Vec<Event>, event: Event)
    requires { vec_len trace.old < vec_capacity trace.old }
    ensures items { trace.new.items ≡ trace.old.items ++ event ∷ [] }
    ensures longer { vec_len trace.new ≡ vec_len trace.old + 1 }
    ensures room { vec_capacity trace.old ≤ vec_capacity trace.new }
{
    trace.push_reserved(event);
}

// An exclusive reference was taken.
#[inline(always)]
fn note_take(trace: &mut Vec<Event>, cpu: CpuId, tok: TokId)
    requires { vec_len trace.old < vec_capacity trace.old }
    ensures items { trace.new.items ≡ trace.old.items ++ Event.Take cpu tok ∷ [] }
    ensures longer { vec_len trace.new ≡ vec_len trace.old + 1 }
    ensures room { vec_capacity trace.old ≤ vec_capacity trace.new }
{
    note(trace, Event::Take { cpu, tok });
}

// A shared reference was taken.
#[inline(always)]
fn note_share(trace: &mut Vec<Event>, cpu: CpuId, tok: TokId)
    requires { vec_len trace.old < vec_capacity trace.old }
    ensures items { trace.new.items ≡ trace.old.items ++ Event.Share cpu tok ∷ [] }
    ensures longer { vec_len trace.new ≡ vec_len trace.old + 1 }
    ensures room { vec_capacity trace.old ≤ vec_capacity trace.new }
{
    note(trace, Event::Share { cpu, tok });
}

/// The first reference to a token was taken.
#[inline(always)]
pub(crate) fn note_taken(trace: &mut Vec<Event>, cpu: CpuId, new: Ref)
    requires { vec_len trace.old < vec_capacity trace.old }
    ensures items { trace.new.items ≡ trace.old.items ++ taking cpu new.tok new.mode ∷ [] }
    ensures longer { vec_len trace.new ≡ vec_len trace.old + 1 }
    ensures room { vec_capacity trace.old ≤ vec_capacity trace.new }
{
    match new.mode {
        Mode::Exclusive => note_take(trace, cpu, new.tok),
        Mode::Shared => note_share(trace, cpu, new.tok),
    }
}

/// A further reference to a token was taken.
#[inline(always)]
pub(crate) fn note_again(trace: &mut Vec<Event>, cpu: CpuId, tok: TokId)
    requires { vec_len trace.old < vec_capacity trace.old }
    ensures items { trace.new.items ≡ trace.old.items ++ Event.Again cpu tok ∷ [] }
    ensures longer { vec_len trace.new ≡ vec_len trace.old + 1 }
    ensures room { vec_capacity trace.old ≤ vec_capacity trace.new }
{
    note(trace, Event::Again { cpu, tok });
}

/// A reference was given back that ends no section.
#[inline(always)]
pub(crate) fn note_one(trace: &mut Vec<Event>, cpu: CpuId, tok: TokId)
    requires { vec_len trace.old < vec_capacity trace.old }
    ensures items { trace.new.items ≡ trace.old.items ++ Event.GiveOne cpu tok ∷ [] }
    ensures longer { vec_len trace.new ≡ vec_len trace.old + 1 }
    ensures room { vec_capacity trace.old ≤ vec_capacity trace.new }
{
    note(trace, Event::GiveOne { cpu, tok });
}

/// A clean section was ended.
#[inline(always)]
pub(crate) fn note_clean(trace: &mut Vec<Event>, cpu: CpuId, tok: TokId)
    requires { vec_len trace.old < vec_capacity trace.old }
    ensures items { trace.new.items ≡ trace.old.items ++ Event.GiveClean cpu tok ∷ [] }
    ensures longer { vec_len trace.new ≡ vec_len trace.old + 1 }
    ensures room { vec_capacity trace.old ≤ vec_capacity trace.new }
{
    note(trace, Event::GiveClean { cpu, tok });
}

/// A written section was ended. The event is made of the section's parts: as a whole, it would be copied with the bytes behind
/// its token too.
#[inline(always)]
pub(crate) fn note_written(trace: &mut Vec<Event>, cpu: CpuId, tok: TokId, section: Section)
    requires { vec_len trace.old < vec_capacity trace.old }
    ensures items { trace.new.items ≡ trace.old.items ++ Event.GiveWritten cpu tok section ∷ [] }
    ensures longer { vec_len trace.new ≡ vec_len trace.old + 1 }
    ensures room { vec_capacity trace.old ≤ vec_capacity trace.new }
{
    let Section {
        before,
        after,
        generation,
        tok: ended,
    } = section;
    let section = Section {
        before,
        after,
        generation,
        tok: ended,
    };
    note(trace, Event::GiveWritten { cpu, tok, section });
}

/// A cell was read.
#[inline(always)]
pub(crate) fn note_read(trace: &mut Vec<Event>, cpu: CpuId, tok: TokId, cell: u8, value: u64)
    requires { vec_len trace.old < vec_capacity trace.old }
    ensures items { trace.new.items ≡ trace.old.items ++ Event.Read cpu tok cell value ∷ [] }
    ensures longer { vec_len trace.new ≡ vec_len trace.old + 1 }
    ensures room { vec_capacity trace.old ≤ vec_capacity trace.new }
{
    note(
        trace,
        Event::Read {
            cpu,
            tok,
            cell,
            value,
        },
    );
}

/// A value was stored in a cell.
#[inline(always)]
pub(crate) fn note_write(trace: &mut Vec<Event>, cpu: CpuId, tok: TokId, cell: u8, value: u64)
    requires { vec_len trace.old < vec_capacity trace.old }
    ensures items { trace.new.items ≡ trace.old.items ++ Event.Write cpu tok cell value ∷ [] }
    ensures longer { vec_len trace.new ≡ vec_len trace.old + 1 }
    ensures room { vec_capacity trace.old ≤ vec_capacity trace.new }
{
    note(
        trace,
        Event::Write {
            cpu,
            tok,
            cell,
            value,
        },
    );
}

/// A record was read.
#[inline(always)]
pub(crate) fn note_record_read(trace: &mut Vec<Event>, cpu: CpuId, tok: TokId, blob: &Blob)
    requires { vec_len trace.old < vec_capacity trace.old }
    ensures items { trace.new.items ≡ trace.old.items ++ Event.ReadBlob cpu tok blob.now ∷ [] }
    ensures longer { vec_len trace.new ≡ vec_len trace.old + 1 }
    ensures room { vec_capacity trace.old ≤ vec_capacity trace.new }
{
    note(
        trace,
        Event::ReadBlob {
            cpu,
            tok,
            blob: *blob,
        },
    );
}

/// A record was written.
#[inline(always)]
pub(crate) fn note_record_written(trace: &mut Vec<Event>, cpu: CpuId, tok: TokId, blob: &Blob)
    requires { vec_len trace.old < vec_capacity trace.old }
    ensures items { trace.new.items ≡ trace.old.items ++ Event.WriteBlob cpu tok blob.now ∷ [] }
    ensures longer { vec_len trace.new ≡ vec_len trace.old + 1 }
    ensures room { vec_capacity trace.old ≤ vec_capacity trace.new }
{
    note(
        trace,
        Event::WriteBlob {
            cpu,
            tok,
            blob: *blob,
        },
    );
}

fn note_cell(trace: &mut Vec<Event>, cpu: CpuId, tok: TokId, cell: u8, value: Option<u64>)
    requires { vec_len trace.old < vec_capacity trace.old }
    ensures items { trace.new.items ≡ trace.old.items ++ write_events cpu tok cell (value ∷ []) }
    ensures longer { vec_len trace.new ≡ vec_len trace.old + length (write_events cpu tok cell (value ∷ [])) }
    ensures few { length (write_events cpu tok cell (value ∷ [])) ≤ 1 }
    ensures room { vec_capacity trace.old ≤ vec_capacity trace.new }
{
    if let Some(value) = value {
        note_write(trace, cpu, tok, cell, value);
    }
}

/// The stores of these values in the cells of a token, rising.
pub(crate) fn note_cells(trace: &mut Vec<Event>, cpu: CpuId, tok: TokId, values: &[Option<u64>; 4])
    requires four { length values.now ≡ CELL_LIMIT }
    requires room { vec_len trace.old + CELL_LIMIT ≤ vec_capacity trace.old }
    ensures items { trace.new.items ≡ trace.old.items ++ write_events cpu tok 0 values.now }
    ensures longer { vec_len trace.new ≡ vec_len trace.old + length (write_events cpu tok 0 values.now) }
    ensures few { length (write_events cpu tok 0 values.now) ≤ CELL_LIMIT }
    ensures room { vec_capacity trace.old ≤ vec_capacity trace.new }
{
    note_cell(trace, cpu, tok, 0, values[0]);
    note_cell(trace, cpu, tok, 1, values[1]);
    note_cell(trace, cpu, tok, 2, values[2]);
    note_cell(trace, cpu, tok, 3, values[3]);
}

/// The store of this record of a token, if one was stored.
pub(crate) fn note_record(trace: &mut Vec<Event>, cpu: CpuId, tok: TokId, stored: Option<Blob>)
    requires { vec_len trace.old < vec_capacity trace.old }
    ensures items { trace.new.items ≡ trace.old.items ++ record_write_events cpu tok stored }
    ensures longer { vec_len trace.new ≡ vec_len trace.old + length (record_write_events cpu tok stored) }
    ensures few { length (record_write_events cpu tok stored) ≤ 1 }
    ensures room { vec_capacity trace.old ≤ vec_capacity trace.new }
{
    if let Some(blob) = stored {
        note_record_written(trace, cpu, tok, &blob);
    }
}
