ghost use Rattle.std.specs.Prelude.{◌≡◌, ◌≤◌, ◌↔◌, ◌+◌, ◌==◌, IsTrue, length, slice_get, None, Some};
ghost use Rattle.lwkt_base.specs.declared.holdings.Held.TheVariants.{Holds};
ghost use Rattle.lwkt_base.specs.declared.names.Mode.TheVariants.{Exclusive};
ghost use Rattle.lwkt_verdict.specs.Owns.{can_break, MayEndBroken, MayStoreFirst, MayPutFirst, IsQuiet, is_read, is_write, is_record_read, is_record_write, is_raise, is_send_of, is_reply_of, is_abort_of, is_drop_of, is_own, is_send, first_send, own_place, ends_taking, has_blocked};

use crate::asks::is_do;
use lwkt_base::blobs::same_bytes;
use lwkt_base::{Ask, Blob, CpuId, Held, Law, Mode, TokId};
use lwkt_core::{Event, State, Token};

// Whether a law is one that a section can break.
fn can_break(law: Law) -> bool
    ensures { result ≡ can_break law }
{
    !matches!(law, Law::Any | Law::Tally)
}

// Whether this is one exclusive reference.
fn is_last_exclusive(held: Held) -> bool
    ensures { IsTrue result ↔ (held ≡ Holds Exclusive 0) }
{
    matches!(held, Held::Holds(Mode::Exclusive, 0))
}

// Whether a section of a token may be ending broken.
fn may_end_broken(token: &Token, cpu: CpuId) -> bool
    ensures { IsTrue result ↔ MayEndBroken token.now cpu.0 }
{
    can_break(token.law) && is_last_exclusive(token.held_by(cpu))
}

// Whether a cell has this value in the first row.
fn is_first(token: &Token, cell: u8, value: u64) -> bool
    ensures { IsTrue result ↔ (slice_get token.now.first cell ≡ Some value) }
{
    match token.first.as_slice().get(cell as usize) {
        None => false,
        Some(first) => *first == value,
    }
}

// Whether the row is the first one.
fn is_first_row(token: &Token) -> bool
    ensures { IsTrue result ↔ (token.now.row ≡ token.now.first) }
{
    token.row.as_slice() == token.first.as_slice()
}

// Whether a record is there and is this one.
fn is_record(kept: &Option<Blob>, blob: &Blob) -> bool
    ensures { IsTrue result ↔ (kept.now ≡ Some blob.now) }
{
    match kept {
        None => false,
        Some(kept) => kept.is_same(blob),
    }
}

// Whether a value may be stored again in a cell, as a section that is broken ends.
fn may_store_first(token: &Token, cpu: CpuId, cell: u8, value: u64) -> bool
    ensures { IsTrue result ↔ MayStoreFirst cpu.0 cell value token.now }
{
    may_end_broken(token, cpu) && is_first(token, cell, value)
}

// Whether a record is the first one, and another one is there.
fn is_first_for_another(token: &Token, blob: &Blob) -> bool
    ensures { IsTrue result ↔ ((token.now.first_blob ≡ Some blob.now) × (¬ (token.now.blob ≡ Some blob.now))) }
{
    is_record(&token.first_blob, blob) && !is_record(&token.blob, blob)
}

// Whether a record may be stored again, as a section that is broken ends.
fn may_put_first(token: &Token, cpu: CpuId, blob: &Blob) -> bool
    ensures { IsTrue result ↔ MayPutFirst cpu.0 blob.now token.now }
{
    may_end_broken(token, cpu) && is_first_for_another(token, blob) && is_first_row(token)
}

/// Whether an event may happen unasked.
pub fn is_quiet(state: &State, event: &Event) -> bool
    ensures { IsTrue result ↔ IsQuiet state.now event.now }
{
    match event {
        Event::Read { .. }
        | Event::ReadBlob { .. }
        | Event::Send { .. }
        | Event::Abort { .. }
        | Event::DropMsg { .. } => false,
        Event::Write {
            cpu,
            tok,
            cell,
            value,
        } => match state.token(*tok) {
            None => false,
            Some(token) => may_store_first(token, *cpu, *cell, *value),
        },
        Event::WriteBlob { cpu, tok, blob } => match state.token(*tok) {
            None => false,
            Some(token) => may_put_first(token, *cpu, blob),
        },
        Event::Load { .. }
        | Event::Take { .. }
        | Event::Share { .. }
        | Event::Again { .. }
        | Event::Mark { .. }
        | Event::GiveOne { .. }
        | Event::GiveClean { .. }
        | Event::GiveWritten { .. }
        | Event::TakeMsg { .. }
        | Event::Reply { .. }
        | Event::Reap { .. } => true,
    }
}

// Whether an event reads this cell.
fn is_read(wanted: TokId, at: u8, event: &Event) -> bool
    ensures { result ≡ is_read wanted.0 at None event.now }
{
    match *event {
        Event::Read { tok, cell, .. } => tok.0 == wanted.0 && cell == at,
        _ => false,
    }
}

// Whether an event stores this value in this cell.
fn is_write(wanted: TokId, at: u8, stored: u64, event: &Event) -> bool
    ensures { result ≡ is_write wanted.0 at stored event.now }
{
    match *event {
        Event::Write {
            tok,
            cell,
            value,
            ..
        } => tok.0 == wanted.0 && cell == at && value == stored,
        _ => false,
    }
}

// Whether an event reads this token's record.
fn is_record_read(wanted: TokId, event: &Event) -> bool
    ensures { result ≡ is_record_read wanted.0 None event.now }
{
    match event {
        Event::ReadBlob { tok, .. } => tok.0 == wanted.0,
        _ => false,
    }
}

// Whether an event stores this record in this token.
fn is_record_write(wanted: TokId, stored: &Blob, event: &Event) -> bool
    ensures { result ≡ is_record_write wanted.0 stored.now event.now }
{
    match event {
        Event::WriteBlob { tok, blob, .. } => tok.0 == wanted.0 && same_bytes(blob, stored),
        _ => false,
    }
}

// Whether a value is this sum.
fn is_sum(value: u64, old: u64, more: u64) -> bool
    ensures { result ≡ (value == old + more) }
{
    match old.checked_add(more) {
        None => false,
        Some(sum) => value == sum,
    }
}

// Whether an event adds this to the first cell of a token, where that has a value.
fn is_raise(old: Option<u64>, wanted: TokId, more: u64, event: &Event) -> bool
    ensures { result ≡ is_raise old wanted.0 more event.now }
{
    match (old, event) {
        (
            Some(old),
            Event::Write {
                tok,
                cell,
                value,
                ..
            },
        ) => tok.0 == wanted.0 && *cell == 0 && is_sum(*value, old, more),
        _ => false,
    }
}

// Whether an event sends this message to this processor.
fn is_send_of(wanted: u8, target: u8, event: &Event) -> bool
    ensures { result ≡ is_send_of wanted target event.now }
{
    match *event {
        Event::Send { msg, to, .. } => msg.0 == wanted && to.0 == target,
        _ => false,
    }
}

// Whether an event is a reply to this message.
fn is_reply_of(wanted: u8, event: &Event) -> bool
    ensures { result ≡ is_reply_of wanted event.now }
{
    match *event {
        Event::Reply { msg, .. } => msg.0 == wanted,
        _ => false,
    }
}

// Whether an event asks for this message to be aborted.
fn is_abort_of(wanted: u8, event: &Event) -> bool
    ensures { result ≡ is_abort_of wanted event.now }
{
    match *event {
        Event::Abort { msg, .. } => msg.0 == wanted,
        _ => false,
    }
}

// Whether an event drops this message.
fn is_drop_of(wanted: u8, event: &Event) -> bool
    ensures { result ≡ is_drop_of wanted event.now }
{
    match *event {
        Event::DropMsg { msg, .. } => msg.0 == wanted,
        _ => false,
    }
}

/// Whether an event is what an ask makes, which has no answer yet.
pub fn is_own(state: &State, ask: &Ask, event: &Event) -> bool
    ensures { result ≡ is_own state.now ask.now None event.now }
{
    match ask {
        Ask::Read(tok, cell) => is_read(*tok, *cell, event),
        Ask::Write(tok, cell, value) => is_write(*tok, *cell, *value, event),
        Ask::Add(tok, more) => is_raise(state.cell(*tok, 0), *tok, *more, event),
        Ask::ReadBlob(tok) => is_record_read(*tok, event),
        Ask::WriteBlob(tok, blob) => is_record_write(*tok, blob, event),
        Ask::Send(msg, to, _, _) => is_send_of(msg.0, to.cpu.0, event),
        Ask::Do(msg, to, _) => is_send_of(msg.0, to.cpu.0, event),
        Ask::Reply(msg, _, _) => is_reply_of(msg.0, event),
        Ask::Abort(msg) => is_abort_of(msg.0, event),
        Ask::DropMsg(msg) => is_drop_of(msg.0, event),
        _ => false,
    }
}

// Whether an event sends a message.
fn is_send(event: &Event) -> bool
    ensures { result ≡ is_send event.now }
{
    matches!(event, Event::Send { .. })
}

// The place of the first send among some events, or their number.
fn first_send(events: &[Event]) -> usize
    ensures place { result ≡ first_send events.now }
    ensures within { result ≤ length events.now }
{
    for (place, event) in events.iter().enumerate() {
        if is_send(event) {
            return place;
        }
    }
    events.len()
}

/// Where in its part the event of an ask stands.
pub fn own_place(ask: &Ask, part: &[Event]) -> usize
    ensures place { result ≡ own_place ask.now part.now }
    ensures within { result ≤ length part.now }
{
    if is_do(ask) {
        first_send(part)
    } else {
        part.len().saturating_sub(1)
    }
}

// Whether a part ends with a take, a share or a further reference.
fn ends_taking(part: &[Event]) -> bool
    ensures { result ≡ ends_taking part.now }
{
    match part.get(part.len().saturating_sub(1)) {
        None => false,
        Some(event) => event.adds_reference(),
    }
}

/// Whether its part shows that an ask, where it wasn't refused, blocked its thread.
pub fn has_blocked(ask: &Ask, part: &[Event]) -> bool
    ensures { result ≡ has_blocked ask.now part.now }
{
    match ask {
        Ask::Get(_) | Ask::GetShared(_) => !ends_taking(part),
        Ask::Do(..) => first_send(part) < part.len(),
        Ask::WaitPort | Ask::Yield | Ask::Exit | Ask::Fail(_) => true,
        _ => false,
    }
}
