ghost use Rattle.std.specs.Prelude.{◌≡◌, slice_get, MatchOption, IsSomeAnd};
ghost use Rattle.lwkt_core.specs.Tokens.{TokenNeeds};
ghost use Rattle.lwkt_core.specs.Messages.{MessageNeeds};
ghost use Rattle.lwkt_core.specs.Lacks.{Fails, TokenLacks, MessageLacks, FindsTokenLack, FindsMessageLack, LackRefutes};

use crate::events::Event;
use crate::messages::Message;
use crate::tokens::Token;
use lwkt_base::limits::{LAST_GENERATION, LAST_ROUND};
use lwkt_base::{Blob, CpuId, Owner, Section, TokId};

/// The first need of an event that isn't met.
#[derive(Clone, Copy, PartialEq, Eq)]
pub enum Lack {
    /// There is no processor of the event's number.
    NoProcessor,
    /// There is no token of the event's number.
    NoToken,
    /// There is no message of the event's number.
    NoMessage,
    /// The processor has 32 references already.
    TooManyReferences,
    /// Take: somebody holds the token.
    Held,
    /// Share: somebody holds the token exclusively.
    HeldExclusively,
    /// Share: the processor holds the token already.
    HeldAlready,
    /// Take: the token is at its last generation.
    LastGeneration,
    /// Again, GiveOne, Read: the processor doesn't hold the token.
    NotHeld,
    /// GiveClean, GiveWritten, Write, ReadBlob, WriteBlob: the processor doesn't hold the token exclusively.
    NotHeldExclusively,
    /// GiveOne: it is the last reference of an exclusive holding.
    LastExclusive,
    /// GiveClean, GiveWritten: the processor has further references to the token.
    FurtherReferences,
    /// GiveClean: the row isn't that of the beginning of the section.
    RowChanged,
    /// GiveClean: the record isn't that of the beginning of the section.
    RecordChanged,
    /// GiveWritten: row and record are those of the beginning of the section.
    RowUnchanged,
    /// GiveWritten: the row, with the length of the record, breaks the token's law.
    LawBroken,
    /// GiveWritten: the section isn't the token's generation, the row at its beginning and its row.
    OtherSection,
    /// Read, Write: the token has no such cell.
    NoCell,
    /// Read: the cell has another value.
    OtherValue,
    /// Write: the value is less than that of the cell, under Tally.
    LessThanBefore,
    /// ReadBlob, WriteBlob: the token has no record.
    NoRecord,
    /// ReadBlob: the record is another one.
    OtherRecord,
    /// WriteBlob: the record has more than 64 bytes.
    RecordLong,
    /// Send: the message isn't at rest with the processor.
    NotAtRest,
    /// Send: there is no processor to send to.
    NoTarget,
    /// Send: the round is past the last one.
    LastRound,
    /// Send, TakeMsg: the message's round is another one.
    OtherRound,
    /// TakeMsg, DropMsg: the message isn't on its way to, or from, the processor.
    NotOut,
    /// Reply: the message isn't taken by the processor.
    NotTaken,
    /// Reap: the message wasn't replied to, or isn't of the processor.
    NotReplied,
    /// Abort: the message is at rest, or isn't of the processor.
    NotAway,
}

impl Token {
    // The first need of a Take that isn't met.
    fn take_lack(&self, cpu: CpuId) -> Option<Lack>
        ensures { FindsTokenLack self.now (Event.Take cpu (record { 0 = 0 })) result }
    {
        let _ = cpu;
        if !self.is_free() {
            return Some(Lack::Held);
        }
        if self.generation >= LAST_GENERATION {
            return Some(Lack::LastGeneration);
        }
        None
    }

    // The first need of a Share that isn't met.
    fn share_lack(&self, cpu: CpuId) -> Option<Lack>
        ensures { FindsTokenLack self.now (Event.Share cpu (record { 0 = 0 })) result }
    {
        if !self.is_open() {
            return Some(Lack::HeldExclusively);
        }
        if self.held_by(cpu).is_held() {
            return Some(Lack::HeldAlready);
        }
        None
    }

    // The first need of an Again that isn't met.
    fn again_lack(&self, cpu: CpuId) -> Option<Lack>
        ensures { FindsTokenLack self.now (Event.Again cpu (record { 0 = 0 })) result }
    {
        if !self.held_by(cpu).is_held() {
            return Some(Lack::NotHeld);
        }
        None
    }

    // The first need of a GiveOne that isn't met.
    fn give_one_lack(&self, cpu: CpuId) -> Option<Lack>
        ensures { FindsTokenLack self.now (Event.GiveOne cpu (record { 0 = 0 })) result }
    {
        if !self.held_by(cpu).is_held() {
            return Some(Lack::NotHeld);
        }
        if !self.may_give_one(cpu) {
            return Some(Lack::LastExclusive);
        }
        None
    }

    // The first need of a GiveClean that isn't met.
    fn give_clean_lack(&self, cpu: CpuId) -> Option<Lack>
        ensures { FindsTokenLack self.now (Event.GiveClean cpu (record { 0 = 0 })) result }
    {
        if !self.held_by(cpu).is_exclusive() {
            return Some(Lack::NotHeldExclusively);
        }
        if !self.is_last_exclusive(cpu) {
            return Some(Lack::FurtherReferences);
        }
        if !self.has_first_row() {
            return Some(Lack::RowChanged);
        }
        if !self.has_first_blob() {
            return Some(Lack::RecordChanged);
        }
        None
    }

    // The first need of a GiveWritten that isn't met.
    fn give_written_lack(&self, cpu: CpuId, tok: TokId, section: &Section) -> Option<Lack>
        ensures { FindsTokenLack self.now (Event.GiveWritten cpu tok section.now) result }
    {
        if !self.held_by(cpu).is_exclusive() {
            return Some(Lack::NotHeldExclusively);
        }
        if !self.is_last_exclusive(cpu) {
            return Some(Lack::FurtherReferences);
        }
        if self.is_clean() {
            return Some(Lack::RowUnchanged);
        }
        if !self.is_lawful() {
            return Some(Lack::LawBroken);
        }
        if !self.has_section(tok, section) {
            return Some(Lack::OtherSection);
        }
        None
    }

    // The first need of a Read that isn't met.
    fn read_lack(&self, cpu: CpuId, cell: u8, value: u64) -> Option<Lack>
        ensures { FindsTokenLack self.now (Event.Read cpu (record { 0 = 0 }) cell value) result }
    {
        if !self.held_by(cpu).is_held() {
            return Some(Lack::NotHeld);
        }
        if cell as usize >= self.row.as_slice().len() {
            return Some(Lack::NoCell);
        }
        if !self.has_value(cell, value) {
            return Some(Lack::OtherValue);
        }
        None
    }

    // The first need of a Write that isn't met.
    fn write_lack(&self, cpu: CpuId, cell: u8, value: u64) -> Option<Lack>
        ensures { FindsTokenLack self.now (Event.Write cpu (record { 0 = 0 }) cell value) result }
    {
        if !self.held_by(cpu).is_exclusive() {
            return Some(Lack::NotHeldExclusively);
        }
        if cell as usize >= self.row.as_slice().len() {
            return Some(Lack::NoCell);
        }
        if !self.may_store(cell, value) {
            return Some(Lack::LessThanBefore);
        }
        None
    }

    // The first need of a ReadBlob that isn't met.
    fn read_blob_lack(&self, cpu: CpuId, blob: &Blob) -> Option<Lack>
        ensures { FindsTokenLack self.now (Event.ReadBlob cpu (record { 0 = 0 }) blob.now) result }
    {
        if !self.held_by(cpu).is_exclusive() {
            return Some(Lack::NotHeldExclusively);
        }
        if !self.has_record() {
            return Some(Lack::NoRecord);
        }
        if !self.has_blob(blob) {
            return Some(Lack::OtherRecord);
        }
        None
    }

    // The first need of a WriteBlob that isn't met.
    fn write_blob_lack(&self, cpu: CpuId, blob: &Blob) -> Option<Lack>
        ensures { FindsTokenLack self.now (Event.WriteBlob cpu (record { 0 = 0 }) blob.now) result }
    {
        if !self.held_by(cpu).is_exclusive() {
            return Some(Lack::NotHeldExclusively);
        }
        if !self.has_record() {
            return Some(Lack::NoRecord);
        }
        if blob.len() > 64 {
            return Some(Lack::RecordLong);
        }
        None
    }

    // The first need of an event that the token doesn't meet.
    fn lack(&self, event: &Event) -> Option<Lack>
        ensures { FindsTokenLack self.now event.now result }
    {
        match *event {
            Event::Load { .. } | Event::Mark { .. } => None,
            Event::Take { cpu, .. } => self.take_lack(cpu),
            Event::Share { cpu, .. } => self.share_lack(cpu),
            Event::Again { cpu, .. } => self.again_lack(cpu),
            Event::GiveOne { cpu, .. } => self.give_one_lack(cpu),
            Event::GiveClean { cpu, .. } => self.give_clean_lack(cpu),
            Event::GiveWritten { cpu, tok, section } => {
                self.give_written_lack(cpu, tok, &section)
            }
            Event::Read {
                cpu,
                cell,
                value,
                ..
            } => self.read_lack(cpu, cell, value),
            Event::Write {
                cpu,
                cell,
                value,
                ..
            } => self.write_lack(cpu, cell, value),
            Event::ReadBlob { cpu, blob, .. } => self.read_blob_lack(cpu, &blob),
            Event::WriteBlob { cpu, blob, .. } => self.write_blob_lack(cpu, &blob),
            _ => Some(Lack::NoToken),
        }
    }
}

impl Message {
    // The first need of a Send that isn't met, in a machine of so many processors.
    fn send_lack(&self, cpus: usize, cpu: CpuId, to: CpuId, round: u64) -> Option<Lack>
        ensures { FindsMessageLack cpus self.now (Event.Send cpu (record { 0 = 0 }) to round) result }
    {
        if self.owner != (Owner::Rest { origin: cpu }) {
            return Some(Lack::NotAtRest);
        }
        if to.0 as usize >= cpus {
            return Some(Lack::NoTarget);
        }
        if round > LAST_ROUND {
            return Some(Lack::LastRound);
        }
        if self.round >= LAST_ROUND || round != self.round + 1 {
            return Some(Lack::OtherRound);
        }
        None
    }

    // The first need of a TakeMsg that isn't met.
    fn take_lack(&self, cpus: usize, cpu: CpuId, round: u64) -> Option<Lack>
        ensures { FindsMessageLack cpus self.now (Event.TakeMsg cpu (record { 0 = 0 }) round) result }
    {
        let _ = cpus;
        if !self.is_out_to(cpu) {
            return Some(Lack::NotOut);
        }
        if round != self.round {
            return Some(Lack::OtherRound);
        }
        None
    }

    // The need of an event that isn't met, where it has only one.
    fn only_lack(&self, cpus: usize, event: &Event, lack: Lack) -> Option<Lack>
        ensures { MatchOption result (MessageNeeds cpus self.now event.now) (λ it. Fails it lack (MessageNeeds cpus self.now event.now)) }
    {
        if self.allows(cpus, event) {
            None
        } else {
            Some(lack)
        }
    }

    // The first need of an event that the message doesn't meet.
    fn lack(&self, cpus: usize, event: &Event) -> Option<Lack>
        ensures { FindsMessageLack cpus self.now event.now result }
    {
        match *event {
            Event::Send { cpu, to, round, .. } => self.send_lack(cpus, cpu, to, round),
            Event::TakeMsg { cpu, round, .. } => self.take_lack(cpus, cpu, round),
            Event::DropMsg { .. } => self.only_lack(cpus, event, Lack::NotOut),
            Event::Reply { .. } => self.only_lack(cpus, event, Lack::NotTaken),
            Event::Reap { .. } => self.only_lack(cpus, event, Lack::NotReplied),
            Event::Abort { .. } => self.only_lack(cpus, event, Lack::NotAway),
            _ => Some(Lack::NoMessage),
        }
    }
}

/// The first need of an event that isn't met at the token of a place.
pub fn token_lack(tokens: &[Token], place: usize, event: &Event) -> Option<Lack>
    ensures { MatchOption result (IsSomeAnd (slice_get tokens.now place) (λ tok. TokenNeeds tok event.now)) (λ lack. MatchOption (slice_get tokens.now place) (lack ≡ Lack.NoToken) (λ tok. TokenLacks tok event.now lack)) }
{
    match tokens.get(place) {
        None => Some(Lack::NoToken),
        Some(tok) => tok.lack(event),
    }
}

/// The first need of an event that isn't met at the message of a place.
pub fn message_lack(cpus: usize, messages: &[Message], place: usize, event: &Event) -> Option<Lack>
    ensures { MatchOption result (IsSomeAnd (slice_get messages.now place) (λ msg. MessageNeeds cpus msg event.now)) (λ lack. MatchOption (slice_get messages.now place) (lack ≡ Lack.NoMessage) (λ msg. MessageLacks cpus msg event.now lack)) }
{
    match messages.get(place) {
        None => Some(Lack::NoMessage),
        Some(msg) => msg.lack(cpus, event),
    }
}

/// The theorem that an event that lacks something can't happen.
pub fn lack_refutes()
    ensures { LackRefutes }
{}
