use lwkt_base::{Blob, CpuId, MsgId, Section, TokId};

/// For how many events a trace has to have room when a list of tokens or a port is used. None of these calls appends more.
pub const CALL_EVENTS: usize = 256;

/// One atomic step of one processor on one token or message.
#[derive(Clone, Copy, PartialEq, Eq)]
pub enum Event {
    /// The token's word or a cell was looked at.
    Load {
        cpu: CpuId,
        tok: TokId,
    },
    /// The token was taken exclusively, which clears its mark.
    Take {
        cpu: CpuId,
        tok: TokId,
    },
    /// The token was taken shared.
    Share {
        cpu: CpuId,
        tok: TokId,
    },
    /// A further reference to a token that is held.
    Again {
        cpu: CpuId,
        tok: TokId,
    },
    /// The token was marked for an exclusive request.
    Mark {
        cpu: CpuId,
        tok: TokId,
    },
    /// A reference was given back that was not the last of an exclusive holding.
    GiveOne {
        cpu: CpuId,
        tok: TokId,
    },
    /// The last reference of an exclusive holding was given back, and row and record were as at the beginning of the section.
    GiveClean {
        cpu: CpuId,
        tok: TokId,
    },
    /// The last reference of an exclusive holding was given back, and the row or the record had changed: this section was written.
    GiveWritten {
        cpu: CpuId,
        tok: TokId,
        section: Section,
    },
    /// A cell of a token that is held was read, and had this value.
    Read {
        cpu: CpuId,
        tok: TokId,
        cell: u8,
        value: u64,
    },
    /// This value was stored in a cell of a token that is held exclusively.
    Write {
        cpu: CpuId,
        tok: TokId,
        cell: u8,
        value: u64,
    },
    /// The record of a token that is held exclusively was read, and was this one.
    ReadBlob {
        cpu: CpuId,
        tok: TokId,
        blob: Blob,
    },
    /// This record was stored in a token that is held exclusively.
    WriteBlob {
        cpu: CpuId,
        tok: TokId,
        blob: Blob,
    },
    /// The message was sent to a processor, in this round.
    Send {
        cpu: CpuId,
        msg: MsgId,
        to: CpuId,
        round: u64,
    },
    /// The message of this round was taken.
    TakeMsg {
        cpu: CpuId,
        msg: MsgId,
        round: u64,
    },
    /// The message was taken back before it was taken.
    DropMsg {
        cpu: CpuId,
        msg: MsgId,
    },
    /// The message was replied to.
    Reply {
        cpu: CpuId,
        msg: MsgId,
    },
    /// The reply was taken back.
    Reap {
        cpu: CpuId,
        msg: MsgId,
    },
    /// The message's origin asked for it to be aborted.
    Abort {
        cpu: CpuId,
        msg: MsgId,
    },
}

/// What an event is at: a token or a message, by its number.
#[derive(Clone, Copy, PartialEq, Eq)]
pub enum Place {
    AtToken(usize),
    AtMessage(usize),
}

impl Event {
    ghost use Rattle.std.specs.Prelude.{◌≡◌};
    ghost use Rattle.lwkt_core.specs.Events.{cpu_of, place_of, adds_reference};

    /// The processor whose step this is.
    pub fn cpu(&self) -> CpuId
        ensures { result.0 ≡ cpu_of self.now }
    {
        match *self {
            Event::Load { cpu, .. }
            | Event::Take { cpu, .. }
            | Event::Share { cpu, .. }
            | Event::Again { cpu, .. }
            | Event::Mark { cpu, .. }
            | Event::GiveOne { cpu, .. }
            | Event::GiveClean { cpu, .. }
            | Event::GiveWritten { cpu, .. }
            | Event::Read { cpu, .. }
            | Event::Write { cpu, .. }
            | Event::ReadBlob { cpu, .. }
            | Event::WriteBlob { cpu, .. }
            | Event::Send { cpu, .. }
            | Event::TakeMsg { cpu, .. }
            | Event::DropMsg { cpu, .. }
            | Event::Reply { cpu, .. }
            | Event::Reap { cpu, .. }
            | Event::Abort { cpu, .. } => cpu,
        }
    }

    /// The token or message that the step is on.
    pub fn place(&self) -> Place
        ensures { result ≡ place_of self.now }
    {
        match *self {
            Event::Load { tok, .. }
            | Event::Take { tok, .. }
            | Event::Share { tok, .. }
            | Event::Again { tok, .. }
            | Event::Mark { tok, .. }
            | Event::GiveOne { tok, .. }
            | Event::GiveClean { tok, .. }
            | Event::GiveWritten { tok, .. }
            | Event::Read { tok, .. }
            | Event::Write { tok, .. }
            | Event::ReadBlob { tok, .. }
            | Event::WriteBlob { tok, .. } => Place::AtToken(tok.0 as usize),
            Event::Send { msg, .. }
            | Event::TakeMsg { msg, .. }
            | Event::DropMsg { msg, .. }
            | Event::Reply { msg, .. }
            | Event::Reap { msg, .. }
            | Event::Abort { msg, .. } => Place::AtMessage(msg.0 as usize),
        }
    }

    /// Whether the step takes a reference to a token.
    pub fn adds_reference(&self) -> bool
        ensures { result ≡ adds_reference self.now }
    {
        matches!(
            self,
            Event::Take { .. } | Event::Share { .. } | Event::Again { .. }
        )
    }
}
