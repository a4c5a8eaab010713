//! Why a call was refused: each fault's number and its message.
ghost use Rattle.std.specs.Prelude.{◌≡◌};

use crate::memory::{OutOfMemory, Piece, push_number, push_str};
use std::error::Error;
use std::fmt;

/// Why a call was refused. Each fault has a number, by which reports and scripts name it, and a message.
#[derive(Clone, Copy, Debug, PartialEq, Eq)]
pub enum Fault {
    /// 10: a list has 32 references already.
    ListFull,
    /// 11: an exclusive reference to a token whose first reference on the list is shared.
    Upgrade,
    /// 12: the token is on the list, but its reference is not the last one.
    NotLast,
    /// 13: the token is not on the list.
    NotHeld,
    /// 14: the two most recent references are to one token.
    SwapSame,
    /// 15: the list has fewer than two references.
    SwapShort,
    /// 16: no token has this number.
    NoToken,
    /// 17: the token has no cell of this number.
    NoCell,
    /// 18: a write under a token that is held shared.
    SharedWrite,
    /// 19: the law of the section failed at its end, and its first row was stored again.
    Broken,
    /// 20: the token is at its last generation.
    Worn,
    /// 21: an addition past 18446744073709551615.
    Overflow,
    /// 22: a write to a Tally token, or an addition to any other.
    TallyOnly,
    /// 23: the token is held, or marked for an exclusive request.
    Busy,
    /// 24: the lane to the target processor is full.
    LaneFull,
    /// 25: the message has another origin, is away, or is not there.
    NotOwner,
    /// 26: the message is not on its way to its target.
    NotOut,
    /// 27: the message was sent without leave to abort it.
    NotAbortable,
    /// 28: the message was sent without leave to drop it.
    NotDropable,
    /// 29: a synchronous send to the sender's own port.
    SelfDo,
    /// 30: no such processor or thread.
    NoPort,
    /// 31: the message was not taken by this thread.
    NotTaken,
    /// 32: an allocation was refused. Only a call that asked for memory and was refused makes what this holds.
    Memory(OutOfMemory),
    /// 33: a script was refused; the place of its first bad part.
    Script { place: u32 },
    /// 34: another processor's step came between.
    Again,
    /// 35: a trace is not lawful; the index of its first event that isn't.
    Unlawful { index: usize },
    /// 36: the message is at its last round.
    RoundsOut,
    /// 37: a record under a token that is held shared.
    SharedRecord,
    /// 38: a record of more than 64 bytes.
    RecordLong,
    /// 39: a limit was passed.
    Limits,
    /// 40: an opening row breaks its law.
    LawBroken,
    /// 42: an assertion of a thread's program doesn't hold.
    Assertion,
}

impl Fault {
    ghost use Rattle.std.specs.Prelude.{◌≡◌};
    ghost use Rattle.lwkt_base.specs.Fault.{number_of, fault_words};

    /// The fault's number, 10 to 40 or 42.
    pub fn number(&self) -> u8
        ensures { result ≡ number_of self.now }
    {
        match self {
            Fault::ListFull => 10,
            Fault::Upgrade => 11,
            Fault::NotLast => 12,
            Fault::NotHeld => 13,
            Fault::SwapSame => 14,
            Fault::SwapShort => 15,
            Fault::NoToken => 16,
            Fault::NoCell => 17,
            Fault::SharedWrite => 18,
            Fault::Broken => 19,
            Fault::Worn => 20,
            Fault::Overflow => 21,
            Fault::TallyOnly => 22,
            Fault::Busy => 23,
            Fault::LaneFull => 24,
            Fault::NotOwner => 25,
            Fault::NotOut => 26,
            Fault::NotAbortable => 27,
            Fault::NotDropable => 28,
            Fault::SelfDo => 29,
            Fault::NoPort => 30,
            Fault::NotTaken => 31,
            Fault::Memory(_) => 32,
            Fault::Script { .. } => 33,
            Fault::Again => 34,
            Fault::Unlawful { .. } => 35,
            Fault::RoundsOut => 36,
            Fault::SharedRecord => 37,
            Fault::RecordLong => 38,
            Fault::Limits => 39,
            Fault::LawBroken => 40,
            Fault::Assertion => 42,
        }
    }

    // The words of the fault's message, but for a number at the end.
    fn words(&self) -> &'static str
        ensures { result.now ≡ fault_words self.now }
    {
        match self {
            Fault::ListFull => "list full",
            Fault::Upgrade => "shared reference can't become exclusive",
            Fault::NotLast => "not the last reference",
            Fault::NotHeld => "token not held",
            Fault::SwapSame => "swap of one token",
            Fault::SwapShort => "swap needs two references",
            Fault::NoToken => "no such token",
            Fault::NoCell => "no such cell",
            Fault::SharedWrite => "write under a shared token",
            Fault::Broken => "law broken, cells restored",
            Fault::Worn => "last generation",
            Fault::Overflow => "sum too large",
            Fault::TallyOnly => "call and law don't fit",
            Fault::Busy => "token busy",
            Fault::LaneFull => "lane full",
            Fault::NotOwner => "message not owned",
            Fault::NotOut => "message not out",
            Fault::NotAbortable => "message not abortable",
            Fault::NotDropable => "message not dropable",
            Fault::SelfDo => "synchronous send to itself",
            Fault::NoPort => "no such port",
            Fault::NotTaken => "message not taken",
            Fault::Memory(_) => "out of memory",
            Fault::Script { .. } => "script refused at ",
            Fault::Again => "lost a race, try again",
            Fault::Unlawful { .. } => "unlawful at ",
            Fault::RoundsOut => "last round",
            Fault::SharedRecord => "record under a shared token",
            Fault::RecordLong => "record too long",
            Fault::Limits => "limit passed",
            Fault::LawBroken => "opening breaks its law",
            Fault::Assertion => "assertion failed",
        }
    }
}

/// Shows the fault's message: `token busy`, `script refused at 3`.
impl fmt::Display for Fault {
    ghost use Rattle.std.specs.Prelude.{Some};
    ghost use Rattle.lwkt_base.specs.Fault.{fault_message};

    ghost output = { λ f. Some (fault_message f) };

    fn fmt<W: fmt::Write>(&self, f: &mut fmt::Formatter<W>) -> fmt::Result {
        f.write_str(self.words())?;
        match self {
            Fault::Script { place } => place.fmt(f),
            Fault::Unlawful { index } => index.fmt(f),
            _ => Ok(()),
        }
    }
}

impl Error for Fault {}

/// The fault's message as a piece of a text.
impl Piece for Fault {
    ghost use Rattle.lwkt_base.specs.Fault.{fault_message};

    ghost text = { λ f. fault_message f };

    fn put_on(self, out: &mut String) -> Result<(), OutOfMemory> {
        push_str(out, self.words())?;
        match self {
            Fault::Script { place } => push_number(out, u64::from(place)),
            Fault::Unlawful { index } => push_number(out, index as u64),
            _ => Ok(()),
        }
    }
}

impl From<OutOfMemory> for Fault {
    ghost use Rattle.lwkt_base.specs.declared.faults.Fault.TheVariants.{Memory};

    ghost from_gives = { λ refused fault. fault ≡ Memory refused };

    fn from(refused: OutOfMemory) -> Fault {
        Fault::Memory(refused)
    }
}
