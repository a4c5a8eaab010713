ghost use Rattle.std.specs.Prelude.{◌≡◌, ◌↔◌, IsTrue};

use crate::blobs::Blob;
use crate::faults::Fault;
use crate::names::{MsgId, ThreadId, TokId};
use crate::records::{Call, Flags, Rec};

/// What a thread's body asks for when it is polled.
#[derive(Clone, Copy, Debug, PartialEq, Eq)]
pub enum Ask {
    /// An exclusive reference to the token, blocking until it is held.
    Get(TokId),
    /// A shared reference to the token, blocking until it is held.
    GetShared(TokId),
    /// An exclusive reference to the token, without blocking.
    TryGet(TokId),
    /// The release of the last reference, which is to this token.
    Rel(TokId),
    /// The exchange of the two most recent references.
    Swap,
    /// The value of a cell of a token that is held.
    Read(TokId, u8),
    /// A value for a cell of a token that is held exclusively.
    Write(TokId, u8, u64),
    /// An addition to the one cell of a Tally token that is held exclusively.
    Add(TokId, u64),
    /// The record of a token that is held exclusively.
    ReadBlob(TokId),
    /// A record for a token that is held exclusively.
    WriteBlob(TokId, Blob),
    /// A message of the thread's own sent to a thread's port, with what it asks for and what its origin may do with it.
    Send(MsgId, ThreadId, Call, Flags),
    /// The same, blocking until it is replied to.
    Do(MsgId, ThreadId, Call),
    /// A reply to a message that the thread's port had as a request: its error and its result.
    Reply(MsgId, u32, u64),
    /// A request that a message of the thread's own be aborted.
    Abort(MsgId),
    /// Whether a message that the thread's port had as a request is to be aborted.
    IsAborted(MsgId),
    /// A message of the thread's own taken back before it is taken.
    DropMsg(MsgId),
    /// The next item of the thread's port, if there is one.
    GetPort,
    /// The next item of the thread's port, blocking until there is one.
    WaitPort,
    /// To give up all tokens and be ready at once.
    Yield,
    /// To end.
    Exit,
    /// To end with fault 42, since this assertion of the thread's program doesn't hold.
    Fail(u32),
}

impl Ask {
    /// Whether the other is the same ask.
    pub fn is_same(&self, other: &Ask) -> bool
        ensures { IsTrue result ↔ (self.now ≡ other.now) }
    {
        match (self, other) {
            (Ask::Get(a), Ask::Get(b)) => *a == *b,
            (Ask::GetShared(a), Ask::GetShared(b)) => *a == *b,
            (Ask::TryGet(a), Ask::TryGet(b)) => *a == *b,
            (Ask::Rel(a), Ask::Rel(b)) => *a == *b,
            (Ask::Swap, Ask::Swap) => true,
            (Ask::Read(a, m), Ask::Read(b, n)) => *a == *b && *m == *n,
            (Ask::Write(a, m, v), Ask::Write(b, n, w)) => *a == *b && *m == *n && *v == *w,
            (Ask::Add(a, v), Ask::Add(b, w)) => *a == *b && *v == *w,
            (Ask::ReadBlob(a), Ask::ReadBlob(b)) => *a == *b,
            (Ask::WriteBlob(a, m), Ask::WriteBlob(b, n)) => *a == *b && m.is_same(n),
            (Ask::Send(m, s, c, f), Ask::Send(n, t, d, g)) => {
                *m == *n && *s == *t && *c == *d && *f == *g
            }
            (Ask::Do(m, s, c), Ask::Do(n, t, d)) => *m == *n && *s == *t && *c == *d,
            (Ask::Reply(m, e, r), Ask::Reply(n, f, s)) => *m == *n && *e == *f && *r == *s,
            (Ask::Abort(m), Ask::Abort(n)) => *m == *n,
            (Ask::IsAborted(m), Ask::IsAborted(n)) => *m == *n,
            (Ask::DropMsg(m), Ask::DropMsg(n)) => *m == *n,
            (Ask::GetPort, Ask::GetPort) => true,
            (Ask::WaitPort, Ask::WaitPort) => true,
            (Ask::Yield, Ask::Yield) => true,
            (Ask::Exit, Ask::Exit) => true,
            (Ask::Fail(m), Ask::Fail(n)) => *m == *n,
            _ => false,
        }
    }
}

/// An item of a message port.
#[derive(Clone, Copy, Debug, PartialEq, Eq)]
pub enum Item {
    /// A request: the message and what it asks for.
    Request(MsgId, Call),
    /// A reply to a message that was sent from this port: the message, its error and its result.
    Answered(MsgId, u32, u64),
}

/// What a thread's body is given when it is polled: the answer to what it last asked.
#[derive(Clone, Copy, Debug, PartialEq, Eq)]
pub enum Answer {
    /// Nothing was asked yet.
    Begin,
    /// The ask was done.
    Done,
    /// The value that was read; of a question whether a message is to be aborted 0 or 1.
    Value(u64),
    /// The record that was read.
    Bytes(Blob),
    /// The message that was taken back before it was taken, and its record.
    Dropped(MsgId, Rec),
    /// The item that the port had.
    Got(Item),
    /// The port has no item.
    NoMsg,
    /// The ask was refused, and changed nothing but what the fault says.
    Refused(Fault),
}
