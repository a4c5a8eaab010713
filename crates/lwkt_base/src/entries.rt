ghost use Rattle.std.specs.Prelude.{◌≡◌, ◌↔◌, IsTrue};

use crate::blobs::Blob;
use crate::names::MsgId;
use crate::records::Call;

/// What a script thread was given as an answer and keeps in its log.
#[derive(Clone, Copy, Debug, PartialEq, Eq)]
pub enum Entry {
    /// The value of a cell.
    Value(u64),
    /// The record of a token.
    Bytes(Blob),
    /// Whether a request that its port had is to be aborted.
    Aborted(bool),
    /// A request that its port had: the message and what it asks for.
    Request(MsgId, Call),
    /// A reply to a message of its own: the message, its error and its result.
    Reply(MsgId, u32, u64),
    /// Its port had nothing.
    NoMessage,
    /// A message of its own that it took back: the message and what it asked for.
    Dropped(MsgId, Call),
    /// A refusal: the fault's number, 10 to 40.
    Refused(u8),
    /// An assertion of its program that didn't hold: its number among the thread's assertions.
    Failed(u32),
}

impl Entry {
    /// Whether the other is the same entry.
    pub fn is_same(&self, other: &Entry) -> bool
        ensures { IsTrue result ↔ (self.now ≡ other.now) }
    {
        match (self, other) {
            (Entry::Bytes(a), Entry::Bytes(b)) => a.is_same(b),
            (Entry::Bytes(_), _) | (_, Entry::Bytes(_)) => false,
            _ => *self == *other,
        }
    }
}
