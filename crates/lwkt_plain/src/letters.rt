//! Messages with their records, the notes about them, the lanes that carry these and the ports that keep them.

use crate::items::Items;
use lwkt_base::{MsgId, MsgWord, Rec, ThreadId};

/// In whose hands a message is that its target has taken.
#[derive(Clone, Copy, PartialEq, Eq)]
pub enum Hands {
    /// It isn't taken.
    Nobody,
    /// This thread of its target was shown it, and hasn't replied yet.
    Shown(u8),
    /// Its target owes a reply with this error.
    Owes(u32),
}

/// A message: its word, its record, and in whose hands it is.
#[derive(Clone, Copy, PartialEq, Eq)]
pub struct Letter {
    /// The thread that it is of. No turn changes it.
    pub origin: ThreadId,
    /// The parts of its word.
    pub word: MsgWord,
    /// What it asks for, and once it is replied to the error and the result; nothing while it is at rest.
    pub rec: Rec,
    /// In whose hands it is.
    pub hands: Hands,
}

/// What a note says to the port that it goes to.
#[derive(Clone, Copy, PartialEq, Eq)]
pub enum NoteKind {
    /// The message was sent to the port.
    Request,
    /// The message was replied to.
    Answer,
}

/// A note: that something is to be done with a message.
#[derive(Clone, Copy, PartialEq, Eq)]
pub struct Note {
    /// The round of the message when the note was made.
    pub round: u64,
    /// The message.
    pub msg: MsgId,
    /// The thread of the receiving processor whose port the note is for, 0 to 15.
    pub port: u8,
    /// Which of both it is.
    pub kind: NoteKind,
    /// Whether the message was sent with priority.
    pub urgent: bool,
}

/// A lane from one processor to another one, or to itself.
#[derive(Drop)]
pub struct Lane {
    /// A note that was received, and whose port's queue was full.
    pub kept: Option<Note>,
    /// The notes in the queue, the oldest first.
    pub queue: Items<Note>,
    /// A note in the sender's hand, since the queue was full.
    pub hand: Option<Note>,
}

/// The port of a thread: its notes, the oldest first.
#[derive(Drop)]
pub struct Port {
    /// The notes of messages that were sent with priority.
    pub urgent: Items<Note>,
    /// The other notes.
    pub ordinary: Items<Note>,
}

/// The error of a reply to a request that was aborted before a thread saw it: EINTR.
pub const ABORTED: u32 = 4;

/// The error of a reply to a request at the port of a thread that has ended, or isn't there.
pub const NO_PORT: u32 = 30;

/// The error of a reply to a request whose thread has ended.
pub const GONE: u32 = 41;

/// The most notes in the queue of a lane; one more may be in hand.
pub const LANE_QUEUE: usize = 31;

/// The most notes in each of the two queues of a port.
pub const PORT_QUEUE: usize = 64;

/// How many ports a processor has, of which threads have the first ones.
pub const PORTS: usize = 16;
