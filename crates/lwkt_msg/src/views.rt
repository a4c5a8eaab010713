//! What the book's table is made from, and what its seats know. Only proofs have values of the types but `Key`.
use lwkt_base::{Call, CpuId, Flags, MsgSpec};
use lwkt_table::{Chapter, Deed, SeatKind};

/// What the table is given when it is made.
#[derive(Drop)]
pub struct Key {
    /// What is declared of the messages, by number.
    pub specs: Vec<MsgSpec>,
    /// How many processors there are, 1 to 8.
    pub cpus: usize,
}

/// The error and result of a reply.
pub struct Returned {
    /// The result.
    pub result: u64,
    /// The error, 0 without one.
    pub error: u32,
}

/// What a seat knows of one message.
pub struct MessageEntry {
    /// As origin: the message's round.
    pub round: u64,
    /// As origin: the call that was sent last.
    pub call: Call,
    /// As origin: whom the message was sent to last.
    pub target: CpuId,
    /// As origin: what the last send allowed.
    pub flags: Flags,
    /// As origin: whether the last send was synchronous.
    pub sync: bool,
    /// As origin: whether the record was handed out, at the opening.
    pub had: bool,
    /// As origin: whether the message is away.
    pub away: bool,
    /// As origin: whether the message was seen to be back.
    pub back: bool,
    /// As origin: whether it has asked for the message to be aborted, in this round.
    pub asked: bool,
    /// As target: whether it has taken the message, and not replied yet.
    pub taken: bool,
    /// As target: the call of the message that it took last.
    pub got: Call,
    /// As target: what it replied last.
    pub answer: Returned,
}

/// What is known of the message of this number.
pub struct Noted {
    /// The message's number, 0 to 63.
    pub msg: u64,
    /// What is known of it.
    pub entry: MessageEntry,
}

/// What a seat knew that was taken back.
pub struct Recalled {
    /// Whose seat it was.
    pub cpu: CpuId,
    /// What the seat knew to be declared.
    pub specs: [MsgSpec; 0],
    /// What it knew of messages; the first entry of a message counts.
    pub entries: [Noted; 0],
}

/// What a seat at the book's table knows. A clause reads an array as a list, of any length.
pub struct View {
    /// Whose seat it is: a processor's, the clerk's, or one that is spent.
    pub kind: SeatKind,
    /// How many processors there are, 1 to 8.
    pub cpus: u64,
    /// What is declared of the messages, by number.
    pub specs: [MsgSpec; 0],
    /// The first entry of a message counts; without one it is as at the opening.
    pub entries: [Noted; 0],
    /// Of a seat: what it has seen of the book's history, the front of it up to the seat's own last deed.
    pub past: [Deed; 0],
    /// Of the clerk: what the seats had seen that it has taken back.
    pub chapters: [Chapter; 0],
    /// Of the clerk: what these seats knew, in the same order.
    pub recalled: [Recalled; 0],
}
