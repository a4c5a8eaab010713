use crate::items::Items;
use crate::letters::{Lane, Letter, Port};
use lwkt_base::{Answer, Ask, Entry, Fault, MsgId, TokList};
use lwkt_code::Local;
use lwkt_core::Token;

/// What a thread is doing, whether it runs or not.
#[derive(Clone, Copy, PartialEq, Eq)]
pub enum Phase {
    /// It runs, or can run as soon as its tokens can be held.
    Live,
    /// It waits for an item at its port.
    AwaitsItem,
    /// It waits for the reply to this message of its own.
    AwaitsReply(MsgId),
    /// It has ended by itself.
    Exited,
    /// It was ended by this fault.
    Faulted(Fault),
}

/// The word that refused a thread's list, and the place of the reference that it refused.
#[derive(Clone, Copy, PartialEq, Eq)]
pub struct BusyAt {
    pub word: u64,
    pub at: usize,
}

/// A thread between two turns.
#[derive(Drop)]
pub struct Thread {
    /// What it is doing.
    pub phase: Phase,
    /// Its references, the first acquired first. They are held exactly if it runs.
    pub list: TokList,
    /// The answer to its last ask, for its next poll; `Done` while it waits, and once it has ended.
    pub last: Answer,
    /// The word that refused its list when that was last tried.
    pub busy: Option<BusyAt>,
    /// Where it stands in its program.
    pub local: Local,
    /// What it asked at its last poll. `None` before the first one.
    pub asked: Option<Ask>,
    /// What its answers and its asks put in its log, at most 32 entries, the first one first.
    pub log: Items<Entry>,
}

/// The mail of a processor between two turns.
#[derive(Drop)]
pub struct Mail {
    /// The lanes to it, by sender.
    pub lanes: Items<Lane>,
    /// The ports of its threads, and of those that aren't there: 16.
    pub ports: Items<Port>,
}

/// A processor between two turns, apart from its mail.
#[derive(Drop)]
pub struct Processor {
    /// Its threads, by number.
    pub threads: Items<Thread>,
    /// The thread that runs.
    pub running: Option<usize>,
    /// Where the next search for a thread begins.
    pub cursor: usize,
}

/// A script's machine between two turns.
#[derive(Drop)]
pub struct Plain {
    /// Its tokens, by number, as the model has them.
    pub tokens: Items<Token>,
    /// Its messages, by number.
    pub letters: Items<Letter>,
    /// The mail of its processors, by their numbers.
    pub mails: Items<Mail>,
    /// Its processors, by number.
    pub cpus: Items<Processor>,
}

/// The most notes that a turn takes in.
pub const TURN_NOTES: usize = 16;

/// The most notes of closed ports that a turn handles.
pub const CLEARED_AT_ONCE: usize = 16;
