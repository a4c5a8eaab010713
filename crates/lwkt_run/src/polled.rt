//! What a turn asked.

use lwkt_base::{Answer, Ask, ThreadId};

/// What a turn asked. Only proofs have values of it.
#[derive(Clone, Copy)]
pub struct Polled {
    /// The thread that was polled.
    pub thread: ThreadId,
    /// What the thread's body was given: the answer to what it had asked before.
    pub heard: Answer,
    /// What it asked then.
    pub asked: Ask,
}

/// A `Polled` by reference: what a turn asked, where it stands in the body of the thread.
#[derive(Clone, Copy)]
pub struct PolledRef<'a> {
    /// The thread that was polled: its processor, 0 to 7, and its number there, 0 to 15.
    pub thread: ThreadId,
    /// The answer that its body was given: that to what it had asked before, and `Begin` at its first poll.
    pub heard: &'a Answer,
    /// What it asked then.
    pub asked: &'a Ask,
}
