use lwkt_base::{Ref, ThreadState};

/// What a turn answers.
#[derive(Clone, Copy, PartialEq, Eq)]
pub enum Turned {
    /// The thread of this number was polled, 0 to 15.
    Ran { thread: usize },
    /// No thread was polled, and not every thread has ended.
    Idle,
    /// No thread was polled, and every thread has ended.
    AllExited,
}

/// A thread between two turns: what it is doing, and its references.
#[derive(Clone, Copy)]
pub struct Status<'a> {
    /// What it is doing.
    pub state: ThreadState,
    /// The references on its list, the first acquired first, at most 32. They are held exactly if the thread is running.
    pub list: &'a [Ref],
}

/// What the turns of a drive came to.
#[derive(Clone, Copy, Default, PartialEq, Eq)]
pub struct Drove {
    /// How many turns polled a thread.
    pub ran: u64,
    /// How many turns polled none, those among them that found that every thread had ended.
    pub idle: u64,
    /// Whether a turn found that every thread had ended.
    pub all_exited: bool,
}
