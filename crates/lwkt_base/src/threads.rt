ghost use Rattle.std.specs.Prelude.{◌≡◌};
ghost use Rattle.lwkt_base.specs.Threads.{has_ended, is_done};

use crate::faults::Fault;
use crate::lists::TokList;
use crate::logs::Log;
use crate::names::ThreadId;

/// What a thread is doing between two turns of its processor.
#[derive(Clone, Copy, Debug, PartialEq, Eq)]
pub enum ThreadState {
    /// It can run as soon as its tokens can be held.
    Ready,
    /// It waits for its port, or for a reply.
    Waiting,
    /// It runs, and its processor holds its tokens.
    Running,
    /// It has ended by itself.
    Exited,
    /// It was ended by a fault.
    Faulted(Fault),
}

impl ThreadState {
    /// Whether the thread has ended: it exited, or a fault ended it.
    pub fn has_ended(self) -> bool
        ensures { result ≡ has_ended self }
    {
        matches!(self, ThreadState::Exited | ThreadState::Faulted(_))
    }
}

/// What a thread is when a run stops.
#[derive(Drop)]
pub struct ThreadLine {
    /// The thread.
    pub id: ThreadId,
    /// Whether it could go on, waited, or had ended, and by what.
    pub state: ThreadState,
    /// The references that it then has.
    pub list: TokList,
    /// The first 32 of the answers that it was given.
    pub log: Log,
    /// Whether it is a service: it serves other threads and need not end.
    pub service: bool,
}

impl ThreadLine {
    /// Whether the run needn't go on for this thread: it has ended, or it is a service.
    pub fn is_done(&self) -> bool
        ensures { result ≡ is_done self.now }
    {
        self.service || self.state.has_ended()
    }
}
