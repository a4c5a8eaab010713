ghost use Rattle.std.specs.Prelude.{◌≡◌, None};
ghost use Rattle.lwkt_verdict.specs.Threads.{may_fault, may_end_after};

use crate::asks::{is_end, is_exit, is_fail, may_block, may_wait};
use crate::turns::Poll;
use lwkt_base::limits::LOG_LIMIT;
use lwkt_base::{Answer, Ask, ThreadState};
use lwkt_code::Local;

/// An ask of a thread, its answer, if it has one, and whether its part of the trace shows that it blocked the thread. Only proofs have
/// values of it.
#[derive(Clone, Copy, PartialEq, Eq)]
pub struct Asked {
    /// What the thread asked.
    pub ask: Ask,
    /// What this was answered, if the thread was polled again.
    pub answer: Option<Answer>,
    /// Whether the part shows a block.
    pub blocked: bool,
}

/// How far a thread has come. Only proofs have values of it.
#[derive(Clone, Copy)]
pub struct Progress {
    /// Where it stands in its program, after its last ask.
    pub local: Local,
    /// What it last asked.
    pub last: Option<Asked>,
    /// How many entries its log has, at most 32.
    pub logged: usize,
}

/// What a turn was. Only proofs have values of it.
#[derive(Clone, Copy, PartialEq, Eq)]
pub struct Piece {
    /// The poll that was made in it, if one was.
    pub poll: Option<Poll>,
    /// Whether its part of the trace shows that the thread blocked.
    pub blocked: bool,
}

// Whether a fault can have ended a thread that was blocked by this ask.
fn may_fault(number: u8, ask: &Ask) -> bool
    ensures { result ≡ may_fault number ask.now }
{
    (number == 19 && (is_end(ask) || may_block(ask)))
        || (number == 20 && may_block(ask))
        || (number == 42 && is_fail(ask))
}

/// Whether a thread may be in this state that asked this last, which has no answer and blocked the thread, or didn't.
pub fn may_end_after(state: ThreadState, ask: &Ask, blocked: bool) -> bool
    ensures { result ≡ may_end_after state (record { ask = ask.now; answer = None; blocked = blocked }) }
{
    match state {
        ThreadState::Ready => blocked && may_block(ask),
        ThreadState::Waiting => blocked && may_wait(ask),
        ThreadState::Running => !is_end(ask),
        ThreadState::Exited => is_exit(ask),
        ThreadState::Faulted(fault) => blocked && may_fault(fault.number(), ask),
    }
}
