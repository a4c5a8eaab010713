ghost use Rattle.std.specs.Prelude.{◌≡◌};
ghost use Rattle.lwkt_verdict.specs.Run.{poll_of};

use lwkt_base::{Answer, Ask, ThreadId};

/// One poll of a thread: what it asked, and what this was answered, if the thread was polled again.
#[derive(Clone, Copy, PartialEq, Eq)]
pub struct Poll {
    /// The answer, which the thread is given when it is polled again.
    pub answer: Option<Answer>,
    /// The ask.
    pub ask: Ask,
    /// The thread that was polled.
    pub thread: ThreadId,
}

/// One turn of a processor, which an order of processors names by the turn's place. The polls lie in a list of their own, since
/// most turns of a long run may have none.
#[derive(Clone, Copy, PartialEq, Eq)]
pub struct Turn {
    /// The place of the turn's poll among the polls, if it polled a thread.
    pub poll: Option<usize>,
    /// How many events of the trace are of this turn.
    pub events: usize,
}

/// By what the turns of a run follow one another. Only proofs have values of it.
#[derive(Clone, Copy, PartialEq, Eq)]
pub enum Pace {
    /// The processors take their turns in rounds, by rising number: so many rounds, or fewer, if the last one has no ask and
    /// every thread has ended.
    Rounds(u32),
    /// An order names the processor of each turn.
    Named,
}

/// The poll of a turn, by its place among the polls.
pub fn poll_of(polls: &[Poll], turn: &Turn) -> Option<Poll>
    ensures { result ≡ poll_of polls.now turn.now }
{
    match turn.poll {
        None => None,
        Some(place) => polls.get(place).copied(),
    }
}
