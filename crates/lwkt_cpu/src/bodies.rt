//! What a thread does: its body.
ghost use Rattle.lwkt_base.specs.declared.asks.Ask.{Ask};
ghost use Rattle.lwkt_base.specs.declared.asks.Answer.{Answer};

use lwkt_base::{Answer, Ask};

/// What a thread does. It is polled while its processor holds the thread's list (token(9): a token is held only while its thread
/// runs). Each implementation returns and takes no memory.
pub trait Body {
    /// How a poll with an answer leads from a body to an ask and the body afterwards.
    ghost polled: { Self → Answer → Ask → Self → Type 0 };

    /// What the thread asks next. `last` is the answer to what it asked last: `Begin` at its first poll. After `Exit` there is no
    /// poll.
    fn poll(&mut self, last: Answer) -> Ask
        ensures { polled self.old last result self.new };
}
