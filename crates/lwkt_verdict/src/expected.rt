//! Which answers an ask can have, by its turn's part of the trace.
ghost use Rattle.std.specs.Prelude.{◌≡◌, IsTrue, true, false, Option, Some};
ghost use Rattle.lwkt_verdict.specs.declared.expected.Expected.TheVariants.{Refusal};
ghost use Rattle.lwkt_base.specs.declared.asks.Answer.{Answer};
ghost use Rattle.lwkt_verdict.specs.Asks.{is_refused};

use lwkt_base::blobs::same_bytes;
use lwkt_base::{Answer, Blob};

/// Which answers an ask can have by its turn's part of the trace, beside none at all. Of these it may be able to have only some, whatever
/// its part. A check writes it where it keeps it, since a record is long.
#[derive(Clone, Copy, PartialEq, Eq)]
pub enum Expected {
    /// Any: the ask makes no event of its own, or its event may have happened unasked too.
    Any,
    /// No refusal: the event of the ask is there; or it makes none, and a turn of its processor without an ask found its thread blocked.
    NoRefusal,
    /// A refusal: the event that the ask makes isn't there.
    Refusal,
    /// This value, which the event of the ask has read.
    Value(u64),
    /// This record, which the event of the ask has read.
    Bytes(Blob),
}

impl Expected {
    ghost use Rattle.lwkt_verdict.specs.Follow.{is_expected};

    /// Whether this answer is one of those.
    #[inline(always)]
    pub fn allows(&self, answer: &Answer) -> bool
        ensures { result ≡ is_expected self.now (Some answer.now) }
    {
        match self {
            Expected::Any => true,
            Expected::NoRefusal => !matches!(answer, Answer::Refused(_)),
            Expected::Refusal => matches!(answer, Answer::Refused(_)),
            Expected::Value(value) => match answer {
                Answer::Value(given) => *given == *value,
                _ => false,
            },
            Expected::Bytes(blob) => match answer {
                Answer::Bytes(given) => same_bytes(given, blob),
                _ => false,
            },
        }
    }

    /// Whether there are some that are no refusals. From now on those alone, if so.
    pub fn leave_refusals(&mut self) -> bool
        ensures left { IsTrue result → (answer : Option Answer) → is_expected self.new answer ≡ true → (is_expected self.old answer ≡ true) × (is_refused answer ≡ false) }
        ensures kept { IsTrue result → (answer : Option Answer) → is_expected self.old answer ≡ true → is_refused answer ≡ false → is_expected self.new answer ≡ true }
        ensures open { IsTrue result → ¬ (self.new ≡ Refusal) }
        ensures none { result ≡ false → self.old ≡ Refusal }
    {
        match self {
            Expected::Any => {
                *self = Expected::NoRefusal;
                true
            }
            Expected::Refusal => false,
            _ => true,
        }
    }
}
