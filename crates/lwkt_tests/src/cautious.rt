//! A body that says what it does at a refusal.
ghost use Rattle.std.specs.Prelude.{◌≡◌};

use lwkt_base::{Answer, Ask, Fault, TokId};
use lwkt_machine::{Body, Stepper, Steps};

/// Gives a token up that it doesn't hold, and ends once that is refused. Were it answered, it would ask again.
#[derive(Drop)]
pub struct Cautious {
    pub refusals: u32,
}

impl Steps for Cautious {
    ghost use Rattle.lwkt_base.specs.declared.asks.Ask.{Ask};
    ghost use Rattle.lwkt_base.specs.declared.faults.Fault.{Fault};
    ghost use Rattle.lwkt_machine.specs.declared.steps.Heard.{Heard};

    ghost kept = { λ c. Unit {0} };

    ghost says = { λ c heard ask d. (asked : Ask) (fault : Fault) → heard ≡ Heard.Refusal asked fault → ask ≡ Ask.Exit };

    fn begin(&mut self) -> Ask {
        Ask::Rel(TokId(0))
    }

    fn answered(&mut self, asked: Ask, _answer: Answer) -> Ask {
        asked
    }

    fn refused(&mut self, _asked: Ask, _fault: Fault) -> Ask {
        self.refusals = self.refusals.saturating_add(1);
        Ask::Exit
    }
}

/// Polls the body twice, the second time with a refusal. By the contract of `poll` that comes to `refused`, so the body ends.
pub fn ends_at_a_refusal(body: &mut Stepper<Cautious>, fault: Fault) -> Ask
    ensures { result ≡ Ask.Exit }
{
    body.poll(Answer::Begin);
    body.poll(Answer::Refused(fault))
}
