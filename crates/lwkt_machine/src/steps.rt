//! Bodies that go from ask to answer.
ghost use Rattle.std.specs.Prelude.{◌≡◌, None, Some, ⊤};
ghost use Rattle.lwkt_machine.specs.Steps.{heard_of};

use crate::lasting::Lasting;
use lwkt_base::{Answer, Ask, Fault};
use lwkt_cpu::Body;

/// What a thread heard before it asks.
#[derive(Clone, Copy, PartialEq, Eq)]
pub enum Heard {
    /// Nothing: it was never polled.
    Nothing,
    /// An answer, beside the ask that it answers. It is no refusal.
    Answer(Ask, Answer),
    /// Why an ask was refused, beside that ask.
    Refusal(Ask, Fault),
}

/// What a thread does, step by step: it is given each answer beside the ask that it answers, and says what it asks next. A refusal
/// comes apart from the answers, so that none is taken for another one.
pub trait Steps {
    ghost use Rattle.lwkt_base.specs.declared.asks.Ask.{Ask};
    ghost use Rattle.lwkt_machine.specs.declared.steps.Heard.{Heard};

    /// What holds before the first step and after each. One that keeps nothing in particular says `λ b. Unit {0}`.
    ghost kept: { Self → Type 0 };

    /// How a step leads from what the thread heard to what it asks next. One that says nothing of it leaves this out.
    ghost says: { Self → Heard → Ask → Self → Type 0 } = { λ b heard ask d. ⊤ };

    /// What it asks first, at its first poll.
    fn begin(&mut self) -> Ask
        ensures kept { kept self.old → kept self.new }
        ensures says { says self.old Heard.Nothing result self.new };

    /// What it asks after this answer to that ask. The answer is no `Refused`.
    fn answered(&mut self, asked: Ask, answer: Answer) -> Ask
        ensures kept { kept self.old → kept self.new }
        ensures says { says self.old (Heard.Answer asked answer) result self.new };

    /// What it asks after that ask was refused with this fault.
    fn refused(&mut self, asked: Ask, fault: Fault) -> Ask
        ensures kept { kept self.old → kept self.new }
        ensures says { says self.old (Heard.Refusal asked fault) result self.new };
}

/// A body that makes these steps.
#[derive(Drop)]
pub struct Stepper<S> {
    /// The steps, as the last poll left them.
    pub steps: S,
    asked: Option<Ask>,
}

// What a thread heard, by what it asked last and the answer to it.
fn heard_of(asked: Option<Ask>, last: Answer) -> Heard
    ensures { result ≡ heard_of asked last }
{
    let Some(asked) = asked else {
        return Heard::Nothing;
    };
    match last {
        Answer::Refused(fault) => Heard::Refusal(asked, fault),
        answer => Heard::Answer(asked, answer),
    }
}

impl<S> Stepper<S> {
    /// A body that was never polled.
    pub fn new(steps: S) -> Stepper<S>
        ensures steps { result.steps ≡ steps }
        ensures asked { result.asked ≡ None }
    {
        Stepper { steps, asked: None }
    }
}

impl<S: Steps> Stepper<S> {
    // What it asks after this answer.
    fn step(&mut self, last: Answer) -> Ask
        ensures kept { S.kept self.old.steps → S.kept self.new.steps }
        ensures says { S.says self.old.steps (heard_of self.old.asked last) result self.new.steps }
    {
        match heard_of(self.asked, last) {
            Heard::Nothing => self.steps.begin(),
            Heard::Answer(asked, answer) => self.steps.answered(asked, answer),
            Heard::Refusal(asked, fault) => self.steps.refused(asked, fault),
        }
    }

    // Keeps what was asked.
    fn note(&mut self, ask: &Ask)
        ensures steps { self.new.steps ≡ self.old.steps }
        ensures asked { self.new.asked ≡ Some ask.now }
    {
        self.asked = Some(*ask);
    }
}

impl<S: Steps> Body for Stepper<S> {
    ghost use Rattle.lwkt_machine.specs.Steps.{IsStep};

    ghost polled = { λ b last ask d. IsStep S.kept S.says b last ask d };

    fn poll(&mut self, last: Answer) -> Ask {
        let ask = self.step(last);
        self.note(&ask);
        ask
    }
}

impl<S: Steps> Lasting for Stepper<S> {
    ghost kept = { λ b. S.kept b.steps };

    ghost keeps = { λ b last ask d step before. step.keeps before };
}
