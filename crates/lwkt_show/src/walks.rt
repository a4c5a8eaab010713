//! Which step of its program a thread makes, and what it makes on its way there.
ghost use Rattle.std.specs.Prelude.{◌≡◌, [], None, slice_get, if◌then◌else◌};
ghost use Rattle.lwkt_base.specs.declared.asks.Answer.TheVariants.{Begin};
ghost use Rattle.lwkt_code.specs.Accepted.{IsAccepted};
ghost use Rattle.lwkt_code.specs.Answers.{taken};
ghost use Rattle.lwkt_code.specs.Next.{ask_from, next};
ghost use Rattle.lwkt_code.specs.Programs.{start};
ghost use Rattle.lwkt_show.specs.Computed.{made_by};
ghost use Rattle.lwkt_show.specs.Keeping.{Keeps, KeepsAll, HasMade, made_from};

use lwkt_base::memory::push;
use lwkt_base::{Answer, Ask, OutOfMemory};
use lwkt_code::answers::take;
use lwkt_code::moves::act;
use lwkt_code::values::{held, holds};
use lwkt_code::{Code, Jump, Local, Step};
use std::alloc::Global;

/// What a thread makes by a step that asks nothing.
#[derive(Clone, Copy)]
pub enum Made {
    /// A variable holds this number now.
    Assigned(u8, u64),
    /// Whether the condition of the step at a place holds.
    Decided(usize, bool),
}

/// The way of a thread to an ask: the steps of its program, and what it made by some of them.
#[derive(Clone, Copy)]
pub struct Way<'a> {
    /// The steps.
    pub steps: &'a [Step],
    /// What it made, in order.
    pub made: &'a [Made],
}

/// What a thread made since its last ask, if that is wanted.
#[derive(Drop)]
pub(crate) struct Kept {
    wanted: bool,
    made: Vec<Made>,
    // That memory for some of it was refused, if it was.
    lost: Option<OutOfMemory>,
}

/// A thread on its way through its program: where it stands after the ask that it makes next.
#[derive(Drop)]
pub(crate) struct Walk {
    code: Code,
    local: Local,
    // What it asks next.
    ask: Ask,
    kept: Kept,
}

// Whether a step is written in its script by itself: the end of another one, an `else` and a count that is given up are not.
fn is_written(step: &Step) -> bool {
    !matches!(
        step,
        Step::Goto(Jump::Else | Jump::Back | Jump::End, _) | Step::Again(..) | Step::Count(_, 0)
    )
}

// How many of these steps are written by themselves.
fn count_written(steps: &[Step]) -> u64 {
    steps.iter().filter(|step| is_written(step)).count() as u64
}

// What the step at a place makes, which asks nothing and leaves these variables; nothing if it only leads on.
fn made_by(steps: &[Step], at: usize, vars: &[u64; 8]) -> Option<Made>
    ensures { result ≡ made_by (slice_get steps.now at) at vars.now }
{
    match steps.get(at) {
        Some(Step::Set(v, _)) => Some(Made::Assigned(*v, held(vars, *v))),
        Some(Step::Fault(v)) => Some(Made::Assigned(*v, held(vars, *v))),
        Some(Step::Unless(_, cond, _)) => Some(Made::Decided(at, holds(cond, vars))),
        Some(Step::Assert(cond, _)) => Some(Made::Decided(at, holds(cond, vars))),
        _ => None,
    }
}

impl Kept {
    // Keeps what a step made, if it made something.
    fn keep(&mut self, made: Option<Made>)
        ensures { Keeps self.old self.new made }
    {
        if !self.wanted {
            return;
        }
        if let Some(made) = made {
            if let Err(refused) = push(&mut self.made, made) {
                self.lost = Some(refused);
            }
        }
    }
}

// Makes the steps of a thread up to its next ask, and keeps what they make; what it asks then.
fn walk_on(steps: &[Step], local: &mut Local, kept: &mut Kept) -> Ask
    requires { IsAccepted steps.now }
    ensures ask { result ≡ (ask_from steps.now local.old).0 }
    ensures local { local.new ≡ (ask_from steps.now local.old).1 }
    ensures kept { KeepsAll kept.old kept.new (made_from steps.now local.old) }
{
    loop {
        let at = local.at;
        match act(steps, local) {
            Some(ask) => return ask,
            None => kept.keep(made_by(steps, at, &local.vars)),
        }
    }
}

impl Walk {
    /// A thread that was never polled; what it makes is kept if that is wanted.
    pub(crate) fn new(alloc: Global, code: Code, wanted: bool) -> Walk
        ensures ask { result.ask ≡ (next code.steps (start code) Begin).0 }
        ensures local { result.local ≡ (next code.steps (start code) Begin).1 }
        ensures kept { result.kept.lost ≡ None → result.kept.made.items ≡ (if wanted then made_from code.steps (taken code.steps (start code) Begin) else []) }
    {
        let local = code.start();
        let kept = Kept {
            wanted,
            made: Vec::new(alloc),
            lost: None,
        };
        let mut walk = Walk {
            code,
            local,
            ask: Ask::Exit,
            kept,
        };
        walk.go_on(&Answer::Begin);
        walk
    }

    /// The thread makes its ask, which gets this answer, and goes on to the next one.
    pub(crate) fn go_on(&mut self, answer: &Answer)
        ensures code { self.new.code ≡ self.old.code }
        ensures ask { self.new.ask ≡ (next self.old.code.steps self.old.local answer.now).0 }
        ensures local { self.new.local ≡ (next self.old.code.steps self.old.local answer.now).1 }
        ensures kept { HasMade self.old.kept self.new.kept (made_from self.old.code.steps (taken self.old.code.steps self.old.local answer.now)) }
    {
        self.kept.made.clear();
        let steps = self.code.steps();
        take(steps, &mut self.local, answer);
        self.ask = walk_on(steps, &mut self.local, &mut self.kept);
    }

    /// That memory for what it made was refused, if it was.
    pub(crate) fn lost(&self) -> Option<OutOfMemory> {
        self.kept.lost
    }

    /// Its way to its next ask.
    pub(crate) fn way(&self) -> Way<'_>
        ensures steps { result.steps.now ≡ self.now.code.steps }
        ensures made { result.made.now ≡ self.now.kept.made.items }
    {
        Way {
            steps: self.code.steps(),
            made: self.kept.made.as_slice(),
        }
    }

    /// Whether this answer to its ask may make an entry in its log.
    pub(crate) fn logs(&self, answer: &Answer) -> bool {
        self.code.logs(&self.local, answer)
    }

    /// How many steps its script has for it.
    pub(crate) fn steps(&self) -> u64 {
        count_written(self.code.steps())
    }

    /// How many times it makes them.
    pub(crate) fn repeat(&self) -> u64 {
        u64::from(self.code.repeat())
    }

    // Whether its ask is the end of its program: no step makes it.
    fn has_ended(&self) -> bool {
        let made = self.code.steps().get(self.local.at.saturating_sub(1));
        matches!(self.ask, Ask::Exit) && !matches!(made, Some(Step::Fixed(Ask::Exit)))
    }

    /// The number of the step that makes its ask, among all that it makes, where each repetition makes each step once.
    pub(crate) fn number(&self) -> u64 {
        if self.has_ended() {
            return self.repeat().saturating_mul(self.steps());
        }
        let time = self
            .repeat()
            .saturating_sub(u64::from(self.local.left).saturating_add(1));
        let before = match self.code.steps().get(..self.local.at.saturating_sub(1)) {
            Some(before) => count_written(before),
            None => 0,
        };
        time.saturating_mul(self.steps()).saturating_add(before)
    }
}
