//! Whole programs.
ghost use Rattle.std.specs.Prelude.{◌≡◌, ℕ, ◌<◌, ◌≤◌, ◌-◌, false, IfOk, IfErr, IfSome, OnOk, Option, Some, None, MatchOption, is_some, length, slice_get};
ghost use Rattle.std.specs.Option.{option_copied};
ghost use Rattle.lwkt_code.specs.declared.steps.Step.TheVariants.{Fixed};
ghost use Rattle.lwkt_code.specs.Programs.{IsSound, flaw_at, IsFirstFlaw, circle_of, IsWrong, start, listed, listed_program};
ghost use Rattle.lwkt_code.specs.Firsts.{AreClear, IsFirstWrong};
ghost use Rattle.lwkt_code.specs.Answers.{last_step, logs};
ghost use Rattle.lwkt_code.specs.Next.{next, standing};

use crate::answers::logs;
use crate::checks::{Flaw, flaw_of};
pub use crate::circles::MOST_STEPS;
use crate::circles::find_circle;
use crate::copies::copy_steps;
use crate::locals::Local;
use crate::moves::{next, pass};
use crate::steps::Step;
use lwkt_base::memory::{push, with_capacity_for};
use lwkt_base::{Answer, Ask, OutOfMemory};
use std::alloc::Global;
use std::marker::Model;

/// Why steps aren't a program.
#[derive(Clone, Copy, PartialEq, Eq)]
pub enum Wrong {
    /// There are more than 768.
    TooMany,
    /// The step at this place is wrong by itself.
    Step(usize, Flaw),
    /// The loop between these places goes round without an ask: the first place that it comes to, and the one that leads back there.
    Circle(usize, usize),
}

/// The program of a thread: steps, how many times they are made, and what the variables hold first. Whatever goes on for ever in it makes
/// asks.
#[derive(Drop)]
pub struct Code {
    steps: Vec<Step>,
    repeat: u32,
    vars: [u64; 8],
}

impl Model for Code {
    ghost use Rattle.lwkt_code.specs.Programs.{Program, IsSound};
    ghost use Rattle.std.specs.Coded.{codes};
    ghost use Rattle.lwkt_code.specs.Codes.{term_code, formula_code};

    ghost Value = { Program };

    ghost coded = { Prim.hlevel (codes, term_code, formula_code) };

    ghost view = { λ c. record { steps = c.steps.items; repeat = c.repeat; vars = c.vars } };

    ghost invariant = { λ c. IsSound c.steps.items };
}

// What is wrong with the step at a place.
fn flaw_at(steps: &[Step], at: usize) -> Option<Flaw>
    ensures { result ≡ flaw_at steps.now at }
{
    match steps.get(at) {
        None => None,
        Some(step) => flaw_of(steps.len(), step),
    }
}

// The first step that is wrong by itself.
fn find_flaw(steps: &[Step]) -> Option<(usize, Flaw)>
    ensures { MatchOption result ((k : ℕ) → k < length steps.now → flaw_at steps.now k ≡ None) (λ r. IsFirstFlaw steps.now r.0 r.1) }
{
    for at in 0..steps.len() {
        match flaw_at(steps, at) {
            None => {}
            Some(flaw) => return Some((at, flaw)),
        }
    }
    None
}

// What is wrong with steps that have such a loop.
fn of_circle(found: Option<(usize, usize)>) -> Option<Wrong>
    ensures { result ≡ circle_of found }
{
    match found {
        None => None,
        Some(circle) => Some(Wrong::Circle(circle.0, circle.1)),
    }
}

// What is wrong with steps that are right by themselves.
fn find_wrong_circle(steps: &[Step]) -> Option<Wrong>
    requires few { length steps.now ≤ MOST_STEPS }
    requires flawless { (k : ℕ) → k < length steps.now → flaw_at steps.now k ≡ None }
    ensures why { MatchOption result (IsSound steps.now) (IsWrong steps.now) }
    ensures first { MatchOption result (AreClear steps.now) (IsFirstWrong steps.now) }
{
    of_circle(find_circle(steps))
}

// What is wrong with steps.
#[tactic(auto, using(crate::proofs::FirstWrong::flaw_first))]
fn find_wrong(steps: &[Step]) -> Option<Wrong>
    ensures why { MatchOption result (IsSound steps.now) (IsWrong steps.now) }
    ensures first { MatchOption result (AreClear steps.now) (IsFirstWrong steps.now) }
{
    if steps.len() > MOST_STEPS {
        return Some(Wrong::TooMany);
    }
    match find_flaw(steps) {
        None => find_wrong_circle(steps),
        Some(found) => Some(Wrong::Step(found.0, found.1)),
    }
}

// The steps of a list of asks.
fn list_steps(alloc: Global, asks: &[Ask]) -> Result<Vec<Step>, OutOfMemory>
    ensures { IfOk result (λ steps. steps.items ≡ listed asks.now) }
{
    let mut steps = with_capacity_for(alloc, asks)?;
    for ask in asks {
        push(&mut steps, Step::Fixed(*ask))?;
    }
    Ok(steps)
}

impl Code {
    /// The program that makes these asks in order, so many times over.
    pub fn listed(alloc: Global, asks: &[Ask], repeat: u32) -> Result<Code, OutOfMemory>
        ensures { IfOk result (λ code. code ≡ listed_program asks.now repeat) }
    {
        let steps = list_steps(alloc, asks)?;
        Ok(Code {
            steps,
            repeat,
            vars: [0; 8],
        })
    }

    /// The same program, in memory of its own.
    pub fn copy(&self, alloc: Global) -> Result<Code, OutOfMemory>
        ensures { IfOk result (λ code. code ≡ self.now) }
    {
        let steps = copy_steps(alloc, self.steps.as_slice())?;
        Ok(Code {
            steps,
            repeat: self.repeat,
            vars: self.vars,
        })
    }

    /// The program of these steps, which are made `repeat` times, with what its variables hold first; or why there is none.
    pub fn new(steps: Vec<Step>, repeat: u32, vars: [u64; 8]) -> Result<Code, Wrong>
        ensures made { IfOk result (λ code. code ≡ record { steps = steps.items; repeat = repeat; vars = vars }) }
        ensures sound { IfOk result (λ code. IsSound steps.items) }
        ensures wrong { IfErr result (IsWrong steps.items) }
        ensures clear { OnOk result (AreClear steps.items) }
        ensures first { IfErr result (IsFirstWrong steps.items) }
    {
        match find_wrong(steps.as_slice()) {
            None => Ok(Code {
                steps,
                repeat,
                vars,
            }),
            Some(wrong) => Err(wrong),
        }
    }

    /// Where a thread stands that has asked nothing yet.
    pub fn start(&self) -> Local
        ensures { result ≡ start self.now }
    {
        Local {
            at: if self.repeat == 0 {
                self.steps.len()
            } else {
                0
            },
            left: self.repeat.saturating_sub(1),
            vars: self.vars,
            counts: [0; 8],
            refused: 0,
            asked: false,
        }
    }

    /// Goes on past the ask that stands where a thread stands, if one does that is the same each time, given the answer to its last ask;
    /// that ask, which stands before the place where the thread then stands. `None` where something else comes first: then the thread
    /// stays where it is, and `next` tells what it asks.
    #[inline(always)]
    pub fn pass(&self, local: &mut Local, answer: &Answer) -> Option<&Ask>
        ensures asks { option_copied result ≡ standing self.now.steps local.old }
        ensures ahead { IfSome (option_copied result) (λ ask. 0 < local.new.at) }
        ensures stands { IfSome (option_copied result) (λ ask. slice_get self.now.steps (local.new.at - 1) ≡ Some (Fixed ask)) }
        ensures passes { IfSome (option_copied result) (λ ask. next self.now.steps local.old answer.now ≡ (ask, local.new)) }
        ensures stays { is_some result ≡ false → local.new ≡ local.old }
    {
        pass(self.steps.as_slice(), local, answer)
    }

    /// What a thread asks next, given the answer to its last ask: `Answer::Begin` if it asked nothing yet.
    #[inline(always)]
    pub fn next(&self, local: &mut Local, answer: &Answer) -> Ask
        ensures ask { result ≡ (next self.now.steps local.old answer.now).0 }
        ensures local { local.new ≡ (next self.now.steps local.old answer.now).1 }
    {
        next(self.steps.as_slice(), local, answer)
    }

    /// Whether the answer to a thread's last ask may make an entry in its log: each does, but that a token wasn't taken, if a try puts that
    /// in a place.
    pub fn logs(&self, local: &Local, answer: &Answer) -> bool
        ensures { result ≡ logs (last_step self.now.steps local.now) answer.now }
    {
        logs(self.steps.as_slice(), local, answer)
    }

    /// The steps.
    pub fn steps(&self) -> &[Step]
        ensures steps { result.now ≡ self.now.steps }
        ensures sound { IsSound self.now.steps }
    {
        self.steps.as_slice()
    }

    /// How many times they are made.
    pub fn repeat(&self) -> u32
        ensures { result ≡ self.now.repeat }
    {
        self.repeat
    }

    /// What the variables hold first.
    pub fn vars(&self) -> &[u64; 8]
        ensures { result.now ≡ self.now.vars }
    {
        &self.vars
    }
}
