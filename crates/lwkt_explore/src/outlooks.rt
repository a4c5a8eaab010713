//! What the threads of a script may touch from each place of their programs on, worked out once.
use crate::touches::{NOTHING, Touch, touched_by_step};
use lwkt_base::memory::push;
use lwkt_base::{Ask, OutOfMemory};
use lwkt_code::{Code, Local, Step};
use lwkt_script::Script;
use std::alloc::Global;

// An opening generation from which a search doesn't come to the last one.
const LOW: u64 = 35184372088832;

// A step of a program.
#[derive(Clone, Copy)]
struct Prospect {
    // what it may touch
    step: Touch,
    // whether the thread may not run any more then
    leaves: bool,
    // what it and all steps behind it may touch
    rest: Touch,
}

/// What a thread may touch.
#[derive(Drop)]
pub(crate) struct Outlook {
    // whether each step is an ask that is the same each time
    is_list: bool,
    steps: Vec<Prospect>,
}

/// What the threads of a script may touch, by number, and whether a token may come to its last generation, at which a search for a thread
/// ends more than one.
#[derive(Drop)]
pub(crate) struct Outlooks {
    all: Vec<Outlook>,
    /// Whether one may.
    pub wears: bool,
}

// Whether a thread that asks this may not run any more then: it ends, or gives its tokens up, and a broken law ends it there.
fn may_leave(ask: &Ask) -> bool {
    matches!(
        ask,
        Ask::Exit
            | Ask::Fail(_)
            | Ask::Yield
            | Ask::WaitPort
            | Ask::Do(..)
            | Ask::Get(_)
            | Ask::GetShared(_)
    )
}

// A step, and nothing behind it.
fn prospect_of(step: &Step) -> Prospect {
    let touch = touched_by_step(step);
    let leaves = match step {
        Step::Fixed(ask) => may_leave(ask),
        _ => true,
    };
    Prospect {
        step: touch,
        leaves,
        rest: touch,
    }
}

// Adds to each step what those behind it may touch.
fn look_ahead(steps: &mut [Prospect]) {
    let mut rest = NOTHING;
    for back in 0..steps.len() {
        let at = steps.len() - 1 - back;
        rest = rest.and(steps[at].step);
        steps[at].rest = rest;
    }
}

impl Outlook {
    // That of a program.
    fn of(alloc: Global, code: &Code) -> Result<Outlook, OutOfMemory> {
        let mut steps = Vec::new(alloc);
        for step in code.steps() {
            push(&mut steps, prospect_of(step))?;
        }
        look_ahead(&mut steps);
        let is_list = code
            .steps()
            .iter()
            .all(|step| matches!(step, Step::Fixed(_)));
        Ok(Outlook { is_list, steps })
    }

    // What its steps from a place on may touch.
    fn from(&self, at: usize) -> Touch {
        match self.steps.get(at) {
            Some(prospect) => prospect.rest,
            None => NOTHING,
        }
    }

    // What the step at a place may touch, and whether the thread may not run any more then; where there is none, the thread exits.
    fn at(&self, at: usize) -> (Touch, bool) {
        match self.steps.get(at) {
            Some(prospect) => (prospect.step, prospect.leaves),
            None => (NOTHING, true),
        }
    }

    /// What the next ask of the thread may touch, and whether the thread may not run any more then. Of one that decides it may be any ask
    /// of its program.
    pub(crate) fn next(&self, local: &Local) -> (Touch, bool) {
        if !self.is_list {
            return (self.from(0), true);
        }
        if local.at >= self.steps.len() && local.left > 0 && local.asked {
            self.at(0)
        } else {
            self.at(local.at)
        }
    }

    /// What the steps may touch that the thread may still come to.
    pub(crate) fn later(&self, local: &Local) -> Touch {
        if local.left > 0 || !self.is_list {
            self.from(0)
        } else {
            self.from(local.at)
        }
    }
}

impl Outlooks {
    /// Those of a script.
    pub(crate) fn of(alloc: Global, script: &Script) -> Result<Outlooks, OutOfMemory> {
        let mut all = Vec::new(alloc);
        for spec in script.threads.as_slice() {
            push(&mut all, Outlook::of(alloc, &spec.code)?)?;
        }
        let wears = script
            .tokens
            .as_slice()
            .iter()
            .any(|token| token.generation >= LOW);
        Ok(Outlooks { all, wears })
    }

    /// That of the thread of a number.
    pub(crate) fn get(&self, number: usize) -> Option<&Outlook> {
        self.all.get(number)
    }
}
