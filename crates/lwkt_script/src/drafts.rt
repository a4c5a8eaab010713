ghost use Rattle.std.specs.Prelude.{◌≡◌, IfOk};
ghost use Rattle.lwkt_script.specs.Sentences.{nothing_said, with_step};

use crate::scopes::Scope;
use lwkt_base::OutOfMemory;
use lwkt_base::memory::push;
use lwkt_code::{Series, Step};
use std::alloc::Global;

/// The numbers of the sentences at which a step is told.
#[derive(Clone, Copy)]
pub struct Line {
    /// The sentence that the step is of.
    pub sentence: u8,
    /// The innermost loop that the step stands at or in, or else its sentence.
    pub round: u8,
}

/// What the sentences of a thread make so far.
#[derive(Drop)]
pub struct Draft {
    pub steps: Series<Step>,
    /// What is told of each step.
    pub lines: Series<Line>,
    /// How many sentences were begun.
    pub said: u32,
}

impl Draft {
    /// Before any sentence.
    pub fn new(alloc: Global) -> Draft
        ensures { result ≡ nothing_said }
    {
        Draft {
            steps: Series::from_vec(Vec::new(alloc)),
            lines: Series::from_vec(Vec::new(alloc)),
            said: 0,
        }
    }

    /// One step more, of a sentence.
    pub fn with(self, scope: Scope, sentence: u8, step: Step) -> Result<Draft, OutOfMemory>
        ensures { IfOk result (λ draft. draft ≡ with_step scope sentence step self) }
    {
        let Draft { steps, lines, said } = self;
        let round = scope.round.unwrap_or(sentence);
        let mut all = steps.into_vec();
        push(&mut all, step)?;
        let mut told = lines.into_vec();
        push(&mut told, Line { sentence, round })?;
        Ok(Draft {
            steps: Series::from_vec(all),
            lines: Series::from_vec(told),
            said,
        })
    }
}
