//! The one judge of traces. A trace is fed to it piece by piece, wherever the pieces come from: its opening, then its events one
//! after another, and at last its closing values, if it has some.
ghost use Rattle.std.specs.Prelude.{◌≡◌, ◌+◌, ◌<◌, [], true, false, None, IfOk, IfErr, string_bytes};
ghost use Rattle.lwkt_trace.specs.declared.traces.Trace.{Trace};
ghost use Rattle.lwkt_checker.specs.Judgement.{IsJudgedTrace, DeclinesTrace, finding_text};
ghost use Rattle.lwkt_checker.specs.Stages.{with_stated, with_last, closed_so};
ghost use Rattle.lwkt_checker.specs.Knows.{Knows};

use crate::stages::Stage;
use lwkt_base::memory::{push_str, put};
use lwkt_base::{Fault, OutOfMemory};
use lwkt_trace::{Closing, Stated, Trace};
use std::alloc::Global;

/// What a trace was found to be.
#[derive(Drop)]
pub enum Finding {
    /// The events can happen one after another, and end with the closing values, where there are any.
    Lawful,
    /// The index of the first event that can't happen, or the number of events if only the close differs; and a line that
    /// says which need isn't met, or which value differs.
    Unlawful { index: usize, why: String },
}

/// A judge of a trace, of which it keeps nothing but where it stands.
#[derive(Drop)]
pub struct Judge {
    /// How many events there were so far.
    pub count: usize,
    /// Whether the closing values have come.
    pub closed: bool,
    /// Where it stands with what it was fed.
    pub stage: Stage,
}

impl Judge {
    /// A judge that was fed an opening: a trace in which nothing has happened yet, and which has no closing values.
    pub fn opened(alloc: Global, opening: &Trace) -> Result<Judge, OutOfMemory>
        requires events { opening.now.events ≡ [] }
        requires last { opening.now.last ≡ None }
        ensures knows { IfOk result (Knows opening.now) }
        ensures counts { IfOk result (λ judge. (judge.count ≡ 0) × (judge.closed ≡ false)) }
    {
        Ok(Judge {
            count: 0,
            closed: false,
            stage: Stage::opened(alloc, opening)?,
        })
    }

    /// The judge with one event more.
    pub fn and_event(self, alloc: Global, stated: &Stated) -> Result<Judge, OutOfMemory>
        requires open { self.closed ≡ false }
        requires room { self.count < 18446744073709551615 }
        ensures knows { IfOk result (λ after. (trace : Trace) → Knows trace self → Knows (with_stated trace stated.now) after) }
        ensures counts { IfOk result (λ after. (after.count ≡ self.count + 1) × (after.closed ≡ false)) }
    {
        let Judge { count, stage, .. } = self;
        Ok(Judge {
            count: count + 1,
            closed: false,
            stage: stage.and_event(alloc, count, stated)?,
        })
    }

    /// The judge with closing values behind the events.
    pub fn and_closing(self, alloc: Global, closing: Closing) -> Result<Judge, OutOfMemory>
        requires { self.closed ≡ false }
        ensures knows { IfOk result (λ after. (trace : Trace) → Knows trace self → Knows (with_last trace closing) after) }
        ensures counts { IfOk result (λ after. (after.count ≡ self.count) × (after.closed ≡ true)) }
    {
        let Judge { count, stage, .. } = self;
        let last = closing.into_final();
        Ok(Judge {
            count,
            closed: true,
            stage: stage.and_closing(alloc, count, &last)?,
        })
    }

    /// The judge with closing values behind the events, or with none.
    pub fn and_last(self, alloc: Global, last: Option<Closing>) -> Result<Judge, OutOfMemory>
        requires { self.closed ≡ false }
        ensures { IfOk result (λ after. (trace : Trace) → Knows trace self → Knows (closed_so trace last) after) }
    {
        match last {
            None => Ok(self),
            Some(closing) => Ok(self.and_closing(alloc, closing)?),
        }
    }

    /// What the trace is: lawful, or the index at which it fails and why.
    ///
    /// Refused with `Limits` or `LawBroken` for its opening.
    pub fn finding(self) -> Result<Finding, Fault>
        ensures found { IfOk result (λ finding. (trace : Trace) → Knows trace self → IsJudgedTrace trace finding) }
        ensures refused { IfErr result (λ fault. (trace : Trace) → Knows trace self → DeclinesTrace trace fault) }
    {
        let Judge { stage, .. } = self;
        stage.finding()
    }
}

/// The text of a finding: `lawful`, or `unlawful INDEX` and the line that says why.
pub fn finding_text(alloc: Global, finding: &Finding) -> Result<String, OutOfMemory>
    ensures { IfOk result (λ text. string_bytes text ≡ finding_text finding.now) }
{
    let mut out = String::new(alloc);
    match finding {
        Finding::Lawful => push_str(&mut out, "lawful\n")?,
        Finding::Unlawful { index, why } => {
            put(&mut out, ("unlawful ", *index, "\n"))?;
            push_str(&mut out, why)?;
        }
    }
    Ok(out)
}
