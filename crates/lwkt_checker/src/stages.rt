ghost use Rattle.std.specs.Prelude.{◌≡◌, [], None, IfOk, IfErr, OnOk, length};
ghost use Rattle.lwkt_trace.specs.declared.traces.Closing.{Closing};
ghost use Rattle.lwkt_trace.specs.declared.traces.Trace.{Trace};
ghost use Rattle.lwkt_checker.specs.Judgement.{opening_of, AreValues, OpensTrace, IsJudgedTrace, DeclinesTrace};
ghost use Rattle.lwkt_checker.specs.Stages.{with_stated, with_last, IsStageOf};

use crate::differences::difference;
use crate::judges::Finding;
use crate::lacks::reason;
use crate::plays::event_stated;
use lwkt_base::{Fault, OutOfMemory};
use lwkt_core::{Final, State};
use lwkt_trace::{Stated, Trace};
use std::alloc::Global;

/// Where a judge stands with a trace that is fed to it piece by piece.
#[derive(Drop)]
pub enum Stage {
    /// All events so far can happen one after another, and lead to this state, which closes as the closing values say, where they
    /// have come.
    Plays(State),
    /// The index of the first event that can't happen, or the number of events where only the close differs; and the line
    /// that says which need isn't met, or which value differs.
    Fails { index: usize, why: String },
    /// The opening is refused so, with `Limits` or `LawBroken`.
    Declined(Fault),
}

// The opening state of a trace.
//
// Refused with `Limits` or `LawBroken` for its opening, and with `Memory` if an allocation is.
fn opening_of(alloc: Global, trace: &Trace) -> Result<State, Fault>
    ensures ok { IfOk result (λ state. state ≡ opening_of trace.now) }
    ensures opens { OnOk result (OpensTrace trace.now) }
    ensures refused { IfErr result (λ fault. DeclinesTrace trace.now fault) }
{
    State::open(
        alloc,
        trace.tokens.as_slice(),
        trace.messages.as_slice(),
        usize::from(trace.cpus),
    )
}

impl Stage {
    /// Where the judge stands with a trace in which nothing has happened yet.
    pub fn opened(alloc: Global, trace: &Trace) -> Result<Stage, OutOfMemory>
        requires events { trace.now.events ≡ [] }
        requires last { trace.now.last ≡ None }
        ensures { IfOk result (IsStageOf trace.now) }
    {
        match opening_of(alloc, trace) {
            Ok(state) => Ok(Stage::Plays(state)),
            Err(Fault::Memory(refused)) => Err(refused),
            Err(fault) => Ok(Stage::Declined(fault)),
        }
    }

    /// Where the judge stands with one event more, which has this index.
    pub fn and_event(
        self,
        alloc: Global,
        index: usize,
        stated: &Stated,
    ) -> Result<Stage, OutOfMemory>
        ensures { IfOk result (λ after. (trace : Trace) → trace.last ≡ None → index ≡ length trace.events → IsStageOf trace self → IsStageOf (with_stated trace stated.now) after) }
    {
        match self {
            Stage::Plays(state) => played(alloc, state, index, stated),
            other => Ok(other),
        }
    }

    /// Where the judge stands with these closing values, behind so many events.
    pub fn and_closing(
        self,
        alloc: Global,
        count: usize,
        last: &Final,
    ) -> Result<Stage, OutOfMemory>
        ensures { IfOk result (λ after. (trace : Trace) (closing : Closing) → trace.last ≡ None → count ≡ length trace.events → AreValues closing last.now → IsStageOf trace self → IsStageOf (with_last trace closing) after) }
    {
        match self {
            Stage::Plays(state) => closed(alloc, state, count, last),
            other => Ok(other),
        }
    }

    /// What the trace is: lawful, or the index at which it fails and why.
    ///
    /// Refused with `Limits` or `LawBroken` for its opening.
    pub fn finding(self) -> Result<Finding, Fault>
        ensures found { IfOk result (λ finding. (trace : Trace) → IsStageOf trace self → IsJudgedTrace trace finding) }
        ensures refused { IfErr result (λ fault. (trace : Trace) → IsStageOf trace self → DeclinesTrace trace fault) }
    {
        match self {
            Stage::Plays(_) => Ok(Finding::Lawful),
            Stage::Fails { index, why } => Ok(Finding::Unlawful { index, why }),
            Stage::Declined(fault) => Err(fault),
        }
    }
}

// Where a judge stands that plays the event of an index in this state.
fn played(alloc: Global, state: State, index: usize, stated: &Stated) -> Result<Stage, OutOfMemory>
    ensures { IfOk result (λ after. (trace : Trace) → trace.last ≡ None → index ≡ length trace.events → IsStageOf trace (Stage.Plays state) → IsStageOf (with_stated trace stated.now) after) }
{
    let mut state = state;
    let event = event_stated(&state, stated);
    match state.step(&event) {
        Ok(()) => Ok(Stage::Plays(state)),
        Err(_) => Ok(Stage::Fails {
            index,
            why: reason(alloc, &state, index, stated)?,
        }),
    }
}

// Where a judge stands that closes this state, behind so many events.
fn closed(alloc: Global, state: State, count: usize, last: &Final) -> Result<Stage, OutOfMemory>
    ensures { IfOk result (λ after. (trace : Trace) (closing : Closing) → trace.last ≡ None → count ≡ length trace.events → AreValues closing last.now → IsStageOf trace (Stage.Plays state) → IsStageOf (with_last trace closing) after) }
{
    if state.closes(last) {
        return Ok(Stage::Plays(state));
    }
    Ok(Stage::Fails {
        index: count,
        why: difference(alloc, &state, last)?,
    })
}
