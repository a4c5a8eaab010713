//! Feeds a judge the trace that was read whole.
ghost use Rattle.std.specs.Prelude.{◌≡◌, [], None, IfOk, IfErr};
ghost use Rattle.lwkt_trace.specs.Recognised.{with_events};
ghost use Rattle.lwkt_checker.specs.Judgement.{IsJudgedTrace, DeclinesTrace};
ghost use Rattle.lwkt_checker.specs.Stages.{opening_alone};
ghost use Rattle.lwkt_checker.specs.Knows.{Knows};

use crate::judges::{Finding, Judge};
use lwkt_base::{Fault, OutOfMemory};
use lwkt_script::Series;
use lwkt_trace::{Closing, Stated, Trace};
use std::alloc::Global;

/// A trace in three parts: a trace in which nothing has happened yet, the events, and the closing values.
pub fn parted(alloc: Global, trace: Trace) -> (Trace, Series<Stated>, Option<Closing>)
    ensures opening { result.0 ≡ opening_alone trace }
    ensures events { result.1 ≡ trace.events }
    ensures last { result.2 ≡ trace.last }
{
    let Trace {
        cpus,
        tokens,
        messages,
        events,
        last,
    } = trace;
    let opening = Trace {
        cpus,
        tokens,
        messages,
        events: Series::from_vec(Vec::new(alloc)),
        last: None,
    };
    (opening, events, last)
}

// A judge that was fed an opening and events.
fn fed(alloc: Global, opening: &Trace, events: &[Stated]) -> Result<Judge, OutOfMemory>
    requires events { opening.now.events ≡ [] }
    requires last { opening.now.last ≡ None }
    ensures { IfOk result (Knows (with_events opening.now events.now)) }
{
    let mut judge = Judge::opened(alloc, opening)?;
    for stated in events {
        judge = judge.and_event(alloc, stated)?;
    }
    Ok(judge)
}

// The same of an opening and events that are let go.
fn fed_by(alloc: Global, opening: Trace, events: Series<Stated>) -> Result<Judge, OutOfMemory>
    requires events { opening.events ≡ [] }
    requires last { opening.last ≡ None }
    ensures { IfOk result (Knows (with_events opening events)) }
{
    fed(alloc, &opening, events.as_slice())
}

// A judge that was fed a trace.
fn fed_whole(alloc: Global, trace: Trace) -> Result<Judge, OutOfMemory>
    ensures { IfOk result (Knows trace) }
{
    let (opening, events, last) = parted(alloc, trace);
    match fed_by(alloc, opening, events) {
        Ok(judge) => judge.and_last(alloc, last),
        Err(refused) => Err(refused),
    }
}

/// What a trace is: lawful, or the index at which it fails and why.
///
/// Refused with `Limits` or `LawBroken` for its opening, and with `Memory` if an allocation is.
pub fn found_whole(alloc: Global, trace: Trace) -> Result<Finding, Fault>
    ensures ok { IfOk result (λ finding. IsJudgedTrace trace finding) }
    ensures refused { IfErr result (λ fault. DeclinesTrace trace fault) }
{
    match fed_whole(alloc, trace) {
        Ok(judge) => judge.finding(),
        Err(refused) => Err(Fault::Memory(refused)),
    }
}
