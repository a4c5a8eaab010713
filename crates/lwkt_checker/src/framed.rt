//! Feeds a judge a trace that is written just as `trace_text` writes one, with closing values or without any: its events as they
//! are read one after another, none of which is kept.
ghost use Rattle.std.specs.Prelude.{◌≡◌, [], false, Ok, None, Some, IfOk, IfErr, IfSome};
ghost use Rattle.lwkt_trace.specs.declared.traces.Trace.{Trace};
ghost use Rattle.lwkt_trace.specs.Format.{trace_of};
ghost use Rattle.lwkt_checker.specs.Judgement.{IsJudgedTrace, RefusesTrace};
ghost use Rattle.lwkt_checker.specs.Knows.{Knows, KnowsWritten};
ghost use Rattle.lwkt_checker.specs.Stages.{closed_so};
ghost use Rattle.lwkt_checker.specs.declared.judges.Judge.{Judge};

use crate::judges::{Finding, Judge};
use crate::trees::parted;
use lwkt_base::limits::{TRACE_BYTES, TRACE_EVENTS};
use lwkt_base::{Fault, OutOfMemory};
use lwkt_trace::{Closing, Trace, frame_of, next_written, parts_of, stated_alone};
use std::alloc::Global;

// A judge that was fed an opening and the events of a text, if the text has nothing but events as they are written.
fn fed(alloc: Global, opening: &Trace, text: &[u8]) -> Result<Option<Judge>, OutOfMemory>
    requires events { opening.now.events ≡ [] }
    requires last { opening.now.last ≡ None }
    ensures { IfOk result (λ found. IfSome found (KnowsWritten opening.now text.now)) }
{
    let mut judge = Judge::opened(alloc, opening)?;
    let mut from = 0;
    while from < text.len() {
        if judge.count >= TRACE_EVENTS {
            return Ok(None);
        }
        let Some((event, size)) = next_written(&text[from..], judge.count) else {
            return Ok(None);
        };
        judge = judge.and_event(alloc, &stated_alone(&event))?;
        from += size;
    }
    Ok(Some(judge))
}

// The same of an opening that is let go.
fn fed_by(alloc: Global, opening: Trace, text: &[u8]) -> Result<Option<Judge>, OutOfMemory>
    requires events { opening.events ≡ [] }
    requires last { opening.last ≡ None }
    ensures { IfOk result (λ found. IfSome found (KnowsWritten opening text.now)) }
{
    fed(alloc, &opening, text)
}

// A judge, if there is one, with closing values behind the events, or with none.
fn closed_by(
    alloc: Global,
    judge: Option<Judge>,
    last: Option<Closing>,
) -> Result<Option<Judge>, OutOfMemory>
    requires { IfSome judge (λ j. j.closed ≡ false) }
    ensures { IfOk result (λ found. IfSome found (λ after. (before : Judge) × ((judge ≡ Some before) × ((trace : Trace) → Knows trace before → Knows (closed_so trace last) after)))) }
{
    match judge {
        None => Ok(None),
        Some(fed) => Ok(Some(fed.and_last(alloc, last)?)),
    }
}

// A judge that was fed a trace with the events of a text in place of its own, if the text has nothing but events as they are
// written.
fn fed_with(alloc: Global, trace: Trace, text: &[u8]) -> Result<Option<Judge>, OutOfMemory>
    ensures { IfOk result (λ found. IfSome found (KnowsWritten trace text.now)) }
{
    let (opening, _, last) = parted(alloc, trace);
    match fed_by(alloc, opening, text) {
        Ok(judge) => closed_by(alloc, judge, last),
        Err(refused) => Err(refused),
    }
}

// A judge that was fed the trace that the bytes are, if they are one that is written so.
fn fed_of(alloc: Global, bytes: &[u8]) -> Result<Option<Judge>, OutOfMemory>
    ensures { IfOk result (λ found. IfSome found (λ judge. (trace : Trace) × ((trace_of bytes.now ≡ Ok trace) × Knows trace judge))) }
{
    if bytes.len() > TRACE_BYTES {
        return Ok(None);
    }
    let Some((front, events, back)) = parts_of(bytes) else {
        return Ok(None);
    };
    match frame_of(alloc, front, back)? {
        None => Ok(None),
        Some(trace) => fed_with(alloc, trace, events),
    }
}

/// What the trace that the bytes are is found to be, if they are one that is written so. None says nothing of the bytes.
///
/// Refused with `Limits` or `LawBroken` for its opening, and with `Memory` if an allocation is.
pub fn found_written(alloc: Global, bytes: &[u8]) -> Result<Option<Finding>, Fault>
    ensures found { IfOk result (λ found. IfSome found (λ finding. (trace : Trace) × ((trace_of bytes.now ≡ Ok trace) × IsJudgedTrace trace finding))) }
    ensures refused { IfErr result (λ fault. RefusesTrace bytes.now fault) }
{
    match fed_of(alloc, bytes) {
        Ok(None) => Ok(None),
        Ok(Some(judge)) => match judge.finding() {
            Ok(finding) => Ok(Some(finding)),
            Err(fault) => Err(fault),
        },
        Err(refused) => Err(Fault::Memory(refused)),
    }
}
