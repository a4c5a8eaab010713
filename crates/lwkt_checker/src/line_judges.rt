ghost use Rattle.std.specs.Prelude.{◌≡◌, ◌<◌, ℕ, [], false, Option, Some, None, Ok, IfOk, IfErr, MatchOption};
ghost use Rattle.serde_json.specs.Data.{Data};
ghost use Rattle.serde_json.specs.View.{view};
ghost use Rattle.lwkt_script.specs.Outcome.{Gives, IsFaultOf as IsRefused, part};
ghost use Rattle.lwkt_trace.specs.Words.{event_of};
ghost use Rattle.lwkt_trace.specs.declared.traces.Trace.{Trace};
ghost use Rattle.lwkt_checker.specs.Judgement.{IsJudgedTrace, DeclinesTrace};
ghost use Rattle.lwkt_checker.specs.Knows.{Knows};
ghost use Rattle.lwkt_checker.specs.Line.{value_of};
ghost use Rattle.lwkt_checker.specs.LineFormat.{event_place, with_event, with_closing, with_line, next};
ghost use Rattle.lwkt_checker.specs.LineJudged.{KnowsSo, Judges, lines_behind, lines_still, lines_left};

use crate::judges::{Finding, Judge};
use crate::line_openings::opened;
use crate::line_values::value_of;
use lwkt_base::{Fault, OutOfMemory};
use lwkt_trace::{Stated, Trace, closing_at, event_of, stated_alone, written_event};
use serde_json::Value;
use std::alloc::Global;

// The most events.
const EVENT_LIMIT: usize = 1_000_000_000_000_000;

// The most events whose places have numbers of their own.
const PLACE_LIMIT: usize = 50_000_000;

/// Feeds a judge a trace line by line.
#[derive(Drop)]
pub struct LineJudge {
    /// The judge of the lines so far, or none before the first.
    pub judge: Option<Judge>,
}

// The place of the event of an index.
fn event_place(index: usize) -> u32
    ensures { result ≡ event_place index }
{
    1_000_000 + index.min(PLACE_LIMIT) as u32
}

// The value that a line is, or the fault of one that is none, at a place.
fn value_at(alloc: Global, place: u32, line: &[u8]) -> Result<Value, Fault>
    ensures { Gives view result (part place (value_of line.now)) }
{
    match value_of(alloc, line) {
        Ok(Some(value)) => Ok(value),
        Ok(None) => Err(Fault::Script { place }),
        Err(refused) => Err(Fault::Memory(refused)),
    }
}

// The judge of an opening that is let go.
fn begun(alloc: Global, opening: Trace) -> Result<Judge, OutOfMemory>
    requires events { opening.events ≡ [] }
    requires last { opening.last ≡ None }
    ensures knows { IfOk result (Knows opening) }
    ensures counts { IfOk result (λ judge. (judge.count ≡ 0) × (judge.closed ≡ false)) }
{
    Judge::opened(alloc, &opening)
}

// The judge of the opening that a line is.
fn opened_by(alloc: Global, line: &[u8]) -> Result<Judge, Fault>
    ensures stated { IfOk result (λ judge. (trace : Trace) × ((next None line.now ≡ Ok (Some trace)) × Knows trace judge)) }
    ensures fewer { IfOk result (λ judge. lines_behind judge < 1000000000000002) }
    ensures refused { IfErr result (λ fault. IsRefused fault (next None line.now)) }
{
    let value = value_at(alloc, 0, line)?;
    let opening = opened(alloc, &value)?;
    match begun(alloc, opening) {
        Ok(judge) => Ok(judge),
        Err(refused) => Err(Fault::Memory(refused)),
    }
}

// The judge with an event that is stated so.
fn with_stated(alloc: Global, judge: Judge, stated: &Stated) -> Result<Judge, Fault>
    requires { judge.closed ≡ false }
    ensures stated { IfOk result (λ after. (trace : Trace) (d : Data) → Knows trace judge → event_of d ≡ Some stated.now → (u : Trace) × ((with_event trace d ≡ Ok u) × Knows u after)) }
    ensures fewer { IfOk result (λ after. lines_behind after < lines_behind judge) }
    ensures refused { IfErr result (λ fault. (trace : Trace) (d : Data) → Knows trace judge → event_of d ≡ Some stated.now → IsRefused fault (with_event trace d)) }
{
    if judge.count >= EVENT_LIMIT {
        return Err(Fault::Script {
            place: event_place(judge.count),
        });
    }
    match judge.and_event(alloc, stated) {
        Ok(after) => Ok(after),
        Err(refused) => Err(Fault::Memory(refused)),
    }
}

// The judge with the event that a value is.
fn with_event(alloc: Global, judge: Judge, value: &Value) -> Result<Judge, Fault>
    requires { judge.closed ≡ false }
    ensures stated { IfOk result (λ after. (trace : Trace) → Knows trace judge → (u : Trace) × ((with_event trace (view value.now) ≡ Ok u) × Knows u after)) }
    ensures fewer { IfOk result (λ after. lines_behind after < lines_behind judge) }
    ensures refused { IfErr result (λ fault. (trace : Trace) → Knows trace judge → IsRefused fault (with_event trace (view value.now))) }
{
    match event_of(value) {
        Some(stated) => with_stated(alloc, judge, &stated),
        None => Err(Fault::Script {
            place: event_place(judge.count),
        }),
    }
}

// The judge with the closing values that a value is.
fn with_closing(alloc: Global, judge: Judge, value: &Value) -> Result<Judge, Fault>
    requires { judge.closed ≡ false }
    ensures stated { IfOk result (λ after. (trace : Trace) → Knows trace judge → (u : Trace) × ((with_closing trace (view value.now) ≡ Ok u) × Knows u after)) }
    ensures fewer { IfOk result (λ after. lines_behind after < lines_behind judge) }
    ensures refused { IfErr result (λ fault. (trace : Trace) → IsRefused fault (with_closing trace (view value.now))) }
{
    let closing = closing_at(alloc, value)?;
    match judge.and_closing(alloc, closing) {
        Ok(after) => Ok(after),
        Err(refused) => Err(Fault::Memory(refused)),
    }
}

// The judge with what a line is, before the closing values.
fn with_value_of(alloc: Global, judge: Judge, line: &[u8]) -> Result<Judge, Fault>
    requires { judge.closed ≡ false }
    ensures stated { IfOk result (λ after. (trace : Trace) → Knows trace judge → (u : Trace) × ((with_line trace line.now ≡ Ok u) × Knows u after)) }
    ensures fewer { IfOk result (λ after. lines_behind after < lines_behind judge) }
    ensures refused { IfErr result (λ fault. (trace : Trace) → Knows trace judge → IsRefused fault (with_line trace line.now)) }
{
    let value = match value_at(alloc, event_place(judge.count), line) {
        Ok(value) => value,
        Err(fault) => return Err(fault),
    };
    if value.is_object() {
        with_closing(alloc, judge, &value)
    } else {
        with_event(alloc, judge, &value)
    }
}

// The judge with a line behind the opening, which is read by its bytes alone where it is an event just as it is written.
fn with_line(alloc: Global, judge: Judge, line: &[u8]) -> Result<Judge, Fault>
    ensures stated { IfOk result (λ after. (trace : Trace) → Knows trace judge → (u : Trace) × ((with_line trace line.now ≡ Ok u) × Knows u after)) }
    ensures fewer { IfOk result (λ after. lines_behind after < lines_behind judge) }
    ensures refused { IfErr result (λ fault. (trace : Trace) → Knows trace judge → IsRefused fault (with_line trace line.now)) }
{
    if judge.closed {
        return Err(Fault::Script { place: 6 });
    }
    match written_event(line) {
        Some(event) => with_stated(alloc, judge, &stated_alone(&event)),
        None => with_value_of(alloc, judge, line),
    }
}

// The judge with a line more.
fn with_next(alloc: Global, judge: Option<Judge>, line: &[u8]) -> Result<Judge, Fault>
    ensures stated { IfOk result (λ after. (before : Option Trace) → KnowsSo judge before → (u : Trace) × ((next before line.now ≡ Ok (Some u)) × Knows u after)) }
    ensures fewer { IfOk result (λ after. lines_behind after < lines_still judge) }
    ensures refused { IfErr result (λ fault. (before : Option Trace) → KnowsSo judge before → IsRefused fault (next before line.now)) }
{
    match judge {
        None => opened_by(alloc, line),
        Some(judge) => with_line(alloc, judge, line),
    }
}

impl LineJudge {
    /// A judge that was fed nothing yet.
    pub fn new() -> LineJudge
        ensures { Judges result None }
    {
        LineJudge { judge: None }
    }

    /// Takes the next line of the trace: the opening, or behind it an event, or the closing values, which no line follows.
    ///
    /// Refused with `Script` and the place of the line's first bad part, and with `Memory` only where an allocation was
    /// refused. The places, numbers counting from 0:
    ///
    /// - 0: the first line is too long or no JSON text.
    /// - 1: it is no object with exactly `version`, `cpus`, `tokens` and `messages`, or one of `tokens` and `messages` is no
    ///   list.
    /// - 2, 3, 1000 + n, 2000 + n: the parts of the opening, as `read_trace` says.
    /// - 1000000 + n: event n, which is 50000000 for all from there on: a line that is too long, no JSON text or no event, or
    ///   one event more than 10^15.
    /// - 4, 3000 + n, 5, 4000 + n, 5000 + n, 6000 + n: the parts of the closing values, as `read_trace` says.
    /// - 6: a line behind the closing values.
    pub fn feed(self, alloc: Global, line: &[u8]) -> Result<LineJudge, Fault>
        ensures stated { IfOk result (λ judge. (before : Option Trace) → Judges self before → (after : Option Trace) × ((next before line.now ≡ Ok after) × Judges judge after)) }
        ensures fewer { IfOk result (λ judge. lines_left judge < lines_left self) }
        ensures refused { IfErr result (λ fault. (before : Option Trace) → Judges self before → IsRefused fault (next before line.now)) }
    {
        let LineJudge { judge } = self;
        match with_next(alloc, judge, line) {
            Ok(judge) => Ok(LineJudge { judge: Some(judge) }),
            Err(fault) => Err(fault),
        }
    }

    /// What the trace that was fed is: lawful, or the index at which it fails and why.
    ///
    /// Refused with `Script` and place 0 where no line has come, and with `Limits` or `LawBroken` for its opening.
    pub fn finding(self) -> Result<Finding, Fault>
        ensures found { IfOk result (λ finding. (stated : Option Trace) → Judges self stated → MatchOption stated ⊥ (λ trace. IsJudgedTrace trace finding)) }
        ensures refused { IfErr result (λ fault. (stated : Option Trace) → Judges self stated → MatchOption stated (fault ≡ Fault.Script 0) (λ trace. DeclinesTrace trace fault)) }
    {
        let LineJudge { judge } = self;
        match judge {
            None => Err(Fault::Script { place: 0 }),
            Some(judge) => judge.finding(),
        }
    }
}
