ghost use Rattle.std.specs.Prelude.{◌≡◌, ◌+◌, ◌≤◌, ◌<◌, length, [], IfOk};
ghost use Rattle.serde_json.specs.View.{view, items_view};
ghost use Rattle.lwkt_script.specs.Outcome.{Gives, each};
ghost use Rattle.lwkt_script.specs.Step.{small_at, code_at, whole_at, flags_under, flags_by_number, width_of, step_part, step_parts, verb_in, ask_with, ask_in};
ghost use Rattle.lwkt_script.specs.Format.{step};

use crate::fields::{item_count, number};
use crate::records::blob_in;
use crate::versions::Version;
use lwkt_base::limits::{MACHINE_THREADS, STEP_LIMIT};
use lwkt_base::memory::push;
use lwkt_base::steps::{ask_of, verb_written};
use lwkt_base::{
    Ask, Call, CpuId, Fault, Flags, MsgId, Part, PartKind, StepParts, ThreadId, TokId, Verb,
};
use serde_json::Value;
use std::alloc::Global;

/// Item i of a list as the number of a token, a cell, a message, a processor or a thread.
pub fn small_at(value: &Value, i: usize) -> Option<u8>
    ensures { result ≡ small_at i (view value.now) }
{
    match number(value.get(i)?, 0, 255) {
        Some(n) => Some(n as u8),
        None => None,
    }
}

/// Item i of a step as a number of 32 bits.
pub fn code_at(value: &Value, i: usize) -> Option<u32>
    ensures { result ≡ code_at i (view value.now) }
{
    match number(value.get(i)?, 0, 4_294_967_295) {
        Some(n) => Some(n as u32),
        None => None,
    }
}

// The flags of a number: 1 for dropable plus 2 for abortable.
fn flags_under(priority: bool, n: u64) -> Option<Flags>
    ensures { result ≡ flags_under priority n }
{
    if n > 3 {
        return None;
    }
    Some(Flags {
        dropable: n == 1 || n == 3,
        abortable: n == 2 || n == 3,
        priority,
    })
}

/// The same, and plus 4 for priority.
pub fn flags_of(version: Version, n: u64) -> Option<Flags>
    ensures { result ≡ flags_by_number version n }
{
    if n < 4 {
        return flags_under(false, n);
    }
    if !version.is_later() {
        return None;
    }
    flags_under(true, n - 4)
}

/// The whole number that item i of a list is.
pub fn whole_at(value: &Value, i: usize) -> Option<u64>
    ensures { result ≡ whole_at i (view value.now) }
{
    value.get(i)?.as_u64()
}

/// How many items a part of a kind takes.
pub fn width_of(kind: PartKind) -> usize
    ensures value { result ≡ width_of kind }
    ensures few { result ≤ 2 }
{
    match kind {
        PartKind::Cell | PartKind::Target | PartKind::Call => 2,
        _ => 1,
    }
}

// The part of a kind from item i on.
fn step_part(version: Version, kind: PartKind, value: &Value, i: usize) -> Option<Part>
    requires { i ≤ 100 }
    ensures { result ≡ step_part version kind i (view value.now) }
{
    Some(match kind {
        PartKind::Token => Part::Token(TokId(small_at(value, i)?)),
        PartKind::Cell => Part::Cell(TokId(small_at(value, i)?), small_at(value, i + 1)?),
        PartKind::Value => Part::Value(whole_at(value, i)?),
        PartKind::Record => Part::Record(blob_in(65, value.get(i)?)?),
        PartKind::Message => Part::Message(MsgId(small_at(value, i)?)),
        PartKind::Target => Part::Target(ThreadId {
            cpu: CpuId(small_at(value, i)?),
            thread: small_at(value, i + 1)?,
        }),
        PartKind::Call => Part::Call(Call {
            op: code_at(value, i)?,
            arg: whole_at(value, i + 1)?,
        }),
        PartKind::Flags => Part::Flags(flags_of(version, whole_at(value, i)?)?),
        PartKind::Code => Part::Code(code_at(value, i)?),
        PartKind::Outcome => Part::Outcome(whole_at(value, i)?),
    })
}

// The parts of these kinds behind the word of a step that has so many items, and nothing more.
fn step_parts(
    version: Version,
    kinds: &[PartKind],
    count: usize,
    value: &Value,
) -> Option<StepParts>
    requires { length kinds.now ≤ 4 }
    ensures { result ≡ step_parts version kinds.now 1 count (view value.now) }
{
    let mut parts = StepParts::of(&[]);
    let mut at = 1;
    for kind in kinds {
        parts.push(step_part(version, *kind, value, at)?);
        at += width_of(*kind);
    }
    if at == count { Some(parts) } else { None }
}

/// The kind of step that has this word in a version.
pub fn verb_in(version: Version, word: &str) -> Option<Verb>
    ensures { result ≡ verb_in version word.now }
{
    let verb = verb_written(word)?;
    if verb.is_later() && !version.is_later() {
        return None;
    }
    Some(verb)
}

// The ask of a step of this kind that has so many items.
fn ask_with(version: Version, verb: Verb, count: usize, value: &Value) -> Option<Ask>
    ensures { result ≡ ask_with version verb count (view value.now) }
{
    let parts = step_parts(version, verb.kinds(), count, value)?;
    ask_of(verb, parts.as_slice())
}

/// The ask that a step stands for.
pub fn ask_in(version: Version, value: &Value) -> Option<Ask>
    ensures { result ≡ ask_in version (view value.now) }
{
    let count = item_count(value)?;
    let verb = verb_in(version, value.get(0usize)?.as_str()?)?;
    ask_with(version, verb, count, value)
}

/// The asks of the steps of thread n of a script.
pub fn steps_of(alloc: Global, version: Version, n: u32, items: &[Value]) -> Result<Vec<Ask>, Fault>
    requires thread { n ≤ MACHINE_THREADS }
    requires steps { length items.now ≤ STEP_LIMIT }
    ensures exact { Gives (λ v. v.items) result (each (step version n) [] (items_view items.now)) }
    ensures count { IfOk result (λ v. length v.items ≡ length items.now) }
{
    let mut asks = Vec::new(alloc);
    for item in items {
        let place = 100_000 + 1000 * n + asks.len() as u32;
        let Some(ask) = ask_in(version, item) else {
            return Err(Fault::Script { place });
        };
        push(&mut asks, ask)?;
    }
    Ok(asks)
}
