//! The steps of a thread of version 3 that hold no others.
ghost use Rattle.std.specs.Prelude.{◌≡◌, ◌≤◌, length, option_map, IfOk};
ghost use Rattle.serde_json.specs.View.{view};
ghost use Rattle.lwkt_script.specs.Wish.{expr_item, formula_at, pair_at, variable_at, single_at, double_at, operand_at, operands_at, listed_places, places_of, places_in, places_at, has_object, wish_with, wish_ending, verb_at, wish_step, ask_step, set_step, fault_step, assert_step, simple_step};

use crate::fields::{has_items, has_members, item_count, number};
use crate::formulas::{DEEPEST, cond_in, expr_in};
use crate::records::blob_in;
use crate::steps::{ask_in, code_at, flags_of, verb_in, whole_at, width_of};
use crate::versions::Version;
use lwkt_base::memory::push;
use lwkt_base::{OutOfMemory, PartKind, Verb};
use lwkt_code::{Cond, Expr, Operand, Places, Series, Step, Wish};
use serde_json::Value;
use std::alloc::Global;

// Item i, an expression.
fn expr_item(alloc: Global, value: &Value, i: usize) -> Result<Option<Expr>, OutOfMemory>
    ensures { IfOk result (λ e. e ≡ expr_item i (view value.now)) }
{
    match value.get(i) {
        None => Ok(None),
        Some(item) => expr_in(alloc, DEEPEST, item),
    }
}

// Items i and i + 1, two expressions.
fn pair_at(alloc: Global, value: &Value, i: usize) -> Result<Option<(Expr, Expr)>, OutOfMemory>
    requires { i ≤ 100 }
    ensures { IfOk result (λ p. p ≡ pair_at i (view value.now)) }
{
    let Some(x) = expr_item(alloc, value, i)? else {
        return Ok(None);
    };
    let Some(y) = expr_item(alloc, value, i + 1)? else {
        return Ok(None);
    };
    Ok(Some((x, y)))
}

// Item i, the number of a variable.
fn variable_at(value: &Value, i: usize) -> Option<u8>
    ensures { result ≡ variable_at i (view value.now) }
{
    match number(value.get(i)?, 0, 7) {
        Some(n) => Some(n as u8),
        None => None,
    }
}

// Item i, a record.
fn record_at(value: &Value, i: usize) -> Option<Operand>
    ensures { result ≡ operand_at PartKind.Record i (view value.now) }
{
    let blob = blob_in(65, value.get(i)?)?;
    Some(Operand::Record(blob))
}

// Item i, flags.
fn flags_at(value: &Value, i: usize) -> Option<Operand>
    ensures { result ≡ operand_at PartKind.Flags i (view value.now) }
{
    let flags = flags_of(Version::Third, whole_at(value, i)?)?;
    Some(Operand::Flags(flags))
}

// Items i and i + 1, what has two expressions.
fn double_at(
    alloc: Global,
    kind: PartKind,
    value: &Value,
    i: usize,
) -> Result<Option<Operand>, OutOfMemory>
    requires { i ≤ 100 }
    ensures { IfOk result (λ o. o ≡ double_at kind i (view value.now)) }
{
    let Some((x, y)) = pair_at(alloc, value, i)? else {
        return Ok(None);
    };
    match kind {
        PartKind::Cell => Ok(Some(Operand::Cell(x, y))),
        PartKind::Target => Ok(Some(Operand::Target(x, y))),
        PartKind::Call => Ok(Some(Operand::Call(x, y))),
        _ => Ok(None),
    }
}

// Item i, what has one expression.
fn single_at(
    alloc: Global,
    kind: PartKind,
    value: &Value,
    i: usize,
) -> Result<Option<Operand>, OutOfMemory>
    ensures { IfOk result (λ o. o ≡ single_at kind i (view value.now)) }
{
    let Some(e) = expr_item(alloc, value, i)? else {
        return Ok(None);
    };
    match kind {
        PartKind::Token => Ok(Some(Operand::Token(e))),
        PartKind::Value => Ok(Some(Operand::Value(e))),
        PartKind::Message => Ok(Some(Operand::Message(e))),
        PartKind::Code => Ok(Some(Operand::Code(e))),
        PartKind::Outcome => Ok(Some(Operand::Outcome(e))),
        _ => Ok(None),
    }
}

// What stands behind the word of an ask, of a kind, from item i on.
fn operand_at(
    alloc: Global,
    kind: PartKind,
    value: &Value,
    i: usize,
) -> Result<Option<Operand>, OutOfMemory>
    requires { i ≤ 100 }
    ensures { IfOk result (λ o. o ≡ operand_at kind i (view value.now)) }
{
    match kind {
        PartKind::Record => Ok(record_at(value, i)),
        PartKind::Flags => Ok(flags_at(value, i)),
        PartKind::Cell => double_at(alloc, kind, value, i),
        PartKind::Target => double_at(alloc, kind, value, i),
        PartKind::Call => double_at(alloc, kind, value, i),
        PartKind::Token => single_at(alloc, kind, value, i),
        PartKind::Value => single_at(alloc, kind, value, i),
        PartKind::Message => single_at(alloc, kind, value, i),
        PartKind::Code => single_at(alloc, kind, value, i),
        PartKind::Outcome => single_at(alloc, kind, value, i),
    }
}

// The operands of kinds from item 1 on, and nothing more before item count.
fn operands_at(
    alloc: Global,
    kinds: &[PartKind],
    count: usize,
    value: &Value,
) -> Result<Option<Vec<Operand>>, OutOfMemory>
    requires { length kinds.now ≤ 4 }
    ensures { IfOk result (λ o. option_map (λ v. v.items) o ≡ operands_at kinds.now 1 count (view value.now)) }
{
    let mut operands = Vec::new(alloc);
    let mut at = 1;
    for kind in kinds {
        let Some(operand) = operand_at(alloc, *kind, value, at)? else {
            return Ok(None);
        };
        push(&mut operands, operand)?;
        at += width_of(*kind);
    }
    if at == count {
        Ok(Some(operands))
    } else {
        Ok(None)
    }
}

// The variables of a list of one to three.
fn listed_places(count: usize, value: &Value) -> Option<Places>
    ensures { result ≡ listed_places count (view value.now) }
{
    match count {
        1 => Some(Places::One(variable_at(value, 0)?)),
        2 => Some(Places::Two(variable_at(value, 0)?, variable_at(value, 1)?)),
        3 => Some(Places::Three(
            variable_at(value, 0)?,
            variable_at(value, 1)?,
            variable_at(value, 2)?,
        )),
        _ => None,
    }
}

// One variable, or a list of them.
fn places_of(value: &Value) -> Option<Places>
    ensures { result ≡ places_of (view value.now) }
{
    match number(value, 0, 7) {
        Some(v) => Some(Places::One(v as u8)),
        None => listed_places(item_count(value)?, value),
    }
}

// What an answer is put into.
fn places_in(value: &Value) -> Option<Places>
    ensures { result ≡ places_in (view value.now) }
{
    if !has_members(value, 1) {
        return None;
    }
    places_of(value.get("to")?)
}

// The same, of item i.
fn places_at(value: &Value, i: usize) -> Option<Places>
    ensures { result ≡ places_at i (view value.now) }
{
    places_in(value.get(i)?)
}

// Whether item i is an object.
fn has_object(value: &Value, i: usize) -> bool
    ensures { result ≡ has_object i (view value.now) }
{
    match value.get(i) {
        None => false,
        Some(item) => item.as_object().is_some(),
    }
}

// The wish of a kind whose operands end before item count.
fn wish_with(
    alloc: Global,
    verb: Verb,
    count: usize,
    places: Places,
    value: &Value,
) -> Result<Option<Step>, OutOfMemory>
    ensures { IfOk result (λ s. s ≡ wish_with verb count places (view value.now)) }
{
    let Some(operands) = operands_at(alloc, verb.kinds(), count, value)? else {
        return Ok(None);
    };
    let wish = Wish {
        verb,
        operands: Series::from_vec(operands),
    };
    Ok(Some(Step::Make(wish, places)))
}

// The wish of a kind, with places at its end if the last of so many items is an object.
fn wish_ending(
    alloc: Global,
    verb: Verb,
    count: usize,
    value: &Value,
) -> Result<Option<Step>, OutOfMemory>
    ensures { IfOk result (λ s. s ≡ wish_ending verb count (view value.now)) }
{
    let last = count.saturating_sub(1);
    if !has_object(value, last) {
        return wish_with(alloc, verb, count, Places::Nowhere, value);
    }
    match places_at(value, last) {
        None => Ok(None),
        Some(places) => wish_with(alloc, verb, last, places, value),
    }
}

// An ask with expressions, or places.
fn wish_step(alloc: Global, value: &Value) -> Result<Option<Step>, OutOfMemory>
    ensures { IfOk result (λ s. s ≡ wish_step (view value.now)) }
{
    let Some(count) = item_count(value) else {
        return Ok(None);
    };
    match verb_at(value) {
        None => Ok(None),
        Some(verb) => wish_ending(alloc, verb, count, value),
    }
}

// The kind of ask that the first item names.
fn verb_at(value: &Value) -> Option<Verb>
    ensures { result ≡ verb_at (view value.now) }
{
    verb_in(Version::Third, value.get(0usize)?.as_str()?)
}

// An ask: as in version 2 where it could stand there, and else a wish.
fn ask_step(alloc: Global, value: &Value) -> Result<Option<Step>, OutOfMemory>
    ensures { IfOk result (λ s. s ≡ ask_step (view value.now)) }
{
    match ask_in(Version::Third, value) {
        Some(ask) => Ok(Some(Step::Fixed(ask))),
        None => wish_step(alloc, value),
    }
}

// A variable's assignment.
fn set_step(alloc: Global, value: &Value) -> Result<Option<Step>, OutOfMemory>
    ensures { IfOk result (λ s. s ≡ set_step (view value.now)) }
{
    if !has_items(value, 3) {
        return Ok(None);
    }
    let Some(v) = variable_at(value, 1) else {
        return Ok(None);
    };
    match expr_item(alloc, value, 2)? {
        None => Ok(None),
        Some(e) => Ok(Some(Step::Set(v, e))),
    }
}

// The assignment of the last refusal.
fn fault_step(value: &Value) -> Option<Step>
    ensures { result ≡ fault_step (view value.now) }
{
    if !has_items(value, 2) {
        return None;
    }
    Some(Step::Fault(variable_at(value, 1)?))
}

/// Item i, a condition.
pub fn cond_at(alloc: Global, value: &Value, i: usize) -> Result<Option<Cond>, OutOfMemory>
    ensures { IfOk result (λ c. c ≡ formula_at i (view value.now)) }
{
    match value.get(i) {
        None => Ok(None),
        Some(item) => cond_in(alloc, DEEPEST, item),
    }
}

// An assertion, with its number.
fn assert_step(alloc: Global, value: &Value) -> Result<Option<Step>, OutOfMemory>
    ensures { IfOk result (λ s. s ≡ assert_step (view value.now)) }
{
    if !has_items(value, 3) {
        return Ok(None);
    }
    let Some(cond) = cond_at(alloc, value, 1)? else {
        return Ok(None);
    };
    match code_at(value, 2) {
        None => Ok(None),
        Some(n) => Ok(Some(Step::Assert(cond, n))),
    }
}

/// The step of this word that holds no others, and is no `break`.
pub fn simple_step(alloc: Global, word: &str, value: &Value) -> Result<Option<Step>, OutOfMemory>
    ensures { IfOk result (λ s. s ≡ simple_step word.now (view value.now)) }
{
    match word {
        "set" => set_step(alloc, value),
        "fault" => Ok(fault_step(value)),
        "assert" => assert_step(alloc, value),
        _ => ask_step(alloc, value),
    }
}
