//! The sentences of a thread of version 3 that hold others.
ghost use Rattle.std.specs.Prelude.{◌≡◌, ◌≤◌, ◌+◌, option_map, IfOk, IfSome};
ghost use Rattle.serde_json.specs.View.{view, items_view};
ghost use Rattle.lwkt_script.specs.Frames.{sentence_word, block_at, size_at, size_of, size_one, size_in, nest_of, in_loop, if_alone, if_else, if_frame, while_frame, times_at, times_frame, loop_frame, frame_of, holds_others, break_step, plain_step};

use crate::fields::{has_items, number};
use crate::scopes::Scope;
use crate::wishes::{cond_at, simple_step};
use lwkt_base::OutOfMemory;
use lwkt_base::limits::MOST_REPEATS;
use lwkt_code::{Jump, Step, Test};
use serde_json::Value;
use std::alloc::Global;

/// A sentence that holds others.
#[derive(Drop)]
pub struct Frame<'v> {
    /// Its step.
    pub head: Step,
    /// The list in it.
    pub body: &'v Vec<Value>,
    /// The step and the list of its `else`.
    pub other: Option<(Step, &'v Vec<Value>)>,
    /// The step of its end.
    pub end: Step,
    /// Where the lists stand.
    pub scope: Scope,
}

/// The word of a sentence.
pub fn sentence_word(value: &Value) -> Option<&str>
    ensures { option_map (λ word. word.now) result ≡ sentence_word (view value.now) }
{
    value.get(0usize)?.as_str()
}

// Item i, a list of sentences.
fn block_at(value: &Value, i: usize) -> Option<&Vec<Value>>
    ensures { option_map (λ v. items_view v.now.items) result ≡ block_at i (view value.now) }
{
    value.get(i)?.as_array()
}

// How many places the list takes that item i is.
#[cycle(sizes)]
fn size_at(deep: u8, value: &Value, i: usize) -> u64
    ensures size { result ≡ size_at (size_in deep) i (view value.now) }
    ensures few { result ≤ 4294967295 }
{
    match block_at(value, i) {
        None => 0,
        Some(items) => size_in(deep, items.as_slice()),
    }
}

// How many places a sentence of this word takes.
#[cycle(sizes)]
fn size_of(deep: u8, word: &str, value: &Value) -> u64
    ensures size { result ≡ size_of (size_in deep) word.now (view value.now) }
    ensures few { result ≤ 8589934593 }
{
    match word {
        "if" => if has_items(value, 4) {
            size_at(deep, value, 2) + size_at(deep, value, 3) + 3
        } else {
            size_at(deep, value, 2) + 2
        },
        "while" => size_at(deep, value, 2) + 2,
        "times" => size_at(deep, value, 2) + 2,
        "loop" => size_at(deep, value, 1) + 2,
        _ => 1,
    }
}

// How many places a sentence takes that stands in a list in which so many levels may stand.
#[cycle(sizes)]
#[tactic(auto, using(crate::proofs::Sizes::size_no_level, crate::proofs::Sizes::size_without, crate::proofs::Sizes::size_with))]
fn size_one(deep: u8, value: &Value) -> u64
    ensures size { result ≡ size_one deep (view value.now) }
    ensures few { result ≤ 8589934593 }
{
    if deep == 0 {
        return 0;
    }
    match sentence_word(value) {
        None => 1,
        Some(word) => size_of(deep - 1, word, value),
    }
}

/// How many places a list of sentences takes in which so many levels may stand, as far as 32 bits count.
#[cycle(sizes)]
#[tactic(auto, using(crate::proofs::Sizes::size_on, crate::proofs::Sizes::size_all))]
pub fn size_in(deep: u8, items: &[Value]) -> u64
    ensures size { result ≡ size_in deep (items_view items.now) }
    ensures few { result ≤ 4294967295 }
{
    let mut sum = 0;
    for item in items {
        sum = (sum + size_one(deep, item)).min(4_294_967_295);
    }
    sum
}

// `if` at place i.
fn if_alone(
    alloc: Global,
    deep: u8,
    scope: Scope,
    i: usize,
    value: &Value,
) -> Result<Option<Frame<'_>>, OutOfMemory>
    requires { i ≤ 9223372036854775807 }
    ensures frame { IfOk result (λ f. option_map nest_of f ≡ if_alone (size_in deep) scope i (view value.now)) }
    ensures times { IfOk result (λ f. IfSome f (λ g. g.scope.times ≤ scope.times + 1)) }
{
    let Some(cond) = cond_at(alloc, value, 1)? else {
        return Ok(None);
    };
    let Some(body) = block_at(value, 2) else {
        return Ok(None);
    };
    let end = i + size_in(deep, body.as_slice()) as usize + 1;
    Ok(Some(Frame {
        head: Step::Unless(Test::If, cond, end),
        body,
        other: None,
        end: Step::Goto(Jump::End, end + 1),
        scope,
    }))
}

// `if` with `else`.
fn if_else(
    alloc: Global,
    deep: u8,
    scope: Scope,
    i: usize,
    value: &Value,
) -> Result<Option<Frame<'_>>, OutOfMemory>
    requires { i ≤ 9223372036854775807 }
    ensures frame { IfOk result (λ f. option_map nest_of f ≡ if_else (size_in deep) scope i (view value.now)) }
    ensures times { IfOk result (λ f. IfSome f (λ g. g.scope.times ≤ scope.times + 1)) }
{
    let Some(cond) = cond_at(alloc, value, 1)? else {
        return Ok(None);
    };
    let Some(body) = block_at(value, 2) else {
        return Ok(None);
    };
    let Some(other) = block_at(value, 3) else {
        return Ok(None);
    };
    let behind = i + size_in(deep, body.as_slice()) as usize + 2;
    let end = behind + size_in(deep, other.as_slice()) as usize;
    Ok(Some(Frame {
        head: Step::Unless(Test::If, cond, behind),
        body,
        other: Some((Step::Goto(Jump::Else, end), other)),
        end: Step::Goto(Jump::End, end + 1),
        scope,
    }))
}

// `if`, with `else` or without.
fn if_frame(
    alloc: Global,
    deep: u8,
    scope: Scope,
    i: usize,
    value: &Value,
) -> Result<Option<Frame<'_>>, OutOfMemory>
    requires { i ≤ 9223372036854775807 }
    ensures frame { IfOk result (λ f. option_map nest_of f ≡ if_frame (size_in deep) scope i (view value.now)) }
    ensures times { IfOk result (λ f. IfSome f (λ g. g.scope.times ≤ scope.times + 1)) }
{
    if has_items(value, 4) {
        return if_else(alloc, deep, scope, i, value);
    }
    if has_items(value, 3) {
        if_alone(alloc, deep, scope, i, value)
    } else {
        Ok(None)
    }
}

// Where the steps of a loop stand, at place i, which takes so many places beside its own two.
fn in_loop(scope: Scope, i: usize, sentence: u8, size: u64) -> Scope
    requires at { i ≤ 9223372036854775807 }
    requires few { size ≤ 4294967295 }
    ensures { result ≡ in_loop scope i sentence size }
{
    Scope {
        leave: Some(i + size as usize + 2),
        round: Some(sentence),
        times: scope.times,
    }
}

// `while`.
fn while_frame(
    alloc: Global,
    deep: u8,
    scope: Scope,
    i: usize,
    sentence: u8,
    value: &Value,
) -> Result<Option<Frame<'_>>, OutOfMemory>
    requires { i ≤ 9223372036854775807 }
    ensures frame { IfOk result (λ f. option_map nest_of f ≡ while_frame (size_in deep) scope i sentence (view value.now)) }
    ensures times { IfOk result (λ f. IfSome f (λ g. g.scope.times ≤ scope.times + 1)) }
{
    let Some(cond) = cond_at(alloc, value, 1)? else {
        return Ok(None);
    };
    let Some(body) = block_at(value, 2) else {
        return Ok(None);
    };
    let size = size_in(deep, body.as_slice());
    Ok(Some(Frame {
        head: Step::Unless(Test::While, cond, i + size as usize + 2),
        body,
        other: None,
        end: Step::Goto(Jump::Back, i),
        scope: in_loop(scope, i, sentence, size),
    }))
}

// How many times the list of a `times` is made.
fn times_at(value: &Value) -> Option<u32>
    ensures { result ≡ times_at (view value.now) }
{
    match number(value.get(1usize)?, 1, MOST_REPEATS) {
        None => None,
        Some(k) => Some(k as u32),
    }
}

// `times`.
fn times_frame(deep: u8, scope: Scope, i: usize, sentence: u8, value: &Value) -> Option<Frame<'_>>
    requires at { i ≤ 9223372036854775807 }
    requires times { scope.times ≤ 8 }
    ensures frame { option_map nest_of result ≡ times_frame (size_in deep) scope i sentence (view value.now) }
    ensures times { IfSome result (λ g. g.scope.times ≤ scope.times + 1) }
{
    let k = times_at(value)?;
    let body = block_at(value, 2)?;
    let size = size_in(deep, body.as_slice());
    let inner = in_loop(scope, i, sentence, size);
    Some(Frame {
        head: Step::Count(scope.times, k),
        body,
        other: None,
        end: Step::Again(scope.times, i + 1),
        scope: Scope {
            leave: inner.leave,
            round: inner.round,
            times: scope.times + 1,
        },
    })
}

// `loop`.
fn loop_frame(deep: u8, scope: Scope, i: usize, sentence: u8, value: &Value) -> Option<Frame<'_>>
    requires { i ≤ 9223372036854775807 }
    ensures frame { option_map nest_of result ≡ loop_frame (size_in deep) scope i sentence (view value.now) }
    ensures times { IfSome result (λ g. g.scope.times ≤ scope.times + 1) }
{
    let body = block_at(value, 1)?;
    let size = size_in(deep, body.as_slice());
    Some(Frame {
        head: Step::Goto(Jump::Loop, i + 1),
        body,
        other: None,
        end: Step::Goto(Jump::Back, i),
        scope: in_loop(scope, i, sentence, size),
    })
}

/// A sentence of this word, at place i, if it holds others.
pub fn frame_of<'v>(
    alloc: Global,
    deep: u8,
    scope: Scope,
    i: usize,
    sentence: u8,
    word: &str,
    value: &'v Value,
) -> Result<Option<Frame<'v>>, OutOfMemory>
    requires at { i ≤ 9223372036854775807 }
    requires times { scope.times ≤ 8 }
    ensures frame { IfOk result (λ f. option_map nest_of f ≡ frame_of (size_in deep) scope i sentence word.now (view value.now)) }
    ensures times { IfOk result (λ f. IfSome f (λ g. g.scope.times ≤ scope.times + 1)) }
{
    match word {
        "if" => if_frame(alloc, deep, scope, i, value),
        "while" => if has_items(value, 3) {
            while_frame(alloc, deep, scope, i, sentence, value)
        } else {
            Ok(None)
        },
        "times" => if has_items(value, 3) {
            Ok(times_frame(deep, scope, i, sentence, value))
        } else {
            Ok(None)
        },
        _ => if has_items(value, 2) {
            Ok(loop_frame(deep, scope, i, sentence, value))
        } else {
            Ok(None)
        },
    }
}

/// Whether sentences of this word hold others.
pub fn holds_others(word: &str) -> bool
    ensures { result ≡ holds_others word.now }
{
    match word {
        "if" => true,
        "while" => true,
        "times" => true,
        "loop" => true,
        _ => false,
    }
}

// A `break`, which stands in a loop.
fn break_step(scope: Scope, value: &Value) -> Option<Step>
    ensures { result ≡ break_step scope (view value.now) }
{
    if !has_items(value, 1) {
        return None;
    }
    Some(Step::Goto(Jump::Break, scope.leave?))
}

/// The step of a sentence of this word that holds no others.
pub fn plain_step(
    alloc: Global,
    scope: Scope,
    word: &str,
    value: &Value,
) -> Result<Option<Step>, OutOfMemory>
    ensures { IfOk result (λ s. s ≡ plain_step scope word.now (view value.now)) }
{
    match word {
        "break" => Ok(break_step(scope, value)),
        _ => simple_step(alloc, word, value),
    }
}
