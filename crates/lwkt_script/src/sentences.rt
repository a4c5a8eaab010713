//! The program that the sentences of a thread of version 3 make.
ghost use Rattle.std.specs.Prelude.{◌≡◌, ◌≤◌, ◌+◌, length, IfOk};
ghost use Rattle.serde_json.specs.View.{view, items_view};
ghost use Rattle.lwkt_code.specs.declared.circles.TheConstants.{MOST_STEPS};
ghost use Rattle.lwkt_script.specs.Limits.{sentences_in};
ghost use Rattle.lwkt_script.specs.Outcome.{Gives};
ghost use Rattle.lwkt_script.specs.Frames.{size_in, nest_of};
ghost use Rattle.lwkt_script.specs.Sentences.{place, outermost, one_said, frame_read, sentence, too_deep, turn, sentences, told_at, wrong_place, program};

use crate::drafts::{Draft, Line};
use crate::frames::{Frame, frame_of, holds_others, plain_step, sentence_word};
use crate::scopes::Scope;
use lwkt_base::Fault;
use lwkt_base::limits::STEP_LIMIT;
use lwkt_code::{Code, Wrong};
use serde_json::Value;
use std::alloc::Global;

/// The most levels in which a sentence stands: in 8 others at most.
const LEVELS: u8 = 9;

// What stands outside of all loops.
fn outermost() -> Scope
    ensures { result ≡ outermost }
{
    Scope {
        leave: None,
        round: None,
        times: 0,
    }
}

// One sentence more.
fn one_said(draft: Draft) -> Draft
    requires { draft.said ≤ STEP_LIMIT }
    ensures { result ≡ one_said draft }
{
    Draft {
        steps: draft.steps,
        lines: draft.lines,
        said: draft.said + 1,
    }
}

// A sentence that holds others.
#[cycle(sentences)]
fn frame_read(
    alloc: Global,
    deep: u8,
    n: u32,
    draft: Draft,
    frame: Frame<'_>,
) -> Result<Draft, Fault>
    requires thread { n ≤ 128 }
    requires said { draft.said ≤ 255 }
    requires times { frame.scope.times + deep ≤ 9 }
    ensures exact { Gives (λ d. d) result (frame_read (sentences deep n) draft.said (nest_of frame.entry) draft) }
    ensures said { IfOk result (λ d. d.said ≤ STEP_LIMIT) }
{
    let Frame {
        head,
        body,
        other,
        end,
        scope,
    } = frame;
    let j = draft.said as u8;
    let opened = one_said(draft).with(scope, j, head)?;
    let first = sentences(alloc, deep, n, scope, opened, body.as_slice())?;
    match other {
        None => {
            let closed = first.with(scope, j, end)?;
            Ok(closed)
        }
        Some((step, items)) => {
            let more = first.with(scope, j, step)?;
            let both = sentences(alloc, deep, n, scope, more, items.as_slice())?;
            let closed = both.with(scope, j, end)?;
            Ok(closed)
        }
    }
}

// The next sentence of thread n.
#[cycle(sentences)]
fn sentence(
    alloc: Global,
    deep: u8,
    n: u32,
    scope: Scope,
    draft: Draft,
    value: &Value,
) -> Result<Draft, Fault>
    requires thread { n ≤ 128 }
    requires said { draft.said ≤ STEP_LIMIT }
    requires times { scope.times + deep ≤ 8 }
    ensures exact { Gives (λ d. d) result (sentence (sentences deep n) (size_in deep) n scope draft (view value.now)) }
    ensures said { IfOk result (λ d. d.said ≤ STEP_LIMIT) }
{
    if draft.said as usize >= STEP_LIMIT {
        return Err(Fault::Script { place: 3000 + n });
    }
    let place = 100_000 + 1000 * n + draft.said;
    let Some(word) = sentence_word(value) else {
        return Err(Fault::Script { place });
    };
    if holds_others(word) {
        let at = draft.steps.as_slice().len();
        let Some(frame) = frame_of(alloc, deep, scope, at, draft.said as u8, word, value)? else {
            return Err(Fault::Script { place });
        };
        return frame_read(alloc, deep, n, draft, frame);
    }
    let Some(step) = plain_step(alloc, scope, word, value)? else {
        return Err(Fault::Script { place });
    };
    let j = draft.said as u8;
    let next = one_said(draft).with(scope, j, step)?;
    Ok(next)
}

// A sentence that stands too deep.
fn too_deep(n: u32, draft: Draft) -> Result<Draft, Fault>
    requires thread { n ≤ 128 }
    requires said { draft.said ≤ STEP_LIMIT }
    ensures { Gives (λ d. d) result (too_deep n draft) }
{
    if draft.said as usize >= STEP_LIMIT {
        return Err(Fault::Script { place: 3000 + n });
    }
    Err(Fault::Script {
        place: 100_000 + 1000 * n + draft.said,
    })
}

// The next sentence of thread n, in a list in which so many levels may stand.
#[cycle(sentences)]
#[tactic(auto, using(crate::proofs::Turns::no_turn, crate::proofs::Turns::next_turn))]
fn turn(
    alloc: Global,
    deep: u8,
    n: u32,
    scope: Scope,
    draft: Draft,
    value: &Value,
) -> Result<Draft, Fault>
    requires thread { n ≤ 128 }
    requires said { draft.said ≤ STEP_LIMIT }
    requires times { scope.times + deep ≤ 9 }
    ensures exact { Gives (λ d. d) result (turn deep n scope draft (view value.now)) }
    ensures said { IfOk result (λ d. d.said ≤ STEP_LIMIT) }
{
    if deep == 0 {
        return too_deep(n, draft);
    }
    sentence(alloc, deep - 1, n, scope, draft, value)
}

// The sentences of a list of thread n in which so many levels may stand.
#[cycle(sentences)]
fn sentences(
    alloc: Global,
    deep: u8,
    n: u32,
    scope: Scope,
    draft: Draft,
    items: &[Value],
) -> Result<Draft, Fault>
    requires thread { n ≤ 128 }
    requires said { draft.said ≤ STEP_LIMIT }
    requires times { scope.times + deep ≤ 9 }
    ensures exact { Gives (λ d. d) result (sentences deep n scope draft (items_view items.now)) }
    ensures said { IfOk result (λ d. d.said ≤ STEP_LIMIT) }
{
    let mut next = draft;
    for item in items {
        next = turn(alloc, deep, n, scope, next, item)?;
    }
    Ok(next)
}

// What a step says of itself at a place.
fn told_at(lines: &[Line], at: usize) -> Line
    ensures { result ≡ told_at lines.now at }
{
    lines.get(at).copied().unwrap_or(Line {
        sentence: 0,
        round: 0,
    })
}

// Where a sentence of thread n stands.
fn place(n: u32, sentence: u8) -> u32
    requires { n ≤ 128 }
    ensures { result ≡ place n sentence }
{
    100_000 + 1000 * n + u32::from(sentence)
}

// The place at which what is wrong with the steps of thread n is told.
fn wrong_place(n: u32, lines: &[Line], wrong: Wrong) -> u32
    requires { n ≤ 128 }
    ensures { result ≡ wrong_place n lines.now wrong }
{
    match wrong {
        Wrong::TooMany => 3000 + n,
        Wrong::Step(at, _) => place(n, told_at(lines, at).sentence),
        Wrong::Circle(begin, _) => place(n, told_at(lines, begin).round),
    }
}

/// The program of thread n, by its sentences.
#[tactic(auto, using(crate::proofs::Turns::checked_made, crate::proofs::Turns::checked_wrong))]
pub fn program_of(
    alloc: Global,
    n: u32,
    repeat: u32,
    vars: [u64; 8],
    items: &[Value],
) -> Result<Code, Fault>
    requires { n ≤ 128 }
    ensures exact { Gives (λ c. c) result (program n repeat vars (items_view items.now)) }
    ensures few { IfOk result (λ c. length c.steps ≤ MOST_STEPS) }
    ensures said { IfOk result (λ c. sentences_in c.steps ≤ STEP_LIMIT) }
    ensures repeats { IfOk result (λ c. c.repeat ≡ repeat) }
{
    let draft = sentences(alloc, LEVELS, n, outermost(), Draft::new(alloc), items)?;
    let Draft { steps, lines, .. } = draft;
    match Code::new(steps.into_vec(), repeat, vars) {
        Ok(code) => Ok(code),
        Err(wrong) => Err(Fault::Script {
            place: wrong_place(n, lines.as_slice(), wrong),
        }),
    }
}
