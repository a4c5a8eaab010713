//! Claims with `and`, `or`, `not` and brackets, as words of a sentence.
ghost use Rattle.std.specs.Prelude.{◌≡◌, ◌≤◌, ◌<◌, ◌+◌, ◌-◌, length, drop, min, IfOk, IfSome, nat_le};
ghost use Rattle.lwkt_code.specs.declared.checks.TheConstants.{MOST_OPERATORS};
ghost use Rattle.lwkt_text.specs.ClaimTrees.{statement_of};
ghost use Rattle.lwkt_text.specs.Combining.{level, joint_of, joint_at, joined, ends_fact, fact_length, fact_at, claim_behind, bracketed, denied, fact_begun, claim_begun, claim_from, operators, within_limit, claim_at};
ghost use Rattle.lwkt_text.specs.Outcome.{IsAsRead};

use crate::claims::{Claim, ClaimTree};
use crate::expecting::fact_of;
use crate::looks::{ends_at, is_at, wrong_at};
use crate::phrases::closed_at;
use crate::slips::checked;
use crate::tables::Names;
use crate::words::Word;
use crate::wrongs::{Slip, Wanted, What, Wrong};
use lwkt_base::OutOfMemory;
use lwkt_code::Flaw;
use lwkt_code::checks::MOST_OPERATORS;
use std::alloc::Global;

// How far a claim may go: sixteen signs in brackets of their own, and room beside.
const MOST_READ: u8 = 200;

/// A claim, and the place of the first word behind it.
#[derive(Drop)]
pub struct FoundClaim {
    pub claim: Claim,
    pub end: usize,
}

/// What stands between two claims.
#[derive(Clone, Copy)]
pub enum Joint {
    Or,
    And,
}

// How closely it binds.
fn level(joint: Joint) -> u8
    ensures exact { result ≡ level joint }
    ensures few { result ≤ 2 }
{
    match joint {
        Joint::Or => 1,
        Joint::And => 2,
    }
}

fn joint_of(word: &str) -> Option<Joint>
    ensures { result ≡ joint_of word.now }
{
    match word {
        "or" => Some(Joint::Or),
        "and" => Some(Joint::And),
        _ => None,
    }
}

// The `and` or `or` that word i is, if it binds so closely.
fn joint_at(words: &[Word], low: u8, i: usize) -> Option<Joint>
    ensures exact { result ≡ joint_at words.now low i }
    ensures there { IfSome result (λ joint. i < length words.now) }
{
    let Some(word) = words.get(i) else {
        return None;
    };
    match joint_of(word.text.as_str()) {
        Some(joint) if low <= level(joint) => Some(joint),
        _ => None,
    }
}

// What it makes of the claims on its sides.
fn joined(alloc: Global, joint: Joint, a: Claim, b: Claim) -> Result<Claim, OutOfMemory>
    ensures { IfOk result (λ c. c ≡ joined joint a b) }
{
    match joint {
        Joint::Or => Claim::one_of(alloc, a, b),
        Joint::And => Claim::each_of(alloc, a, b),
    }
}

// Whether a word can't be one of a fact.
fn ends_fact(word: &str) -> bool
    ensures { result ≡ ends_fact word.now }
{
    joint_of(word).is_some() || word == ")"
}

// How many words stand before the first such one.
fn fact_length(words: &[Word]) -> usize
    ensures exact { result ≡ fact_length words.now }
    ensures most { result ≤ length words.now }
{
    let mut count = 0usize;
    for word in words {
        if ends_fact(word.text.as_str()) {
            return count;
        }
        count += 1;
    }
    count
}

// The fact that word i begins.
fn fact_at(alloc: Global, names: &Names, words: &[Word], i: usize) -> Result<FoundClaim, Slip>
    requires few { length words.now ≤ 1000 }
    requires some { 1 ≤ i }
    requires start { i < length words.now }
    ensures exact { IsAsRead result (fact_at names.now words.now i) }
    ensures most { IfOk result (λ f. f.end ≤ length words.now) }
    ensures least { IfOk result (λ f. i ≤ f.end) }
{
    let end = i + fact_length(&words[i..]);
    if end == i {
        return Err(Slip::Wrong(wrong_at(words, i, What::Claim)));
    }
    let said = fact_of(alloc, names, &words[i - 1..end])?;
    Ok(FoundClaim {
        claim: Claim::fact(said),
        end,
    })
}

// The `and` or `or` at word i and the claim behind it, behind a claim.
#[cycle(combining)]
fn claim_behind(
    alloc: Global,
    n: u8,
    names: &Names,
    words: &[Word],
    low: u8,
    left: Claim,
    i: usize,
) -> Result<FoundClaim, Slip>
    requires few { length words.now ≤ 1000 }
    requires some { 1 ≤ i }
    requires start { i ≤ 100000 }
    requires binds { low ≤ 7 }
    ensures exact { IsAsRead result (claim_behind (claim_from n names.now words.now) words.now low left i) }
    ensures most { IfOk result (λ f. f.end ≤ i + (1000 - i)) }
    ensures least { IfOk result (λ f. i ≤ f.end) }
{
    let Some(joint) = joint_at(words, low, i) else {
        return Ok(FoundClaim {
            claim: left,
            end: i,
        });
    };
    let right = claim_from(alloc, n, names, words, level(joint) + 1, None, i + 1)?;
    let whole = joined(alloc, joint, left, right.claim)?;
    claim_from(alloc, n, names, words, low, Some(whole), right.end)
}

// The claim in brackets of which word i is the first.
#[cycle(combining)]
fn bracketed(
    alloc: Global,
    n: u8,
    names: &Names,
    words: &[Word],
    low: u8,
    i: usize,
) -> Result<FoundClaim, Slip>
    requires few { length words.now ≤ 1000 }
    requires start { i < length words.now }
    requires binds { low ≤ 7 }
    ensures exact { IsAsRead result (bracketed (claim_from n names.now words.now) words.now low i) }
    ensures most { IfOk result (λ f. f.end ≤ 1000) }
    ensures least { IfOk result (λ f. i ≤ f.end) }
{
    let inner = claim_from(alloc, n, names, words, 1, None, i + 1)?;
    checked(closed_at(words, inner.end, ")", Wanted::Close))?;
    claim_from(
        alloc,
        n,
        names,
        words,
        low,
        Some(inner.claim),
        inner.end + 1,
    )
}

// The claim behind the `not` that word i is.
#[cycle(combining)]
fn denied(
    alloc: Global,
    n: u8,
    names: &Names,
    words: &[Word],
    low: u8,
    i: usize,
) -> Result<FoundClaim, Slip>
    requires few { length words.now ≤ 1000 }
    requires start { i < length words.now }
    requires binds { low ≤ 7 }
    ensures exact { IsAsRead result (denied (claim_from n names.now words.now) words.now low i) }
    ensures most { IfOk result (λ f. f.end ≤ 1000) }
    ensures least { IfOk result (λ f. i ≤ f.end) }
{
    let inner = claim_from(alloc, n, names, words, 3, None, i + 1)?;
    let whole = Claim::none_of(alloc, inner.claim)?;
    claim_from(alloc, n, names, words, low, Some(whole), inner.end)
}

// The fact that word i begins, and what is behind it.
#[cycle(combining)]
fn fact_begun(
    alloc: Global,
    n: u8,
    names: &Names,
    words: &[Word],
    low: u8,
    i: usize,
) -> Result<FoundClaim, Slip>
    requires few { length words.now ≤ 1000 }
    requires some { 1 ≤ i }
    requires start { i < length words.now }
    requires binds { low ≤ 7 }
    ensures exact { IsAsRead result (fact_begun (claim_from n names.now words.now) names.now words.now low i) }
    ensures most { IfOk result (λ f. f.end ≤ 1000) }
    ensures least { IfOk result (λ f. i ≤ f.end) }
{
    let said = fact_at(alloc, names, words, i)?;
    claim_from(alloc, n, names, words, low, Some(said.claim), said.end)
}

// The claim that word i begins.
#[cycle(combining)]
fn claim_begun(
    alloc: Global,
    n: u8,
    names: &Names,
    words: &[Word],
    low: u8,
    i: usize,
) -> Result<FoundClaim, Slip>
    requires few { length words.now ≤ 1000 }
    requires some { 1 ≤ i }
    requires start { i ≤ 100000 }
    requires binds { low ≤ 7 }
    ensures exact { IsAsRead result (claim_begun (claim_from n names.now words.now) names.now words.now low i) }
    ensures most { IfOk result (λ f. f.end ≤ i + (1000 - i)) }
    ensures least { IfOk result (λ f. i ≤ f.end) }
{
    if i >= words.len() {
        return Err(Slip::Wrong(wrong_at(words, i, What::Claim)));
    }
    if is_at(words, i, "(") {
        return bracketed(alloc, n, names, words, low, i);
    }
    if is_at(words, i, "not") {
        return denied(alloc, n, names, words, low, i);
    }
    fact_begun(alloc, n, names, words, low, i)
}

// What is said from word i on, behind a claim if there is one, as far as signs bind so closely; n bounds how far that goes.
#[cycle(combining)]
#[tactic(auto, using(crate::proofs::Joining::behind_later, crate::proofs::Joining::begun_later))]
fn claim_from(
    alloc: Global,
    n: u8,
    names: &Names,
    words: &[Word],
    low: u8,
    left: Option<Claim>,
    i: usize,
) -> Result<FoundClaim, Slip>
    requires few { length words.now ≤ 1000 }
    requires some { 1 ≤ i }
    requires start { i ≤ 100000 }
    requires binds { low ≤ 7 }
    ensures exact { IsAsRead result (claim_from n names.now words.now low left i) }
    ensures most { IfOk result (λ f. f.end ≤ i + (1000 - i)) }
    ensures least { IfOk result (λ f. i ≤ f.end) }
{
    if n == 0 {
        return Err(Slip::Wrong(wrong_at(words, i, What::Large)));
    }
    match left {
        Some(claim) => claim_behind(alloc, n - 1, names, words, low, claim, i),
        None => claim_begun(alloc, n - 1, names, words, low, i),
    }
}

// How many `and`, `or` and `not` a claim has, as far as they can be counted.
fn operators(tree: &ClaimTree) -> u32
    ensures { result ≡ min (operators (statement_of tree.now)) 4294967295 }
{
    match tree {
        ClaimTree::Fact(_) => 0,
        ClaimTree::And(a, b) => {
            let x = operators(a);
            let y = operators(b);
            x.saturating_add(y).saturating_add(1)
        }
        ClaimTree::Or(a, b) => {
            let x = operators(a);
            let y = operators(b);
            x.saturating_add(y).saturating_add(1)
        }
        ClaimTree::Not(a) => operators(a).saturating_add(1),
    }
}

// Whether a claim has at most sixteen of them.
fn is_small(claim: &Claim) -> bool
    ensures { result ≡ nat_le (operators claim.now) MOST_OPERATORS }
{
    operators(claim.tree()) <= MOST_OPERATORS
}

// A claim that has at most sixteen of them.
fn within_limit(words: &[Word], claim: Claim) -> Result<Claim, Wrong>
    ensures { result ≡ within_limit words.now claim }
{
    if is_small(&claim) {
        Ok(claim)
    } else {
        Err(wrong_at(words, 0, What::Flawed(Flaw::Large)))
    }
}

/// The claim from word i on, and nothing more.
pub fn claim_at(alloc: Global, names: &Names, words: &[Word], i: usize) -> Result<Claim, Slip>
    requires few { length words.now ≤ 1000 }
    requires some { 1 ≤ i }
    requires start { i ≤ 100000 }
    ensures { IsAsRead result (claim_at names.now words.now i) }
{
    let FoundClaim { claim, end } = claim_from(alloc, MOST_READ, names, words, 1, None, i)?;
    checked(ends_at(words, end))?;
    checked(within_limit(words, claim))
}
