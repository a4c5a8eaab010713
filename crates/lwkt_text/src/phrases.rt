//! Expressions and conditions as words of a sentence.
ghost use Rattle.std.specs.Prelude.{◌≡◌, ◌≤◌, ◌<◌, ◌+◌, ◌-◌, length, IfOk, IfSome};
ghost use Rattle.lwkt_script.specs.Formulas.{operator_of, comparison_of};
ghost use Rattle.lwkt_text.specs.Outcome.{IsAsRead};
ghost use Rattle.lwkt_text.specs.Phrasing.{level_of, level, sign_of, sign_at, joined, joined_at, denied_at, atom_of, closed_at, phrase_behind, bracketed, negated, phrase_begun, phrase_from, begins_phrase, expr_at, cond_at};

use crate::looks::{decimal_number, ends_at, is_at, text_at, wrong_at};
use crate::names::Name;
use crate::slips::checked;
use crate::tables::position;
use crate::words::Word;
use crate::wrongs::{Slip, Wanted, What, Wrong};
use lwkt_base::OutOfMemory;
use lwkt_code::{Comparison, Cond, Expr, Operator};
use std::alloc::Global;

// How far an expression may go: sixteen operators in brackets of their own, and room beside.
const MOST_READ: u8 = 200;

/// What words say: a number, or that something holds.
#[derive(Drop)]
pub enum Phrase {
    Number(Expr),
    Test(Cond),
}

/// A phrase, and the place of the first word behind it.
#[derive(Drop)]
pub struct Found {
    pub phrase: Phrase,
    pub end: usize,
}

/// An expression, and the place of the first word behind it.
#[derive(Drop)]
pub struct FoundExpr {
    pub expr: Expr,
    pub end: usize,
}

/// What stands between two phrases.
#[derive(Clone, Copy)]
pub enum Sign {
    Or,
    And,
    Compare(Comparison),
    Apply(Operator),
}

// How closely an operator binds.
fn level_of(op: Operator) -> u8
    ensures exact { result ≡ level_of op }
    ensures few { result ≤ 6 }
{
    match op {
        Operator::Plus | Operator::Minus => 5,
        Operator::Times | Operator::Over | Operator::Rest => 6,
    }
}

// How closely a sign binds.
fn level(sign: Sign) -> u8
    ensures exact { result ≡ level sign }
    ensures few { result ≤ 6 }
{
    match sign {
        Sign::Or => 1,
        Sign::And => 2,
        Sign::Compare(_) => 4,
        Sign::Apply(op) => level_of(op),
    }
}

fn operator_of(word: &str) -> Option<Operator>
    ensures { result ≡ operator_of word.now }
{
    match word {
        "+" => Some(Operator::Plus),
        "-" => Some(Operator::Minus),
        "*" => Some(Operator::Times),
        "/" => Some(Operator::Over),
        "%" => Some(Operator::Rest),
        _ => None,
    }
}

fn comparison_of(word: &str) -> Option<Comparison>
    ensures { result ≡ comparison_of word.now }
{
    match word {
        "=" => Some(Comparison::Equal),
        "!=" => Some(Comparison::Unequal),
        "<" => Some(Comparison::Less),
        "<=" => Some(Comparison::AtMost),
        ">" => Some(Comparison::More),
        ">=" => Some(Comparison::AtLeast),
        _ => None,
    }
}

// The sign of a word.
fn sign_of(word: &str) -> Option<Sign>
    ensures { result ≡ sign_of word.now }
{
    match word {
        "or" => Some(Sign::Or),
        "and" => Some(Sign::And),
        _ => match comparison_of(word) {
            Some(by) => Some(Sign::Compare(by)),
            None => match operator_of(word) {
                Some(op) => Some(Sign::Apply(op)),
                None => None,
            },
        },
    }
}

// The sign that word i is, if it binds so closely.
fn sign_at(words: &[Word], low: u8, i: usize) -> Option<Sign>
    ensures exact { result ≡ sign_at words.now low i }
    ensures there { IfSome result (λ sign. i < length words.now) }
{
    let Some(word) = words.get(i) else {
        return None;
    };
    match sign_of(word.text.as_str()) {
        Some(sign) if low <= level(sign) => Some(sign),
        _ => None,
    }
}

// What a sign makes of the phrases on its sides.
fn joined(alloc: Global, sign: Sign, a: Phrase, b: Phrase) -> Result<Option<Phrase>, OutOfMemory>
    ensures { IfOk result (λ p. p ≡ joined sign a b) }
{
    Ok(match (sign, a, b) {
        (Sign::Apply(op), Phrase::Number(x), Phrase::Number(y)) => {
            Some(Phrase::Number(Expr::both(alloc, op, x, y)?))
        }
        (Sign::Compare(by), Phrase::Number(x), Phrase::Number(y)) => {
            Some(Phrase::Test(Cond::compare(by, x, y)))
        }
        (Sign::And, Phrase::Test(x), Phrase::Test(y)) => {
            Some(Phrase::Test(Cond::each_of(alloc, x, y)?))
        }
        (Sign::Or, Phrase::Test(x), Phrase::Test(y)) => {
            Some(Phrase::Test(Cond::one_of(alloc, x, y)?))
        }
        _ => None,
    })
}

// What the sign at word i makes of the phrases on its sides.
fn joined_at(
    alloc: Global,
    words: &[Word],
    i: usize,
    sign: Sign,
    a: Phrase,
    b: Phrase,
) -> Result<Phrase, Slip>
    ensures { IsAsRead result (joined_at words.now i sign a b) }
{
    match joined(alloc, sign, a, b)? {
        Some(phrase) => Ok(phrase),
        None => Err(Slip::Wrong(wrong_at(words, i, What::Sides))),
    }
}

// That a condition doesn't hold.
fn denied_at(alloc: Global, words: &[Word], i: usize, a: Phrase) -> Result<Phrase, Slip>
    ensures { IsAsRead result (denied_at words.now i a) }
{
    match a {
        Phrase::Number(_) => Err(Slip::Wrong(wrong_at(words, i, What::Sides))),
        Phrase::Test(c) => Ok(Phrase::Test(Cond::none_of(alloc, c)?)),
    }
}

// The number or the variable that a word is.
fn atom_of(vars: &[Name], word: &str) -> Option<Expr>
    ensures { result ≡ atom_of vars.now word.now }
{
    if let Some(n) = decimal_number(word) {
        return Some(Expr::number(n));
    }
    match position(vars, word) {
        Some(v) if v < 8 => Some(Expr::variable(v as u8)),
        _ => None,
    }
}

/// Asks that word i is this bracket.
pub fn closed_at(words: &[Word], i: usize, text: &str, wanted: Wanted) -> Result<(), Wrong>
    ensures exact { result ≡ closed_at words.now i text.now wanted }
    ensures there { IfOk result (λ ok. i < length words.now) }
{
    if i < words.len() && is_at(words, i, text) {
        Ok(())
    } else {
        Err(wrong_at(words, i, What::Word(wanted)))
    }
}

/// Whether word i begins an expression: a number, a variable or a bracket.
pub fn begins_phrase(vars: &[Name], words: &[Word], i: usize) -> bool
    ensures { result ≡ begins_phrase vars.now words.now i }
{
    is_at(words, i, "(") || atom_of(vars, text_at(words, i)).is_some()
}

// The sign at word i and the phrase behind it, behind a phrase.
#[cycle(phrases)]
fn phrase_behind(
    alloc: Global,
    n: u8,
    vars: &[Name],
    words: &[Word],
    low: u8,
    left: Phrase,
    i: usize,
) -> Result<Found, Slip>
    requires few { length words.now ≤ 1000 }
    requires start { i ≤ 100000 }
    requires binds { low ≤ 7 }
    ensures exact { IsAsRead result (phrase_behind (phrase_from n vars.now words.now) words.now low left i) }
    ensures most { IfOk result (λ f. f.end ≤ i + (1000 - i)) }
{
    let Some(sign) = sign_at(words, low, i) else {
        return Ok(Found {
            phrase: left,
            end: i,
        });
    };
    let right = phrase_from(alloc, n, vars, words, level(sign) + 1, None, i + 1)?;
    let whole = joined_at(alloc, words, i, sign, left, right.phrase)?;
    phrase_from(alloc, n, vars, words, low, Some(whole), right.end)
}

// The phrase in brackets of which word i is the first.
#[cycle(phrases)]
fn bracketed(
    alloc: Global,
    n: u8,
    vars: &[Name],
    words: &[Word],
    low: u8,
    i: usize,
) -> Result<Found, Slip>
    requires few { length words.now ≤ 1000 }
    requires start { i < length words.now }
    requires binds { low ≤ 7 }
    ensures exact { IsAsRead result (bracketed (phrase_from n vars.now words.now) words.now low i) }
    ensures most { IfOk result (λ f. f.end ≤ 1000) }
{
    let inner = phrase_from(alloc, n, vars, words, 1, None, i + 1)?;
    checked(closed_at(words, inner.end, ")", Wanted::Close))?;
    phrase_from(
        alloc,
        n,
        vars,
        words,
        low,
        Some(inner.phrase),
        inner.end + 1,
    )
}

// The phrase behind the `not` that word i is.
#[cycle(phrases)]
fn negated(
    alloc: Global,
    n: u8,
    vars: &[Name],
    words: &[Word],
    low: u8,
    i: usize,
) -> Result<Found, Slip>
    requires few { length words.now ≤ 1000 }
    requires start { i < length words.now }
    requires binds { low ≤ 7 }
    ensures exact { IsAsRead result (negated (phrase_from n vars.now words.now) words.now low i) }
    ensures most { IfOk result (λ f. f.end ≤ 1000) }
{
    let inner = phrase_from(alloc, n, vars, words, 3, None, i + 1)?;
    let whole = denied_at(alloc, words, i, inner.phrase)?;
    phrase_from(alloc, n, vars, words, low, Some(whole), inner.end)
}

// The phrase that word i begins.
#[cycle(phrases)]
fn phrase_begun(
    alloc: Global,
    n: u8,
    vars: &[Name],
    words: &[Word],
    low: u8,
    i: usize,
) -> Result<Found, Slip>
    requires few { length words.now ≤ 1000 }
    requires start { i ≤ 100000 }
    requires binds { low ≤ 7 }
    ensures exact { IsAsRead result (phrase_begun (phrase_from n vars.now words.now) vars.now words.now low i) }
    ensures most { IfOk result (λ f. f.end ≤ i + (1000 - i)) }
{
    if i >= words.len() {
        return Err(Slip::Wrong(wrong_at(words, i, What::Expression)));
    }
    if is_at(words, i, "(") {
        return bracketed(alloc, n, vars, words, low, i);
    }
    if is_at(words, i, "not") {
        return negated(alloc, n, vars, words, low, i);
    }
    match atom_of(vars, text_at(words, i)) {
        Some(atom) => {
            let whole = Some(Phrase::Number(atom));
            phrase_from(alloc, n, vars, words, low, whole, i + 1)
        }
        None => Err(Slip::Wrong(wrong_at(words, i, What::Expression))),
    }
}

// What words say from word i on, behind a phrase if there is one, as far as signs bind so closely; n bounds how far that goes.
#[cycle(phrases)]
#[tactic(auto, using(crate::proofs::Reaching::behind_later, crate::proofs::Reaching::begun_later))]
fn phrase_from(
    alloc: Global,
    n: u8,
    vars: &[Name],
    words: &[Word],
    low: u8,
    left: Option<Phrase>,
    i: usize,
) -> Result<Found, Slip>
    requires few { length words.now ≤ 1000 }
    requires start { i ≤ 100000 }
    requires binds { low ≤ 7 }
    ensures exact { IsAsRead result (phrase_from n vars.now words.now low left i) }
    ensures most { IfOk result (λ f. f.end ≤ i + (1000 - i)) }
{
    if n == 0 {
        return Err(Slip::Wrong(wrong_at(words, i, What::Large)));
    }
    match left {
        Some(phrase) => phrase_behind(alloc, n - 1, vars, words, low, phrase, i),
        None => phrase_begun(alloc, n - 1, vars, words, low, i),
    }
}

/// The expression from word i on, as far as its signs bind so closely.
pub fn expr_at(
    alloc: Global,
    vars: &[Name],
    words: &[Word],
    low: u8,
    i: usize,
) -> Result<FoundExpr, Slip>
    requires few { length words.now ≤ 1000 }
    requires start { i ≤ 100000 }
    requires binds { low ≤ 7 }
    ensures exact { IsAsRead result (expr_at vars.now words.now low i) }
    ensures most { IfOk result (λ f. f.end ≤ i + (1000 - i)) }
{
    let Found { phrase, end } = phrase_from(alloc, MOST_READ, vars, words, low, None, i)?;
    match phrase {
        Phrase::Number(expr) => Ok(FoundExpr { expr, end }),
        Phrase::Test(_) => Err(Slip::Wrong(wrong_at(words, i, What::Expression))),
    }
}

/// The condition from word i on, and nothing more.
pub fn cond_at(alloc: Global, vars: &[Name], words: &[Word], i: usize) -> Result<Cond, Slip>
    requires few { length words.now ≤ 1000 }
    requires start { i ≤ 100000 }
    ensures { IsAsRead result (cond_at vars.now words.now i) }
{
    let Found { phrase, end } = phrase_from(alloc, MOST_READ, vars, words, 1, None, i)?;
    match phrase {
        Phrase::Number(_) => Err(Slip::Wrong(wrong_at(words, i, What::Condition))),
        Phrase::Test(cond) => {
            checked(ends_at(words, end))?;
            Ok(cond)
        }
    }
}
