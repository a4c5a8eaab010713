//! Expressions and conditions.
ghost use Rattle.std.specs.Prelude.{◌≡◌, option_map, IfOk};
ghost use Rattle.serde_json.specs.View.{view};
ghost use Rattle.lwkt_script.specs.Formulas.{variable_of, operator_of, comparison_of, head_word, number_term, variable_term, leaf_in, item_by, operator_in, both_in, tree_in, term_in, compare_in, not_in, pair_in, cond_formula, worded, formula_in};

use crate::fields::has_items;
use lwkt_base::OutOfMemory;
use lwkt_code::{Comparison, Cond, Expr, Operator};
use serde_json::Value;
use std::alloc::Global;

/// How deep operators and conditions stand in one another at most: there are at most 16.
pub const DEEPEST: u8 = 16;

// The variable of a word.
fn variable_of(word: &str) -> Option<u8>
    ensures { result ≡ variable_of word.now }
{
    match word {
        "v0" => Some(0),
        "v1" => Some(1),
        "v2" => Some(2),
        "v3" => Some(3),
        "v4" => Some(4),
        "v5" => Some(5),
        "v6" => Some(6),
        "v7" => Some(7),
        _ => None,
    }
}

// The operator of a word.
fn operator_of(word: &str) -> Option<Operator>
    ensures { result ≡ operator_of word.now }
{
    match word {
        "+" => Some(Operator::Plus),
        "-" => Some(Operator::Minus),
        "*" => Some(Operator::Times),
        "/" => Some(Operator::Over),
        "%" => Some(Operator::Rest),
        _ => None,
    }
}

// The comparison of a word.
fn comparison_of(word: &str) -> Option<Comparison>
    ensures { result ≡ comparison_of word.now }
{
    match word {
        "=" => Some(Comparison::Equal),
        "!=" => Some(Comparison::Unequal),
        "<" => Some(Comparison::Less),
        "<=" => Some(Comparison::AtMost),
        ">" => Some(Comparison::More),
        ">=" => Some(Comparison::AtLeast),
        _ => None,
    }
}

// The word of a list.
fn head_word(value: &Value) -> Option<&str>
    ensures { option_map (λ word. word.now) result ≡ head_word (view value.now) }
{
    value.get(0usize)?.as_str()
}

// The operator that a list begins with.
fn operator_in(value: &Value) -> Option<Operator>
    ensures { result ≡ operator_in (view value.now) }
{
    operator_of(head_word(value)?)
}

// A number.
fn number_term(value: &Value) -> Option<Expr>
    ensures { result ≡ number_term (view value.now) }
{
    let n = value.as_u64()?;
    Some(Expr::number(n))
}

// A variable.
fn variable_term(value: &Value) -> Option<Expr>
    ensures { result ≡ variable_term (view value.now) }
{
    let v = variable_of(value.as_str()?)?;
    Some(Expr::variable(v))
}

// A number or a variable.
fn leaf_in(value: &Value) -> Option<Expr>
    ensures { result ≡ leaf_in (view value.now) }
{
    match number_term(value) {
        Some(e) => Some(e),
        None => variable_term(value),
    }
}

// Item i, an expression.
#[cycle(exprs)]
fn expr_at(alloc: Global, deep: u8, value: &Value, i: usize) -> Result<Option<Expr>, OutOfMemory>
    ensures { IfOk result (λ e. e ≡ item_by (term_in deep) i (view value.now)) }
{
    let Some(item) = value.get(i) else {
        return Ok(None);
    };
    let e = expr_in(alloc, deep, item)?;
    Ok(e)
}

// An operator with two expressions.
#[cycle(exprs)]
fn both_in(alloc: Global, deep: u8, value: &Value) -> Result<Option<Expr>, OutOfMemory>
    ensures { IfOk result (λ e. e ≡ both_in (term_in deep) (view value.now)) }
{
    if !has_items(value, 3) {
        return Ok(None);
    }
    let Some(op) = operator_in(value) else {
        return Ok(None);
    };
    let Some(x) = expr_at(alloc, deep, value, 1)? else {
        return Ok(None);
    };
    let Some(y) = expr_at(alloc, deep, value, 2)? else {
        return Ok(None);
    };
    let e = Expr::both(alloc, op, x, y)?;
    Ok(Some(e))
}

// Such one, in which so many operators may stand in one another.
#[cycle(exprs)]
#[tactic(auto, using(crate::proofs::Levels::no_tree, crate::proofs::Levels::tree))]
fn tree_in(alloc: Global, deep: u8, value: &Value) -> Result<Option<Expr>, OutOfMemory>
    ensures { IfOk result (λ e. e ≡ tree_in deep (view value.now)) }
{
    if deep == 0 {
        return Ok(None);
    }
    let e = both_in(alloc, deep - 1, value)?;
    Ok(e)
}

/// The expression that a value is, if not more operators stand in one another.
#[cycle(exprs)]
pub fn expr_in(alloc: Global, deep: u8, value: &Value) -> Result<Option<Expr>, OutOfMemory>
    ensures { IfOk result (λ e. e ≡ term_in deep (view value.now)) }
{
    match leaf_in(value) {
        Some(e) => Ok(Some(e)),
        None => {
            let e = tree_in(alloc, deep, value)?;
            Ok(e)
        }
    }
}

// Two expressions that compare so.
fn compare_in(alloc: Global, word: &str, value: &Value) -> Result<Option<Cond>, OutOfMemory>
    ensures { IfOk result (λ c. c ≡ compare_in word.now (view value.now)) }
{
    if !has_items(value, 3) {
        return Ok(None);
    }
    let Some(by) = comparison_of(word) else {
        return Ok(None);
    };
    let Some(x) = expr_at(alloc, DEEPEST, value, 1)? else {
        return Ok(None);
    };
    let Some(y) = expr_at(alloc, DEEPEST, value, 2)? else {
        return Ok(None);
    };
    Ok(Some(Cond::compare(by, x, y)))
}

// Item i, a condition.
#[cycle(conds)]
fn inner_at(alloc: Global, deep: u8, value: &Value, i: usize) -> Result<Option<Cond>, OutOfMemory>
    ensures { IfOk result (λ c. c ≡ item_by (formula_in deep) i (view value.now)) }
{
    let Some(item) = value.get(i) else {
        return Ok(None);
    };
    let c = cond_in(alloc, deep, item)?;
    Ok(c)
}

// A condition that doesn't hold.
#[cycle(conds)]
fn not_in(alloc: Global, deep: u8, value: &Value) -> Result<Option<Cond>, OutOfMemory>
    ensures { IfOk result (λ c. c ≡ not_in (formula_in deep) (view value.now)) }
{
    if !has_items(value, 2) {
        return Ok(None);
    }
    let Some(x) = inner_at(alloc, deep, value, 1)? else {
        return Ok(None);
    };
    let c = Cond::none_of(alloc, x)?;
    Ok(Some(c))
}

// Two conditions.
#[cycle(conds)]
fn pair_in(alloc: Global, deep: u8, value: &Value) -> Result<Option<(Cond, Cond)>, OutOfMemory>
    ensures { IfOk result (λ p. p ≡ pair_in (formula_in deep) (view value.now)) }
{
    if !has_items(value, 3) {
        return Ok(None);
    }
    let Some(x) = inner_at(alloc, deep, value, 1)? else {
        return Ok(None);
    };
    let Some(y) = inner_at(alloc, deep, value, 2)? else {
        return Ok(None);
    };
    Ok(Some((x, y)))
}

// A condition of this word.
#[cycle(conds)]
fn cond_of(alloc: Global, deep: u8, word: &str, value: &Value) -> Result<Option<Cond>, OutOfMemory>
    ensures { IfOk result (λ c. c ≡ cond_formula (formula_in deep) word.now (view value.now)) }
{
    match word {
        "not" => not_in(alloc, deep, value),
        "and" => {
            let Some((x, y)) = pair_in(alloc, deep, value)? else {
                return Ok(None);
            };
            let c = Cond::each_of(alloc, x, y)?;
            Ok(Some(c))
        }
        "or" => {
            let Some((x, y)) = pair_in(alloc, deep, value)? else {
                return Ok(None);
            };
            let c = Cond::one_of(alloc, x, y)?;
            Ok(Some(c))
        }
        _ => compare_in(alloc, word, value),
    }
}

// A condition, by its word.
#[cycle(conds)]
fn worded(alloc: Global, deep: u8, value: &Value) -> Result<Option<Cond>, OutOfMemory>
    ensures { IfOk result (λ c. c ≡ worded (formula_in deep) (view value.now)) }
{
    let Some(word) = head_word(value) else {
        return Ok(None);
    };
    let c = cond_of(alloc, deep, word, value)?;
    Ok(c)
}

/// The condition that a value is, if not more stand in one another.
#[cycle(conds)]
#[tactic(auto, using(crate::proofs::Levels::no_formula, crate::proofs::Levels::formula))]
pub fn cond_in(alloc: Global, deep: u8, value: &Value) -> Result<Option<Cond>, OutOfMemory>
    ensures { IfOk result (λ c. c ≡ formula_in deep (view value.now)) }
{
    if deep == 0 {
        return Ok(None);
    }
    let c = worded(alloc, deep - 1, value)?;
    Ok(c)
}
