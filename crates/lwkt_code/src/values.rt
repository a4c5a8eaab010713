//! The values of expressions and conditions.
ghost use Rattle.std.specs.Prelude.{◌≡◌, slice_index, slice_set};
ghost use Rattle.lwkt_code.specs.Trees.{term_of, formula_of};
ghost use Rattle.lwkt_code.specs.Values.{applied, value_of, compared, holds_in};

use crate::exprs::{Comparison, Cond, CondTree, Expr, ExprTree, Operator};

/// What a variable holds, 0 where there is no such one.
#[inline(always)]
pub fn held(vars: &[u64; 8], v: u8) -> u64
    ensures { result ≡ slice_index vars.now v }
{
    if v < 8 { vars[v as usize] } else { 0 }
}

/// Puts a number into a variable, if there is such one.
#[inline(always)]
pub fn put(vars: &mut [u64; 8], v: u8, value: u64)
    ensures { vars.new ≡ slice_set vars.old v value }
{
    if v < 8 {
        vars[v as usize] = value;
    }
}

fn apply(op: Operator, x: u64, y: u64) -> u64
    ensures { result ≡ applied op x y }
{
    match op {
        Operator::Plus => x.wrapping_add(y),
        Operator::Minus => x.wrapping_sub(y),
        Operator::Times => x.wrapping_mul(y),
        Operator::Over => if y == 0 { 0 } else { x / y },
        Operator::Rest => if y == 0 { 0 } else { x % y },
    }
}

// The value of a tree.
fn value_of(tree: &ExprTree, vars: &[u64; 8]) -> u64
    ensures { result ≡ value_of (term_of tree.now) vars.now }
{
    match tree {
        ExprTree::Number(n) => *n,
        ExprTree::Variable(v) => held(vars, *v),
        ExprTree::Both(op, a, b) => {
            let x = value_of(a, vars);
            let y = value_of(b, vars);
            apply(*op, x, y)
        }
    }
}

/// The value of an expression.
pub fn value(e: &Expr, vars: &[u64; 8]) -> u64
    ensures { result ≡ value_of e.now vars.now }
{
    value_of(e.tree(), vars)
}

fn compare(by: Comparison, x: u64, y: u64) -> bool
    ensures { result ≡ compared by x y }
{
    match by {
        Comparison::Equal => x == y,
        Comparison::Unequal => x != y,
        Comparison::Less => x < y,
        Comparison::AtMost => x <= y,
        Comparison::More => y < x,
        Comparison::AtLeast => y <= x,
    }
}

// Whether the condition of a tree holds.
fn holds_in(tree: &CondTree, vars: &[u64; 8]) -> bool
    ensures { result ≡ holds_in (formula_of tree.now) vars.now }
{
    match tree {
        CondTree::Compare(by, a, b) => {
            let x = value(a, vars);
            let y = value(b, vars);
            compare(*by, x, y)
        }
        CondTree::And(a, b) => {
            let x = holds_in(a, vars);
            let y = holds_in(b, vars);
            x && y
        }
        CondTree::Or(a, b) => {
            let x = holds_in(a, vars);
            let y = holds_in(b, vars);
            x || y
        }
        CondTree::Not(a) => !holds_in(a, vars),
    }
}

/// Whether a condition holds.
pub fn holds(c: &Cond, vars: &[u64; 8]) -> bool
    ensures { result ≡ holds_in c.now vars.now }
{
    holds_in(c.tree(), vars)
}
