// Expressions and conditions, written: in the text's form, where brackets stand around what stands in others, and in JSON's.

use crate::pages::Sheet;
use lwkt_base::OutOfMemory;
use lwkt_code::{Comparison, CondTree, Expr, ExprTree, Operator};

/// The sign of an operator.
pub fn operator_sign(op: Operator) -> &'static str {
    match op {
        Operator::Plus => "+",
        Operator::Minus => "-",
        Operator::Times => "*",
        Operator::Over => "/",
        Operator::Rest => "%",
    }
}

/// The sign of a comparison.
pub fn comparison_sign(by: Comparison) -> &'static str {
    match by {
        Comparison::Equal => "=",
        Comparison::Unequal => "!=",
        Comparison::Less => "<",
        Comparison::AtMost => "<=",
        Comparison::More => ">",
        Comparison::AtLeast => ">=",
    }
}

/// The number that an expression is, if it is no more than that.
pub fn constant(e: &Expr) -> Option<u64> {
    match e.tree() {
        ExprTree::Number(n) => Some(*n),
        _ => None,
    }
}

// An expression, in brackets if it has an operator.
fn write_inner(page: &mut Sheet, tree: &ExprTree) -> Result<(), OutOfMemory> {
    match tree {
        ExprTree::Number(n) => page.number(*n),
        ExprTree::Variable(v) => page.tagged("v", u64::from(*v)),
        ExprTree::Both(op, a, b) => {
            page.text("(")?;
            write_inner(page, a)?;
            page.text(" ")?;
            page.text(operator_sign(*op))?;
            page.text(" ")?;
            write_inner(page, b)?;
            page.text(")")
        }
    }
}

/// An expression that stands beside a full stop.
pub fn write_atom(page: &mut Sheet, e: &Expr) -> Result<(), OutOfMemory> {
    write_inner(page, e.tree())
}

/// An expression.
pub fn write_expr(page: &mut Sheet, e: &Expr) -> Result<(), OutOfMemory> {
    match e.tree() {
        ExprTree::Both(op, a, b) => {
            write_inner(page, a)?;
            page.text(" ")?;
            page.text(operator_sign(*op))?;
            page.text(" ")?;
            write_inner(page, b)
        }
        tree => write_inner(page, tree),
    }
}

/// A condition.
pub fn write_cond(page: &mut Sheet, tree: &CondTree) -> Result<(), OutOfMemory> {
    match tree {
        CondTree::Compare(by, a, b) => {
            write_expr(page, a)?;
            page.text(" ")?;
            page.text(comparison_sign(*by))?;
            page.text(" ")?;
            write_expr(page, b)
        }
        CondTree::And(a, b) => {
            page.text("(")?;
            write_cond(page, a)?;
            page.text(") and (")?;
            write_cond(page, b)?;
            page.text(")")
        }
        CondTree::Or(a, b) => {
            page.text("(")?;
            write_cond(page, a)?;
            page.text(") or (")?;
            write_cond(page, b)?;
            page.text(")")
        }
        CondTree::Not(a) => {
            page.text("not (")?;
            write_cond(page, a)?;
            page.text(")")
        }
    }
}

// An expression in JSON.
fn write_json_tree(page: &mut Sheet, tree: &ExprTree) -> Result<(), OutOfMemory> {
    match tree {
        ExprTree::Number(n) => page.number(*n),
        ExprTree::Variable(v) => {
            page.tagged("\"v", u64::from(*v))?;
            page.text("\"")
        }
        ExprTree::Both(op, a, b) => {
            page.text("[\"")?;
            page.text(operator_sign(*op))?;
            page.text("\", ")?;
            write_json_tree(page, a)?;
            page.text(", ")?;
            write_json_tree(page, b)?;
            page.text("]")
        }
    }
}

/// An expression in JSON.
pub fn write_json_expr(page: &mut Sheet, e: &Expr) -> Result<(), OutOfMemory> {
    write_json_tree(page, e.tree())
}

/// A condition in JSON.
pub fn write_json_cond(page: &mut Sheet, tree: &CondTree) -> Result<(), OutOfMemory> {
    match tree {
        CondTree::Compare(by, a, b) => {
            page.text("[\"")?;
            page.text(comparison_sign(*by))?;
            page.text("\", ")?;
            write_json_expr(page, a)?;
            page.text(", ")?;
            write_json_expr(page, b)?;
            page.text("]")
        }
        CondTree::And(a, b) => {
            page.text("[\"and\", ")?;
            write_json_cond(page, a)?;
            page.text(", ")?;
            write_json_cond(page, b)?;
            page.text("]")
        }
        CondTree::Or(a, b) => {
            page.text("[\"or\", ")?;
            write_json_cond(page, a)?;
            page.text(", ")?;
            write_json_cond(page, b)?;
            page.text("]")
        }
        CondTree::Not(a) => {
            page.text("[\"not\", ")?;
            write_json_cond(page, a)?;
            page.text("]")
        }
    }
}

// How many variables there have to be for an expression.
fn width_of_tree(tree: &ExprTree) -> u8 {
    match tree {
        ExprTree::Number(_) => 0,
        ExprTree::Variable(v) => v.saturating_add(1),
        ExprTree::Both(_, a, b) => {
            let x = width_of_tree(a);
            let y = width_of_tree(b);
            x.max(y)
        }
    }
}

/// How many variables there have to be for an expression.
pub fn width_of_expr(e: &Expr) -> u8 {
    width_of_tree(e.tree())
}

/// How many variables there have to be for a condition.
pub fn width_of_cond(tree: &CondTree) -> u8 {
    match tree {
        CondTree::Compare(_, a, b) => width_of_expr(a).max(width_of_expr(b)),
        CondTree::And(a, b) => {
            let x = width_of_cond(a);
            let y = width_of_cond(b);
            x.max(y)
        }
        CondTree::Or(a, b) => {
            let x = width_of_cond(a);
            let y = width_of_cond(b);
            x.max(y)
        }
        CondTree::Not(a) => width_of_cond(a),
    }
}
