//! Expressions and conditions in words, as a script has them; a variable by its name, if names are given, or else by its number.
ghost use Rattle.std.specs.Prelude.{◌≡◌, true, false};
ghost use Rattle.std.specs.Option.{option_copied};
ghost use Rattle.lwkt_code.specs.Trees.{term_of, formula_of};
ghost use Rattle.lwkt_refusals.specs.Pages.{GrowsBy};
ghost use Rattle.lwkt_show.specs.Computed.{operator_text, comparison_text, opening_text, closing_text, variable_said, term_text, formula_text};

use lwkt_base::ThreadId;
use lwkt_code::{Comparison, Cond, CondTree, Expr, ExprTree, Operator};
use lwkt_refusals::Page;
use lwkt_text::Names;
use lwkt_told::VariableCalled;

// An operator, between blanks.
fn operator_words(op: Operator) -> &'static str
    ensures { result.now ≡ operator_text op }
{
    match op {
        Operator::Plus => " + ",
        Operator::Minus => " - ",
        Operator::Times => " * ",
        Operator::Over => " / ",
        Operator::Rest => " % ",
    }
}

// A comparison, between blanks.
fn comparison_words(by: Comparison) -> &'static str
    ensures { result.now ≡ comparison_text by }
{
    match by {
        Comparison::Equal => " = ",
        Comparison::Unequal => " != ",
        Comparison::Less => " < ",
        Comparison::AtMost => " <= ",
        Comparison::More => " > ",
        Comparison::AtLeast => " >= ",
    }
}

// What stands before two parts that stand in another one.
fn opening(is_inner: bool) -> &'static str
    ensures { result.now ≡ opening_text is_inner }
{
    if is_inner { "(" } else { "" }
}

// What stands behind them.
fn closing(is_inner: bool) -> &'static str
    ensures { result.now ≡ closing_text is_inner }
{
    if is_inner { ")" } else { "" }
}

/// Appends a variable of a thread: its name, if names are given, or `v` and its number.
pub(crate) fn show_variable(out: &mut Page, names: Option<&Names>, id: ThreadId, number: u8)
    ensures { GrowsBy out.old out.new (variable_said (option_copied names.entry) id number) }
{
    match names {
        Some(names) => out.say(VariableCalled { names, id, number }),
        None => out.number("v", u64::from(number)),
    }
}

// Appends an expression of a thread, in brackets if it has an operator and stands in another one.
fn show_term(out: &mut Page, names: Option<&Names>, id: ThreadId, tree: &ExprTree, is_inner: bool)
    ensures { GrowsBy out.old out.new (term_text (option_copied names.entry) id is_inner (term_of tree.now)) }
{
    match tree {
        ExprTree::Number(n) => out.number("", *n),
        ExprTree::Variable(v) => show_variable(out, names, id, *v),
        ExprTree::Both(op, a, b) => {
            out.add(opening(is_inner));
            show_term(out, names, id, a, true);
            out.add(operator_words(*op));
            show_term(out, names, id, b, true);
            out.add(closing(is_inner))
        }
    }
}

// Appends an expression.
fn show_expr(out: &mut Page, names: Option<&Names>, id: ThreadId, e: &Expr)
    ensures { GrowsBy out.old out.new (term_text (option_copied names.entry) id false e.now) }
{
    show_term(out, names, id, e.tree(), false)
}

// Appends a condition, in brackets if it has two parts and stands in another one.
fn show_formula(
    out: &mut Page,
    names: Option<&Names>,
    id: ThreadId,
    tree: &CondTree,
    is_inner: bool,
)
    ensures { GrowsBy out.old out.new (formula_text (option_copied names.entry) id is_inner (formula_of tree.now)) }
{
    match tree {
        CondTree::Compare(by, a, b) => {
            show_expr(out, names, id, a);
            out.add(comparison_words(*by));
            show_expr(out, names, id, b)
        }
        CondTree::And(a, b) => {
            out.add(opening(is_inner));
            show_formula(out, names, id, a, true);
            out.add(" and ");
            show_formula(out, names, id, b, true);
            out.add(closing(is_inner))
        }
        CondTree::Or(a, b) => {
            out.add(opening(is_inner));
            show_formula(out, names, id, a, true);
            out.add(" or ");
            show_formula(out, names, id, b, true);
            out.add(closing(is_inner))
        }
        CondTree::Not(a) => {
            out.add("not (");
            show_formula(out, names, id, a, false);
            out.add(")")
        }
    }
}

/// Appends a condition of a thread: `v0 + 1 < 3`, `v0 = 0 and not (v1 = 2)`.
pub(crate) fn show_condition(out: &mut Page, names: Option<&Names>, id: ThreadId, cond: &Cond)
    ensures { GrowsBy out.old out.new (formula_text (option_copied names.entry) id false cond.now) }
{
    show_formula(out, names, id, cond.tree(), false)
}
