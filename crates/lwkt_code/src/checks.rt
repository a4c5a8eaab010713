//! What may be wrong with a step by itself.
ghost use Rattle.std.specs.Prelude.{◌≡◌, ◌<◌, ◌↔◌, IsTrue, min, Option, Some, None, drop, length, slice_get};
ghost use Rattle.lwkt_code.specs.Trees.{term_of, formula_of};
ghost use Rattle.lwkt_code.specs.Flaws.{operators, operators_of_cond, has_variables, has_variables_of_cond, flaw_of_variable, flaw_of_counter, flaw_of_jump, flaw_of_expr, flaw_of_cond, flaw_of_operand, flaw_of_operands, most_places, flaw_of_places, flaw_of_wish, flaw_of};

use crate::exprs::{Cond, CondTree, Expr, ExprTree};
use crate::steps::{Operand, Places, Step, Wish};
use crate::wishes::make;
use lwkt_base::Verb;

/// The most operators of an expression or a condition.
pub const MOST_OPERATORS: u32 = 16;

/// What is wrong with a step.
#[derive(Clone, Copy, PartialEq, Eq)]
pub enum Flaw {
    /// It names a variable that isn't there: there are 0 to 7.
    NoVariable,
    /// It names a count that isn't there: there are 0 to 7.
    NoCount,
    /// It leads out of the program.
    Outside,
    /// It has an expression or a condition of more than 16 operators.
    Large,
    /// What stands behind the word of its ask isn't of the ask's kinds.
    StepParts,
    /// It has more places than the answer to its ask has numbers.
    Places,
}

// How many operators an expression has, as far as they can be counted.
fn operators(tree: &ExprTree) -> u32
    ensures { result ≡ min (operators (term_of tree.now)) 4294967295 }
{
    match tree {
        ExprTree::Number(_) => 0,
        ExprTree::Variable(_) => 0,
        ExprTree::Both(_, a, b) => {
            let x = operators(a);
            let y = operators(b);
            x.saturating_add(y).saturating_add(1)
        }
    }
}

// The same of a condition.
fn operators_of_cond(tree: &CondTree) -> u32
    ensures { result ≡ min (operators_of_cond (formula_of tree.now)) 4294967295 }
{
    match tree {
        CondTree::Compare(_, a, b) => {
            let x = operators(a.tree());
            let y = operators(b.tree());
            x.saturating_add(y).saturating_add(1)
        }
        CondTree::And(a, b) => {
            let x = operators_of_cond(a);
            let y = operators_of_cond(b);
            x.saturating_add(y).saturating_add(1)
        }
        CondTree::Or(a, b) => {
            let x = operators_of_cond(a);
            let y = operators_of_cond(b);
            x.saturating_add(y).saturating_add(1)
        }
        CondTree::Not(a) => operators_of_cond(a).saturating_add(1),
    }
}

// Whether an expression names variables that are there.
fn has_variables(tree: &ExprTree) -> bool
    ensures { result ≡ has_variables (term_of tree.now) }
{
    match tree {
        ExprTree::Number(_) => true,
        ExprTree::Variable(v) => *v < 8,
        ExprTree::Both(_, a, b) => {
            let x = has_variables(a);
            let y = has_variables(b);
            x && y
        }
    }
}

// The same of a condition.
fn has_variables_of_cond(tree: &CondTree) -> bool
    ensures { result ≡ has_variables_of_cond (formula_of tree.now) }
{
    match tree {
        CondTree::Compare(_, a, b) => {
            let x = has_variables(a.tree());
            let y = has_variables(b.tree());
            x && y
        }
        CondTree::And(a, b) => {
            let x = has_variables_of_cond(a);
            let y = has_variables_of_cond(b);
            x && y
        }
        CondTree::Or(a, b) => {
            let x = has_variables_of_cond(a);
            let y = has_variables_of_cond(b);
            x && y
        }
        CondTree::Not(a) => has_variables_of_cond(a),
    }
}

fn flaw_of_variable(v: u8) -> Option<Flaw>
    ensures { result ≡ flaw_of_variable v }
{
    if v < 8 { None } else { Some(Flaw::NoVariable) }
}

fn flaw_of_counter(k: u8) -> Option<Flaw>
    ensures { result ≡ flaw_of_counter k }
{
    if k < 8 { None } else { Some(Flaw::NoCount) }
}

fn flaw_of_jump(count: usize, to: usize) -> Option<Flaw>
    ensures { result ≡ flaw_of_jump count to }
{
    if to <= count {
        None
    } else {
        Some(Flaw::Outside)
    }
}

fn flaw_of_expr(e: &Expr) -> Option<Flaw>
    ensures { result ≡ flaw_of_expr e.now }
{
    if !has_variables(e.tree()) {
        return Some(Flaw::NoVariable);
    }
    if operators(e.tree()) > MOST_OPERATORS {
        Some(Flaw::Large)
    } else {
        None
    }
}

fn flaw_of_cond(c: &Cond) -> Option<Flaw>
    ensures { result ≡ flaw_of_cond c.now }
{
    if !has_variables_of_cond(c.tree()) {
        return Some(Flaw::NoVariable);
    }
    if operators_of_cond(c.tree()) > MOST_OPERATORS {
        Some(Flaw::Large)
    } else {
        None
    }
}

fn flaw_of_operand(operand: &Operand) -> Option<Flaw>
    ensures { result ≡ flaw_of_operand operand.now }
{
    match operand {
        Operand::Token(tok) => flaw_of_expr(tok),
        Operand::Cell(tok, cell) => flaw_of_expr(tok).or(flaw_of_expr(cell)),
        Operand::Value(x) => flaw_of_expr(x),
        Operand::Record(_) => None,
        Operand::Message(msg) => flaw_of_expr(msg),
        Operand::Target(cpu, thread) => flaw_of_expr(cpu).or(flaw_of_expr(thread)),
        Operand::Call(op, arg) => flaw_of_expr(op).or(flaw_of_expr(arg)),
        Operand::Flags(_) => None,
        Operand::Code(error) => flaw_of_expr(error),
        Operand::Outcome(outcome) => flaw_of_expr(outcome),
    }
}

fn flaw_of_operands(operands: &[Operand]) -> Option<Flaw>
    ensures { result ≡ flaw_of_operands operands.now }
{
    for operand in operands {
        match flaw_of_operand(operand) {
            None => {}
            Some(flaw) => return Some(flaw),
        }
    }
    None
}

// How many numbers an answer to an ask of a kind holds at most.
fn most_places(verb: Verb) -> usize
    ensures { result ≡ most_places verb }
{
    match verb {
        Verb::Read => 1,
        Verb::IsAborted => 1,
        Verb::TryGet => 1,
        Verb::Do => 2,
        Verb::WaitPort => 3,
        Verb::GetPort => 3,
        _ => 0,
    }
}

// Whether these are so many places at most, each a variable that is there.
fn flaw_of_places(most: usize, places: Places) -> Option<Flaw>
    ensures { result ≡ flaw_of_places most places }
{
    match places {
        Places::Nowhere => None,
        Places::One(u) => if most < 1 {
            Some(Flaw::Places)
        } else {
            flaw_of_variable(u)
        },
        Places::Two(u, v) => if most < 2 {
            Some(Flaw::Places)
        } else {
            flaw_of_variable(u).or(flaw_of_variable(v))
        },
        Places::Three(u, v, w) => if most < 3 {
            Some(Flaw::Places)
        } else {
            flaw_of_variable(u)
                .or(flaw_of_variable(v))
                .or(flaw_of_variable(w))
        },
    }
}

fn flaw_of_wish(wish: &Wish, places: Places) -> Option<Flaw>
    ensures { result ≡ flaw_of_wish wish.now places }
{
    if make(wish, &[0; 8]).is_none() {
        return Some(Flaw::StepParts);
    }
    flaw_of_operands(wish.operands.as_slice()).or(flaw_of_places(most_places(wish.verb), places))
}

/// What is wrong with a step of a program of so many.
pub fn flaw_of(count: usize, step: &Step) -> Option<Flaw>
    ensures { result ≡ flaw_of count step.now }
{
    match step {
        Step::Fixed(_) => None,
        Step::Make(wish, places) => flaw_of_wish(wish, *places),
        Step::Set(v, e) => flaw_of_variable(*v).or(flaw_of_expr(e)),
        Step::Fault(v) => flaw_of_variable(*v),
        Step::Unless(_, c, to) => flaw_of_cond(c).or(flaw_of_jump(count, *to)),
        Step::Goto(_, to) => flaw_of_jump(count, *to),
        Step::Count(k, _) => flaw_of_counter(*k),
        Step::Again(k, to) => flaw_of_counter(*k).or(flaw_of_jump(count, *to)),
        Step::Assert(c, _) => flaw_of_cond(c),
    }
}
