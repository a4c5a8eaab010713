// Whether two steps are the same.
ghost use Rattle.std.specs.Prelude.{◌≡◌, IsTrue};
ghost use Rattle.lwkt_code.specs.Trees.{term_of, formula_of};

use lwkt_code::{
    Comparison, Cond, CondTree, Expr, ExprTree, Operand, Operator, Places, Step, Wish,
};

fn same_operator(one: Operator, other: Operator) -> bool
    ensures { IsTrue result → one ≡ other }
{
    match (one, other) {
        (Operator::Plus, Operator::Plus) => true,
        (Operator::Minus, Operator::Minus) => true,
        (Operator::Times, Operator::Times) => true,
        (Operator::Over, Operator::Over) => true,
        (Operator::Rest, Operator::Rest) => true,
        _ => false,
    }
}

fn same_comparison(one: Comparison, other: Comparison) -> bool
    ensures { IsTrue result → one ≡ other }
{
    match (one, other) {
        (Comparison::Equal, Comparison::Equal) => true,
        (Comparison::Unequal, Comparison::Unequal) => true,
        (Comparison::Less, Comparison::Less) => true,
        (Comparison::AtMost, Comparison::AtMost) => true,
        (Comparison::More, Comparison::More) => true,
        (Comparison::AtLeast, Comparison::AtLeast) => true,
        _ => false,
    }
}

// Whether the expressions of two trees are the same.
fn same_tree(one: &ExprTree, other: &ExprTree) -> bool
    ensures { IsTrue result → term_of one.now ≡ term_of other.now }
{
    match (one, other) {
        (ExprTree::Number(n), ExprTree::Number(m)) => *n == *m,
        (ExprTree::Variable(v), ExprTree::Variable(w)) => *v == *w,
        (ExprTree::Both(op, a, b), ExprTree::Both(by, c, d)) => {
            let is_left = same_tree(a, c);
            let is_right = same_tree(b, d);
            same_operator(*op, *by) && is_left && is_right
        }
        _ => false,
    }
}

fn same_expr(one: &Expr, other: &Expr) -> bool
    ensures { IsTrue result → one.now ≡ other.now }
{
    same_tree(one.tree(), other.tree())
}

// Whether the conditions of two trees are the same.
fn same_cond_tree(one: &CondTree, other: &CondTree) -> bool
    ensures { IsTrue result → formula_of one.now ≡ formula_of other.now }
{
    match (one, other) {
        (CondTree::Compare(by, a, b), CondTree::Compare(to, c, d)) => {
            same_comparison(*by, *to) && same_expr(a, c) && same_expr(b, d)
        }
        (CondTree::And(a, b), CondTree::And(c, d)) => {
            let is_left = same_cond_tree(a, c);
            let is_right = same_cond_tree(b, d);
            is_left && is_right
        }
        (CondTree::Or(a, b), CondTree::Or(c, d)) => {
            let is_left = same_cond_tree(a, c);
            let is_right = same_cond_tree(b, d);
            is_left && is_right
        }
        (CondTree::Not(a), CondTree::Not(c)) => same_cond_tree(a, c),
        _ => false,
    }
}

fn same_cond(one: &Cond, other: &Cond) -> bool
    ensures { IsTrue result → one.now ≡ other.now }
{
    same_cond_tree(one.tree(), other.tree())
}

fn same_operand(one: &Operand, other: &Operand) -> bool
    ensures { IsTrue result → one.now ≡ other.now }
{
    match (one, other) {
        (Operand::Token(a), Operand::Token(b)) => same_expr(a, b),
        (Operand::Cell(a, c), Operand::Cell(b, d)) => same_expr(a, b) && same_expr(c, d),
        (Operand::Value(a), Operand::Value(b)) => same_expr(a, b),
        (Operand::Record(a), Operand::Record(b)) => a.is_same(b),
        (Operand::Message(a), Operand::Message(b)) => same_expr(a, b),
        (Operand::Target(a, c), Operand::Target(b, d)) => same_expr(a, b) && same_expr(c, d),
        (Operand::Call(a, c), Operand::Call(b, d)) => same_expr(a, b) && same_expr(c, d),
        (Operand::Flags(a), Operand::Flags(b)) => *a == *b,
        (Operand::Code(a), Operand::Code(b)) => same_expr(a, b),
        (Operand::Outcome(a), Operand::Outcome(b)) => same_expr(a, b),
        _ => false,
    }
}

fn same_operands(ones: &[Operand], others: &[Operand]) -> bool
    ensures { IsTrue result → ones.now ≡ others.now }
{
    if ones.len() != others.len() {
        return false;
    }
    for i in 0..ones.len() {
        if !same_operand(&ones[i], &others[i]) {
            return false;
        }
    }
    true
}

fn same_places(one: Places, other: Places) -> bool
    ensures { IsTrue result → one ≡ other }
{
    match (one, other) {
        (Places::Nowhere, Places::Nowhere) => true,
        (Places::One(a), Places::One(b)) => a == b,
        (Places::Two(a, b), Places::Two(c, d)) => a == c && b == d,
        (Places::Three(a, b, c), Places::Three(d, e, f)) => a == d && b == e && c == f,
        _ => false,
    }
}

#[tactic(auto, using(crate::proofs::Equality::wish_same))]
fn same_wish(one: &Wish, other: &Wish) -> bool
    ensures { IsTrue result → one.now ≡ other.now }
{
    if !same_operands(one.operands.as_slice(), other.operands.as_slice()) {
        return false;
    }
    one.verb == other.verb
}

// Whether two steps are the same.
fn same_step(one: &Step, other: &Step) -> bool
    ensures { IsTrue result → one.now ≡ other.now }
{
    match (one, other) {
        (Step::Fixed(a), Step::Fixed(b)) => a.is_same(b),
        (Step::Make(a, p), Step::Make(b, q)) => same_wish(a, b) && same_places(*p, *q),
        (Step::Set(v, e), Step::Set(w, f)) => *v == *w && same_expr(e, f),
        (Step::Fault(v), Step::Fault(w)) => *v == *w,
        (Step::Unless(t, c, to), Step::Unless(u, d, at)) => {
            *t == *u && same_cond(c, d) && *to == *at
        }
        (Step::Goto(j, to), Step::Goto(k, at)) => *j == *k && *to == *at,
        (Step::Count(k, n), Step::Count(l, m)) => *k == *l && *n == *m,
        (Step::Again(k, to), Step::Again(l, at)) => *k == *l && *to == *at,
        (Step::Assert(c, n), Step::Assert(d, m)) => same_cond(c, d) && *n == *m,
        _ => false,
    }
}

/// Whether two lists of steps are the same.
pub fn same_steps(ones: &[Step], others: &[Step]) -> bool
    ensures { IsTrue result → ones.now ≡ others.now }
{
    if ones.len() != others.len() {
        return false;
    }
    for i in 0..ones.len() {
        if !same_step(&ones[i], &others[i]) {
            return false;
        }
    }
    true
}
