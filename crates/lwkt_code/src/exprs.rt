//! Expressions and conditions over the variables of a thread.
ghost use Rattle.std.specs.Prelude.{◌≡◌, IfOk};
ghost use Rattle.lwkt_code.specs.Terms.{number, variable, both, compare, each_of, one_of, none_of};
ghost use Rattle.lwkt_code.specs.Trees.{term_of, formula_of};

use lwkt_base::OutOfMemory;
use lwkt_base::memory::boxed;
use std::alloc::Global;
use std::marker::Model;

/// An operator of expressions.
#[derive(Clone, Copy)]
pub enum Operator {
    Plus,
    Minus,
    Times,
    Over,
    Rest,
}

/// A comparison of two numbers.
#[derive(Clone, Copy)]
pub enum Comparison {
    Equal,
    Unequal,
    Less,
    AtMost,
    More,
    AtLeast,
}

/// The tree of an expression.
#[derive(Drop)]
pub enum ExprTree {
    Number(u64),
    Variable(u8),
    Both(Operator, Box<ExprTree>, Box<ExprTree>),
}

/// An expression. Clauses see it as a `Term`.
#[derive(Drop)]
pub struct Expr {
    tree: ExprTree,
}

impl Model for Expr {
    ghost use Rattle.lwkt_code.specs.Terms.{Term};
    ghost use Rattle.lwkt_code.specs.Codes.{term_code};

    ghost Value = { Term };

    ghost coded = { term_code };

    ghost use Rattle.lwkt_code.specs.Trees.{term_of};

    ghost view = { λ e. term_of e.tree };
}

/// The tree of a condition.
#[derive(Drop)]
pub enum CondTree {
    Compare(Comparison, Expr, Expr),
    And(Box<CondTree>, Box<CondTree>),
    Or(Box<CondTree>, Box<CondTree>),
    Not(Box<CondTree>),
}

/// A condition. Clauses see it as a `Formula`.
#[derive(Drop)]
pub struct Cond {
    tree: CondTree,
}

impl Model for Cond {
    ghost use Rattle.lwkt_code.specs.Terms.{Formula};
    ghost use Rattle.lwkt_code.specs.Codes.{formula_code};

    ghost Value = { Formula };

    ghost coded = { formula_code };

    ghost use Rattle.lwkt_code.specs.Trees.{formula_of};

    ghost view = { λ c. formula_of c.tree };
}

// The same tree, in memory of its own.
fn copy_expr(alloc: Global, tree: &ExprTree) -> Result<ExprTree, OutOfMemory>
    ensures { IfOk result (λ t. term_of t ≡ term_of tree.now) }
{
    match tree {
        ExprTree::Number(n) => Ok(ExprTree::Number(*n)),
        ExprTree::Variable(v) => Ok(ExprTree::Variable(*v)),
        ExprTree::Both(op, a, b) => {
            let x = boxed(alloc, copy_expr(alloc, a)?)?;
            let y = boxed(alloc, copy_expr(alloc, b)?)?;
            Ok(ExprTree::Both(*op, x, y))
        }
    }
}

impl Expr {
    /// A number.
    pub fn number(n: u64) -> Expr
        ensures { result ≡ number n }
    {
        Expr {
            tree: ExprTree::Number(n),
        }
    }

    /// What a variable holds.
    pub fn variable(v: u8) -> Expr
        ensures { result ≡ variable v }
    {
        Expr {
            tree: ExprTree::Variable(v),
        }
    }

    /// What an operator makes of two expressions.
    pub fn both(alloc: Global, op: Operator, a: Expr, b: Expr) -> Result<Expr, OutOfMemory>
        ensures { IfOk result (λ e. e ≡ both op a b) }
    {
        let x = boxed(alloc, a.tree)?;
        let y = boxed(alloc, b.tree)?;
        Ok(Expr {
            tree: ExprTree::Both(op, x, y),
        })
    }

    /// Its tree.
    pub fn tree(&self) -> &ExprTree
        ensures { term_of result.now ≡ self.now }
    {
        &self.tree
    }

    /// The same expression, in memory of its own.
    pub fn copy(&self, alloc: Global) -> Result<Expr, OutOfMemory>
        ensures { IfOk result (λ e. e ≡ self.now) }
    {
        let tree = copy_expr(alloc, &self.tree)?;
        Ok(Expr { tree })
    }
}

// The same tree, in memory of its own.
fn copy_cond(alloc: Global, tree: &CondTree) -> Result<CondTree, OutOfMemory>
    ensures { IfOk result (λ t. formula_of t ≡ formula_of tree.now) }
{
    match tree {
        CondTree::Compare(by, a, b) => {
            let x = a.copy(alloc)?;
            let y = b.copy(alloc)?;
            Ok(CondTree::Compare(*by, x, y))
        }
        CondTree::And(a, b) => {
            let x = boxed(alloc, copy_cond(alloc, a)?)?;
            let y = boxed(alloc, copy_cond(alloc, b)?)?;
            Ok(CondTree::And(x, y))
        }
        CondTree::Or(a, b) => {
            let x = boxed(alloc, copy_cond(alloc, a)?)?;
            let y = boxed(alloc, copy_cond(alloc, b)?)?;
            Ok(CondTree::Or(x, y))
        }
        CondTree::Not(a) => {
            let x = boxed(alloc, copy_cond(alloc, a)?)?;
            Ok(CondTree::Not(x))
        }
    }
}

impl Cond {
    /// That two expressions compare so.
    pub fn compare(by: Comparison, a: Expr, b: Expr) -> Cond
        ensures { result ≡ compare by a b }
    {
        Cond {
            tree: CondTree::Compare(by, a, b),
        }
    }

    /// That each of two conditions holds.
    pub fn each_of(alloc: Global, a: Cond, b: Cond) -> Result<Cond, OutOfMemory>
        ensures { IfOk result (λ c. c ≡ each_of a b) }
    {
        let x = boxed(alloc, a.tree)?;
        let y = boxed(alloc, b.tree)?;
        Ok(Cond {
            tree: CondTree::And(x, y),
        })
    }

    /// That one of two conditions holds, or each.
    pub fn one_of(alloc: Global, a: Cond, b: Cond) -> Result<Cond, OutOfMemory>
        ensures { IfOk result (λ c. c ≡ one_of a b) }
    {
        let x = boxed(alloc, a.tree)?;
        let y = boxed(alloc, b.tree)?;
        Ok(Cond {
            tree: CondTree::Or(x, y),
        })
    }

    /// That a condition doesn't hold.
    pub fn none_of(alloc: Global, a: Cond) -> Result<Cond, OutOfMemory>
        ensures { IfOk result (λ c. c ≡ none_of a) }
    {
        let x = boxed(alloc, a.tree)?;
        Ok(Cond {
            tree: CondTree::Not(x),
        })
    }

    /// Its tree.
    pub fn tree(&self) -> &CondTree
        ensures { formula_of result.now ≡ self.now }
    {
        &self.tree
    }

    /// The same condition, in memory of its own.
    pub fn copy(&self, alloc: Global) -> Result<Cond, OutOfMemory>
        ensures { IfOk result (λ c. c ≡ self.now) }
    {
        let tree = copy_cond(alloc, &self.tree)?;
        Ok(Cond { tree })
    }
}
