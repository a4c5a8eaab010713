//! The steps of a program: a list, in which a step names the place where it goes on.

use crate::exprs::{Cond, Expr};
use crate::series::Series;
use lwkt_base::{Ask, Blob, Flags, Verb};

/// What stands behind the word of an ask, of each kind that `lwkt_base` has.
#[derive(Drop)]
pub enum Operand {
    Token(Expr),
    /// A token and a cell.
    Cell(Expr, Expr),
    Value(Expr),
    Record(Blob),
    Message(Expr),
    /// A processor and the number of a thread there.
    Target(Expr, Expr),
    /// What a message asks for, and its argument.
    Call(Expr, Expr),
    Flags(Flags),
    Code(Expr),
    Outcome(Expr),
}

/// An ask whose numbers are expressions.
#[derive(Drop)]
pub struct Wish {
    pub verb: Verb,
    /// What stands behind the word, in order.
    pub operands: Series<Operand>,
}

/// The variables that take what the answer to an ask holds, in order.
#[derive(Clone, Copy)]
pub enum Places {
    Nowhere,
    One(u8),
    Two(u8, u8),
    Three(u8, u8, u8),
}

/// What a step that goes on unless a condition holds is written as.
#[derive(Clone, Copy, PartialEq, Eq)]
pub enum Test {
    If,
    While,
}

/// What a step that goes on somewhere is written as.
#[derive(Clone, Copy, PartialEq, Eq)]
pub enum Jump {
    /// The `else` of an `if`: leads behind its end.
    Else,
    /// The end of a `while` or a `loop`: leads back to its head.
    Back,
    /// Leads behind the end of the loop that it leaves.
    Break,
    /// The head of a `loop`: leads to the next place.
    Loop,
    /// The end of an `if`: leads to the next place.
    End,
}

/// One step. Places count from 0, and the place behind the last step is the end.
#[derive(Drop)]
pub enum Step {
    /// An ask that is the same each time, and whose answer is put nowhere.
    Fixed(Ask),
    /// An ask, and where its answer is put.
    Make(Wish, Places),
    /// An assignment.
    Set(u8, Expr),
    /// An assignment of the number of the last refusal.
    Fault(u8),
    /// Goes on at the place unless the condition holds: `if`, `while`.
    Unless(Test, Cond, usize),
    /// Goes on at the place.
    Goto(Jump, usize),
    /// Begins to count down from a number: `times`.
    Count(u8, u32),
    /// Counts down by one, and goes on at the place as long as something is left: the end of `times`.
    Again(u8, usize),
    /// Fails unless the condition holds, with its number among the assertions.
    Assert(Cond, u32),
}
