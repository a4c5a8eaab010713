//! The program of a thread that computes and decides: its expressions, its steps, and what the thread asks next.
//!
//! Words: a *step* is one of a program's list, in which places count from 0, and the place behind the last step is the *end*; a *wish* is
//! an ask whose numbers are expressions; a step is *silent* as long as it asks nothing; a *circle* is a way of silent steps that comes
//! back to where it begins.
#![tactic(auto)]

pub mod answers;
pub mod checks;
pub mod circles;
pub mod codes;
mod copies;
pub mod exprs;
pub mod laws;
pub mod locals;
pub mod moves;
pub mod series;
pub mod steps;
pub mod values;
pub mod wishes;

pub use checks::Flaw;
pub use codes::{Code, MOST_STEPS, Wrong};
pub use exprs::{Comparison, Cond, CondTree, Expr, ExprTree, Operator};
pub use locals::Local;
pub use series::Series;
pub use steps::{Jump, Operand, Places, Step, Test, Wish};
