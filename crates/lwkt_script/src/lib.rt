//! Reads a script: the tokens, messages and threads of a run, and what each thread asks for.
//!
//! Words: the *place* of a fault is the number of the first bad part of a script; a *version* says what a script may have; a
//! thread's *steps* are what its program does, made so many times over; its *log* has what their answers put in it; a *sentence*
//! is a step of version 3 as it is written, with all that stands in it.
#![tactic(auto)]

mod drafts;
pub mod fields;
mod formulas;
mod frames;
mod logs;
pub mod messages;
mod readers;
pub mod records;
mod scopes;
mod scripts;
mod sentences;
pub mod steps;
mod threads;
pub mod tokens;
mod variables;
pub mod versions;
mod wishes;

pub use logs::{entry_of, failure_of};
pub use lwkt_code::{Code, Series};
pub use readers::read_script;
pub use scripts::{Script, ThreadSpec};
pub use versions::Version;
