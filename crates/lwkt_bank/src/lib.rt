//! The token words and cells of the threading layer: a bank of them, and for each processor a seat that steps on them.
//!
//! Words: a *bank* is the table of all token words, cells and records; a *seat* is what one processor steps on it with, and
//! its *view* what the seat knows, in proofs alone; a *block* is the words of one token; a record is *home* in its slot, or
//! *in hand* of the seat that holds the token; a *note* is what a seat keeps of one token at run time; a *play* is what one
//! kind of step shows its seat; a *plan* is what was declared of a token.
#![tactic(auto)]

pub mod answers;
pub mod banks;
mod blanks;
mod cells;
mod clerks;
pub mod closed;
mod closings;
mod desks;
mod first_tables;
mod gathers;
mod gives;
mod kept;
pub mod laws;
mod lends;
mod notes;
mod places;
mod plans;
mod plays;
mod records;
mod rests;
mod rooms;
mod rows;
pub mod rules;
pub mod seats;
mod steps;
mod takes;
pub mod views;

pub use answers::{Given, Stored, Try};
pub use banks::Bank;
pub use closed::Closed;
pub use rooms::CloseRoom;
pub use seats::CpuSeat;
