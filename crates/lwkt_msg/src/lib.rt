//! The message book: the words and records of messages in one table, under a rule that gives each message one owner.
//!
//! Words: a *book* is the table of all message words and records; a *desk* is what contracts see of a seat; a message's
//! *origin* is the thread that it belongs to, its *target* the processor that it was sent to; its *round* counts its sends;
//! it is at *rest*, *out*, *with* its target or *back*; what is *stale* is of another round than the word. A *seat* is what
//! one processor takes its steps on the table with; the words and records of the first table, and all seats, are made in
//! `first_tables`.
#![tactic(auto)]

pub mod answers;
pub mod books;
mod calls;
mod closings;
mod first_tables;
pub mod laws;
mod places;
mod plays;
pub mod rules;
pub mod seats;
mod steps;
pub mod views;

pub use answers::{Reaped, Taken};
pub use books::MsgBook;
pub use seats::MsgSeat;
