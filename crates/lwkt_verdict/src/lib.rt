//! Checks that the turns of a run are those that its script asks for: which thread was polled when, what it asked and was
//! answered, which events of the trace came of it, what was logged, and how the threads ended.
//!
//! Words: an *event* is something that a processor did, as its trace has it; a *poll* is one call of a thread's body: what it
//! asked, and the answer that it was given later; a *piece* is a turn's poll and its *part* of the trace; a turn *fits* if its
//! piece is what the threads may do then; a thread is *told* the answer to its last ask at its next poll; the *progress* of a
//! thread is where it stands in its program, its last ask and how long its log is; a *pace* says how turns follow one another. A
//! *follower* checks a run while it is made: of the last ask of each thread it knows which answers are *expected*.
#![tactic(auto)]

mod asks;
mod expected;
mod follow;
mod followed;
pub mod laws;
mod owns;
mod plans;
mod progress;
mod rounds;
mod turn_parts;
pub mod turns;

pub use follow::Follower;
pub use plans::find_thread;
pub use rounds::are_processors;
pub use turns::{Pace, Poll, Turn};
