//! The message ports of a processor's threads, over the processor's seat at the book and its lanes.
//!
//! Words: a *port* is a thread's queues of notes, urgent ones and others; a *note* says that a message was sent to it or
//! replied to; a *line* is both ends of the lanes between this processor and one other; a *mail* is what is kept of one
//! message of the processor's own, or at it; a reply is *owed* where nobody saw the message, or where its thread ended; a
//! *post* is what contracts see of all ports of a processor. A *mailroom* is the processor's seat at the book with its mails;
//! the *counters* are the ports with the mailroom behind them; the *office* is the counters with the lines.
#![tactic(auto)]

mod clearings;
mod closings;
mod counters;
pub mod counts;
pub mod deeds;
pub mod gets;
pub mod handlings;
mod intakes;
pub mod laws;
pub mod lines;
mod mailrooms;
pub mod mails;
pub mod note_queues;
mod offices;
pub mod opened_ports;
pub mod posts;
pub mod queues;
mod replies;
mod sendings;
mod sights;
mod traces;
mod withdrawals;

pub use counts::Notes;
pub use posts::Ports;
