//! A processor: its threads, what their bodies may ask for, and the turns in which one of them at a time runs while its whole list is
//! held. Callers get of each turn which thread it ran, what that asked, and the events that came of it. Notes of other processors are
//! taken in from lanes, which are the caller's.
#![tactic(auto)]

pub mod answers;
pub mod bodies;
pub mod boxed;
mod calls;
pub mod counts;
pub mod cpus;
pub mod drives;
mod ends;
pub mod laws;
pub mod leaves;
mod mails;
pub mod nexts;
pub mod performs;
pub mod phases;
mod polls;
mod searches;
pub mod sights;
pub mod stops;
pub mod threads;
pub mod turns;
mod wakes;

pub use answers::{Drove, Status, Turned};
pub use bodies::Body;
pub use counts::Progress;
pub use cpus::Cpu;
pub use leaves::exit;
pub use nexts::{AnswerKept, Next};
pub use performs::perform;
pub use stops::STOP_EVENTS;
pub use turns::TURN_EVENTS;
