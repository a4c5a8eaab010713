//! Processors driven on threads: each goes through its turns on a thread of its own, as long as a gate lets it and as its
//! limits allow.
//!
//! Words: a *gate* is asked before each turn whether it may be made; a processor *ends* because the gate said no, a limit
//! was reached, its threads have ended, memory was refused, or nothing can change any more; the *board* has what the
//! processors report to one another of this; a *slice* is a part of a drive, where several processors share a thread. A turn is
//! *silent* if it polled no thread and appended no event. It is *quiet* if it moved no note and ended no thread either:
//! it changed nothing. A drive ends as quiet if no turn of any processor could change anything. A *room* is what a turn is
//! traced into, before its events go behind the trace.
#![tactic(auto)]

mod appends;
mod boards;
mod chains;
pub mod driven;
mod drives;
mod event_lists;
mod gates;
mod gives;
pub mod laws;
mod packed;
mod rooms;
mod short_events;
mod slices;
mod stretches;
mod turns;
mod watches;
mod wide_events;

pub use chains::are_chains;
pub use driven::{Driven, Ending, Limits, Said};
pub use drives::{drive_all, drive_on_threads};
pub use event_lists::EventList;
pub use gates::{Gate, OpenGate};
pub use gives::{Give, give_of};
pub use stretches::{Stretch, Stretches};
