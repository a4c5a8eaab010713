//! A machine: its bank, its book and its processors, whose threads are bodies of any kind, a script's among them. It is opened, its
//! processors make turns, one at a time or each on a thread of its own, and at its close each token's row meets the law that was
//! declared.
//!
//! Words: the *tables* of a machine are its bank and its book; a *lane* leads from each processor to each, and a machine is *wired* if
//! each lane has its two ends at its two processors; a *maker* makes a token, a message or a thread of the declaration; a *stepper*
//! keeps the answer to each of its asks beside it; what a body *keeps* is an invariant that holds after each poll; a *script body*
//! makes the program of a thread of a script, and keeps its *log*.
#![tactic(auto)]

pub mod bodies;
pub mod closings;
pub mod drives;
pub mod lasting;
pub mod laws;
pub mod machine_opens;
pub mod machines;
pub mod makers;
mod processors;
mod rounds;
pub mod scripts;
pub mod seatings;
mod sights;
pub mod statuses;
pub mod steps;
mod stops;
pub mod tables;
mod turns;

pub use bodies::ScriptBody;
pub use closings::{CloseRoom, Closed};
pub use drives::LIMITS;
pub use lasting::Lasting;
pub use lwkt_cpu::{Body, Cpu, Status, Turned};
pub use lwkt_drive::{Ending, Gate, Limits, OpenGate};
pub use machines::Machine;
pub use seatings::{Rest, origins_of};
pub use statuses::ThreadStatus;
pub use steps::{Heard, Stepper, Steps};
pub use tables::{Tables, open_tables};
