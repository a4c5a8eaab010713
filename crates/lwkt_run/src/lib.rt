//! Runs a script: reads it, makes its rounds over a machine of processors, checks each turn as it is made, and writes the report.
//!
//! Words: a *round* is a turn of each processor; an *order* names the processor of each turn; a *course* is rounds or an order; a
//! *keeper* takes each turn, and what is *kept* of a run is its trace, the order, its turns and their polls, or nothing; a *verdict* says
//! what the check makes of it; an *outcome* is how the run ended; the *closing* is what the report shows.
#![tactic(auto)]

mod checked;
mod endings;
mod givers;
mod keepers;
pub mod laws;
mod lines;
mod modes;
mod polled;
mod programs;
mod records;
mod reports;
mod rounds;
mod runs;
mod stretches;
mod threaded;
mod written_sections;

pub use lwkt_machine::{Gate, OpenGate};
pub use lwkt_report::{RunFault, Verdict};
pub use lwkt_script::{Script, read_script};
pub use modes::Mode;
pub use programs::{
    asks_threads, asks_turns, close_by, exit_status, finish, run_program, run_read,
};
pub use runs::{
    End, TurnsRun, close_along, close_turns, end_of_closing, order_run_of, run_turns, turns_run_of,
};
pub use threaded::{ThreadRecord, close_threads, record_threads, run_threads, run_threads_gated};
