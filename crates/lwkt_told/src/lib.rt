//! The report of a run in the names of its text.
//!
//! Words: what a thing is *called* is its name in the text, or its number where it has none; the names are set in a column that is as
//! *wide* as the longest; an entry of a log is *labelled* if it is known which cell it was read from.
#![tactic(auto)]

mod called;
mod circles;
mod labels;
mod logs;
mod tellings;
mod verdicts;

pub use called::{
    Called, CellCalled, ThreadCalled, VariableCalled, cells_of, show_called, width_of,
};
pub use circles::show_stuck;
pub use logs::{EntryTold, RecordTold};
pub use tellings::{report_in, show_front, told};
