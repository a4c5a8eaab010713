//! The library for C: a script run to its report, a trace judged, a run shown, every order tried, each from bytes to bytes, of
//! scripts in JSON and of texts of the language for scripts. include/lwkt.h declares what is exported, and says what its caller owes.
//! A call's *text* is what it makes, whole in memory before it is put into the caller's *buffer*; its *answer* is the length of the
//! text and why the call was refused; its *status* is that of the program that does the same.
#![tactic(auto)]

mod alongs;
mod answers;
mod arguments;
mod checks;
mod forms;
mod fronts;
mod misuses;
mod orders;
mod readings;
mod refusals;
mod runs;
mod shows;
mod text_runs;
mod words;

pub use answers::LwktAnswer;
pub use checks::lwkt_check_trace;
pub use forms::{lwkt_is_text, lwkt_text_json};
pub use orders::{Search, lwkt_explore_orders};
pub use runs::lwkt_run_turns;
pub use shows::{Showing, lwkt_show_turns};
pub use text_runs::lwkt_run_text;
