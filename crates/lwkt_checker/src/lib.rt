//! Checks a trace of another implementation: whether its events can happen one after another from its opening, and end
//! with its closing values; and if not, which need isn't met. A trace in lines is judged as it is read, of any length and in
//! little memory: its first line is the opening, each further one an event, and the last one may be the closing values. What
//! is found is what would be found of the whole.
//!
//! Words: a *finding* is that a trace is lawful, or the index at which it fails; the *reason* is the first need that isn't
//! met there; a *difference* is a closing value that isn't the one that the events lead to. A *line* is what stands before a
//! line feed, or behind the last one; a judge is *fed* one piece after another, by three feeders (`trees` from a trace that was
//! read whole, `framed` from a text, `line_judges` from lines), and *stands* with the trace of what it was fed: it plays the
//! events, or knows why the trace is unlawful or its opening refused; what is *left* of a source are the bytes that it gave and
//! that stand in no line yet, and those that it still has.
#![tactic(auto)]

mod differences;
mod framed;
mod holdings;
mod judges;
mod lacks;
mod line_checks;
mod line_judges;
mod line_openings;
mod line_values;
mod lines;
mod plays;
mod programs;
mod stages;
mod trees;
mod words;

pub use differences::difference;
pub use framed::found_written;
pub use judges::{Finding, Judge, finding_text};
pub use lacks::reason;
pub use line_checks::{check_lines, judge_lines};
pub use line_judges::LineJudge;
pub use lines::Lines;
pub use plays::{event_stated, stated_is_only};
pub use programs::{check_keeping, check_stream, run_checker, say_outcome, status_of};
pub use stages::Stage;
pub use trees::found_whole;
