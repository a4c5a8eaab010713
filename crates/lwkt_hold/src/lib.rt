//! All or none: a thread's list of references over one processor's seat.
//!
//! Words: a *hold* is a processor's seat as its threads' lists use it; to *resume* is to take a whole list or nothing; a
//! *miss* is the first reference that couldn't be had; to *give* is to give back one reference (`gives`), to *block* is to
//! give up all that is held, to *release* is to give the last one of a list, or all by blocking (`releases`); a section is
//! *broken* if its row or record breaks the law, and is *restored* then to its first row and record; the *trace* gets the
//! events of each call.
#![tactic(auto)]

pub mod answers;
mod gets;
mod gives;
pub mod holds;
pub mod laws;
mod reads;
mod records;
mod releases;
mod resumes;
mod stills;
mod takes;
mod traces;

pub use answers::{Acquired, Blocked, Missed, Resumed};
pub use holds::Hold;
