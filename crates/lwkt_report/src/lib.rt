//! The report that a run ends with, as text, and the streams that a run reads from and writes to.
//!
//! Words: a *line* of the report is that of a token, its tallies, its record, a message or a thread; a *complaint* is the
//! line that stands in place of a report; a *source* and a *sink* are what is read from and written to; a stream is *blamed*
//! only if it failed.
#![tactic(auto)]

mod arguments;
pub mod closings;
pub mod complaints;
mod escapes;
mod listings;
pub mod notes;
pub mod reports;
mod shown;
pub mod sinks;
pub mod sources;
pub mod streams;

pub use arguments::{WordsFault, words_of};
pub use closings::{Closing, TokenLine, Verdict};
pub use complaints::{Complaint, Program, complain, complaint_line, complaint_of};
pub use escapes::{escaped, is_shown_as_is, push_escaped, push_shown};
pub use notes::{NotedReader, NotedWriter};
pub use reports::{report, report_front};
pub use sinks::{Page, Sink, WriterSink, write_whole};
pub use sources::{READ_LIMIT, ReaderSource, Source, read_capped, read_up_to};
pub use streams::{RunFault, StreamError};
