//! Reads and writes a trace: the tokens and messages at the opening, the events of the processors, and the closing values. The
//! words of events and laws stand here for all that speak of them.
//!
//! Words: an event is *stated* as it stands in the text, a written give with its section or without it, and its *subject* is
//! the token or the message that it is at; a section that isn't stated is the one of the machine that the events before lead
//! to; the *closing* values are those at the end of a trace, if it has any.
#![tactic(auto)]

mod closings;
mod events;
mod frames;
mod guards;
mod laws;
mod messages;
mod ranges;
mod readers;
mod sections;
mod traces;
pub mod words;
mod writers;
mod written;

pub use closings::closing_at;
pub use events::event_of;
pub use frames::{frame_of, parts_of};
pub use guards::guarded_of;
pub use laws::{
    events_are_read_back, messages_are_read_back, traces_are_read_back,
    written_traces_are_read_back,
};
pub use messages::messages_of;
pub use readers::read_trace;
pub use traces::{Closing, Stated, Trace};
pub use writers::trace_text;
pub use written::{next_written, stated_alone, written_event};
