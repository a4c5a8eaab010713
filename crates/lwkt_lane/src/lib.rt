//! A first-in-first-out lane of notes from one processor to one other: a queue, and one note in hand at the sender; and the lanes of
//! many processors.
//!
//! Words: the *ends* of a lane are where notes are pushed and where they are popped; a note is *in hand* if the queue had no
//! room for it; a lane is *settled* if both ends are given up and the notes that weren't popped are returned; lanes are *crossed*
//! if one leads from each processor to each, and each of its two ends lies at its place in the list of its processor.
#![tactic(auto)]

pub mod crossed;
pub mod ins;
pub mod lanes;
pub mod notes;
pub mod outs;

pub use crossed::{Lanes, open_lanes};
pub use ins::LaneIn;
pub use lanes::{lane, settle};
pub use notes::{Note, NoteKind};
pub use outs::LaneOut;
