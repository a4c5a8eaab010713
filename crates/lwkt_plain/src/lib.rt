//! The plain machine of a script: what stands in the tokens' words, cells and records, in the messages, lanes, ports, threads and
//! bodies, as plain data, and a turn of a processor as one total function of it. Its definition, in the specs, is the meaning of a
//! script's turns.
//!
//! Words: a *letter* is a message with its word, its record, and in whose hands it is; a thread's *busy* word is the one that refused
//! its list last; a *form* is a state in which only such words are kept as can refuse a list again; a *standstill* is a state that turns lead
//! to, and that none changes.
#![tactic(auto)]

mod deadlocks;
mod endings;
pub mod forms;
mod hashes;
mod intakes;
pub mod items;
mod lanes;
mod letter_moves;
pub mod letters;
mod mailing;
pub mod nexts;
mod openings;
pub mod parts;
mod places;
mod polls;
pub mod shelves;
mod sizes;
pub mod states;
pub mod stores;
pub mod tables;
mod token_asks;
pub mod tokens;
mod turns;

pub use deadlocks::standstills_are_waits;
pub use items::Items;
pub use letters::{Hands, Lane, Letter, Note, NoteKind, Port};
pub use nexts::{Miss, Missed, Next};
pub use openings::opened_scripts_are_sound;
pub use states::{BusyAt, Mail, Phase, Plain, Processor, Thread};
pub use stores::Store;
