//! Names, faults, laws and lists of references: what every layer of the threading model shares.
//!
//! Words: a *reference* is a token with a mode; a *list* is a thread's references, the first acquired first; a *holding* is
//! what a processor holds of one token; a *law* restricts a token's *row* of cells and the length of its *record*; a
//! token's record is a `Blob` (`blobs`), a message's a `Rec` (`records`); a *section* is the time from an exclusive take to
//! the release of the last reference; an *ask* is what a thread's body wants of its turn, an *answer* what it is given for
//! it; a *fault* is a refusal with its number.
#![tactic(auto)]

pub mod asks;
pub mod blobs;
pub mod cells;
pub mod entries;
pub mod faults;
pub mod hexes;
pub mod holdings;
pub mod laws;
pub mod limits;
pub mod list_laws;
pub mod lists;
pub mod logs;
pub mod memory;
pub mod message_words;
pub mod names;
pub mod opening_specs;
pub mod owners;
pub mod records;
pub mod rows;
pub mod sections;
pub mod steps;
pub mod threads;
pub mod words;

pub use asks::{Answer, Ask, Item};
pub use blobs::Blob;
pub use cells::Cells;
pub use entries::Entry;
pub use faults::Fault;
pub use holdings::Held;
pub use laws::Law;
pub use lists::TokList;
pub use logs::Log;
pub use memory::OutOfMemory;
pub use message_words::{MsgState, MsgWord};
pub use names::{CpuId, Mode, MsgId, Ref, ThreadId, TokId};
pub use opening_specs::{MsgSpec, TokSpec};
pub use owners::{MsgEnd, Owner};
pub use records::{Call, Flags, Rec};
pub use rows::{Row, Rows};
pub use sections::Section;
pub use steps::{Part, PartKind, StepParts, VERBS, Verb};
pub use threads::{ThreadLine, ThreadState};
pub use words::{Decision, TokWord};
