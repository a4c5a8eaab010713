//! The model of the threading layer as plain data: a machine of tokens and messages, the events of its processors, what
//! each event needs and leaves, a checker of traces, one of the written sections of tokens, the steps on a token's word as events, and
//! what can be taken of tokens that nobody holds.
//!
//! Words: a *machine* is the state of all tokens and messages, and it is *safe* if its tokens and messages are; an *event*
//! is one atomic step of one processor; its *needs* say when it can happen, and a *lack* is the first need that isn't met; a
//! *run* is events that happen one after another; a *trace* is such events with the *closing values*; a *chain* is a token's
//! written sections, generation by generation.
#![tactic(auto)]

pub mod checks;
pub mod decisions;
pub mod events;
mod finals;
mod first_states;
pub mod free_tokens;
pub mod headline;
pub mod lacks;
pub mod messages;
mod rules;
pub mod safety;
pub mod sections;
pub mod states;
pub mod tokens;
mod word_laws;
pub mod word_steps;

pub use checks::{check, check_events, play, play_to_close};
pub use events::Event;
pub use finals::Final;
pub use first_states::{all_open_lawfully, are_within};
pub use lacks::Lack;
pub use messages::Message;
pub use sections::check_sections;
pub use states::State;
pub use tokens::Token;
pub use word_laws::steps_are_events;
