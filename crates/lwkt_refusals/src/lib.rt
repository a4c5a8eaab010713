//! Says in words why a script, a trace or a text is rejected: what is wrong, and at which line and column.
//!
//! Callers get the words as a text, or as a message on a sink that begins with the program's name. What is rejected, and at which
//! place, is decided by the crates that read.
//!
//! Words: a *text* is a script in the language for scripts; a *wrong* is what is wrong at one place of a text; a *proposal* is the
//! known word that an unknown one is most like; a *breach* is how the cells of a token break its law.
#![tactic(auto)]

mod absences;
mod breaches;
mod checks;
mod documents;
mod formulas;
mod json_parts;
mod marks;
mod messages;
mod pages;
mod places;
mod programs;
mod proposals;
mod refusals;
mod releases;
mod rows;
mod sayings;
mod sentence_forms;
mod sentences;
mod spans;
mod tokens;
mod unread;
mod untraced;
mod words;
mod wrongs;

pub use breaches::show_breach;
pub use pages::Page;
pub use places::{Place, add_head, place_from};
pub use sayings::{
    has_no_reader, say_of_file, say_opening, say_releases, say_unread, say_untraced,
    say_untraced_line,
};
