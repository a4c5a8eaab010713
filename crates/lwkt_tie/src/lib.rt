//! What a caller sees of a bank and a book that are open, by public items alone: the words that it loads are those of states in
//! which the headline holds, and there what a seat says of its processor is so. So the calls of a bank, and of a book, and its rule
//! are about one table.
#![tactic(auto)]

pub mod laws;
mod looks;
mod mails;
mod plays;

pub use looks::{word_beside, word_now};
pub use mails::{mail_beside, mail_now};
