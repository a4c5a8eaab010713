use crate::many::Many;
use crate::names::Name;

/// A word of a text, and where it stands.
#[derive(Drop)]
pub struct Word {
    /// How many bytes stand before it.
    pub at: usize,
    /// How many bytes stand before what comes after it.
    pub end: usize,
    /// The word as it is written.
    pub text: Name,
}

/// What stands on a line, or between two semicolons: some words.
#[derive(Drop)]
pub struct Sentence {
    /// The words, at least one.
    pub words: Many<Word>,
    /// The values of the `for`s that it stands in, the outermost first; none before it is known what they stand for.
    pub rounds: Many<u64>,
}
