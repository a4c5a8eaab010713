use lwkt_base::{CpuId, Rec};
use lwkt_core::Event;

/// Whose view of a table of seats a view is. Bank and book split one seat off for each processor at their opening, and
/// join them at their close. Only proofs have values of it.
#[derive(Clone, Copy, PartialEq, Eq)]
pub enum SeatKind {
    /// The clerk, which has made so many seats and taken so many back.
    Clerk { made: u64, back: u64 },
    /// The seat of this processor.
    Of(CpuId),
    /// A seat that was taken back.
    Spent,
}

/// What an atomic step on a word does.
#[derive(Clone, Copy, PartialEq, Eq)]
pub enum Operation {
    Load,
    /// Stores this word.
    Store(u64),
    /// Stores the second word if the word is the first.
    Exchange(u64, u64),
    /// Adds this number.
    Add(u64),
    /// Takes this number away.
    Sub(u64),
    /// Sets these bits.
    Or(u64),
}

/// One step of a seat on the word of a token or a message. Only proofs have values of it.
#[derive(Clone, Copy, PartialEq, Eq)]
pub struct WordStep {
    /// The number of the token or message.
    pub at: u64,
    /// What kind of step it is.
    pub operation: Operation,
    /// The word that the step found; of a store, the word stored.
    pub found: u64,
}

/// One atomic step of a seat, as the history of its table has it. Only proofs have values of it. A clause reads an array as a
/// list, of any length.
pub struct Deed {
    /// The processor whose seat made it.
    pub cpu: CpuId,
    /// Its event of the model. A look at the word of a message has none.
    pub events: [Event; 0],
    /// The step on the word. A step on a cell has none.
    pub steps: [WordStep; 0],
    /// The record that a step on a message put into it, or found there.
    pub records: [Rec; 0],
}

/// What a seat that was taken back had seen of its table's history, up to its last step. Only proofs have values of it.
pub struct Chapter {
    /// The processor whose seat it was.
    pub cpu: CpuId,
    /// The deeds of all seats, in order, up to that step.
    pub past: [Deed; 0],
}
