use crate::names::TokId;
use crate::rows::Row;

/// A written section of a token: it began in a generation with one row, and left another one to the next generation.
#[derive(Clone, Copy, PartialEq, Eq)]
pub struct Section {
    /// The row at its beginning.
    pub before: Row,
    /// The row that it left.
    pub after: Row,
    /// The generation at which it began.
    pub generation: u64,
    /// The token that it is a section of.
    pub tok: TokId,
}
