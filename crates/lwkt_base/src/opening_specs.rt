use crate::blobs::Blob;
use crate::cells::Cells;
use crate::laws::Law;
use crate::names::ThreadId;

/// What a token is at the opening.
#[derive(Debug, Drop)]
pub struct TokSpec {
    /// The cells: 0 to 4, exactly 1 under `Law::Tally`, and at least 1 under `Law::Len`.
    pub cells: Cells,
    /// The law that row and record obey while no exclusive holder is writing.
    pub law: Law,
    /// The law's parameter.
    pub param: u64,
    /// The opening generation, 0 to 70368744177663.
    pub generation: u64,
    /// The record that the token guards, of at most 64 bytes, if it guards one: always under `Law::Len`, never under
    /// `Law::Tally`.
    pub blob: Option<Blob>,
}

/// What a message is at the opening.
#[derive(Clone, Copy, Debug, PartialEq, Eq)]
pub struct MsgSpec {
    /// The opening round, 0 to 2251799813685247.
    pub round: u64,
    /// The thread that owns the message while it is at rest.
    pub origin: ThreadId,
}
