use lwkt_base::{Blob, Cells};

/// The closing values of a bank, by token.
#[derive(Drop)]
pub struct Closed {
    /// Each token's cells.
    pub rows: Vec<Cells>,
    /// Each token's generation.
    pub gens: Vec<u64>,
    /// Each token's tallies: one number for each processor under `Law::Tally`, else none.
    pub tallies: Vec<Cells>,
    /// Each token's record, if it has one.
    pub blobs: Vec<Option<Blob>>,
}
