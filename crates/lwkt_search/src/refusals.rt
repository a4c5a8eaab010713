//! Why a search can't go on.
use lwkt_base::OutOfMemory;

/// Why a search can't go on.
#[derive(Clone, Copy, Debug, PartialEq, Eq)]
pub enum Refusal {
    /// Memory was refused.
    Memory(OutOfMemory),
    /// There are 4,294,967,295 states, or parts of states of one kind.
    Numbers,
}

impl From<OutOfMemory> for Refusal {
    fn from(refused: OutOfMemory) -> Refusal {
        Refusal::Memory(refused)
    }
}

/// The most items that are kept of one kind.
pub const MOST_NUMBERS: usize = 4_294_967_295;
