//! A seat that is out of its slot, for the close.
use crate::places::Hand;
use crate::sitters::Sitter;

/// A seat, and the right to its slot, which has none.
#[derive(Drop)]
pub struct Taken {
    /// The seat.
    pub sitter: Box<Sitter>,
    /// The right to put it back.
    pub hand: Hand,
}
