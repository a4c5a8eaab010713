ghost use Rattle.std.specs.Prelude.{◌≡◌, ℕ, List, length, ◌≤◌};

use crate::limits::CELL_LIMIT;
use std::marker::Model;

/// The cells of one token by value, in order: 0 to 4. It takes no memory of its own.
///
/// The cells past the last one are 0, so that two rows with the same cells are one (own).
#[derive(Clone, Copy, PartialEq, Eq)]
pub struct Row {
    cells: [u64; 4],
    len: u8,
}

impl Model for Row {
    ghost use Rattle.std.specs.Prelude.{ℕ, List, take, length, ◌++◌, ◌-◌, replicate};
    ghost use Rattle.lwkt_base.specs.Row.{IsFilledUp, filled, given_back};

    ghost Value = { List ℕ };

    ghost view = { λ r. take r.len r.cells };

    ghost invariant = { λ r. IsFilledUp r.cells r.len };

    ghost inverse = { λ row. record { cells = filled row; len = length row } };

    ghost inverse_ok = { λ r is. given_back r.cells r.len is };
}

impl Row {
    /// The row with these cells.
    pub fn of(cells: &[u64]) -> Self
        requires { length cells.now ≤ CELL_LIMIT }
        ensures { result ≡ cells.now }
    {
        let mut row = [0; 4];
        row[..cells.len()].copy_from_slice(cells);
        Row {
            cells: row,
            len: cells.len() as u8,
        }
    }

    /// The cells.
    pub fn as_slice(&self) -> &[u64]
        ensures value { result.now ≡ self.now }
        ensures within { length self.now ≤ CELL_LIMIT }
    {
        &self.cells[..self.len as usize]
    }
}

/// The rows and generations of tokens, by token. Made from a vector, and given back as one, without taking memory.
#[derive(Drop)]
pub struct Rows {
    items: Vec<(Row, u64)>,
}

impl Model for Rows {
    ghost use Rattle.std.specs.Prelude.{ℕ, List};

    ghost Value = { List (List ℕ × ℕ) };

    ghost view = { λ r. r.items.items };
}

impl Rows {
    /// The pairs of the vector, in its order.
    pub fn from_vec(items: Vec<(Row, u64)>) -> Self
        ensures { result ≡ items.items }
    {
        Rows { items }
    }

    /// The vector that the list was made from.
    pub fn into_vec(self) -> Vec<(Row, u64)>
        ensures { result.items ≡ self }
    {
        self.items
    }

    /// Each token's row and generation.
    pub fn as_slice(&self) -> &[(Row, u64)]
        ensures { result.now ≡ self.now }
    {
        self.items.as_slice()
    }
}
