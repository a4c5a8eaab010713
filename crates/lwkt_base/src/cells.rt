ghost use Rattle.std.specs.Prelude.{◌≡◌, ℕ, List, length, ◌<◌, slice_set, vec_len, IfOk};

use crate::memory::{OutOfMemory, from_slice};
use std::alloc::Global;
use std::marker::Model;

/// The cells of one token, in order. Made from a vector, and given back as one, without taking memory.
#[derive(Debug, Drop)]
pub struct Cells {
    items: Vec<u64>,
}

impl Model for Cells {
    ghost Value = { List ℕ };

    ghost view = { λ c. c.items.items };
}

impl Cells {
    /// The cells of the vector, in its order.
    pub fn from_vec(items: Vec<u64>) -> Self
        ensures { result ≡ items.items }
    {
        Cells { items }
    }

    /// The vector that the cells were made from, as it is now.
    pub fn into_vec(self) -> Vec<u64>
        ensures { result.items ≡ self }
    {
        self.items
    }

    /// The cells, by number.
    pub fn as_slice(&self) -> &[u64]
        ensures { result.now ≡ self.now }
    {
        self.items.as_slice()
    }

    /// Puts a value into cell `i`.
    pub fn set(&mut self, i: usize, value: u64)
        requires { i < length self.old }
        ensures { self.new ≡ slice_set self.old i value }
    {
        self.items[i] = value;
    }

    /// Takes over the values of as many cells.
    pub fn copy_from(&mut self, other: &Cells)
        requires { length self.old ≡ length other.now }
        ensures { self.new ≡ other.now }
    {
        copy_into(&mut self.items, other.as_slice());
    }

    /// A copy, in memory of its own.
    pub fn try_clone(&self, alloc: Global) -> Result<Cells, OutOfMemory>
        ensures { IfOk result (λ copy. copy ≡ self.now) }
    {
        Ok(Cells {
            items: from_slice(alloc, self.items.as_slice())?,
        })
    }
}

fn copy_into(items: &mut Vec<u64>, values: &[u64])
    requires { vec_len items.old ≡ length values.now }
    ensures { items.new.items ≡ values.now }
{
    for (i, value) in values.iter().enumerate() {
        items[i] = *value;
    }
}
