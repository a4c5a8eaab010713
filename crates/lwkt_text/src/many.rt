ghost use Rattle.std.specs.Prelude.{◌≡◌, ◌∷◌, [], ◌++◌, length, take, List, OnOk, OnErr};

use lwkt_base::OutOfMemory;
use lwkt_base::memory::push;
use std::alloc::Global;
use std::marker::Model;
use std::mem;

/// A list that grows at its end.
#[derive(Drop)]
pub struct Many<T> {
    items: Vec<T>,
}

impl<T> Model for Many<T> {
    ghost Value = { List T };

    ghost view = { λ m. m.items.items };
}

impl<T> Many<T> {
    /// An empty list. Takes no memory.
    pub fn new(alloc: Global) -> Self
        ensures { result ≡ [] }
    {
        Many {
            items: Vec::new(alloc),
        }
    }

    /// Puts an item at the end. Where that is refused the items stay.
    pub fn push(&mut self, item: T) -> Result<(), OutOfMemory>
    where
        T: Drop,
        ensures ok { OnOk result (self.new ≡ self.old ++ item ∷ []) }
        ensures err { OnErr result (self.new ≡ self.old) }
    {
        push(&mut self.items, item)
    }

    /// Gives the items away and is empty then. Takes no memory.
    pub fn take(&mut self, alloc: Global) -> Self
        ensures given { result ≡ self.old }
        ensures left { self.new ≡ [] }
    {
        Many {
            items: mem::replace(&mut self.items, Vec::new(alloc)),
        }
    }

    /// Leaves out the items behind so many.
    pub fn keep(&mut self, count: usize)
    where
        T: Drop,
        ensures { self.new ≡ take count self.old }
    {
        self.items.truncate(count)
    }

    /// How many items there are.
    pub fn len(&self) -> usize
        ensures { result ≡ length self.now }
    {
        self.items.as_slice().len()
    }

    /// The items, the first first.
    pub fn as_slice(&self) -> &[T]
        ensures { result.now ≡ self.now }
    {
        self.items.as_slice()
    }

    /// The items as a vector. Takes no memory.
    pub fn into_vec(self) -> Vec<T>
        ensures { result.items ≡ self }
    {
        self.items
    }
}
