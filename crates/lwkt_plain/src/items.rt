ghost use Rattle.std.specs.Prelude.{◌≡◌, ◌<◌, List, [], ◌∷◌, ◌++◌, ◌-◌, drop, length, Option, Some, None, OnOk, IsTrue, slice_get, slice_set};
ghost use Rattle.std.specs.Borrow.{Lends, sem};
ghost use Rattle.lwkt_plain.specs.contracts.items.Items.{the_row};

use lwkt_base::OutOfMemory;
use lwkt_base::memory::push;
use std::alloc::Global;
use std::marker::Model;

/// The parts of one kind of a state, in order.
#[derive(Drop)]
pub struct Items<T> {
    items: Vec<T>,
}

impl<T> Model for Items<T> {
    ghost use Rattle.std.specs.Prelude.{List};

    ghost Value = { List T };

    ghost view = { λ p. p.items.items };
}

impl<T> Items<T> {
    /// No parts. Takes no memory.
    pub fn none(alloc: Global) -> Self
        ensures { result ≡ [] }
    {
        Items {
            items: Vec::new(alloc),
        }
    }

    /// The parts that are the items of a vector. Takes no memory.
    pub fn from_vec(items: Vec<T>) -> Self
        ensures { result ≡ items.items }
    {
        Items { items }
    }

    /// The parts, the first first.
    pub fn as_slice(&self) -> &[T]
        ensures { result.now ≡ self.now }
    {
        self.items.as_slice()
    }

    /// The part of a number.
    pub fn part(&self, i: usize) -> &T
        requires { i < length self.now }
        ensures { slice_get self.now i ≡ Some result.now }
    {
        &self.items[i]
    }

    /// The part of a number, to be changed.
    pub fn at(&mut self, i: usize) -> &mut T
        requires { i < length self.old }
        ensures* writes_back { sem 𝓛 (Lends (the_row T.row) T.row self.entry result (slice_set self.old i)) }
        ensures value { slice_get self.old i ≡ Some result.now }
    {
        &mut self.items[i]
    }

    /// How many there are.
    pub fn len(&self) -> usize
        ensures { result ≡ length self.now }
    {
        self.items.len()
    }
}

impl<T: Drop> Items<T> {
    /// Puts another in the place of the part of a number.
    pub fn put(&mut self, i: usize, item: T)
        requires { i < length self.old }
        ensures { self.new ≡ slice_set self.old i item }
    {
        self.items[i] = item;
    }

    /// Appends one.
    pub fn push(&mut self, item: T) -> Result<(), OutOfMemory>
        ensures { OnOk result (self.new ≡ self.old ++ item ∷ []) }
    {
        push(&mut self.items, item)
    }
}

impl<T: Copy> Items<T> {
    /// Takes the first one off, if there is one.
    pub fn take_first(&mut self) -> Option<T>
        ensures first { result ≡ slice_get self.old 0 }
        ensures rest { self.new ≡ drop 1 self.old }
        ensures stays { result ≡ None → self.new ≡ self.old }
    {
        let first = self.items.get(0).copied()?;
        let _ = self.items.remove(0);
        Some(first)
    }
}
