//! Parts of one kind, each kept once.
ghost use Rattle.std.specs.Prelude.{◌≡◌, ◌↔◌, ◌<◌, ◌≤◌, ◌++◌, ◌∷◌, [], length, All, HoldsAt, IsTrue, IfOk, MatchOption, Some, slice_get};
ghost use Rattle.lwkt_search.specs.Indexes.{IsIndex};
ghost use Rattle.lwkt_plain.specs.Tables.{key_at, IsTable, Extends, IsNamed};

use crate::parts::Part;
use lwkt_base::memory::push;
use lwkt_search::indexes::{Index, bucket_of};
use lwkt_search::{MOST_NUMBERS, Refusal};
use std::alloc::Global;

/// Parts of one kind, each once, by the numbers 0, 1, .. in the order in which they came.
#[derive(Drop)]
pub struct Table<P> {
    pub(crate) parts: Vec<P>,
    pub(crate) index: Index,
}

impl<P: Part> Table<P> {
    /// A table of no parts.
    pub fn new(alloc: Global) -> Result<Table<P>, Refusal>
        ensures table { IfOk result (λ table. IsTable P.hash_of table.parts.items table.index.heads.items table.index.links.items) }
        ensures empty { IfOk result (λ table. table.parts.items ≡ []) }
    {
        let index = Index::empty(alloc, 0)?;
        Ok(Table {
            parts: Vec::new(alloc),
            index,
        })
    }

    /// The part of a number.
    pub fn part(&self, number: u32) -> &P
        requires { number < length self.now.parts.items }
        ensures { IsNamed self.now.parts.items number result.now }
    {
        &self.parts[number as usize]
    }

    /// Whether a part is still the one of a number, of which it may have become what it is by a turn of a processor.
    pub fn is_still(&self, number: u32, part: &P, cpu: usize, place: usize) -> bool
        requires there { number < length self.now.parts.items }
        requires follows { (old : P) → slice_get self.now.parts.items number ≡ Some old → P.follows cpu place old part.now }
        ensures { IsTrue result ↔ IsNamed self.now.parts.items number part.now }
    {
        part.is_still(self.part(number), cpu, place)
    }

    // The number of a part with this key, if it is there.
    fn find(&self, part: &P, key: u64) -> Option<usize>
        requires table { IsTable P.hash_of self.now.parts.items self.now.index.heads.items self.now.index.links.items }
        requires key { key ≡ P.hash_of part.now }
        ensures { MatchOption result (All (λ p. p ≡ part.now → ⊥) self.now.parts.items) (λ at. IsNamed self.now.parts.items at part.now) }
    {
        let bucket = bucket_of(key, self.index.heads.len());
        let mut up = self.index.heads[bucket];
        while up > 0 {
            let at = up as usize - 1;
            if self.parts[at].is_same(part) {
                return Some(at);
            }
            up = self.index.links[at];
        }
        None
    }

    // Makes a wider index where there are more parts than buckets.
    fn widen(&mut self, alloc: Global) -> Result<(), Refusal>
        requires table { IsTable P.hash_of self.old.parts.items self.old.index.heads.items self.old.index.links.items }
        ensures same { IfOk result (λ done. self.new.parts ≡ self.old.parts) }
        ensures table { IfOk result (λ done. IsTable P.hash_of self.new.parts.items self.new.index.heads.items self.new.index.links.items) }
    {
        let count = self.parts.len();
        if count < self.index.heads.len() {
            return Ok(());
        }
        let mut index = Index::empty(alloc, count)?;
        for at in 0..count {
            index.add(self.parts[at].hash())?;
        }
        self.index = index;
        Ok(())
    }

    // Adds a part that isn't there.
    fn add(&mut self, alloc: Global, part: &P, key: u64) -> Result<u32, Refusal>
        requires table { IsTable P.hash_of self.old.parts.items self.old.index.heads.items self.old.index.links.items }
        requires key { key ≡ P.hash_of part.now }
        requires fresh { All (λ p. p ≡ part.now → ⊥) self.old.parts.items }
        ensures table { IfOk result (λ number. IsTable P.hash_of self.new.parts.items self.new.index.heads.items self.new.index.links.items) }
        ensures more { IfOk result (λ number. self.new.parts.items ≡ self.old.parts.items ++ part.now ∷ []) }
        ensures named { IfOk result (λ number. number ≡ length self.old.parts.items) }
    {
        let place = self.parts.len();
        if place >= MOST_NUMBERS {
            return Err(Refusal::Numbers);
        }
        self.widen(alloc)?;
        self.index.add(key)?;
        let copy = part.copied(alloc)?;
        push(&mut self.parts, copy)?;
        Ok(place as u32)
    }

    /// The number of a part, which is added if it isn't there.
    ///
    /// Refused if memory is, or if there is no number left.
    pub fn number(&mut self, alloc: Global, part: &P) -> Result<u32, Refusal>
        requires table { IsTable P.hash_of self.old.parts.items self.old.index.heads.items self.old.index.links.items }
        ensures table { IfOk result (λ number. IsTable P.hash_of self.new.parts.items self.new.index.heads.items self.new.index.links.items) }
        ensures more { IfOk result (λ number. Extends self.old.parts.items self.new.parts.items) }
        ensures named { IfOk result (λ number. IsNamed self.new.parts.items number part.now) }
    {
        let key = part.hash();
        match self.find(part, key) {
            Some(at) => Ok(at as u32),
            None => self.add(alloc, part, key),
        }
    }
}
