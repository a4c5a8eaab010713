//! An index of items by their keys.
ghost use Rattle.std.specs.Prelude.{◌≡◌, ℕ, ◌<◌, ◌≤◌, [], length, IfOk, replicate};
ghost use Rattle.lwkt_search.specs.Indexes.{bucket_of, IsAdded, IsIndex};

use lwkt_base::OutOfMemory;
use lwkt_base::memory::{MOST_ROOM, push, resize};
use std::alloc::Global;

/// Where items are, by their keys: of each bucket 1 more than the last place in it, and of each place 1 more than the one before it in
/// its bucket; 0 stands for none.
#[derive(Drop)]
pub struct Index {
    /// Of each bucket.
    pub heads: Vec<u32>,
    /// Of each place.
    pub links: Vec<u32>,
}

/// The bucket of a key.
pub fn bucket_of(key: u64, count: usize) -> usize
    requires { 0 < count }
    ensures is { result ≡ bucket_of count key }
    ensures there { result < count }
{
    (key % count as u64) as usize
}

// How many buckets an index of so many keys gets.
fn buckets_for(count: usize) -> usize
    ensures some { 0 < result }
    ensures few { result ≤ MOST_ROOM }
{
    if count < MOST_ROOM / 2 {
        count * 2 + 1
    } else {
        MOST_ROOM
    }
}

// Empty buckets.
fn empty_buckets(alloc: Global, count: usize) -> Result<Vec<u32>, OutOfMemory>
    requires { count ≤ MOST_ROOM }
    ensures { IfOk result (λ heads. heads.items ≡ replicate count 0) }
{
    let mut heads = Vec::new(alloc);
    resize(&mut heads, count, 0u32)?;
    Ok(heads)
}

impl Index {
    /// Adds a key, as the one of the next place.
    pub fn add(&mut self, key: u64) -> Result<(), OutOfMemory>
        requires some { 0 < length self.old.heads.items }
        requires room { length self.old.links.items < 4294967295 }
        ensures { IfOk result (λ done. IsAdded key self.old.heads.items self.old.links.items self.new.heads.items self.new.links.items) }
    {
        let bucket = bucket_of(key, self.heads.len());
        let before = self.heads[bucket];
        let place = self.links.len();
        push(&mut self.links, before)?;
        self.heads[bucket] = place as u32 + 1;
        Ok(())
    }

    /// An index of no keys, with room for so many.
    pub fn empty(alloc: Global, count: usize) -> Result<Index, OutOfMemory>
        ensures index { IfOk result (λ index. (key : ℕ → ℕ) → IsIndex key index.heads.items index.links.items 0) }
        ensures empty { IfOk result (λ index. index.links.items ≡ []) }
    {
        let heads = empty_buckets(alloc, buckets_for(count))?;
        Ok(Index {
            heads,
            links: Vec::new(alloc),
        })
    }
}
