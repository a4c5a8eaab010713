//! Codes: lists of numbers of one length, each kept once.
ghost use Rattle.std.specs.Prelude.{◌≡◌, ◌↔◌, ℕ, ◌+◌, ◌<◌, ◌≤◌, ◌++◌, [], length, IsTrue, IfOk, MatchOption};
ghost use Rattle.lwkt_search.specs.Indexes.{IsIndex};
ghost use Rattle.lwkt_search.specs.Codes.{mixed, key_behind, code_at, AreCodes, IsCoded, IsNumbered, IsUncoded};

use crate::indexes::{Index, bucket_of};
use crate::refusals::{MOST_NUMBERS, Refusal};
use lwkt_base::memory::extend_from_slice;
use std::alloc::Global;

/// Codes of one length, each once, by the numbers 0, 1, .. in the order in which they came.
#[derive(Drop)]
pub struct Codes {
    pub(crate) width: usize,
    pub(crate) flat: Vec<u32>,
    pub(crate) index: Index,
}

/// A key with one number more.
pub fn mixed(key: u64, n: u64) -> u64
    ensures { result ≡ mixed key n }
{
    key.wrapping_mul(1_099_511_628_211).wrapping_add(n)
}

// The key of a code.
fn key_of(code: &[u32]) -> u64
    ensures { result ≡ key_behind 0 code.now }
{
    let mut key = 0u64;
    for n in code {
        key = mixed(key, u64::from(*n));
    }
    key
}

impl Codes {
    /// No codes, of this length.
    pub fn new(alloc: Global, width: usize) -> Result<Codes, Refusal>
        ensures codes { IfOk result (λ codes. AreCodes codes.width codes.flat.items (length codes.index.links.items) codes.index.heads.items codes.index.links.items) }
        ensures empty { IfOk result (λ codes. codes.index.links.items ≡ []) }
        ensures width { IfOk result (λ codes. codes.width ≡ width) }
    {
        let index = Index::empty(alloc, 0)?;
        Ok(Codes {
            width,
            flat: Vec::new(alloc),
            index,
        })
    }

    /// How many there are.
    pub fn len(&self) -> usize
        ensures { result ≡ length self.now.index.links.items }
    {
        self.index.links.len()
    }

    /// The code of a number.
    pub fn code(&self, number: usize) -> &[u32]
        requires codes { AreCodes self.now.width self.now.flat.items (length self.now.index.links.items) self.now.index.heads.items self.now.index.links.items }
        requires there { number < length self.now.index.links.items }
        ensures { result.now ≡ code_at self.now.width self.now.flat.items number }
    {
        let start = number * self.width;
        &self.flat[start..start + self.width]
    }

    // Whether the code of a number is this one.
    fn is_at(&self, number: usize, code: &[u32]) -> bool
        requires codes { AreCodes self.now.width self.now.flat.items (length self.now.index.links.items) self.now.index.heads.items self.now.index.links.items }
        requires there { number < length self.now.index.links.items }
        ensures { IsTrue result ↔ (code_at self.now.width self.now.flat.items number ≡ code.now) }
    {
        self.code(number) == code
    }

    // The number of a code with this key, if it is there.
    fn find(&self, code: &[u32], key: u64) -> Option<usize>
        requires codes { AreCodes self.now.width self.now.flat.items (length self.now.index.links.items) self.now.index.heads.items self.now.index.links.items }
        requires key { key ≡ key_behind 0 code.now }
        ensures { MatchOption result (IsUncoded self.now.width self.now.flat.items (length self.now.index.links.items) code.now) (λ at. IsCoded self.now.width self.now.flat.items (length self.now.index.links.items) code.now at) }
    {
        let bucket = bucket_of(key, self.index.heads.len());
        let mut up = self.index.heads[bucket];
        while up > 0 {
            let at = up as usize - 1;
            if self.is_at(at, code) {
                return Some(at);
            }
            up = self.index.links[at];
        }
        None
    }

    // Makes a wider index where there are twice as many codes as buckets.
    fn widen(&mut self, alloc: Global) -> Result<(), Refusal>
        requires codes { AreCodes self.old.width self.old.flat.items (length self.old.index.links.items) self.old.index.heads.items self.old.index.links.items }
        ensures width { IfOk result (λ done. self.new.width ≡ self.old.width) }
        ensures same { IfOk result (λ done. self.new.flat ≡ self.old.flat) }
        ensures count { IfOk result (λ done. length self.new.index.links.items ≡ length self.old.index.links.items) }
        ensures codes { IfOk result (λ done. AreCodes self.new.width self.new.flat.items (length self.new.index.links.items) self.new.index.heads.items self.new.index.links.items) }
    {
        let count = self.len();
        if count / 2 < self.index.heads.len() {
            return Ok(());
        }
        let mut index = Index::empty(alloc, count / 2)?;
        for at in 0..count {
            index.add(key_of(self.code(at)))?;
        }
        self.index = index;
        Ok(())
    }

    // Adds a code that isn't there.
    fn add(&mut self, alloc: Global, code: &[u32], key: u64) -> Result<usize, Refusal>
        requires codes { AreCodes self.old.width self.old.flat.items (length self.old.index.links.items) self.old.index.heads.items self.old.index.links.items }
        requires long { length code.now ≡ self.old.width }
        requires key { key ≡ key_behind 0 code.now }
        requires fresh { IsUncoded self.old.width self.old.flat.items (length self.old.index.links.items) code.now }
        ensures codes { IfOk result (λ number. AreCodes self.new.width self.new.flat.items (length self.new.index.links.items) self.new.index.heads.items self.new.index.links.items) }
        ensures width { IfOk result (λ number. self.new.width ≡ self.old.width) }
        ensures more { IfOk result (λ number. self.new.flat.items ≡ self.old.flat.items ++ code.now) }
        ensures count { IfOk result (λ number. length self.new.index.links.items ≡ length self.old.index.links.items + 1) }
        ensures number { IfOk result (λ number. number ≡ length self.old.index.links.items) }
    {
        let place = self.len();
        if place >= MOST_NUMBERS {
            return Err(Refusal::Numbers);
        }
        self.widen(alloc)?;
        self.index.add(key)?;
        extend_from_slice(&mut self.flat, code)?;
        Ok(place)
    }

    /// The number of a code, which is added if it isn't there.
    ///
    /// Refused if memory is, or if there is no number left.
    pub fn number(&mut self, alloc: Global, code: &[u32]) -> Result<usize, Refusal>
        requires codes { AreCodes self.old.width self.old.flat.items (length self.old.index.links.items) self.old.index.heads.items self.old.index.links.items }
        requires long { length code.now ≡ self.old.width }
        ensures codes { IfOk result (λ number. AreCodes self.new.width self.new.flat.items (length self.new.index.links.items) self.new.index.heads.items self.new.index.links.items) }
        ensures width { IfOk result (λ number. self.new.width ≡ self.old.width) }
        ensures numbered { IfOk result (λ number. IsNumbered self.old.width self.old.flat.items (length self.old.index.links.items) self.new.flat.items (length self.new.index.links.items) code.now number) }
        ensures few { IfOk result (λ number. number < 4294967295) }
    {
        let key = key_of(code);
        match self.find(code, key) {
            Some(at) => Ok(at),
            None => self.add(alloc, code, key),
        }
    }
}
