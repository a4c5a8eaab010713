//! The tokens of a bank, as C declares them.
ghost use Rattle.std.specs.Prelude.{◌≡◌, ◌↔◌, ◌≤◌, length, option_map, IsTrue, IfOk};
ghost use Rattle.lwkt_base.specs.Law.{OpensLawfully};
ghost use Rattle.lwkt_core.specs.Opening.{IsTokenWithin};

use lwkt_base::blobs::length_of;
use lwkt_base::limits::{CELL_LIMIT, LAST_GENERATION, RECORD_LIMIT};
use lwkt_base::memory::from_slice;
use lwkt_base::{Blob, Cells, Law, OutOfMemory, TokSpec};
use std::alloc::Global;

/// A token as C declares it.
#[repr(C)]
#[derive(Clone, Copy)]
pub struct LwktToken {
    /// The first cell; a cell past their number counts for nothing.
    pub first: u64,
    /// The second cell.
    pub second: u64,
    /// The third cell.
    pub third: u64,
    /// The fourth cell.
    pub fourth: u64,
    /// The law's parameter.
    pub param: u64,
    /// The opening generation.
    pub generation: u64,
    /// How many cells there are, 0 to 4.
    pub cells: u32,
    /// The law: 0 any, 1 sum, 2 order, 3 cap, 4 tally, 5 len.
    pub law: u32,
    /// The bytes of its record; those past their number count for nothing.
    pub bytes: [u8; 64],
    /// How many bytes the record has, 0 to 64.
    pub length: u32,
    /// How many records it guards, 0 or 1.
    pub records: u32,
}

impl LwktToken {
    ghost use Rattle.lwkt_seats.specs.BankOpens.{IsOpenable, law_of_number, record_of, spec_of};

    /// Whether it has at most four cells, one of the six laws, at most 64 bytes and at most one record.
    pub fn is_token(&self) -> bool
        ensures { IsTrue result ↔ IsOpenable self.now }
    {
        self.cells <= 4 && self.law <= 5 && self.length <= 64 && self.records <= 1
    }

    fn law(&self) -> Law
        ensures { result ≡ law_of_number self.now.law }
    {
        match self.law {
            0 => Law::Any,
            1 => Law::Sum,
            2 => Law::Order,
            3 => Law::Cap,
            4 => Law::Tally,
            _ => Law::Len,
        }
    }

    fn record(&self) -> Option<Blob>
        requires { self.now.length ≤ RECORD_LIMIT }
        ensures { result ≡ record_of self.now }
    {
        if self.records == 0 {
            return None;
        }
        Some(Blob::of(&self.bytes[..self.length as usize]))
    }

    /// Whether what is declared of it keeps the limits of an opening: exactly one cell and no record under tally, a cell and a
    /// record under len, and a generation that isn't past the last.
    pub fn is_within(&self) -> bool
        requires { IsOpenable self.now }
        ensures { IsTrue result ↔ IsTokenWithin (spec_of self.now) }
    {
        let all = [self.first, self.second, self.third, self.fourth];
        let cells = all[..self.cells as usize].len();
        let record = self.record();
        let law = self.law();
        cells <= 4
            && (law != Law::Tally || (cells == 1 && record.is_none()))
            && (law != Law::Len || (cells > 0 && record.is_some()))
            && self.generation <= LAST_GENERATION
            && self.length <= 64
    }

    /// Whether its row, with the length of its record, obeys its law.
    pub fn opens_lawfully(&self) -> bool
        requires { IsOpenable self.now }
        ensures { IsTrue result ↔ OpensLawfully (spec_of self.now).law (spec_of self.now).param (spec_of self.now).cells (option_map length (spec_of self.now).blob) }
    {
        let all = [self.first, self.second, self.third, self.fourth];
        let cells = &all[..self.cells as usize];
        self.law()
            .holds(cells, self.param, length_of(&self.record()))
    }

    /// What is declared of it.
    pub fn spec(&self, alloc: Global) -> Result<TokSpec, OutOfMemory>
        requires few { self.now.cells ≤ CELL_LIMIT }
        requires short { self.now.length ≤ RECORD_LIMIT }
        ensures { IfOk result (λ spec. spec ≡ spec_of self.now) }
    {
        let all = [self.first, self.second, self.third, self.fourth];
        let cells = from_slice(alloc, &all[..self.cells as usize])?;
        Ok(TokSpec {
            cells: Cells::from_vec(cells),
            law: self.law(),
            param: self.param,
            generation: self.generation,
            blob: self.record(),
        })
    }
}
