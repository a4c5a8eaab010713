//! The cells of a token that is held.
ghost use Rattle.std.specs.Prelude.{◌≡◌, ◌≢◌, ◌↔◌, ◌⊎◌, ◌+◌, ◌^◌, ◌<◌, ◌≤◌, ℕ, [], ◌∷◌, ◌++◌, true, false, None, Some, Ok, Err, OnOk, OnErr, IfOk, MatchOption, slice_index};
ghost use Rattle.lwkt_base.specs.Holding.{is_held, is_exclusive};
ghost use Rattle.lwkt_bank.specs.Views.{amount, is_touched, read, stored, raised};
ghost use Rattle.lwkt_bank.specs.Deeds.{reads, writes};
ghost use Rattle.lwkt_bank.specs.Seats.{id_of, bank_of, tokens_of, plan_of, entry, holding, Changes, Knowing, IsUnchanged, first_load};

use crate::banks::Bank;
use crate::notes::{Change, Touch};
use crate::seats::CpuSeat;
use crate::steps;
use lwkt_base::{Fault, Law, TokId};

impl CpuSeat {
    /// The value of a cell. That the seat holds the token, in any mode, is the caller's condition.
    #[inline(always)]
    pub fn load(&mut self, bank: &Bank, tok: TokId, cell: u8) -> u64
        requires of { bank_of self.old ≡ id_of bank.now }
        requires there { tok.0 < tokens_of (bank_of self.old) }
        requires held { is_held (holding self.old tok.0) ≡ true }
        requires inside { cell < (plan_of (bank_of self.old) tok.0).cells }
        ensures value { result ≡ slice_index (entry self.old tok.0).row cell }
        ensures changes { Changes self.old self.new tok.0 (read (entry self.old tok.0) cell) (reads self.old.cpu tok.0 cell result ∷ []) }
    {
        steps::read_cell(bank, &mut self.seat, tok, cell)
    }

    // Stores a value in a cell, whose value in the first row is known, of a token that keeps no tallies.
    #[inline]
    pub(crate) fn store_over(&mut self, bank: &Bank, tok: TokId, cell: u8, change: Change)
        requires of { bank_of self.old ≡ id_of bank.now }
        requires there { tok.0 < tokens_of (bank_of self.old) }
        requires held { is_exclusive (holding self.old tok.0) ≡ true }
        requires untallied { (plan_of (bank_of self.old) tok.0).law ≢ Law.Tally }
        requires inside { cell < (plan_of (bank_of self.old) tok.0).cells }
        requires first { change.first ≡ slice_index (entry self.old tok.0).first cell }
        ensures { Changes self.old self.new tok.0 (stored (entry self.old tok.0) cell change.last) (writes self.old.cpu tok.0 cell change.last ∷ []) }
    {
        // Noted behind the store, which waits for the writes before it.
        let note = &mut self.notes[tok.0 as usize];
        steps::store_cell(bank, &mut self.seat, tok, cell, change.last);
        note.change(cell as usize, change);
    }

    // Stores a value in a cell of a token that keeps no tallies.
    #[inline]
    fn put(&mut self, bank: &Bank, tok: TokId, cell: u8, value: u64)
        requires of { bank_of self.old ≡ id_of bank.now }
        requires there { tok.0 < tokens_of (bank_of self.old) }
        requires held { is_exclusive (holding self.old tok.0) ≡ true }
        requires untallied { (plan_of (bank_of self.old) tok.0).law ≢ Law.Tally }
        requires inside { cell < (plan_of (bank_of self.old) tok.0).cells }
        ensures { Knowing self.old self.new tok.0 (stored (entry self.old tok.0) cell value) (first_load self.old.cpu tok.0 (entry self.old tok.0) cell ++ writes self.old.cpu tok.0 cell value ∷ []) }
    {
        let Change { first, .. } = self.change_of(bank, tok, cell);
        self.store_over(bank, tok, cell, Change { first, last: value });
    }

    // The value of a cell in the section's first row, and its value, if the cell was stored to.
    #[inline]
    pub(crate) fn kept_change(&self, bank: &Bank, tok: TokId, cell: u8) -> Option<Change>
        requires of { bank_of self.now ≡ id_of bank.now }
        requires there { tok.0 < tokens_of (bank_of self.now) }
        requires held { is_exclusive (holding self.now tok.0) ≡ true }
        requires inside { cell < (plan_of (bank_of self.now) tok.0).cells }
        ensures { MatchOption result ((is_touched (entry self.now tok.0) cell ≡ false) × (slice_index (entry self.now tok.0).row cell ≡ slice_index (entry self.now tok.0).first cell)) (λ change. (is_touched (entry self.now tok.0) cell ≡ true) × (change.first ≡ slice_index (entry self.now tok.0).first cell) × (change.last ≡ slice_index (entry self.now tok.0).row cell)) }
    {
        let note = &self.notes[tok.0 as usize];
        let cell = cell as usize;
        match note.cells[cell] {
            Touch::Untouched => None,
            Touch::Same | Touch::Other => Some(Change {
                first: note.first[cell],
                last: note.last[cell],
            }),
        }
    }

    // The value of a cell in the section's first row, and its value: kept, if the cell was stored to, else loaded once.
    #[inline]
    pub(crate) fn change_of(&mut self, bank: &Bank, tok: TokId, cell: u8) -> Change
        requires of { bank_of self.old ≡ id_of bank.now }
        requires there { tok.0 < tokens_of (bank_of self.old) }
        requires held { is_exclusive (holding self.old tok.0) ≡ true }
        requires inside { cell < (plan_of (bank_of self.old) tok.0).cells }
        ensures first { result.first ≡ slice_index (entry self.old tok.0).first cell }
        ensures last { result.last ≡ slice_index (entry self.old tok.0).row cell }
        ensures knowing { Knowing self.old self.new tok.0 (entry self.old tok.0) (first_load self.old.cpu tok.0 (entry self.old tok.0) cell) }
    {
        match self.kept_change(bank, tok, cell) {
            Some(change) => change,
            None => {
                let value = self.load(bank, tok, cell);
                Change {
                    first: value,
                    last: value,
                }
            }
        }
    }

    /// Stores a value in a cell. That the seat holds the token exclusively is the caller's condition. The first store to a
    /// cell in a section loads it once before. 22 for a Tally token.
    #[inline(always)]
    pub fn store(&mut self, bank: &Bank, tok: TokId, cell: u8, value: u64) -> Result<(), Fault>
        requires of { bank_of self.old ≡ id_of bank.now }
        requires there { tok.0 < tokens_of (bank_of self.old) }
        requires held { is_exclusive (holding self.old tok.0) ≡ true }
        requires inside { cell < (plan_of (bank_of self.old) tok.0).cells }
        ensures ok { OnOk result (Knowing self.old self.new tok.0 (stored (entry self.old tok.0) cell value) (first_load self.old.cpu tok.0 (entry self.old tok.0) cell ++ writes self.old.cpu tok.0 cell value ∷ [])) }
        ensures tally { (result ≡ Err Fault.TallyOnly) ↔ ((plan_of (bank_of self.old) tok.0).law ≡ Law.Tally) }
        ensures only { OnErr result ((result ≡ Err Fault.TallyOnly) × IsUnchanged self.old self.new) }
    {
        if bank.plan(tok).law == Law::Tally {
            return Err(Fault::TallyOnly);
        }
        self.put(bank, tok, cell, value);
        Ok(())
    }

    // Raises the cell of a Tally token by this much.
    fn raise(&mut self, bank: &Bank, tok: TokId, k: u64, change: Change)
        requires of { bank_of self.old ≡ id_of bank.now }
        requires there { tok.0 < tokens_of (bank_of self.old) }
        requires held { is_exclusive (holding self.old tok.0) ≡ true }
        requires tally { (plan_of (bank_of self.old) tok.0).law ≡ Law.Tally }
        requires first { change.first ≡ slice_index (entry self.old tok.0).first 0 }
        requires last { change.last ≡ slice_index (entry self.old tok.0).row 0 + k }
        requires under { amount self.old.cpu.0 (entry self.old tok.0).added ≤ slice_index (entry self.old tok.0).row 0 }
        ensures { Changes self.old self.new tok.0 (raised (entry self.old tok.0) self.old.cpu k) (writes self.old.cpu tok.0 0 change.last ∷ []) }
    {
        let note = &mut self.notes[tok.0 as usize];
        steps::raise_cell(bank, &mut self.seat, tok, change.last);
        note.raise(change, k);
    }

    // The value of the cell of a Tally token, loaded; it is at least what this processor has added.
    fn load_tally(&mut self, bank: &Bank, tok: TokId) -> u64
        requires of { bank_of self.old ≡ id_of bank.now }
        requires there { tok.0 < tokens_of (bank_of self.old) }
        requires held { is_exclusive (holding self.old tok.0) ≡ true }
        requires tally { (plan_of (bank_of self.old) tok.0).law ≡ Law.Tally }
        ensures value { result ≡ slice_index (entry self.old tok.0).row 0 }
        ensures changes { Changes self.old self.new tok.0 (read (entry self.old tok.0) 0) (reads self.old.cpu tok.0 0 result ∷ []) }
        ensures covers { amount self.old.cpu.0 (entry self.old tok.0).added ≤ result }
    {
        steps::read_cell(bank, &mut self.seat, tok, 0)
    }

    // The value of the cell of a Tally token, if it was added to in the section.
    fn kept_tally(&self, bank: &Bank, tok: TokId) -> Option<Change>
        requires of { bank_of self.now ≡ id_of bank.now }
        requires there { tok.0 < tokens_of (bank_of self.now) }
        requires held { is_exclusive (holding self.now tok.0) ≡ true }
        requires tally { (plan_of (bank_of self.now) tok.0).law ≡ Law.Tally }
        ensures { MatchOption result ((is_touched (entry self.now tok.0) 0 ≡ false) × (slice_index (entry self.now tok.0).row 0 ≡ slice_index (entry self.now tok.0).first 0)) (λ change. (is_touched (entry self.now tok.0) 0 ≡ true) × (change.first ≡ slice_index (entry self.now tok.0).first 0) × (change.last ≡ slice_index (entry self.now tok.0).row 0) × (amount self.now.cpu.0 (entry self.now tok.0).added ≤ change.last)) }
    {
        let note = &self.notes[tok.0 as usize];
        if matches!(note.cells[0], Touch::Untouched) {
            return None;
        }
        Some(Change {
            first: note.first[0],
            last: note.last[0],
        })
    }

    // The first value and the value of the cell of a Tally token: kept, if it was added to in the section, else loaded.
    fn tally_cell(&mut self, bank: &Bank, tok: TokId) -> Change
        requires of { bank_of self.old ≡ id_of bank.now }
        requires there { tok.0 < tokens_of (bank_of self.old) }
        requires held { is_exclusive (holding self.old tok.0) ≡ true }
        requires tally { (plan_of (bank_of self.old) tok.0).law ≡ Law.Tally }
        ensures first { result.first ≡ slice_index (entry self.old tok.0).first 0 }
        ensures last { result.last ≡ slice_index (entry self.old tok.0).row 0 }
        ensures under { amount self.old.cpu.0 (entry self.old tok.0).added ≤ slice_index (entry self.old tok.0).row 0 }
        ensures knowing { Knowing self.old self.new tok.0 (entry self.old tok.0) (first_load self.old.cpu tok.0 (entry self.old tok.0) 0) }
    {
        if let Some(change) = self.kept_tally(bank, tok) {
            return change;
        }
        let value = self.load_tally(bank, tok);
        Change {
            first: value,
            last: value,
        }
    }

    /// Adds to the cell of a Tally token, and answers its new value. The first add in a section loads the cell once, and a
    /// later one not at all. That the seat holds the token exclusively is the caller's condition. 22 for any other token, 21
    /// exactly if the sum passes 18446744073709551615.
    pub fn add(&mut self, bank: &Bank, tok: TokId, k: u64) -> Result<u64, Fault>
        requires of { bank_of self.old ≡ id_of bank.now }
        requires there { tok.0 < tokens_of (bank_of self.old) }
        requires held { is_exclusive (holding self.old tok.0) ≡ true }
        ensures ok { OnOk result (Knowing self.old self.new tok.0 (raised (entry self.old tok.0) self.old.cpu k) (first_load self.old.cpu tok.0 (entry self.old tok.0) 0 ++ writes self.old.cpu tok.0 0 (slice_index (entry self.old tok.0).row 0 + k) ∷ [])) }
        ensures value { IfOk result (λ value. value ≡ slice_index (entry self.old tok.0).row 0 + k) }
        ensures tally { (result ≡ Err Fault.TallyOnly) ↔ ((plan_of (bank_of self.old) tok.0).law ≢ Law.Tally) }
        ensures overflow { (result ≡ Err Fault.Overflow) ↔ (((plan_of (bank_of self.old) tok.0).law ≡ Law.Tally) × (2 ^ 64 ≤ slice_index (entry self.old tok.0).row 0 + k)) }
        ensures only { OnErr result (((result ≡ Err Fault.TallyOnly) × IsUnchanged self.old self.new) ⊎ ((result ≡ Err Fault.Overflow) × Knowing self.old self.new tok.0 (entry self.old tok.0) (first_load self.old.cpu tok.0 (entry self.old tok.0) 0))) }
    {
        if bank.plan(tok).law != Law::Tally {
            return Err(Fault::TallyOnly);
        }
        let Change { first, last } = self.tally_cell(bank, tok);
        let Some(sum) = last.checked_add(k) else {
            return Err(Fault::Overflow);
        };
        self.raise(bank, tok, k, Change { first, last: sum });
        Ok(sum)
    }
}
