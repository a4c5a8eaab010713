//! The row of a token that is held exclusively, as a whole.
ghost use Rattle.std.specs.Prelude.{◌≡◌, ◌≢◌, ◌↔◌, ℕ, List, Option, ◌<◌, [], ◌∷◌, ◌++◌, length, true, false, None, Some, IsTrue, MatchOption, slice_index};
ghost use Rattle.lwkt_base.specs.Holding.{is_held, is_exclusive};
ghost use Rattle.lwkt_base.specs.Law.{Obeys};
ghost use Rattle.lwkt_core.specs.Tokens.{length_of};
ghost use Rattle.lwkt_bank.specs.Views.{is_touched, stored};
ghost use Rattle.lwkt_table.specs.declared.seats.Deed.{Deed};
ghost use Rattle.lwkt_bank.specs.Deeds.{reads_all, writes, writes_blob_if};
ghost use Rattle.lwkt_bank.specs.Seats.{id_of, bank_of, tokens_of, plan_of, entry, holding, Changes, Knowing, IsUnchanged, IsLawfulIn, PutsFirst, RowRestored, Restored, lawful_loads, asked_record, last_loads};

use crate::answers::Stored;
use crate::banks::Bank;
use crate::gives::is_other;
use crate::notes::Change;
use crate::seats::CpuSeat;
use lwkt_base::limits::CELL_LIMIT;
use lwkt_base::{Blob, Law, Row, TokId};

// Whether the law asks nothing of a row.
pub(crate) fn asks_nothing(law: Law) -> bool
    ensures meets { result ≡ true → (param : ℕ) → (row : List ℕ) → (len : Option ℕ) → Obeys law param row len }
    ensures nothing { result ≡ true → (deeds : List Deed) → lawful_loads law deeds ≡ [] }
    ensures all { result ≡ false → (deeds : List Deed) → lawful_loads law deeds ≡ deeds }
{
    matches!(law, Law::Any | Law::Tally)
}

// Whether the law asks for the length of the record.
fn asks_length(law: Law) -> bool
    ensures yes { result ≡ true → law ≡ Law.Len }
    ensures no { result ≡ false → law ≢ Law.Len }
{
    matches!(law, Law::Len)
}

impl CpuSeat {
    // The row, each cell loaded; past its end zeros.
    fn row(&mut self, bank: &Bank, tok: TokId) -> [u64; 4]
        requires of { bank_of self.old ≡ id_of bank.now }
        requires there { tok.0 < tokens_of (bank_of self.old) }
        requires held { is_held (holding self.old tok.0) ≡ true }
        ensures four { length result ≡ CELL_LIMIT }
        ensures row { (cell : ℕ) → cell < (plan_of (bank_of self.old) tok.0).cells → slice_index result cell ≡ slice_index (entry self.old tok.0).row cell }
        ensures knowing { Knowing self.old self.new tok.0 (entry self.old tok.0) (reads_all self.old.cpu tok.0 0 (entry self.old tok.0).row) }
    {
        let mut values = [0u64; 4];
        for cell in 0..bank.cells(tok) {
            values[cell] = self.load(bank, tok, cell as u8);
        }
        values
    }

    // The cells of the row of the section's beginning, and of the row; past their ends zeros. Each cell that wasn't stored to
    // is loaded once.
    #[inline]
    fn both_cells(&mut self, bank: &Bank, tok: TokId) -> ([u64; 4], [u64; 4])
        requires of { bank_of self.old ≡ id_of bank.now }
        requires there { tok.0 < tokens_of (bank_of self.old) }
        requires held { is_exclusive (holding self.old tok.0) ≡ true }
        ensures four { (length result.0 ≡ CELL_LIMIT) × (length result.1 ≡ CELL_LIMIT) }
        ensures first { (cell : ℕ) → cell < (plan_of (bank_of self.old) tok.0).cells → slice_index result.0 cell ≡ slice_index (entry self.old tok.0).first cell }
        ensures row { (cell : ℕ) → cell < (plan_of (bank_of self.old) tok.0).cells → slice_index result.1 cell ≡ slice_index (entry self.old tok.0).row cell }
        ensures knowing { Knowing self.old self.new tok.0 (entry self.old tok.0) (last_loads self.old.cpu tok.0 (entry self.old tok.0) (plan_of (bank_of self.old) tok.0).cells) }
    {
        let mut before = [0u64; 4];
        let mut after = [0u64; 4];
        for cell in 0..bank.cells(tok) {
            let Change { first, last } = self.change_of(bank, tok, cell as u8);
            before[cell] = first;
            after[cell] = last;
        }
        (before, after)
    }

    // The row of the section's beginning, and the row. Each cell that wasn't stored to is loaded once.
    #[inline(never)]
    pub(crate) fn both_rows(&mut self, bank: &Bank, tok: TokId) -> (Row, Row)
        requires of { bank_of self.old ≡ id_of bank.now }
        requires there { tok.0 < tokens_of (bank_of self.old) }
        requires held { is_exclusive (holding self.old tok.0) ≡ true }
        ensures first { result.0 ≡ (entry self.old tok.0).first }
        ensures row { result.1 ≡ (entry self.old tok.0).row }
        ensures knowing { Knowing self.old self.new tok.0 (entry self.old tok.0) (last_loads self.old.cpu tok.0 (entry self.old tok.0) (plan_of (bank_of self.old) tok.0).cells) }
    {
        let cells = bank.cells(tok);
        let (before, after) = self.both_cells(bank, tok);
        (Row::of(&before[..cells]), Row::of(&after[..cells]))
    }

    // The length of the record, if the law asks for it and the token has one.
    fn asked_length(&mut self, bank: &Bank, tok: TokId) -> Option<u64>
        requires of { bank_of self.old ≡ id_of bank.now }
        requires there { tok.0 < tokens_of (bank_of self.old) }
        requires held { is_exclusive (holding self.old tok.0) ≡ true }
        ensures length { (plan_of (bank_of self.old) tok.0).law ≡ Law.Len → result ≡ length_of (entry self.old tok.0).blob }
        ensures knowing { Knowing self.old self.new tok.0 (entry self.old tok.0) (asked_record (plan_of (bank_of self.old) tok.0).law self.old.cpu tok.0 (entry self.old tok.0).blob) }
    {
        if !asks_length(bank.plan(tok).law) {
            return None;
        }
        if !bank.guards(tok) {
            return None;
        }
        Some(self.read_blob(bank, tok).len() as u64)
    }

    // The same as `lawful`, each cell loaded.
    fn row_is_lawful(&mut self, bank: &Bank, tok: TokId) -> bool
        requires of { bank_of self.old ≡ id_of bank.now }
        requires there { tok.0 < tokens_of (bank_of self.old) }
        requires held { is_exclusive (holding self.old tok.0) ≡ true }
        ensures lawful { IsTrue result ↔ IsLawfulIn (plan_of (bank_of self.old) tok.0) (entry self.old tok.0) }
        ensures knowing { Knowing self.old self.new tok.0 (entry self.old tok.0) (reads_all self.old.cpu tok.0 0 (entry self.old tok.0).row ++ asked_record (plan_of (bank_of self.old) tok.0).law self.old.cpu tok.0 (entry self.old tok.0).blob) }
    {
        let plan = bank.plan(tok);
        let values = self.row(bank, tok);
        let len = self.asked_length(bank, tok);
        plan.law
            .holds_of_section(&values[..plan.cells], plan.param, len)
    }

    /// Whether row and record obey the law; under Tally always. That the seat holds the token exclusively is the caller's condition.
    pub fn lawful(&mut self, bank: &Bank, tok: TokId) -> bool
        requires of { bank_of self.old ≡ id_of bank.now }
        requires there { tok.0 < tokens_of (bank_of self.old) }
        requires held { is_exclusive (holding self.old tok.0) ≡ true }
        ensures lawful { IsTrue result ↔ IsLawfulIn (plan_of (bank_of self.old) tok.0) (entry self.old tok.0) }
        ensures knowing { Knowing self.old self.new tok.0 (entry self.old tok.0) (lawful_loads (plan_of (bank_of self.old) tok.0).law (reads_all self.old.cpu tok.0 0 (entry self.old tok.0).row ++ asked_record (plan_of (bank_of self.old) tok.0).law self.old.cpu tok.0 (entry self.old tok.0).blob)) }
    {
        if asks_nothing(bank.plan(tok).law) {
            return true;
        }
        self.row_is_lawful(bank, tok)
    }

    // Stores the first value of a cell again, if it was stored to in the section, and answers it.
    fn restore_cell(&mut self, bank: &Bank, tok: TokId, cell: u8) -> Option<u64>
        requires of { bank_of self.old ≡ id_of bank.now }
        requires there { tok.0 < tokens_of (bank_of self.old) }
        requires held { is_exclusive (holding self.old tok.0) ≡ true }
        requires untallied { (plan_of (bank_of self.old) tok.0).law ≢ Law.Tally }
        requires inside { cell < (plan_of (bank_of self.old) tok.0).cells }
        ensures { MatchOption result (IsUnchanged self.old self.new × (is_touched (entry self.old tok.0) cell ≡ false) × (slice_index (entry self.old tok.0).row cell ≡ slice_index (entry self.old tok.0).first cell)) (λ value. (is_touched (entry self.old tok.0) cell ≡ true) × (value ≡ slice_index (entry self.old tok.0).first cell) × Changes self.old self.new tok.0 (stored (entry self.old tok.0) cell value) (writes self.old.cpu tok.0 cell value ∷ [])) }
    {
        let Some(Change { first, .. }) = self.kept_change(bank, tok, cell) else {
            return None;
        };
        self.store_over(bank, tok, cell, Change { first, last: first });
        Some(first)
    }

    // The same for each cell of a token that keeps no tallies, rising.
    fn restore_cells(&mut self, bank: &Bank, tok: TokId) -> [Option<u64>; 4]
        requires of { bank_of self.old ≡ id_of bank.now }
        requires there { tok.0 < tokens_of (bank_of self.old) }
        requires held { is_exclusive (holding self.old tok.0) ≡ true }
        requires untallied { (plan_of (bank_of self.old) tok.0).law ≢ Law.Tally }
        ensures { RowRestored self.old self.new tok.0 result }
    {
        let mut made = [None; 4];
        for cell in 0..bank.cells(tok) {
            made[cell] = self.restore_cell(bank, tok, cell as u8);
        }
        made
    }

    // Writes the first record again, if the record isn't that one, and answers it.
    fn restore_record(&mut self, bank: &Bank, tok: TokId) -> Option<Blob>
        requires of { bank_of self.old ≡ id_of bank.now }
        requires there { tok.0 < tokens_of (bank_of self.old) }
        requires held { is_exclusive (holding self.old tok.0) ≡ true }
        ensures puts { PutsFirst (entry self.old tok.0) result }
        ensures changes { Changes self.old self.new tok.0 (record (entry self.old tok.0) { blob = (entry self.old tok.0).first_blob }) (writes_blob_if self.old.cpu tok.0 result) }
    {
        let note = &self.notes[tok.0 as usize];
        if !is_other(note.record_) {
            return None;
        }
        let first = note.first_blob;
        self.write_blob(bank, tok, &first);
        Some(first)
    }

    /// Stores the section's first row and record again: each cell that was stored to in it, rising, gets its first value,
    /// and then the record its first bytes, if it has others. The answer has what was stored. On a Tally token nothing is
    /// stored. That the seat holds the token exclusively is the caller's condition.
    pub fn restore(&mut self, bank: &Bank, tok: TokId) -> Stored
        requires of { bank_of self.old ≡ id_of bank.now }
        requires there { tok.0 < tokens_of (bank_of self.old) }
        requires held { is_exclusive (holding self.old tok.0) ≡ true }
        ensures restored { (plan_of (bank_of self.old) tok.0).law ≢ Law.Tally → Restored self.old self.new tok.0 result.cells result.blob }
        ensures tally { (plan_of (bank_of self.old) tok.0).law ≡ Law.Tally → (result.cells ≡ None ∷ None ∷ None ∷ None ∷ []) × (result.blob ≡ None) × IsUnchanged self.old self.new }
    {
        if bank.plan(tok).law == Law::Tally {
            return Stored {
                cells: [None; 4],
                blob: None,
            };
        }
        let cells = self.restore_cells(bank, tok);
        let blob = self.restore_record(bank, tok);
        Stored { cells, blob }
    }
}
