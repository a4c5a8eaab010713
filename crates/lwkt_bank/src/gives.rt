//! Giving references back.
ghost use Rattle.std.specs.Prelude.{◌≡◌, ◌≢◌, ◌⊎◌, ◌+◌, ◌<◌, ◌≤◌, List, [], true, false};
ghost use Rattle.std.specs.List.{list_any};
ghost use Rattle.lwkt_base.specs.Holding.{is_held, is_exclusive};
ghost use Rattle.lwkt_bank.specs.Views.{less, ended, ended_section};
ghost use Rattle.lwkt_bank.specs.Deeds.{gives_one, gives_clean, gives_written};
ghost use Rattle.lwkt_core.specs.Tokens.{IsNotLastExclusive};
ghost use Rattle.lwkt_bank.specs.Notes.{is_other};
ghost use Rattle.lwkt_table.specs.declared.seats.Deed.{Deed};
ghost use Rattle.lwkt_bank.specs.Seats.{id_of, bank_of, tokens_of, plan_of, entry, holding, IsCleanIn, IsLawfulIn, Stepped, SectionEnded, Gave, lawful_loads};

use crate::answers::Given;
use crate::banks::Bank;
use crate::notes::{Change, Touch};
use crate::places::generation_in;
use crate::rows::asks_nothing;
use crate::seats::CpuSeat;
use crate::steps;
use lwkt_base::{Held, Mode, Row, Section, TokId};

// Whether the cell was stored to, and has another value than its first.
pub(crate) fn is_other(touch: Touch) -> bool
    ensures { result ≡ is_other touch }
{
    matches!(touch, Touch::Other)
}

#[inline]
fn is_written(cells: &[Touch]) -> bool
    ensures { result ≡ list_any is_other cells.now }
{
    cells.iter().any(|touch| is_other(*touch))
}

impl CpuSeat {
    // Whether this is the last reference of an exclusive holding.
    #[inline(always)]
    fn is_last(&self, bank: &Bank, tok: TokId) -> bool
        requires of { bank_of self.now ≡ id_of bank.now }
        requires there { tok.0 < tokens_of (bank_of self.now) }
        ensures last { result ≡ true → holding self.now tok.0 ≡ Held.Holds Mode.Exclusive 0 }
        ensures not_last { result ≡ false → is_held (holding self.now tok.0) ≡ true → IsNotLastExclusive (holding self.now tok.0) }
    {
        self.notes[tok.0 as usize].is_last()
    }

    // Whether row or record of a token with one cell that is held exclusively differ from the section's first ones.
    #[inline(always)]
    fn single_has_written(&self, bank: &Bank, tok: TokId) -> bool
        requires of { bank_of self.now ≡ id_of bank.now }
        requires there { tok.0 < tokens_of (bank_of self.now) }
        requires single { (plan_of (bank_of self.now) tok.0).cells ≡ 1 }
        requires held { is_exclusive (holding self.now tok.0) ≡ true }
        ensures written { result ≡ true → ¬ IsCleanIn (entry self.now tok.0) }
        ensures clean { result ≡ false → IsCleanIn (entry self.now tok.0) }
    {
        let note = &self.notes[tok.0 as usize];
        is_other(note.record_) || is_other(note.cells[0])
    }

    // The same of a token with any number of cells.
    #[inline]
    fn whole_has_written(&self, bank: &Bank, tok: TokId) -> bool
        requires of { bank_of self.now ≡ id_of bank.now }
        requires there { tok.0 < tokens_of (bank_of self.now) }
        requires held { is_exclusive (holding self.now tok.0) ≡ true }
        ensures written { result ≡ true → ¬ IsCleanIn (entry self.now tok.0) }
        ensures clean { result ≡ false → IsCleanIn (entry self.now tok.0) }
    {
        let note = &self.notes[tok.0 as usize];
        is_written(&note.cells) || is_other(note.record_)
    }

    // Whether row or record of a token that is held exclusively differ from the section's first ones.
    #[inline(always)]
    fn has_written(&self, bank: &Bank, tok: TokId) -> bool
        requires of { bank_of self.now ≡ id_of bank.now }
        requires there { tok.0 < tokens_of (bank_of self.now) }
        requires held { is_exclusive (holding self.now tok.0) ≡ true }
        ensures written { result ≡ true → ¬ IsCleanIn (entry self.now tok.0) }
        ensures clean { result ≡ false → IsCleanIn (entry self.now tok.0) }
    {
        if bank.cells(tok) == 1 {
            return self.single_has_written(bank, tok);
        }
        self.whole_has_written(bank, tok)
    }

    #[inline]
    fn give_one(&mut self, bank: &Bank, tok: TokId)
        requires of { bank_of self.old ≡ id_of bank.now }
        requires there { tok.0 < tokens_of (bank_of self.old) }
        requires held { is_held (holding self.old tok.0) ≡ true }
        requires not_last { IsNotLastExclusive (holding self.old tok.0) }
        ensures { Stepped self.old self.new tok.0 (less (entry self.old tok.0)) gives_one }
    {
        let note = &mut self.notes[tok.0 as usize];
        steps::give_one(bank, &mut self.seat, tok);
        note.one_less();
    }

    #[inline]
    fn end_clean(&mut self, bank: &Bank, tok: TokId)
        requires of { bank_of self.old ≡ id_of bank.now }
        requires there { tok.0 < tokens_of (bank_of self.old) }
        requires last { holding self.old tok.0 ≡ Held.Holds Mode.Exclusive 0 }
        requires clean { IsCleanIn (entry self.old tok.0) }
        ensures { Stepped self.old self.new tok.0 (less (entry self.old tok.0)) gives_clean }
    {
        let note = &mut self.notes[tok.0 as usize];
        steps::give_clean(bank, &mut self.seat, tok);
        note.end();
    }

    // Ends a written section, and answers the generation at which it began.
    #[inline]
    fn end_written(&mut self, bank: &Bank, tok: TokId) -> u64
        requires of { bank_of self.old ≡ id_of bank.now }
        requires there { tok.0 < tokens_of (bank_of self.old) }
        requires last { holding self.old tok.0 ≡ Held.Holds Mode.Exclusive 0 }
        requires written { ¬ IsCleanIn (entry self.old tok.0) }
        requires lawful { IsLawfulIn (plan_of (bank_of self.old) tok.0) (entry self.old tok.0) }
        ensures stepped { Stepped self.old self.new tok.0 (ended (entry self.old tok.0)) (gives_written (ended_section tok.0 (entry self.old tok.0))) }
        ensures generation { result ≡ (entry self.old tok.0).generation }
    {
        let note = &mut self.notes[tok.0 as usize];
        let found = steps::give_written(bank, &mut self.seat, tok);
        note.end();
        generation_in(found)
    }

    // Ends a written section of a token with one cell, and tells it, without a loop.
    #[inline(always)]
    fn end_single(&mut self, bank: &Bank, tok: TokId) -> Section
        requires of { bank_of self.old ≡ id_of bank.now }
        requires there { tok.0 < tokens_of (bank_of self.old) }
        requires single { (plan_of (bank_of self.old) tok.0).cells ≡ 1 }
        requires last { holding self.old tok.0 ≡ Held.Holds Mode.Exclusive 0 }
        requires written { ¬ IsCleanIn (entry self.old tok.0) }
        requires lawful { IsLawfulIn (plan_of (bank_of self.old) tok.0) (entry self.old tok.0) }
        ensures { SectionEnded self.old self.new tok.0 result }
    {
        let Change { first, last } = self.change_of(bank, tok, 0);
        let generation = self.end_written(bank, tok);
        Section {
            before: Row::of(&[first]),
            after: Row::of(&[last]),
            generation,
            tok,
        }
    }

    // The same of a token with any number of cells.
    #[inline(always)]
    fn end_whole(&mut self, bank: &Bank, tok: TokId) -> Section
        requires of { bank_of self.old ≡ id_of bank.now }
        requires there { tok.0 < tokens_of (bank_of self.old) }
        requires last { holding self.old tok.0 ≡ Held.Holds Mode.Exclusive 0 }
        requires written { ¬ IsCleanIn (entry self.old tok.0) }
        requires lawful { IsLawfulIn (plan_of (bank_of self.old) tok.0) (entry self.old tok.0) }
        ensures { SectionEnded self.old self.new tok.0 result }
    {
        let (before, after) = self.both_rows(bank, tok);
        let generation = self.end_written(bank, tok);
        Section {
            before,
            after,
            generation,
            tok,
        }
    }

    // Ends a written section, and tells it.
    #[inline(always)]
    fn end_written_section(&mut self, bank: &Bank, tok: TokId) -> Section
        requires of { bank_of self.old ≡ id_of bank.now }
        requires there { tok.0 < tokens_of (bank_of self.old) }
        requires last { holding self.old tok.0 ≡ Held.Holds Mode.Exclusive 0 }
        requires written { ¬ IsCleanIn (entry self.old tok.0) }
        requires lawful { IsLawfulIn (plan_of (bank_of self.old) tok.0) (entry self.old tok.0) }
        ensures { SectionEnded self.old self.new tok.0 result }
    {
        if bank.cells(tok) == 1 {
            return self.end_single(bank, tok);
        }
        self.end_whole(bank, tok)
    }

    // Ends a section.
    #[inline(always)]
    fn end(&mut self, bank: &Bank, tok: TokId) -> Given
        requires of { bank_of self.old ≡ id_of bank.now }
        requires there { tok.0 < tokens_of (bank_of self.old) }
        requires last { holding self.old tok.0 ≡ Held.Holds Mode.Exclusive 0 }
        requires lawful { IsCleanIn (entry self.old tok.0) ⊎ IsLawfulIn (plan_of (bank_of self.old) tok.0) (entry self.old tok.0) }
        ensures { Gave self.old self.new tok.0 result }
    {
        if self.has_written(bank, tok) {
            return Given::Written(self.end_written_section(bank, tok));
        }
        self.end_clean(bank, tok);
        Given::Clean
    }

    /// Gives a reference back. That the seat holds the token is the caller's condition, and if that ends a section, that the
    /// row and record are its first ones or obey the law. A written section is returned: its rows before and after it, and the generation at
    /// which it began. Each cell that it didn't store to is loaded once for that, before the reference is given back.
    #[inline(always)]
    pub fn give(&mut self, bank: &Bank, tok: TokId) -> Given
        requires of { bank_of self.old ≡ id_of bank.now }
        requires there { tok.0 < tokens_of (bank_of self.old) }
        requires held { is_held (holding self.old tok.0) ≡ true }
        requires lawful { holding self.old tok.0 ≡ Held.Holds Mode.Exclusive 0 → IsCleanIn (entry self.old tok.0) ⊎ IsLawfulIn (plan_of (bank_of self.old) tok.0) (entry self.old tok.0) }
        ensures { Gave self.old self.new tok.0 result }
    {
        if !self.is_last(bank, tok) {
            self.give_one(bank, tok);
            return Given::One;
        }
        self.end(bank, tok)
    }

    /// Gives back the one reference of an exclusive holder who has written nothing, to a token whose law asks nothing. Whether it is
    /// so: else all stays as it is. It does less than `lawful` and `give` one after the other.
    #[inline(always)]
    pub fn give_quietly(&mut self, bank: &Bank, tok: TokId) -> bool
        requires of { bank_of self.old ≡ id_of bank.now }
        requires there { tok.0 < tokens_of (bank_of self.old) }
        ensures nothing { result ≡ true → (deeds : List Deed) → lawful_loads (plan_of (bank_of self.old) tok.0).law deeds ≡ [] }
        ensures lawful { result ≡ true → IsLawfulIn (plan_of (bank_of self.old) tok.0) (entry self.old tok.0) }
        ensures gave { result ≡ true → Gave self.old self.new tok.0 Given.Clean }
        ensures kept { result ≡ false → self.new ≡ self.old }
    {
        if !self.is_last(bank, tok) {
            return false;
        }
        if !asks_nothing(bank.plan(tok).law) {
            return false;
        }
        if self.has_written(bank, tok) {
            return false;
        }
        self.end_clean(bank, tok);
        true
    }
}
