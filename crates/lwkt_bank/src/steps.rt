//! The steps of a seat on the words and cells of one token.
ghost use Rattle.std.specs.Prelude.{◌≡◌, ◌≢◌, ◌⊎◌, ℕ, ◌+◌, ◌*◌, ◌<◌, ◌≤◌, Bool, List, true, length, Some, slice_index};
ghost use Rattle.lwkt_base.specs.Holding.{is_held, is_exclusive};
ghost use Rattle.lwkt_bank.specs.Hands.{AreHands, IsInHand, PutsBack};
ghost use Rattle.lwkt_base.specs.declared.holdings.Held.{Held};
ghost use Rattle.lwkt_base.specs.declared.laws.Law.TheVariants.{Tally};
ghost use Rattle.lwkt_core.specs.Tokens.{IsNotLastExclusive};
ghost use Rattle.lwkt_bank.specs.Views.{at, count_from, held_of};
ghost use Rattle.lwkt_bank.specs.Rule.{plan_at};
ghost use Rattle.lwkt_bank.specs.Notes.{Overwrites};
ghost use Rattle.lwkt_bank.specs.Plays.{Amid, Looks, Exchanges, AddsOne, Marks, GivesOne, GivesClean, GivesWritten, ReadsCell, StoresCell, RaisesCell, ReadsBlob, WritesBlob, TakesHands};
ghost use Rattle.lwkt_bank.specs.Seats.{IsOf, IsSame, IsCleanIn, IsLawfulIn, Decides};

use crate::banks::Bank;
use crate::notes::TokenNote;
use crate::places::{SECTION, word_of_cell, word_of_token};
use crate::plays::{
    AddOne, BringRecord, GiveClean, GiveOne, GiveWritten, Look, RaiseCell, ReadCell, ReadRecord,
    SetMark, Share, StoreCell, Take, WriteRecord,
};
use crate::views::View;
use atomic_table::Seat;
use lwkt_base::limits::{LIST_LIMIT, RECORD_LIMIT};
use lwkt_base::{Blob, Decision, Mode, TokId};

pub(crate) fn look(bank: &Bank, seat: &mut Seat<Blob, View>, tok: TokId) -> u64
    requires of { IsOf bank.now seat.old }
    requires there { tok.0 < length bank.now.key.plans.items }
    ensures same { IsSame seat.old seat.new }
    ensures looks { Amid seat.old.me.0 (λ between. Looks between tok.0 seat.old.me.0 result seat.new.me.0) }
{
    let word = word_of_token(tok);
    bank.table.shared.load::<Look>(seat, word)
}

/// Exchanges the word for the one that takes the token in this mode, and answers the word found.
pub(crate) fn swing(
    bank: &Bank,
    seat: &mut Seat<Blob, View>,
    tok: TokId,
    mode: Mode,
    old: u64,
    new: u64,
) -> u64
    requires of { IsOf bank.now seat.old }
    requires there { tok.0 < length bank.now.key.plans.items }
    requires decided { (alone : Bool) × Decides old mode alone (Decision.Take new) }
    requires free { (at seat.old.me.0.tokens tok.0).held ≡ Held.Nothing }
    requires few { count_from 0 (length bank.now.key.plans.items) (held_of seat.old.me.0.tokens) < LIST_LIMIT }
    ensures table { seat.new.table_id ≡ seat.old.table_id }
    ensures hands { TakesHands mode old tok.0 result seat.old.me seat.new.me }
    ensures exchanges { Amid seat.old.me.0 (λ between. Exchanges mode old new between tok.0 seat.old.me.0 result seat.new.me.0) }
{
    let word = word_of_token(tok);
    match mode {
        Mode::Exclusive => bank
            .table
            .shared
            .compare_exchange::<Take>(seat, word, old, new),
        Mode::Shared => bank
            .table
            .shared
            .compare_exchange::<Share>(seat, word, old, new),
    }
}

pub(crate) fn add_one(bank: &Bank, seat: &mut Seat<Blob, View>, tok: TokId) -> u64
    requires of { IsOf bank.now seat.old }
    requires there { tok.0 < length bank.now.key.plans.items }
    requires held { is_held (at seat.old.me.0.tokens tok.0).held ≡ true }
    requires few { count_from 0 (length bank.now.key.plans.items) (held_of seat.old.me.0.tokens) < LIST_LIMIT }
    ensures same { IsSame seat.old seat.new }
    ensures adds { Amid seat.old.me.0 (λ between. AddsOne between tok.0 seat.old.me.0 result seat.new.me.0) }
{
    let word = word_of_token(tok);
    bank.table.shared.fetch_add::<AddOne>(seat, word, 4)
}

pub(crate) fn set_mark(bank: &Bank, seat: &mut Seat<Blob, View>, tok: TokId) -> u64
    requires of { IsOf bank.now seat.old }
    requires there { tok.0 < length bank.now.key.plans.items }
    ensures same { IsSame seat.old seat.new }
    ensures marks { Amid seat.old.me.0 (λ between. Marks between tok.0 seat.old.me.0 result seat.new.me.0) }
{
    let word = word_of_token(tok);
    bank.table.shared.fetch_or::<SetMark>(seat, word, 2)
}

pub(crate) fn give_one(bank: &Bank, seat: &mut Seat<Blob, View>, tok: TokId) -> u64
    requires of { IsOf bank.now seat.old }
    requires there { tok.0 < length bank.now.key.plans.items }
    requires held { is_held (at seat.old.me.0.tokens tok.0).held ≡ true }
    requires not_last { IsNotLastExclusive (at seat.old.me.0.tokens tok.0).held }
    ensures same { IsSame seat.old seat.new }
    ensures gives { Amid seat.old.me.0 (λ between. GivesOne between tok.0 seat.old.me.0 result seat.new.me.0) }
{
    let word = word_of_token(tok);
    bank.table.shared.fetch_sub::<GiveOne>(seat, word, 4)
}

pub(crate) fn give_clean(bank: &Bank, seat: &mut Seat<Blob, View>, tok: TokId) -> u64
    requires of { IsOf bank.now seat.old }
    requires there { tok.0 < length bank.now.key.plans.items }
    requires last { (at seat.old.me.0.tokens tok.0).held ≡ Held.Holds Mode.Exclusive 0 }
    requires clean { IsCleanIn (at seat.old.me.0.tokens tok.0) }
    requires hands { AreHands seat.old.me.0 seat.old.me.1 }
    ensures table { seat.new.table_id ≡ seat.old.table_id }
    ensures puts { PutsBack (at seat.old.me.0.tokens tok.0).blob tok.0 seat.old.me.1 seat.new.me.1 }
    ensures gives { Amid seat.old.me.0 (λ between. GivesClean between tok.0 seat.old.me.0 result seat.new.me.0) }
{
    let word = word_of_token(tok);
    bank.table.shared.fetch_sub::<GiveClean>(seat, word, 1)
}

pub(crate) fn give_written(bank: &Bank, seat: &mut Seat<Blob, View>, tok: TokId) -> u64
    requires of { IsOf bank.now seat.old }
    requires there { tok.0 < length bank.now.key.plans.items }
    requires last { (at seat.old.me.0.tokens tok.0).held ≡ Held.Holds Mode.Exclusive 0 }
    requires written { ¬ IsCleanIn (at seat.old.me.0.tokens tok.0) }
    requires lawful { IsLawfulIn (plan_at bank.now.key.plans.items tok.0) (at seat.old.me.0.tokens tok.0) }
    requires hands { AreHands seat.old.me.0 seat.old.me.1 }
    ensures table { seat.new.table_id ≡ seat.old.table_id }
    ensures puts { PutsBack (at seat.old.me.0.tokens tok.0).blob tok.0 seat.old.me.1 seat.new.me.1 }
    ensures gives { Amid seat.old.me.0 (λ between. GivesWritten between tok.0 seat.old.me.0 result seat.new.me.0) }
{
    let word = word_of_token(tok);
    bank.table
        .shared
        .fetch_add::<GiveWritten>(seat, word, SECTION)
}

pub(crate) fn read_cell(bank: &Bank, seat: &mut Seat<Blob, View>, tok: TokId, cell: u8) -> u64
    requires of { IsOf bank.now seat.old }
    requires there { tok.0 < length bank.now.key.plans.items }
    requires held { is_held (at seat.old.me.0.tokens tok.0).held ≡ true }
    requires inside { cell < (plan_at bank.now.key.plans.items tok.0).cells }
    ensures same { IsSame seat.old seat.new }
    ensures reads { Amid seat.old.me.0 (λ between. ReadsCell between tok.0 cell seat.old.me.0 result seat.new.me.0) }
{
    let word = word_of_cell(tok, cell);
    bank.table.shared.load::<ReadCell>(seat, word)
}

pub(crate) fn store_cell(bank: &Bank, seat: &mut Seat<Blob, View>, tok: TokId, cell: u8, value: u64)
    requires of { IsOf bank.now seat.old }
    requires there { tok.0 < length bank.now.key.plans.items }
    requires held { is_exclusive (at seat.old.me.0.tokens tok.0).held ≡ true }
    requires untallied { (plan_at bank.now.key.plans.items tok.0).law ≢ Tally }
    requires inside { cell < (plan_at bank.now.key.plans.items tok.0).cells }
    ensures same { IsSame seat.old seat.new }
    ensures stores { Amid seat.old.me.0 (λ between. StoresCell between tok.0 cell seat.old.me.0 value seat.new.me.0) }
{
    let word = word_of_cell(tok, cell);
    bank.table.shared.store::<StoreCell>(seat, word, value)
}

/// Raises the cell of a Tally token to this value.
pub(crate) fn raise_cell(bank: &Bank, seat: &mut Seat<Blob, View>, tok: TokId, value: u64)
    requires of { IsOf bank.now seat.old }
    requires there { tok.0 < length bank.now.key.plans.items }
    requires held { is_exclusive (at seat.old.me.0.tokens tok.0).held ≡ true }
    requires tally { (plan_at bank.now.key.plans.items tok.0).law ≡ Tally }
    requires raised { slice_index (at seat.old.me.0.tokens tok.0).row 0 ≤ value }
    ensures same { IsSame seat.old seat.new }
    ensures raises { Amid seat.old.me.0 (λ between. RaisesCell between tok.0 0 seat.old.me.0 value seat.new.me.0) }
{
    let word = word_of_cell(tok, 0);
    bank.table.shared.store::<RaiseCell>(seat, word, value)
}

/// Reads the record of a token that is held exclusively and has one. It lies in front then.
#[inline]
pub(crate) fn read_record(bank: &Bank, seat: &mut Seat<Blob, View>, tok: TokId) -> Blob
    requires of { IsOf bank.now seat.old }
    requires there { tok.0 < length bank.now.key.plans.items }
    requires held { IsInHand seat.old.me.0 tok.0 }
    requires hands { AreHands seat.old.me.0 seat.old.me.1 }
    ensures table { seat.new.table_id ≡ seat.old.table_id }
    ensures value { (at seat.old.me.0.tokens tok.0).blob ≡ Some result }
    ensures reads { Amid seat.old.me.0 (λ between. ReadsBlob between tok.0 seat.old.me.0 seat.new.me.0) }
    ensures hands { AreHands seat.new.me.0 seat.new.me.1 }
{
    let word = word_of_cell(tok, 0);
    bank.table.shared.load::<ReadRecord>(seat, word);
    *seat.slot_mut(&bank.table.shared, tok.0 as usize)
}

/// Writes the record of a token that is held exclusively and has one, and notes what it was. It is brought to the front first,
/// by a load that is no deed, and the new one lies there when the load is made that is the deed.
#[inline]
pub(crate) fn write_record(
    bank: &Bank,
    seat: &mut Seat<Blob, View>,
    tok: TokId,
    note: &mut TokenNote,
    blob: &Blob,
)
    requires of { IsOf bank.now seat.old }
    requires there { tok.0 < length bank.now.key.plans.items }
    requires held { IsInHand seat.old.me.0 tok.0 }
    requires short { length blob.now ≤ RECORD_LIMIT }
    requires hands { AreHands seat.old.me.0 seat.old.me.1 }
    ensures table { seat.new.table_id ≡ seat.old.table_id }
    ensures notes { (old : List ℕ) × (((at seat.old.me.0.tokens tok.0).blob ≡ Some old) × Overwrites note.old note.new old blob.now) }
    ensures writes { Amid seat.old.me.0 (λ between. WritesBlob blob.now between tok.0 seat.old.me.0 seat.new.me.0) }
    ensures hands { AreHands seat.new.me.0 seat.new.me.1 }
{
    let word = word_of_cell(tok, 0);
    bank.table.shared.load::<BringRecord>(seat, word);
    note.write(seat.slot_mut(&bank.table.shared, tok.0 as usize), blob);
    bank.table.shared.exchange(seat, tok.0 as usize, *blob);
    bank.table.shared.load::<WriteRecord>(seat, word);
}
