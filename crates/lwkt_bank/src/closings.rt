//! The close: the closing values, from the words that are left and from what the seats had kept.
ghost use Rattle.std.specs.Prelude.{◌≡◌, ◌≢◌, ℕ, ◌+◌, ◌*◌, ◌^◌, ◌<◌, ◌≤◌, List, [], ◌∷◌, ◌++◌, length, All, IfOk, IfErr, false, slice_index, slice_index_or, sum_by, vec_capacity};
ghost use Rattle.std.specs.Slots.{slots_items, slots_len, slots_filled, IsFull};
ghost use Rattle.lwkt_base.specs.declared.laws.Law.TheVariants.{Tally};
ghost use Rattle.lwkt_bank.specs.Rule.{cell_word, plan_at, table_words};
ghost use Rattle.lwkt_bank.specs.Views.{RecordOf};
ghost use Rattle.lwkt_bank.specs.Closing.{shown_blob, kept_tally, kept_by, IsRead, AreRead, Left, IsReady, HasRoom, IsEmptyRoom, IsRoomFor};
ghost use Rattle.lwkt_bank.specs.Seats.{id_of, id_of_desk, cpus_of};
ghost use Rattle.lwkt_bank.specs.Gathered.{IsClosed};

use crate::banks::Bank;
use crate::blanks::Blank;
use crate::clerks::ClerkDesk;
use crate::closed::Closed;
use crate::gathers::gather;
use crate::kept::Kept;
use crate::places::{generation_in, word_of_cell, word_of_token};
use crate::rooms::{CloseRoom, put, put_blob, put_cells, put_slot, room_of};
use crate::rules::{BankRule, Key};
use crate::seats::CpuSeat;
use crate::views::{Plan, View};
use atomic_table::{Closed as ClosedTable, Seat, Table};
use lwkt_base::limits::{CELL_LIMIT, CPU_LIMIT, TOKEN_LIMIT};
use lwkt_base::{Blob, Cells, Fault, Law, OutOfMemory, TokId};
use lwkt_table::SeatKind;
use std::alloc::Global;

fn copy_words(closed: &ClosedTable<Blob, Global>, count: usize, mut words: Vec<u64>) -> Vec<u64>
    requires full { IsFull closed.now.words }
    requires count { count ≡ slots_len closed.now.words }
    requires none { words.items ≡ [] }
    requires room { count ≤ vec_capacity words }
    ensures { result.items ≡ slots_items closed.now.words }
{
    for i in 0..count {
        put(&mut words, closed.word(i));
    }
    words
}

// Takes what lies in the slots.
fn take_slots(closed: &mut ClosedTable<Blob, Global>, mut slots: Vec<Blob>) -> Vec<Blob>
    requires full { IsFull closed.old.slots }
    requires none { slots.items ≡ [] }
    requires room { slots_len closed.old.slots ≤ vec_capacity slots }
    ensures items { result.items ≡ slots_items closed.old.slots }
    ensures taken { (k : ℕ) → k < slots_len closed.new.slots → slice_index_or (slots_filled closed.new.slots) k false ≡ false }
    ensures same { (slots_len closed.new.slots ≡ slots_len closed.old.slots) × (closed.new.words ≡ closed.old.words) }
{
    for slot in 0..closed.slot_count() {
        put_slot(&mut slots, closed.take(slot));
    }
    slots
}

/// The words of a table whose clerk's seat came back with it, and what lies in its slots: those of a state of the rule that
/// has the clerk's view.
pub(crate) fn last_words(
    table: Table<Blob, View, Key, BankRule, Global>,
    clerk: Seat<Blob, View>,
    words: Vec<u64>,
    slots: Vec<Blob>,
) -> (Vec<u64>, Vec<Blob>)
    requires same { clerk.table_id ≡ table.shared.table_id }
    requires none { (words.items ≡ []) × (slots.items ≡ []) }
    requires room { (table.shared.table_id.words ≤ vec_capacity words) × (table.shared.table_id.slots ≤ vec_capacity slots) }
    ensures left { Left table.shared.key.plans.items table.shared.key.cpus clerk.id clerk.me.0 result.0.items result.1.items }
    ensures deep { length result.1.items ≡ table.shared.table_id.slots }
{
    let count = table.word_count();
    let mut closed = table.close_with(clerk);
    let words = copy_words(&closed, count, words);
    let slots = take_slots(&mut closed, slots);
    closed.free();
    (words, slots)
}

fn added_of(kept: &Kept, tok: usize, cpu: usize) -> u64
    requires { tok < TOKEN_LIMIT }
    ensures { result ≡ kept_tally tok cpu kept.now }
{
    if kept.cpu.0 as usize == cpu {
        kept.notes[tok].tally
    } else {
        0
    }
}

// What a processor has added to a token, over all that was kept.
fn added(kept: &[Kept], tok: usize, cpu: usize) -> u64
    requires room { tok < TOKEN_LIMIT }
    requires fits { sum_by (kept_tally tok cpu) kept.now < 2 ^ 64 }
    ensures { result ≡ sum_by (kept_tally tok cpu) kept.now }
{
    let mut sum = 0u64;
    for one in kept {
        sum += added_of(one, tok, cpu);
    }
    sum
}

// One number for each processor: what it has added to a Tally token.
fn tallies_of(kept: &[Kept], tok: usize, cpus: usize, mut tallies: Vec<u64>) -> Vec<u64>
    requires room { tok < TOKEN_LIMIT }
    requires fits { (cpu : ℕ) → kept_by kept.now tok cpu < 2 ^ 64 }
    requires none { tallies.items ≡ [] }
    requires wide { cpus ≤ vec_capacity tallies }
    ensures many { length result.items ≡ cpus }
    ensures each { (cpu : ℕ) → cpu < cpus → slice_index result.items cpu ≡ kept_by kept.now tok cpu }
{
    for cpu in 0..cpus {
        put(&mut tallies, added(kept, tok, cpu));
    }
    tallies
}

// The cells of a token.
fn row_of(words: &[u64], tok: usize, cells: usize, mut row: Vec<u64>) -> Vec<u64>
    requires room { tok < TOKEN_LIMIT }
    requires few { cells ≤ CELL_LIMIT }
    requires inside { cell_word tok cells ≤ length words.now }
    requires none { row.items ≡ [] }
    requires wide { cells ≤ vec_capacity row }
    ensures many { length result.items ≡ cells }
    ensures each { (cell : ℕ) → cell < cells → slice_index result.items cell ≡ slice_index words.now (cell_word tok cell) }
{
    for cell in 0..cells {
        put(&mut row, words[word_of_cell(TokId(tok as u8), cell as u8)]);
    }
    row
}

fn tallies_by_law(plan: Plan, kept: &[Kept], tok: usize, cpus: usize, tallies: Vec<u64>) -> Vec<u64>
    requires room { tok < TOKEN_LIMIT }
    requires fits { plan.law ≡ Law.Tally → (cpu : ℕ) → kept_by kept.now tok cpu < 2 ^ 64 }
    requires none { tallies.items ≡ [] }
    requires wide { cpus ≤ vec_capacity tallies }
    ensures none { plan.law ≢ Law.Tally → result.items ≡ [] }
    ensures many { plan.law ≡ Law.Tally → length result.items ≡ cpus }
    ensures each { plan.law ≡ Law.Tally → (cpu : ℕ) → cpu < cpus → slice_index result.items cpu ≡ kept_by kept.now tok cpu }
{
    if plan.law == Law::Tally {
        tallies_of(kept, tok, cpus, tallies)
    } else {
        tallies
    }
}

// The record of a token, if one was declared.
fn blob_of(plan: &Plan, slots: &[Blob], tok: usize) -> Option<Blob>
    requires { tok < length slots.now }
    ensures { result ≡ shown_blob plan.now.blob (slice_index_or slots.now tok []) }
{
    match plan.blob {
        None => None,
        Some(_) => Some(slots[tok]),
    }
}

// Adds the closing values of the next token.
fn close_token(
    closed: &mut Closed,
    plan: Plan,
    words: &[u64],
    slots: &[Blob],
    kept: &[Kept],
    cpus: usize,
    blank: Blank,
)
    requires count { length closed.old.gens.items < TOKEN_LIMIT }
    requires same { (length closed.old.rows.items ≡ length closed.old.gens.items) × (length closed.old.tallies.items ≡ length closed.old.gens.items) × (length closed.old.blobs.items ≡ length closed.old.gens.items) }
    requires deep { length closed.old.gens.items < length slots.now }
    requires room { HasRoom closed.old (length closed.old.gens.items + 1) }
    requires wide { cell_word (length closed.old.gens.items) CELL_LIMIT ≤ length words.now }
    requires short { plan.cells ≤ CELL_LIMIT }
    requires few { cpus ≤ CPU_LIMIT }
    requires fits { plan.law ≡ Law.Tally → (cpu : ℕ) → kept_by kept.now (length closed.old.gens.items) cpu < 2 ^ 64 }
    ensures read { (row : List ℕ) × (generation : ℕ) × (tallies : List ℕ) × (blob : RecordOf) × IsRead plan cpus words.now slots.now kept.now (length closed.old.gens.items) row generation tallies blob
        × (closed.new.rows.items ≡ closed.old.rows.items ++ row ∷ []) × (closed.new.gens.items ≡ closed.old.gens.items ++ generation ∷ []) × (closed.new.tallies.items ≡ closed.old.tallies.items ++ tallies ∷ []) × (closed.new.blobs.items ≡ closed.old.blobs.items ++ blob ∷ []) }
    ensures room { (tokens : ℕ) → HasRoom closed.old tokens → HasRoom closed.new tokens }
{
    let tok = closed.gens.len();
    let row = row_of(words, tok, plan.cells, blank.row);
    let tallies = tallies_by_law(plan, kept, tok, cpus, blank.tallies);
    put_cells(&mut closed.rows, Cells::from_vec(row));
    let word = words[word_of_token(TokId(tok as u8))];
    put(&mut closed.gens, generation_in(word));
    put_cells(&mut closed.tallies, Cells::from_vec(tallies));
    put_blob(&mut closed.blobs, blob_of(&plan, slots, tok));
}

fn plan_in(plans: &[Plan], tok: usize) -> Plan
    requires { tok < length plans.now }
    ensures { result ≡ plan_at plans.now tok }
{
    plans[tok]
}

// The closing values of all tokens.
fn values(
    plans: &[Plan],
    words: &[u64],
    slots: &[Blob],
    kept: &[Kept],
    cpus: usize,
    mut blanks: Vec<Blank>,
    mut closed: Closed,
) -> Closed
    requires few { length plans.now ≤ TOKEN_LIMIT }
    requires processors { cpus ≤ CPU_LIMIT }
    requires wide { length words.now ≡ table_words (length plans.now) }
    requires deep { length slots.now ≡ length plans.now }
    requires short { (tok : ℕ) → (plan_at plans.now tok).cells ≤ CELL_LIMIT }
    requires fits { ((k : ℕ) → slice_index words.now k < 2 ^ 64) → (tok : ℕ) → tok < length plans.now → (plan_at plans.now tok).law ≡ Law.Tally → (cpu : ℕ) → kept_by kept.now tok cpu < 2 ^ 64 }
    requires blank { length blanks.items ≡ length plans.now }
    requires room { IsEmptyRoom closed (length plans.now) }
    ensures { AreRead plans.now cpus words.now slots.now kept.now result (length plans.now) }
{
    while let Some(blank) = blanks.pop() {
        let plan = plan_in(plans, closed.gens.len());
        close_token(&mut closed, plan, words, slots, kept, cpus, blank);
    }
    closed
}

impl ClerkDesk {
    fn close_seats(self, room: CloseRoom, seats: Vec<CpuSeat>) -> Closed
        requires ready { All (IsReady (id_of_desk self)) seats.items }
        requires all { length seats.items ≡ self.key.cpus }
        requires desk { (made : ℕ) × (self.clerk.me.0.kind ≡ SeatKind.Clerk made 0) }
        requires room { IsRoomFor (id_of_desk self) self.key.cpus room }
        ensures { IsClosed (id_of_desk self) self.key.cpus seats.items result }
    {
        let CloseRoom {
            mut kept,
            words,
            slots,
            blanks,
            closed,
        } = room;
        let ClerkDesk {
            table,
            mut clerk,
            key,
        } = self;
        gather(&table, &mut clerk, seats, &mut kept);
        let (words, slots) = last_words(table, clerk, words, slots);
        values(
            key.plans.as_slice(),
            words.as_slice(),
            slots.as_slice(),
            kept.as_slice(),
            key.cpus,
            blanks,
            closed,
        )
    }
}

impl Bank {
    ghost use Rattle.lwkt_base.specs.Fault.{no_memory};

    /// Room for the close of this bank: all that `close_in` takes.
    pub fn room(&self, alloc: Global) -> Result<CloseRoom, OutOfMemory>
        ensures { IfOk result (λ room. IsRoomFor (id_of self.now) (cpus_of self.now) room) }
    {
        room_of(
            alloc,
            self.key.plans.len(),
            self.key.cpus,
            self.table.word_count(),
            self.table.slot_count(),
        )
    }

    /// Closes the bank as `close` does, in room that was made before. It takes no memory, so it can't fail.
    pub fn close_in(self, room: CloseRoom, seats: Vec<CpuSeat>) -> Closed
        requires ready { All (IsReady (id_of self)) seats.items }
        requires all { length seats.items ≡ cpus_of self }
        requires room { IsRoomFor (id_of self) (cpus_of self) room }
        ensures { IsClosed (id_of self) (cpus_of self) seats.items result }
    {
        let desk = self.into_desk();
        desk.close_seats(room, seats)
    }

    /// Closes the bank, with all its seats, in any order. That there are as many as processors, all of this bank, and that
    /// each holds nothing is the caller's condition. What each seat knew of a token stands: the closing generation isn't
    /// below the one that it last saw, and if it is that one, the row has each cell that it knew. All memory is taken before
    /// the first seat is taken back. Refused with `Memory` only if an allocation is; the bank is then given up.
    pub fn close(self, alloc: Global, seats: Vec<CpuSeat>) -> Result<Closed, Fault>
        requires ready { All (IsReady (id_of self)) seats.items }
        requires all { length seats.items ≡ cpus_of self }
        ensures ok { IfOk result (λ closed. IsClosed (id_of self) (cpus_of self) seats.items closed) }
        ensures only { IfErr result (λ f. f ≡ no_memory) }
    {
        let room = self.room(alloc)?;
        Ok(self.close_in(room, seats))
    }
}
