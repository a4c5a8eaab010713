//! The clerk of a bank: it makes the seats.
ghost use Rattle.std.specs.Prelude.{◌≡◌, ◌⊎◌, ◌↔◌, ℕ, ◌+◌, ◌<◌, ◌≤◌, [], ◌∷◌, length, IfOk, IfErr, OnOk, Err, Some, replicate};
ghost use Rattle.lwkt_core.specs.Opening.{AreWithin, AllOpenLawfully};
ghost use Rattle.lwkt_bank.specs.Notes.{no_note};
ghost use Rattle.lwkt_bank.specs.Views.{blank, clerk_after, new_seat};
ghost use Rattle.lwkt_bank.specs.Opened.{plans_of, opening_words, opening_slots};
ghost use Rattle.lwkt_bank.specs.Seats.{id_of_desk, bank_of};
ghost use Rattle.lwkt_bank.specs.Gathered.{HasMade, IsNew, AreHandedOut, IsOpened};

use crate::banks::Bank;
use crate::clerks::ClerkDesk;
use crate::first_tables;
use crate::notes::TokenNote;
use crate::plays::HandOut;
use crate::rules::{BankRule, Key};
use crate::seats::CpuSeat;
use crate::views::View;
use atomic_table::{Seat, Table};
use lwkt_base::limits::{CPU_LIMIT, TOKEN_LIMIT};
use lwkt_base::memory::{push, table as open_table, with_capacity};
use lwkt_base::{Blob, CpuId, Fault, OutOfMemory, TokSpec};
use lwkt_core::all_open_lawfully;
use lwkt_table::SeatKind;
use std::alloc::Global;

// What a seat keeps at the opening.
fn blank_notes() -> [TokenNote; 64]
    ensures { result ≡ replicate TOKEN_LIMIT no_note }
{
    [TokenNote::blank(); 64]
}

// The clerk makes a seat.
fn split(
    table: &Table<Blob, View, Key, BankRule, Global>,
    clerk: &mut Seat<Blob, View>,
    cpu: CpuId,
) -> Seat<Blob, View>
    requires same { clerk.old.table_id ≡ table.now.shared.table_id }
    requires words { 0 < table.now.shared.table_id.words }
    requires next { clerk.old.me.0.kind ≡ SeatKind.Clerk cpu.0 0 }
    requires room { cpu.0 < table.now.shared.key.cpus }
    ensures clerk { (clerk.new.table_id ≡ clerk.old.table_id) × (clerk.new.me ≡ (clerk_after clerk.old.me.0, clerk.old.me.1)) }
    ensures seat { (result.table_id ≡ clerk.old.table_id) × (result.me ≡ (new_seat clerk.old.me.0, [])) }
{
    table.shared.split_seat::<HandOut>(clerk)
}

impl ClerkDesk {
    // A bank of these tokens whose clerk hasn't made a seat yet.
    fn with_key(
        alloc: Global,
        specs: &[TokSpec],
        words: &[u64],
        slots: Vec<Blob>,
        key: Key,
    ) -> Result<ClerkDesk, OutOfMemory>
        requires within { AreWithin key.cpus specs.now [] }
        requires lawful { AllOpenLawfully specs.now }
        requires plans { key.plans.items ≡ plans_of specs.now }
        requires words { words.now ≡ opening_words specs.now }
        requires slots { slots.items ≡ opening_slots specs.now }
        ensures { IfOk result (λ desk. (desk.key ≡ key) × HasMade desk 0) }
    {
        let (table, clerk) = open_table(alloc, words, slots, &key)?;
        Ok(ClerkDesk { table, clerk, key })
    }

    // The seat of the next processor.
    fn hand_out(&mut self, cpu: CpuId) -> CpuSeat
        requires next { HasMade self.old cpu.0 }
        requires room { cpu.0 < self.old.key.cpus }
        ensures made { HasMade self.new (cpu.0 + 1) }
        ensures same { id_of_desk self.new ≡ id_of_desk self.old }
        ensures key { self.new.key ≡ self.old.key }
        ensures seat { (bank_of result ≡ id_of_desk self.old) × IsNew result × (result.cpu ≡ cpu) }
    {
        let seat = split(&self.table, &mut self.clerk, cpu);
        let notes = blank_notes();
        CpuSeat { notes, seat, cpu }
    }

    // Makes the seats of all processors.
    fn hand_out_all(&mut self, seats: &mut Vec<CpuSeat>) -> Result<(), OutOfMemory>
        requires next { HasMade self.old 0 }
        requires limit { self.old.key.cpus ≤ CPU_LIMIT }
        requires none { seats.old.items ≡ [] }
        ensures out { OnOk result ((length seats.new.items ≡ self.old.key.cpus) × AreHandedOut (id_of_desk self.old) seats.new.items) }
        ensures same { id_of_desk self.new ≡ id_of_desk self.old }
        ensures key { self.new.key ≡ self.old.key }
    {
        for cpu in 0..self.key.cpus {
            let seat = self.hand_out(CpuId(cpu as u8));
            push(seats, seat)?;
        }
        Ok(())
    }
}

impl Bank {
    ghost use Rattle.lwkt_base.specs.Fault.{no_memory};

    fn open_within(
        alloc: Global,
        specs: &[TokSpec],
        words: &[u64],
        slots: Vec<Blob>,
        key: Key,
        mut seats: Vec<CpuSeat>,
    ) -> Result<(Bank, Vec<CpuSeat>), OutOfMemory>
        requires within { AreWithin key.cpus specs.now [] }
        requires lawful { AllOpenLawfully specs.now }
        requires plans { key.plans.items ≡ plans_of specs.now }
        requires words { words.now ≡ opening_words specs.now }
        requires slots { slots.items ≡ opening_slots specs.now }
        requires none { seats.items ≡ [] }
        ensures { IfOk result (λ opened. IsOpened key.cpus specs.now opened.0 opened.1.items) }
    {
        let mut desk = ClerkDesk::with_key(alloc, specs, words, slots, key)?;
        desk.hand_out_all(&mut seats)?;
        Ok((desk.into_bank(), seats))
    }

    /// Opens a bank of these tokens, with a seat for each processor.
    ///
    /// Refused with `Limits` exactly if a limit is passed: 1 to 8 processors, at most 64 tokens, at most 4 cells and exactly
    /// 1 under `Law::Tally`, a generation past the last, a record of more than 64 bytes, `Law::Len` without a record or a cell,
    /// or `Law::Tally` with a record; else with `LawBroken` exactly if an opening row, with its record's length, breaks its
    /// law; else with `Memory` only if an allocation is. No memory is asked for before.
    pub fn open(
        alloc: Global,
        specs: &[TokSpec],
        cpus: usize,
    ) -> Result<(Bank, Vec<CpuSeat>), Fault>
        ensures ok { IfOk result (λ opened. IsOpened cpus specs.now opened.0 opened.1.items) }
        ensures within { OnOk result (AreWithin cpus specs.now [] × AllOpenLawfully specs.now) }
        ensures limits { result ≡ Err Fault.Limits → ¬ AreWithin cpus specs.now [] }
        ensures each_limit { (¬ AreWithin cpus specs.now []) → result ≡ Err Fault.Limits }
        ensures broken { result ≡ Err Fault.LawBroken → AreWithin cpus specs.now [] × ¬ AllOpenLawfully specs.now }
        ensures each_law { AreWithin cpus specs.now [] → (¬ AllOpenLawfully specs.now) → result ≡ Err Fault.LawBroken }
        ensures only { IfErr result (λ f. (f ≡ no_memory) ⊎ ((f ≡ Fault.Limits) ⊎ (f ≡ Fault.LawBroken))) }
    {
        if !first_tables::are_within(cpus, specs) {
            return Err(Fault::Limits);
        }
        if !all_open_lawfully(specs) {
            return Err(Fault::LawBroken);
        }
        let seats = with_capacity(alloc, 8)?;
        let plans = first_tables::plans_of(alloc, specs)?;
        let words = first_tables::words_of(alloc, specs)?;
        let slots = first_tables::slots_of(alloc, specs)?;
        let key = Key { plans, cpus };
        Ok(Bank::open_within(alloc, specs, words.as_slice(), slots, key, seats)?)
    }
}
