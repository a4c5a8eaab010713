ghost use Rattle.std.specs.Prelude.{◌≡◌, ◌↔◌, ℕ, ◌+◌, true, ◌<◌, ◌≤◌, ◌^◌, ◌-◌, length, slice_index, IsTrue, Some, slice_get, option_and_then};

use crate::events::Event;
use lwkt_base::blobs::{are_same, length_of};
use lwkt_base::limits::{CPU_LIMIT, LAST_GENERATION, RECORD_LIMIT};
use lwkt_base::{Blob, Cells, CpuId, Held, Law, Mode, Section, TokId};

/// One token of the model: what is declared of it, and its state.
#[derive(Drop)]
pub struct Token {
    /// The law that the token declares.
    pub law: Law,
    /// The law's parameter.
    pub param: u64,
    /// The opening generation plus the written sections: 0 to `LAST_GENERATION`.
    pub generation: u64,
    /// Whether an exclusive request is waiting.
    pub mark: bool,
    /// The cells.
    pub row: Cells,
    /// The cells at the beginning of the section, or as they are where nobody holds the token exclusively.
    pub first: Cells,
    /// The record, of at most 64 bytes, if the token has one: always or never.
    pub blob: Option<Blob>,
    /// The record at the beginning of the section, or as it is where nobody holds the token exclusively.
    pub first_blob: Option<Blob>,
    /// What each processor holds of the token.
    pub holders: [Held; 8],
    /// What each processor has added to the cell of a Tally token.
    pub tallies: [u64; 8],
}

impl Token {
    ghost use Rattle.lwkt_base.specs.Law.{IsTallied};
    ghost use Rattle.lwkt_base.specs.Holding.{references_in, is_held, is_exclusive};
    ghost use Rattle.lwkt_core.specs.Tokens.{held_by, IsFree, IsOpen, IsHolder, IsExclusiveHolder, IsNotLastExclusive, MayWrite, HasRecord, IsClean, IsLawful, section_at, TokenNeeds, IsSafeToken, token_after, tallies_after, with_more, with_less};
    ghost use Rattle.lwkt_core.specs.Events.{cpu_of, adds_reference};
    ghost use Rattle.lwkt_core.specs.Values.{kept_tallies};

    /// What a processor holds of the token.
    pub fn held_by(&self, cpu: CpuId) -> Held
        ensures { result ≡ held_by self.now cpu.0 }
    {
        self.holders
            .get(cpu.0 as usize)
            .copied()
            .unwrap_or(Held::Nothing)
    }

    /// What a processor has added to the cell, if the token keeps tallies.
    pub fn tally(&self, cpu: CpuId) -> Option<u64>
        ensures { result ≡ option_and_then (λ tallies. slice_get tallies cpu.0) (kept_tallies self.now.law self.now.tallies) }
    {
        match self.law {
            Law::Tally => self.tallies.get(cpu.0 as usize).copied(),
            _ => None,
        }
    }

    /// Whether nobody holds the token.
    pub fn is_free(&self) -> bool
        ensures { IsTrue result ↔ IsFree self.now }
    {
        self.holders.iter().all(|held| !held.is_held())
    }

    /// Whether nobody holds the token exclusively.
    pub fn is_open(&self) -> bool
        ensures { IsTrue result ↔ IsOpen self.now }
    {
        self.holders.iter().all(|held| !held.is_exclusive())
    }

    // Whether the row is that of the beginning of the section.
    pub(crate) fn has_first_row(&self) -> bool
        ensures { IsTrue result ↔ (self.now.row ≡ self.now.first) }
    {
        self.row.as_slice() == self.first.as_slice()
    }

    // Whether the record is that of the beginning of the section.
    pub(crate) fn has_first_blob(&self) -> bool
        ensures { IsTrue result ↔ (self.now.blob ≡ self.now.first_blob) }
    {
        are_same(&self.blob, &self.first_blob)
    }

    // Whether row and record are those of the beginning of the section.
    pub(crate) fn is_clean(&self) -> bool
        ensures { IsTrue result ↔ IsClean self.now }
    {
        self.has_first_row() && self.has_first_blob()
    }

    // Whether the row and the length of the record obey the law of a section.
    pub(crate) fn is_lawful(&self) -> bool
        ensures { IsTrue result ↔ IsLawful self.now }
    {
        self.law
            .holds_of_section(self.row.as_slice(), self.param, length_of(&self.blob))
    }

    // Whether the token has a record.
    pub(crate) fn has_record(&self) -> bool
        ensures { IsTrue result ↔ HasRecord self.now }
    {
        self.blob.is_some()
    }

    // Whether the token has this record.
    pub(crate) fn has_blob(&self, blob: &Blob) -> bool
        ensures { IsTrue result ↔ (self.now.blob ≡ Some blob.now) }
    {
        are_same(&self.blob, &Some(*blob))
    }

    // Whether the token has a record, and this one may take its place.
    fn may_store_blob(&self, blob: &Blob) -> bool
        ensures { IsTrue result ↔ (HasRecord self.now × (length blob.now ≤ RECORD_LIMIT)) }
    {
        self.has_record() && blob.len() <= 64
    }

    // Whether the processor holds exactly one reference, an exclusive one.
    pub(crate) fn is_last_exclusive(&self, cpu: CpuId) -> bool
        ensures { IsTrue result ↔ (held_by self.now cpu.0 ≡ Held.Holds Mode.Exclusive 0) }
    {
        matches!(self.held_by(cpu), Held::Holds(Mode::Exclusive, 0))
    }

    // Whether a reference can be given back that doesn't end an exclusive holding.
    pub(crate) fn may_give_one(&self, cpu: CpuId) -> bool
        ensures { IsTrue result ↔ IsNotLastExclusive (held_by self.now cpu.0) }
    {
        match self.held_by(cpu) {
            Held::Nothing => false,
            Held::Holds(Mode::Shared, _) => true,
            Held::Holds(Mode::Exclusive, further) => further > 0,
        }
    }

    // Whether the cell exists and has this value.
    pub(crate) fn has_value(&self, cell: u8, value: u64) -> bool
        ensures { IsTrue result ↔ (slice_get self.now.row cell ≡ Some value) }
    {
        self.row.as_slice().get(cell as usize).copied() == Some(value)
    }

    // Whether the cell exists and the law lets this value be stored in it.
    pub(crate) fn may_store(&self, cell: u8, value: u64) -> bool
        ensures { IsTrue result ↔ ((cell < length self.now.row) × MayWrite self.now.law (slice_index self.now.row cell) value) }
    {
        match self.row.as_slice().get(cell as usize).copied() {
            None => false,
            Some(old) => self.law != Law::Tally || old <= value,
        }
    }

    // Whether the section is that of this number's token that would end now.
    pub(crate) fn has_section(&self, tok: TokId, section: &Section) -> bool
        ensures { IsTrue result ↔ (section.now ≡ section_at tok self.now) }
    {
        section.tok == tok
            && section.generation == self.generation
            && section.before.as_slice() == self.first.as_slice()
            && section.after.as_slice() == self.row.as_slice()
    }

    // Whether an exclusive holder of one reference may end its section as a written one, and it is this section.
    fn may_give_written(&self, cpu: CpuId, tok: TokId, section: &Section) -> bool
        ensures { IsTrue result ↔ TokenNeeds self.now (Event.GiveWritten cpu tok section.now) }
    {
        self.is_last_exclusive(cpu)
            && !self.is_clean()
            && self.is_lawful()
            && self.has_section(tok, section)
    }

    /// Whether the event can happen to the token.
    pub fn allows(&self, event: &Event) -> bool
        ensures { IsTrue result ↔ TokenNeeds self.now event.now }
    {
        match *event {
            Event::Load { .. } | Event::Mark { .. } => true,
            Event::Take { .. } => self.is_free() && self.generation < LAST_GENERATION,
            Event::Share { cpu, .. } => self.is_open() && !self.held_by(cpu).is_held(),
            Event::Again { cpu, .. } => self.held_by(cpu).is_held(),
            Event::GiveOne { cpu, .. } => self.may_give_one(cpu),
            Event::GiveClean { cpu, .. } => self.is_last_exclusive(cpu) && self.is_clean(),
            Event::GiveWritten { cpu, tok, section } => self.may_give_written(cpu, tok, &section),
            Event::Read {
                cpu,
                cell,
                value,
                ..
            } => self.held_by(cpu).is_held() && self.has_value(cell, value),
            Event::Write {
                cpu,
                cell,
                value,
                ..
            } => self.held_by(cpu).is_exclusive() && self.may_store(cell, value),
            Event::ReadBlob { cpu, blob, .. } => {
                self.held_by(cpu).is_exclusive() && self.has_blob(&blob)
            }
            Event::WriteBlob { cpu, blob, .. } => {
                self.held_by(cpu).is_exclusive() && self.may_store_blob(&blob)
            }
            _ => false,
        }
    }

    // Adds a reference of the processor.
    fn add_reference(&mut self, cpu: CpuId, mode: Mode)
        requires exists { cpu.0 < CPU_LIMIT }
        requires few { references_in (held_by self.old cpu.0) < 2 ^ 8 }
        ensures { self.new ≡ with_more self.old cpu.0 mode }
    {
        let held = self.held_by(cpu);
        self.holders[cpu.0 as usize] = held.one_more(mode);
    }

    // Gives back a reference of the processor.
    fn give_reference(&mut self, cpu: CpuId)
        requires { cpu.0 < CPU_LIMIT }
        ensures { self.new ≡ with_less self.old cpu.0 }
    {
        let held = self.held_by(cpu);
        self.holders[cpu.0 as usize] = held.one_less();
    }

    // Ends a section as a written one.
    fn end_written(&mut self, cpu: CpuId)
        requires exists { cpu.0 < CPU_LIMIT }
        requires in_range { self.old.generation < LAST_GENERATION }
        requires same_cells { length self.old.first ≡ length self.old.row }
        ensures { self.new ≡ record (with_less self.old cpu.0) { generation = self.old.generation + 1; first = self.old.row; first_blob = self.old.blob } }
    {
        self.give_reference(cpu);
        self.generation += 1;
        self.first.copy_from(&self.row);
        self.first_blob = self.blob;
    }

    // Adds to what the processor has added, if the token keeps tallies.
    fn add_to_tally(&mut self, cpu: CpuId, raised: u64)
        requires exists { cpu.0 < CPU_LIMIT }
        requires fits { self.old.law ≡ Law.Tally → slice_index self.old.tallies cpu.0 + raised < 2 ^ 64 }
        ensures { self.new ≡ record self.old { tallies = tallies_after self.old.law self.old.tallies cpu.0 raised } }
    {
        if self.law == Law::Tally {
            self.tallies[cpu.0 as usize] += raised;
        }
    }

    // Stores a value in a cell, and notes by how much it was raised.
    fn store(&mut self, cpu: CpuId, cell: u8, value: u64)
        requires exists { cpu.0 < CPU_LIMIT }
        requires inside { cell < length self.old.row }
        requires raises { self.old.law ≡ Law.Tally → slice_index self.old.row cell ≤ value }
        requires tallied { IsTallied self.old.law self.old.param self.old.row self.old.tallies }
        ensures { self.new ≡ token_after self.old (Event.Write cpu (record { 0 = 0 }) cell value) }
    {
        let old = self.row.as_slice()[cell as usize];
        self.row.set(cell as usize, value);
        self.add_to_tally(cpu, value.saturating_sub(old));
    }

    /// Makes the event happen to the token.
    pub fn apply(&mut self, event: &Event)
        requires exists { cpu_of event.now < CPU_LIMIT }
        requires allowed { TokenNeeds self.old event.now }
        requires safe { (cpus : ℕ) × IsSafeToken cpus self.old }
        requires few { adds_reference event.now ≡ true → references_in (held_by self.old (cpu_of event.now)) < 2 ^ 8 }
        ensures { self.new ≡ token_after self.old event.now }
    {
        match *event {
            Event::Take { cpu, .. } => {
                self.add_reference(cpu, Mode::Exclusive);
                self.mark = false;
            }
            Event::Share { cpu, .. } | Event::Again { cpu, .. } => {
                self.add_reference(cpu, Mode::Shared)
            }
            Event::Mark { .. } => self.mark = true,
            Event::GiveOne { cpu, .. } | Event::GiveClean { cpu, .. } => self.give_reference(cpu),
            Event::GiveWritten { cpu, .. } => self.end_written(cpu),
            Event::Write {
                cpu,
                cell,
                value,
                ..
            } => self.store(cpu, cell, value),
            Event::WriteBlob { blob, .. } => self.blob = Some(blob),
            _ => {}
        }
    }
}
