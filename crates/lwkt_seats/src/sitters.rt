//! A seat with its bank, as it rests between calls, and what the calls do to it.
ghost use Rattle.std.specs.Prelude.{◌≡◌, ◌≢◌, true, false};
ghost use Rattle.std.specs.Arc.{arc_value};
ghost use Rattle.std.proofs.Props.{props};
ghost use Rattle.lwkt_bank.specs.Seats.{id_of, bank_of, references};
ghost use Rattle.lwkt_seats.specs.Brief.{AreBrief};

use crate::answers::{
    Added, Asked, Furthered, GaveBack, Judged, Loaded, Marked, RecordRead, RecordWritten,
    RowRestored, Stored,
};
use crate::list_answers::Resumed;
use crate::references::LwktReference;
use crate::{asks, blocks, cells, records, resumes};
use lwkt_bank::{Bank, CpuSeat};
use lwkt_base::{Mode, TokId};
use std::sync::Arc;

/// A seat, and the bank that it is of.
#[derive(Drop)]
pub struct Sitter {
    /// The seat.
    pub seat: CpuSeat,
    /// Its bank.
    pub bank: Arc<Bank>,
    /// How many references the seat has.
    pub count: usize,
    ghost of: { bank_of seat ≡ id_of (arc_value bank) },
    ghost counted: { count ≡ references seat },
    ghost brief: { AreBrief seat } by { Prim.hlevel props },
}

impl Sitter {
    ghost use Rattle.lwkt_base.specs.declared.names.Mode.TheVariants.{Exclusive, Shared};
    ghost use Rattle.lwkt_seats.specs.Asks.{AsksFor, Furthers, MarksToken, GivesToken};
    ghost use Rattle.lwkt_base.specs.Holding.{is_held};
    ghost use Rattle.lwkt_bank.specs.Seats.{holding};
    ghost use Rattle.lwkt_seats.specs.Calls.{TakesAndLoads, StoresAndGives};
    ghost use Rattle.lwkt_seats.specs.Cells.{HasCell, Loads, StoresInCell, AddsToCell, JudgesToken, Restores};
    ghost use Rattle.lwkt_seats.specs.Records.{ReadsBytes, WritesBytes};
    ghost use Rattle.lwkt_seats.specs.Lists.{ResumesSeat, BlocksSeat};
    ghost use Rattle.lwkt_seats.specs.Seated.{StaysSeated};

    /// Asks for a reference in this mode: a first one, or a further one where the seat holds the token.
    #[inline(always)]
    pub(crate) fn ask(&mut self, token: u32, mode: Mode) -> Asked
        ensures does { AsksFor mode token self.old.seat self.new.seat result }
        ensures same { StaysSeated self.old self.new }
    {
        let asked = asks::ask(&mut self.seat, &self.bank, self.count, token, mode);
        asked.count_in(&mut self.count);
        asked
    }

    /// One reference more of a token that the seat holds.
    pub(crate) fn further(&mut self, token: u32) -> Furthered
        ensures does { Furthers token self.old.seat self.new.seat result }
        ensures same { StaysSeated self.old self.new }
    {
        let furthered = asks::further(&mut self.seat, &self.bank, self.count, token);
        furthered.count_in(&mut self.count);
        furthered
    }

    /// Marks a token for an exclusive request.
    pub(crate) fn mark(&mut self, token: u32) -> Marked
        ensures does { MarksToken token self.old.seat self.new.seat result }
        ensures same { StaysSeated self.old self.new }
    {
        asks::mark(&mut self.seat, &self.bank, token)
    }

    /// Gives a reference back. A section that would end and has broken its law goes on.
    #[inline(always)]
    pub(crate) fn give(&mut self, token: u32) -> GaveBack
        ensures does { GivesToken token self.old.seat self.new.seat result }
        ensures same { StaysSeated self.old self.new }
    {
        let gave = asks::give(&mut self.seat, &self.bank, token);
        gave.count_in(&mut self.count);
        gave
    }

    /// Gives back the one reference of an exclusive holder who has written nothing, to a token whose law asks nothing. Whether it is so:
    /// else all stays as it is.
    #[inline(always)]
    pub(crate) fn give_quietly(&mut self, token: u32) -> bool
        ensures gives { result ≡ true → GivesToken token self.old.seat self.new.seat GaveBack.Given }
        ensures kept { result ≡ false → self.new.seat ≡ self.old.seat }
        ensures same { StaysSeated self.old self.new }
    {
        if !asks::give_quietly(&mut self.seat, &self.bank, token) {
            return false;
        }
        self.count -= 1;
        true
    }

    /// The value of a cell.
    pub(crate) fn load(&mut self, token: u32, cell: u32) -> Loaded
        ensures does { Loads token cell self.old.seat self.new.seat result }
        ensures same { StaysSeated self.old self.new }
    {
        cells::load(&mut self.seat, &self.bank, token, cell)
    }

    // The value of a cell that is there, of a token that the seat holds.
    #[inline(always)]
    fn load_held(&mut self, tok: TokId, cell: u8) -> u64
        requires there { HasCell self.old.seat tok.0 cell }
        requires held { is_held (holding self.old.seat tok.0) ≡ true }
        ensures does { Loads tok.0 cell self.old.seat self.new.seat (Loaded.Value result) }
        ensures same { StaysSeated self.old self.new }
    {
        self.seat.load(&self.bank, tok, cell)
    }

    /// Stores a value in a cell.
    #[inline(always)]
    pub(crate) fn store(&mut self, token: u32, cell: u32, value: u64) -> Stored
        ensures does { StoresInCell token cell value self.old.seat self.new.seat result }
        ensures same { StaysSeated self.old self.new }
    {
        cells::store(&mut self.seat, &self.bank, token, cell, value)
    }

    /// Asks for an exclusive reference, and loads a cell, which is looked up first. It answers the number of what comes of it.
    #[inline(always)]
    pub(crate) fn take_load(&mut self, token: u32, cell: u32, value: &mut u64) -> u32
        ensures does { TakesAndLoads token cell value.old value.new self.old.seat self.new.seat result }
        ensures same { StaysSeated self.old self.new }
        ensures kept { result ≢ 0 → value.new ≡ value.old }
    {
        let (tok, place) = match cells::find(&self.seat, &self.bank, token, cell) {
            Ok(found) => found,
            Err(lack) => return lack.number(),
        };
        let asked = self.ask(token, Mode::Exclusive).number();
        if asked != 0 {
            return asked;
        }
        *value = self.load_held(tok, place);
        0
    }

    /// Stores a value in a cell, and if it is stored gives a reference back. It answers the number of what comes of it.
    #[inline(always)]
    pub(crate) fn store_give(&mut self, token: u32, cell: u32, value: u64) -> u32
        ensures does { StoresAndGives token cell value self.old.seat self.new.seat result }
        ensures same { StaysSeated self.old self.new }
    {
        let stored = self.store(token, cell, value).number();
        if stored != 0 {
            return stored;
        }
        self.give(token).number()
    }

    /// Adds to the cell of a Tally token.
    pub(crate) fn add(&mut self, token: u32, amount: u64) -> Added
        ensures does { AddsToCell token amount self.old.seat self.new.seat result }
        ensures same { StaysSeated self.old self.new }
    {
        cells::add(&mut self.seat, &self.bank, token, amount)
    }

    /// Whether row and record obey the law.
    pub(crate) fn judge(&mut self, token: u32) -> Judged
        ensures does { JudgesToken token self.old.seat self.new.seat result }
        ensures same { StaysSeated self.old self.new }
    {
        cells::judge(&mut self.seat, &self.bank, token)
    }

    /// Stores the section's first row and record again.
    pub(crate) fn restore(&mut self, token: u32) -> RowRestored
        ensures does { Restores token self.old.seat self.new.seat result }
        ensures same { StaysSeated self.old self.new }
    {
        cells::restore(&mut self.seat, &self.bank, token)
    }

    /// The record.
    pub(crate) fn read(&mut self, token: u32) -> RecordRead
        ensures does { ReadsBytes token self.old.seat self.new.seat result }
        ensures same { StaysSeated self.old self.new }
    {
        records::read(&mut self.seat, &self.bank, token)
    }

    /// Writes the record.
    pub(crate) fn write(&mut self, token: u32, bytes: &[u8]) -> RecordWritten
        ensures does { WritesBytes token bytes.now self.old.seat self.new.seat result }
        ensures same { StaysSeated self.old self.new }
    {
        records::write(&mut self.seat, &self.bank, token, bytes)
    }

    /// Takes a list of references for a seat that holds nothing.
    pub(crate) fn resume(&mut self, refs: &[LwktReference]) -> Resumed
        ensures does { ResumesSeat refs.now self.old.seat self.new.seat result }
        ensures same { StaysSeated self.old self.new }
    {
        let resumed = resumes::resume(&mut self.seat, &self.bank, self.count, refs);
        self.count = asks::count(&self.seat, &self.bank);
        resumed
    }

    /// Gives up all that the seat holds, token by token. The first one whose row and record broke its law is named: they were restored.
    pub(crate) fn block(&mut self) -> Option<TokId>
        ensures does { BlocksSeat self.old.seat self.new.seat result }
        ensures same { StaysSeated self.old self.new }
    {
        let first = blocks::block(&mut self.seat, &self.bank);
        self.count = 0;
        first
    }
}
