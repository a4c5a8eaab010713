//! The cells of a token on the list: read, written, added to.
ghost use Rattle.std.specs.Prelude.{◌≡◌, ◌+◌, ◌<◌, Some, None, OnOk, OnErr, IfOk, slice_index};
ghost use Rattle.std.specs.Result.{result_err};
ghost use Rattle.lwkt_base.specs.Holding.{holding_of};
ghost use Rattle.lwkt_base.specs.Refs.{first_mode};
ghost use Rattle.lwkt_bank.specs.Seats.{id_of, bank_of, tokens_of, holding};
ghost use Rattle.lwkt_hold.specs.Ready.{IsReady};
ghost use Rattle.lwkt_hold.specs.Refusals.{unless_exclusive, read_refusal, write_refusal, add_refusal};
ghost use Rattle.lwkt_hold.specs.Outcomes.{Keeps, Reads, Writes, ChangesNothing};

use crate::holds::Hold;
use crate::traces::{note_read, note_write};
use lwkt_bank::Bank;
use lwkt_base::{Fault, Held, Mode, TokId, TokList};
use lwkt_core::Event;
use lwkt_core::events::CALL_EVENTS;

impl Hold {
    ghost use Rattle.lwkt_hold.specs.Holds.{seat_of};
    ghost use Rattle.lwkt_hold.specs.Rows.{row};

    // The mode of the first reference to the token on the list that is held, if there is one: the seat knows it at once.
    #[inline(always)]
    pub(crate) fn mode(&self, bank: &Bank, list: &TokList, tok: TokId) -> Option<Mode>
        requires of { bank_of (seat_of self.now) ≡ id_of bank.now }
        requires there { tok.0 < tokens_of (bank_of (seat_of self.now)) }
        requires held { holding (seat_of self.now) ≡ holding_of list.now }
        ensures { result ≡ first_mode list.now tok.0 }
    {
        let _ = list;
        match self.seat.held(bank, tok) {
            Held::Nothing => None,
            Held::Holds(mode, _) => Some(mode),
        }
    }

    // Refused with `NotHeld` if the token isn't on the list that is held, else with `SharedWrite` if it is held shared.
    #[inline(always)]
    fn may_write(&self, bank: &Bank, list: &TokList, tok: TokId) -> Result<(), Fault>
        requires of { bank_of (seat_of self.now) ≡ id_of bank.now }
        requires there { tok.0 < tokens_of (bank_of (seat_of self.now)) }
        requires held { holding (seat_of self.now) ≡ holding_of list.now }
        ensures ok { OnOk result (first_mode list.now tok.0 ≡ Some Mode.Exclusive) }
        ensures refused { result_err result ≡ unless_exclusive (first_mode list.now tok.0) Fault.SharedWrite None }
    {
        match self.mode(bank, list, tok) {
            None => Err(Fault::NotHeld),
            Some(Mode::Shared) => Err(Fault::SharedWrite),
            Some(Mode::Exclusive) => Ok(()),
        }
    }

    /// Reads a cell of a token on the list. That the holding is the list's and that the trace has room for 256 events are
    /// the caller's conditions.
    ///
    /// Refused with `NoToken` exactly if there is no such token, else with `NoCell` exactly if it has no such cell, else
    /// with `NotHeld` exactly if it isn't on the list.
    #[inline]
    pub fn read(
        &mut self,
        bank: &Bank,
        list: &TokList,
        tok: TokId,
        cell: u8,
        trace: &mut Vec<Event>,
    ) -> Result<u64, Fault>
        requires { IsReady (id_of bank.now) (seat_of self.old) list.now trace.old CALL_EVENTS }
        ensures keeps { Keeps list.now (seat_of self.old) (seat_of self.new) trace.old trace.new }
        ensures refused { result_err result ≡ read_refusal (id_of bank.now) list.now tok.0 cell }
        ensures ok { IfOk result (λ value. Reads (seat_of self.old) (seat_of self.new) tok cell value trace.old trace.new) }
        ensures err { OnErr result ((trace.new ≡ trace.old) × (self.new ≡ self.old)) }
    {
        if tok.0 as usize >= bank.tokens() {
            return Err(Fault::NoToken);
        }
        if cell as usize >= bank.cells(tok) {
            return Err(Fault::NoCell);
        }
        if self.mode(bank, list, tok).is_none() {
            return Err(Fault::NotHeld);
        }
        let cpu = self.seat.cpu();
        let value = self.seat.load(bank, tok, cell);
        note_read(trace, cpu, tok, cell, value);
        Ok(value)
    }

    /// Stores a value in a cell of a token that the list holds exclusively. That the holding is the list's and that the
    /// trace has room for 256 events are the caller's conditions.
    ///
    /// Refused with `NoToken` exactly if there is no such token, else with `NoCell` exactly if it has no such cell, else
    /// with `NotHeld` exactly if it isn't on the list, else with `SharedWrite` exactly if it is held shared, else with
    /// `TallyOnly` exactly if its law is Tally.
    #[inline]
    pub fn write(
        &mut self,
        bank: &Bank,
        list: &TokList,
        tok: TokId,
        cell: u8,
        value: u64,
        trace: &mut Vec<Event>,
    ) -> Result<(), Fault>
        requires { IsReady (id_of bank.now) (seat_of self.old) list.now trace.old CALL_EVENTS }
        ensures keeps { Keeps list.now (seat_of self.old) (seat_of self.new) trace.old trace.new }
        ensures refused { result_err result ≡ write_refusal (id_of bank.now) list.now tok.0 cell }
        ensures ok { OnOk result (Writes (seat_of self.old) (seat_of self.new) tok cell value trace.old trace.new) }
        ensures err { OnErr result (ChangesNothing (seat_of self.old) (seat_of self.new) trace.old trace.new) }
    {
        if tok.0 as usize >= bank.tokens() {
            return Err(Fault::NoToken);
        }
        if cell as usize >= bank.cells(tok) {
            return Err(Fault::NoCell);
        }
        self.may_write(bank, list, tok)?;
        let cpu = self.seat.cpu();
        self.seat.store(bank, tok, cell, value)?;
        note_write(trace, cpu, tok, cell, value);
        Ok(())
    }

    /// Adds to the cell of a Tally token that the list holds exclusively. That the holding is the list's and that the trace
    /// has room for 256 events are the caller's conditions.
    ///
    /// Refused with `NoToken` exactly if there is no such token, else with `NotHeld` exactly if it isn't on the list, else
    /// with `SharedWrite` exactly if it is held shared, else with `TallyOnly` exactly if its law isn't Tally, else with
    /// `Overflow` exactly if the sum passes 18446744073709551615.
    #[inline]
    pub fn add(
        &mut self,
        bank: &Bank,
        list: &TokList,
        tok: TokId,
        k: u64,
        trace: &mut Vec<Event>,
    ) -> Result<(), Fault>
        requires { IsReady (id_of bank.now) (seat_of self.old) list.now trace.old CALL_EVENTS }
        ensures keeps { Keeps list.now (seat_of self.old) (seat_of self.new) trace.old trace.new }
        ensures refused { result_err result ≡ add_refusal (id_of bank.now) list.now tok.0 (slice_index (row (seat_of self.old) tok.0) 0 + k) }
        ensures ok { OnOk result (Writes (seat_of self.old) (seat_of self.new) tok 0 (slice_index (row (seat_of self.old) tok.0) 0 + k) trace.old trace.new) }
        ensures err { OnErr result (ChangesNothing (seat_of self.old) (seat_of self.new) trace.old trace.new) }
    {
        if tok.0 as usize >= bank.tokens() {
            return Err(Fault::NoToken);
        }
        self.may_write(bank, list, tok)?;
        let cpu = self.seat.cpu();
        let value = self.seat.add(bank, tok, k)?;
        note_write(trace, cpu, tok, 0, value);
        Ok(())
    }
}
