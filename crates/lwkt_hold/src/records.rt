//! The record of a token on the list: read and written.
ghost use Rattle.std.specs.Prelude.{◌≡◌, ◌+◌, ◌<◌, true, Some, None, OnOk, OnErr, IfOk, is_some};
ghost use Rattle.std.specs.Result.{result_err};
ghost use Rattle.lwkt_base.specs.Holding.{holding_of};
ghost use Rattle.lwkt_base.specs.Refs.{first_mode};
ghost use Rattle.lwkt_bank.specs.Seats.{id_of, bank_of, tokens_of, plan_of, holding};
ghost use Rattle.lwkt_hold.specs.Ready.{IsReady};
ghost use Rattle.lwkt_hold.specs.Refusals.{record_read_refusal, record_write_refusal};
ghost use Rattle.lwkt_hold.specs.Outcomes.{Keeps, ReadsRecord, WritesRecord};

use crate::holds::Hold;
use crate::traces::{note_record_read, note_record_written};
use lwkt_bank::Bank;
use lwkt_base::{Blob, Fault, Mode, TokId, TokList};
use lwkt_core::Event;
use lwkt_core::events::CALL_EVENTS;

impl Hold {
    ghost use Rattle.lwkt_hold.specs.Holds.{seat_of};

    // Refused with `NoToken` if there is no such token, else with `NoCell` if it has no record, else with `NotHeld` if it isn't
    // on the list that is held, else with `SharedRecord` if it is held shared.
    fn may_use_record(&self, bank: &Bank, list: &TokList, tok: TokId) -> Result<(), Fault>
        requires of { bank_of (seat_of self.now) ≡ id_of bank.now }
        requires held { holding (seat_of self.now) ≡ holding_of list.now }
        ensures ok { OnOk result ((tok.0 < tokens_of (id_of bank.now)) × (is_some (plan_of (id_of bank.now) tok.0).blob ≡ true) × (first_mode list.now tok.0 ≡ Some Mode.Exclusive)) }
        ensures refused { result_err result ≡ record_read_refusal (id_of bank.now) list.now tok.0 }
    {
        if tok.0 as usize >= bank.tokens() {
            return Err(Fault::NoToken);
        }
        if !bank.guards(tok) {
            return Err(Fault::NoCell);
        }
        match self.mode(bank, list, tok) {
            None => Err(Fault::NotHeld),
            Some(Mode::Shared) => Err(Fault::SharedRecord),
            Some(Mode::Exclusive) => Ok(()),
        }
    }

    /// Reads the record of a token that the list holds exclusively. That the holding is the list's and that the trace has room
    /// for 256 events are the caller's conditions.
    ///
    /// Refused with `NoToken` exactly if there is no such token, else with `NoCell` exactly if it has no record, else with
    /// `NotHeld` exactly if it isn't on the list, else with `SharedRecord` exactly if it is held shared; nothing changes then.
    pub fn read_blob(
        &mut self,
        bank: &Bank,
        list: &TokList,
        tok: TokId,
        trace: &mut Vec<Event>,
    ) -> Result<Blob, Fault>
        requires { IsReady (id_of bank.now) (seat_of self.old) list.now trace.old CALL_EVENTS }
        ensures keeps { Keeps list.now (seat_of self.old) (seat_of self.new) trace.old trace.new }
        ensures refused { result_err result ≡ record_read_refusal (id_of bank.now) list.now tok.0 }
        ensures ok { IfOk result (λ bytes. ReadsRecord (seat_of self.old) (seat_of self.new) tok bytes trace.old trace.new) }
        ensures err { OnErr result ((trace.new ≡ trace.old) × (self.new ≡ self.old)) }
    {
        self.may_use_record(bank, list, tok)?;
        let cpu = self.seat.cpu();
        let blob = self.seat.read_blob(bank, tok);
        note_record_read(trace, cpu, tok, &blob);
        Ok(blob)
    }

    /// Writes the record of a token that the list holds exclusively. That the holding is the list's and that the trace has
    /// room for 256 events are the caller's conditions.
    ///
    /// Refused with `NoToken` exactly if there is no such token, else with `NoCell` exactly if it has no record, else with
    /// `NotHeld` exactly if it isn't on the list, else with `SharedRecord` exactly if it is held shared, else with
    /// `RecordLong` exactly if the new record has more than 64 bytes; nothing changes then.
    pub fn write_blob(
        &mut self,
        bank: &Bank,
        list: &TokList,
        tok: TokId,
        blob: &Blob,
        trace: &mut Vec<Event>,
    ) -> Result<(), Fault>
        requires { IsReady (id_of bank.now) (seat_of self.old) list.now trace.old CALL_EVENTS }
        ensures keeps { Keeps list.now (seat_of self.old) (seat_of self.new) trace.old trace.new }
        ensures refused { result_err result ≡ record_write_refusal (id_of bank.now) list.now tok.0 blob.now }
        ensures ok { OnOk result (WritesRecord (seat_of self.old) (seat_of self.new) tok blob.now trace.old trace.new) }
        ensures err { OnErr result ((trace.new ≡ trace.old) × (self.new ≡ self.old)) }
    {
        self.may_use_record(bank, list, tok)?;
        if blob.len() > 64 {
            return Err(Fault::RecordLong);
        }
        let cpu = self.seat.cpu();
        self.seat.write_blob(bank, tok, blob);
        note_record_written(trace, cpu, tok, blob);
        Ok(())
    }
}
