//! What a processor does is traced into a room, and from there its events go behind its trace.
ghost use Rattle.std.specs.Prelude.{◌≡◌, ◌+◌, ◌<◌, ◌≤◌, ◌++◌, length, IfOk, OnErr, OnOk};
ghost use Rattle.lwkt_bank.specs.Seats.{id_of};
ghost use Rattle.lwkt_drive.specs.Course.{IsAtTables};
ghost use Rattle.lwkt_drive.specs.Appending.{AppendsStop, AppendsTurn, HasTurnRoom, LacksMemory};

use crate::driven::Driven;
use lwkt_bank::Bank;
use lwkt_base::OutOfMemory;
use lwkt_base::memory::reserve;
use lwkt_cpu::{Body, TURN_EVENTS, Turned};
use lwkt_msg::MsgBook;

impl<B> Driven<B> {
    /// Gives the trace room for the events of a turn or a stop, and as much to the room into which turns are traced, which is empty then.
    ///
    /// Refused if memory is; the processor and its events are as before then.
    pub fn make_room(&mut self) -> Result<(), OutOfMemory>
        ensures room { OnOk result (HasTurnRoom self.new) }
        ensures full { OnErr result (LacksMemory self.new.room self.new.trace) }
        ensures items { self.new.trace.items ≡ self.old.trace.items }
        ensures capacity { self.old.trace.capacity ≤ self.new.trace.capacity }
        ensures rest { self.new ≡ record self.old { trace = self.new.trace; room = self.new.room } }
    {
        self.trace.reserve_for(&[(); TURN_EVENTS])?;
        self.room.clear();
        reserve(&mut self.room, TURN_EVENTS)
    }

    // What was traced into the room goes behind the trace, which has room for it.
    fn keep(&mut self)
        requires { length self.old.trace.items + length self.old.room.items ≤ self.old.trace.capacity }
        ensures items { self.new.trace.items ≡ self.old.trace.items ++ self.old.room.items }
        ensures capacity { self.old.trace.capacity ≤ self.new.trace.capacity }
        ensures rest { self.new ≡ record self.old { trace = self.new.trace } }
    {
        self.trace.put_all(&self.room);
    }
}

impl<B: Body> Driven<B> {
    /// Makes a turn, as `Cpu::turn` does, in the room that `make_room` has made. Its events go behind the trace. That this room is there,
    /// and that the processor is of this bank and book is the caller's condition.
    pub fn turn_in_room(&mut self, bank: &Bank, book: &MsgBook) -> Turned
        requires at { IsAtTables (id_of bank.now) book.now.table self.old }
        requires room { HasTurnRoom self.old }
        ensures makes { AppendsTurn B.polled (id_of bank.now) self.old.cpu self.new.cpu self.old.trace.items self.new.trace.items result }
        ensures capacity { self.old.trace.capacity ≤ self.new.trace.capacity }
        ensures rest { self.new ≡ record self.old { cpu = self.new.cpu; trace = self.new.trace; room = self.new.room } }
        ensures at { IsAtTables (id_of bank.now) book.now.table self.new }
    {
        let turned = self.cpu.turn_in_room(bank, book, &mut self.room);
        self.keep();
        turned
    }

    /// Makes a turn, as `turn_in_room` does, in room that is made before. That the processor is of this bank and book is the caller's
    /// condition.
    ///
    /// Refused if memory for 4096 events is, to the room into which turns are traced or to the trace; the processor and
    /// its events are as before then.
    pub fn turn(&mut self, bank: &Bank, book: &MsgBook) -> Result<Turned, OutOfMemory>
        requires at { IsAtTables (id_of bank.now) book.now.table self.old }
        ensures ok { IfOk result (λ turned. AppendsTurn B.polled (id_of bank.now) self.old.cpu self.new.cpu self.old.trace.items self.new.trace.items turned) }
        ensures err { OnErr result ((self.new.cpu ≡ self.old.cpu) × (self.new.trace.items ≡ self.old.trace.items)) }
        ensures full { OnErr result (LacksMemory self.new.room self.new.trace) }
        ensures capacity { self.old.trace.capacity ≤ self.new.trace.capacity }
        ensures rest { self.new ≡ record self.old { cpu = self.new.cpu; trace = self.new.trace; room = self.new.room } }
        ensures at { IsAtTables (id_of bank.now) book.now.table self.new }
    {
        self.make_room()?;
        Ok(self.turn_in_room(bank, book))
    }

    /// Stops the processor, as `Cpu::stop` does. The events go behind the trace. That the processor is of this bank and book is the
    /// caller's condition.
    ///
    /// Refused if memory for 4096 events is, as for a turn; the processor and its events are as before then.
    pub fn stop(&mut self, bank: &Bank, book: &MsgBook) -> Result<(), OutOfMemory>
        requires at { IsAtTables (id_of bank.now) book.now.table self.old }
        ensures ok { OnOk result (AppendsStop self.old.cpu self.new.cpu self.old.trace.items self.new.trace.items) }
        ensures err { OnErr result ((self.new.cpu ≡ self.old.cpu) × (self.new.trace.items ≡ self.old.trace.items)) }
        ensures full { OnErr result (LacksMemory self.new.room self.new.trace) }
        ensures capacity { self.old.trace.capacity ≤ self.new.trace.capacity }
        ensures rest { self.new ≡ record self.old { cpu = self.new.cpu; trace = self.new.trace; room = self.new.room } }
        ensures at { IsAtTables (id_of bank.now) book.now.table self.new }
    {
        self.make_room()?;
        self.cpu.stop_in_room(bank, book, &mut self.room);
        self.keep();
        Ok(())
    }
}
