//! The stop of a machine.
ghost use Rattle.std.specs.Prelude.{◌≡◌, All, OnErr, OnOk, length};
ghost use Rattle.lwkt_bank.specs.Seats.{id_of};
ghost use Rattle.lwkt_drive.specs.Course.{IsAtTables};
ghost use Rattle.lwkt_machine.specs.Ended.{AreOver, AreSameCpus, AreStopped, AreStoppedShort, EndsWith, HaveEnded, IsSameCpu, IsStopped, IsStopRoom};
ghost use Rattle.lwkt_machine.specs.Machines.{Lasts, processors};
ghost use Rattle.lwkt_machine.specs.Turns.{StaysPut};

use crate::lasting::Lasting;
use crate::machines::Machine;
use lwkt_bank::Bank;
use lwkt_base::OutOfMemory;
use lwkt_core::Event;
use lwkt_drive::Driven;
use lwkt_msg::MsgBook;

// A processor stops: its threads end and give up what they hold.
fn stop_one<B: Lasting>(
    bank: &Bank,
    book: &MsgBook,
    driven: &mut Driven<B>,
) -> Result<(), OutOfMemory>
    requires at { IsAtTables (id_of bank.now) book.now.table driven.old }
    requires kept { Lasts B.kept driven.old }
    ensures ok { OnOk result (IsStopped driven.old driven.new) }
    ensures err { OnErr result (StaysPut driven.old driven.new) }
    ensures same { IsSameCpu driven.old.cpu driven.new.cpu }
    ensures at { IsAtTables (id_of bank.now) book.now.table driven.new }
    ensures kept { Lasts B.kept driven.new }
{
    driven.stop(bank, book)
}

/// Each processor stops, by rising number.
pub(crate) fn stop_all<B: Lasting>(
    bank: &Bank,
    book: &MsgBook,
    cpus: &mut [Driven<B>],
) -> Result<(), OutOfMemory>
    requires at { All (IsAtTables (id_of bank.now) book.now.table) cpus.old }
    requires kept { All (Lasts B.kept) cpus.old }
    ensures ok { OnOk result (AreStopped cpus.old cpus.new) }
    ensures err { OnErr result (AreStoppedShort cpus.old cpus.new) }
    ensures same { AreSameCpus (processors cpus.old) (processors cpus.new) }
    ensures at { All (IsAtTables (id_of bank.now) book.now.table) cpus.new }
    ensures kept { All (Lasts B.kept) cpus.new }
    ensures as_many { length cpus.new ≡ length cpus.old }
{
    for number in 0..cpus.len() {
        stop_one(bank, book, &mut cpus[number])?;
    }
    Ok(())
}

// A processor stops, with its events in this list, which has room for them.
fn end_one<B: Lasting>(bank: &Bank, book: &MsgBook, driven: &mut Driven<B>, stop: &mut Vec<Event>)
    requires at { IsAtTables (id_of bank.now) book.now.table driven.old }
    requires kept { Lasts B.kept driven.old }
    requires room { IsStopRoom stop.old }
    ensures ends { EndsWith driven.old driven.new stop.new }
    ensures at { IsAtTables (id_of bank.now) book.now.table driven.new }
    ensures kept { Lasts B.kept driven.new }
{
    driven.cpu.stop_in_room(bank, book, stop);
}

/// Each processor stops, by rising number, with its events in its list, which has room for them.
pub(crate) fn end_all<B: Lasting>(
    bank: &Bank,
    book: &MsgBook,
    cpus: &mut [Driven<B>],
    stops: &mut [Vec<Event>],
)
    requires at { All (IsAtTables (id_of bank.now) book.now.table) cpus.old }
    requires kept { All (Lasts B.kept) cpus.old }
    requires many { length stops.old ≡ length cpus.old }
    requires rooms { All IsStopRoom stops.old }
    ensures ended { HaveEnded (length cpus.old) cpus.old cpus.new stops.new }
    ensures at { All (IsAtTables (id_of bank.now) book.now.table) cpus.new }
    ensures kept { All (Lasts B.kept) cpus.new }
    ensures as_many { length cpus.new ≡ length cpus.old }
{
    for number in 0..cpus.len() {
        end_one(bank, book, &mut cpus[number], &mut stops[number]);
    }
}

impl<B: Lasting> Machine<B> {
    /// Stops the processors, by rising number: each thread that hasn't ended gives up what it holds and ends. The bodies stay as they
    /// are.
    ///
    /// Refused if memory for 4096 events of a processor is; the processors of lower numbers have stopped
    /// then, and nothing else has changed.
    pub fn stop(&mut self) -> Result<(), OutOfMemory>
        ensures ok { OnOk result (AreStopped self.old.driven self.new.driven) }
        ensures over { OnOk result (AreOver self.new.cpus) }
        ensures err { OnErr result (AreStoppedShort self.old.driven self.new.driven) }
        ensures same { AreSameCpus self.old.cpus self.new.cpus }
        ensures bank { self.new.bank ≡ self.old.bank }
        ensures book { self.new.book ≡ self.old.book }
        ensures as_many { length self.new.cpus ≡ length self.old.cpus }
    {
        stop_all(&self.bank, &self.book, &mut self.cpus)
    }
}
