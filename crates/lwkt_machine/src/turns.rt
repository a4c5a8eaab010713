//! The turns of a machine's processors, one at a time.
ghost use Rattle.std.specs.Prelude.{◌≡◌, ◌+◌, ◌<◌, ◌≤◌, IfErr, IfOk, OnErr, length, vec_len, vec_capacity, Vec as Vector};
ghost use Rattle.std.specs.declared.alloc.Global.{Global};
ghost use Rattle.lwkt_core.specs.declared.events.Event.{Event};
ghost use Rattle.std.specs.List.{AllZip};
ghost use Rattle.lwkt_bank.specs.Seats.{cpus_of, id_of};
ghost use Rattle.lwkt_cpu.specs.Turning.{HasSameEvents, LacksRoom};
ghost use Rattle.lwkt_machine.specs.Machines.{processors, rig_of, AreOneMachine};
ghost use Rattle.lwkt_machine.specs.Sights.{KeepsLog};
ghost use Rattle.lwkt_machine.specs.Turns.{DeclinesTurn, StaysAt, TurnsAt, TurnsKept};

use crate::lasting::Lasting;
use crate::machines::Machine;
use crate::sights::see_sent;
use lwkt_bank::Bank;
use lwkt_base::memory::reserve;
use lwkt_base::{CpuId, Fault, OutOfMemory};
use lwkt_core::Event;
use lwkt_cpu::{TURN_EVENTS, Turned};
use lwkt_drive::Driven;
use lwkt_msg::MsgBook;

// A turn of the processor of this number, which first sees what was sent to it. Its events are appended to a vector that has room for
// them, and so to what that was before it was given room.
fn turn_traced<B: Lasting>(
    bank: &Bank,
    book: &MsgBook,
    cpus: &mut [Driven<B>],
    number: usize,
    trace: &mut Vec<Event>,
) -> Turned
    requires there { number < length cpus.old }
    requires whole { AreOneMachine B.kept (cpus_of bank.now) (id_of bank.now) book.now (processors cpus.old) }
    requires room { vec_len trace.old + TURN_EVENTS ≤ vec_capacity trace.old }
    ensures turns { (before : Vector Event Global) → trace.old.items ≡ before.items → vec_len trace.old ≡ vec_len before → vec_capacity before ≤ vec_capacity trace.old → TurnsAt B.polled number (rig_of (id_of bank.now) book.now cpus.old) (rig_of (id_of bank.now) book.now cpus.new) before trace.new result }
    ensures logs { AllZip KeepsLog cpus.old cpus.new }
    ensures whole { AreOneMachine B.kept (cpus_of bank.now) (id_of bank.now) book.now (processors cpus.new) }
    ensures as_many { length cpus.new ≡ length cpus.old }
{
    see_sent(cpus, number);
    cpus[number].cpu.turn_in_room(bank, book, trace)
}

// The same, with its events kept behind the processor's trace.
fn turn_kept<B: Lasting>(
    bank: &Bank,
    book: &MsgBook,
    cpus: &mut [Driven<B>],
    number: usize,
) -> Result<Turned, OutOfMemory>
    requires there { number < length cpus.old }
    requires whole { AreOneMachine B.kept (cpus_of bank.now) (id_of bank.now) book.now (processors cpus.old) }
    ensures ok { IfOk result (λ turned. TurnsKept B.polled number (rig_of (id_of bank.now) book.now cpus.old) (rig_of (id_of bank.now) book.now cpus.new) turned) }
    ensures err { OnErr result (StaysAt number (rig_of (id_of bank.now) book.now cpus.old) (rig_of (id_of bank.now) book.now cpus.new)) }
    ensures whole { AreOneMachine B.kept (cpus_of bank.now) (id_of bank.now) book.now (processors cpus.new) }
    ensures as_many { length cpus.new ≡ length cpus.old }
{
    cpus[number].make_room()?;
    see_sent(cpus, number);
    Ok(cpus[number].turn_in_room(bank, book))
}

impl<B: Lasting> Machine<B> {
    /// Makes a turn of a processor, as `Cpu::turn` does, which first sees what each processor, also this one itself, has put into the
    /// queue of its lane to it: all of this is taken in, up to the 16 notes of a turn and the room of their ports' queues. The events
    /// are appended to the trace that is handed in, and not kept. That the processor is there is the caller's condition.
    ///
    /// Refused if the trace lacks room for 4096 events and can't be given it; nothing has changed then, and the trace
    /// has no less room than before.
    pub fn turn_into(&mut self, cpu: usize, trace: &mut Vec<Event>) -> Result<Turned, OutOfMemory>
        requires { cpu < length self.old.cpus }
        ensures ok { IfOk result (λ turned. TurnsAt B.polled cpu self.old self.new trace.old trace.new turned) }
        ensures logs { AllZip KeepsLog self.old.driven self.new.driven }
        ensures err { OnErr result ((self.new ≡ self.old) × HasSameEvents trace.old trace.new) }
        ensures full { OnErr result (LacksRoom trace.new) }
        ensures bank { self.new.bank ≡ self.old.bank }
        ensures book { self.new.book ≡ self.old.book }
        ensures as_many { length self.new.cpus ≡ length self.old.cpus }
    {
        reserve(trace, TURN_EVENTS)?;
        Ok(turn_traced(&self.bank, &self.book, &mut self.cpus, cpu, trace))
    }

    /// Makes a turn of a processor, as `turn_into` does, with its events kept for the close. That the processor is there is the caller's
    /// condition.
    ///
    /// Refused if memory for its 4096 events is; nothing has changed then.
    pub(crate) fn turn_at(&mut self, cpu: usize) -> Result<Turned, OutOfMemory>
        requires { cpu < length self.old.cpus }
        ensures ok { IfOk result (λ turned. TurnsKept B.polled cpu self.old self.new turned) }
        ensures err { OnErr result (StaysAt cpu self.old self.new) }
        ensures bank { self.new.bank ≡ self.old.bank }
        ensures book { self.new.book ≡ self.old.book }
        ensures as_many { length self.new.cpus ≡ length self.old.cpus }
    {
        turn_kept(&self.bank, &self.book, &mut self.cpus, cpu)
    }

    /// Makes a turn of the processor of this number, as `Cpu::turn` does, which first sees what each processor, also this one itself, has
    /// put into the queue of its lane to it, and takes it in, as far as it may. Its events are kept for the close.
    ///
    /// Refused with `Limits` exactly if there is no such processor, and with `Memory` if memory for its 4096 events is
    /// refused; nothing has changed then.
    pub fn turn(&mut self, cpu: CpuId) -> Result<Turned, Fault>
        ensures ok { IfOk result (λ turned. TurnsKept B.polled cpu.0 self.old self.new turned) }
        ensures refused { IfErr result (λ fault. DeclinesTurn cpu.0 self.old self.new fault) }
        ensures bank { self.new.bank ≡ self.old.bank }
        ensures book { self.new.book ≡ self.old.book }
        ensures as_many { length self.new.cpus ≡ length self.old.cpus }
    {
        let number = cpu.0 as usize;
        if number >= self.cpus() {
            return Err(Fault::Limits);
        }
        Ok(self.turn_at(number)?)
    }
}
