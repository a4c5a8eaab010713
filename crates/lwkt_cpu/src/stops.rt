//! The end of a processor: every thread ends and its port is closed, the replies that are owed go out, and seats and bodies
//! are given back.
ghost use Rattle.std.specs.Prelude.{◌≡◌, ℕ, ◌+◌, ◌≤◌, OnOk, OnErr, Some, None, Err, vec_len, vec_capacity};
ghost use Rattle.lwkt_base.specs.Holding.{holds_nothing};
ghost use Rattle.lwkt_bank.specs.Seats.{id_of, bank_of, holding};
ghost use Rattle.lwkt_hold.specs.Runs.{Ran};
ghost use Rattle.lwkt_cpu.specs.Processors.{AllOver};
ghost use Rattle.lwkt_cpu.specs.Searches.{IsOfOne};
ghost use Rattle.lwkt_cpu.specs.Turning.{IsMailed, HasSameEvents};
ghost use Rattle.lwkt_msg.specs.Desks.{desk_cpu};
ghost use Rattle.lwkt_port.specs.Closings.{PostPays};
ghost use Rattle.lwkt_port.specs.Posts.{IsSamePost};
ghost use Rattle.lwkt_port.specs.Traced.{TracesDeeds};
ghost use Rattle.lwkt_port.specs.Works.{Grew};
ghost use Rattle.lwkt_cpu.specs.Traced.{TracesMail, TracesTokensOnly};
ghost use Rattle.lwkt_cpu.specs.Ending.{ClosesPorts, has_not_ended};
ghost use Rattle.lwkt_cpu.specs.Stopping.{stopped, AreThreadsStopped, Halts, HaltsRunning, Stops};

use crate::cpus::Cpu;
use crate::ends::{close_all, end, go_on};
use crate::exit;
use crate::phases::{Phase, ToClose};
use crate::threads::Thread;
use crate::turns::TURN_EVENTS;
use lwkt_bank::{Bank, CpuSeat};
use lwkt_base::Fault;
use lwkt_base::memory::reserve;
use lwkt_core::Event;
use lwkt_core::events::CALL_EVENTS;
use lwkt_msg::{MsgBook, MsgSeat};

/// For how many events a trace has room in which a processor stops without being given more.
pub const STOP_EVENTS: usize = 512;

// Ends a thread that hasn't ended.
fn stop_one(thread: &mut Thread)
    ensures { thread.new ≡ stopped thread.old }
{
    if !thread.phase.has_ended() {
        end(thread, Phase::Exited);
    }
}

// Ends every thread that hasn't ended.
fn stop_all(threads: &mut [Thread])
    ensures { AreThreadsStopped threads.old threads.new }
{
    for at in 0..threads.len() {
        stop_one(&mut threads[at]);
    }
}

impl<B> Cpu<B> {
    ghost use Rattle.lwkt_base.specs.Fault.{no_memory};

    // The thread that runs gives up everything and ends, and its port is closed.
    fn halt(&mut self, bank: &Bank, place: usize, trace: &mut Vec<Event>)
        requires of { bank_of self.old.seat ≡ id_of bank.now }
        requires runs { self.old.running ≡ Some place }
        requires room { vec_len trace.old + STOP_EVENTS ≤ vec_capacity trace.old }
        ensures halts { Halts self.old self.new trace.old trace.new place }
        ensures ran { Ran (IsOfOne self.old.threads) 194 self.old.seat self.new.seat trace.old trace.new }
        ensures quiet { TracesTokensOnly trace.old.items trace.new.items }
        ensures same { IsSamePost self.old.post self.new.post }
    {
        let thread = &mut self.threads[place];
        let next = exit(&mut self.hold, bank, &thread.list, trace);
        go_on(thread, next);
        self.ports.close_port(place as u8);
        self.running = None;
    }

    // The thread that runs halts, if any does.
    fn halt_running(&mut self, bank: &Bank, trace: &mut Vec<Event>)
        requires of { bank_of self.old.seat ≡ id_of bank.now }
        requires room { vec_len trace.old + STOP_EVENTS ≤ vec_capacity trace.old }
        ensures halts { HaltsRunning self.old self.new trace.old trace.new self.old.running }
        ensures ran { Ran (IsOfOne self.old.threads) 194 self.old.seat self.new.seat trace.old trace.new }
        ensures quiet { TracesTokensOnly trace.old.items trace.new.items }
        ensures none { self.new.running ≡ None }
        ensures bodies { self.new.bodies ≡ self.old.bodies }
        ensures post { self.new.post.seat ≡ self.old.post.seat }
        ensures same { IsSamePost self.old.post self.new.post }
    {
        match self.running {
            Some(place) => self.halt(bank, place, trace),
            None => {}
        }
    }

    // Every thread that hasn't ended ends, and its port is closed.
    fn end_all(&mut self)
        requires { self.old.running ≡ None }
        ensures threads { AreThreadsStopped self.old.threads self.new.threads }
        ensures over { AllOver self.new.threads }
        ensures seat { self.new.seat ≡ self.old.seat }
        ensures bodies { self.new.bodies ≡ self.old.bodies }
        ensures closes { ClosesPorts has_not_ended self.old.threads self.old.post self.new.post }
        ensures post { self.new.post.seat ≡ self.old.post.seat }
        ensures none { self.new.running ≡ None }
        ensures empty { holding self.new.seat ≡ holds_nothing }
        ensures same { IsSamePost self.old.post self.new.post }
    {
        close_all(&mut self.ports, &self.threads, ToClose::Others);
        stop_all(&mut self.threads);
    }

    // The replies that are owed go out, as lanes have room.
    fn pay(&mut self, book: &MsgBook, trace: &mut Vec<Event>)
        requires table { self.old.post.seat.table ≡ book.now.table }
        requires room { vec_len trace.old + CALL_EVENTS ≤ vec_capacity trace.old }
        ensures pays { PostPays self.old.post self.new.post trace.old trace.new }
        ensures seat { self.new.seat ≡ self.old.seat }
        ensures bodies { self.new.bodies ≡ self.old.bodies }
        ensures threads { self.new.threads ≡ self.old.threads }
        ensures running { self.new.running ≡ self.old.running }
        ensures grew { Grew (desk_cpu self.old.post.seat) 64 trace.old trace.new }
        ensures mine { desk_cpu self.old.post.seat ≡ self.old.seat.cpu }
        ensures traced { TracesDeeds self.old.post.seat self.new.post.seat trace.old.items trace.new.items }
        ensures same { IsSamePost self.old.post self.new.post }
    {
        self.ports.send_owed(book, trace);
    }

    /// Stops the processor: the running thread gives up everything, and every thread that hasn't ended ends as `Exited`, or by
    /// fault 19 if its section had broken its law; their ports are closed. Then the replies that are owed go out, as lanes have
    /// room; notes aren't taken in any more. The events are appended to the trace. That the seats belong to bank and book is the
    /// caller's condition.
    ///
    /// Refused with `Memory` if the trace can't be given room for 4096 events; nothing has changed then.
    pub fn stop(&mut self, bank: &Bank, book: &MsgBook, trace: &mut Vec<Event>) -> Result<(), Fault>
        requires of { bank_of self.old.seat ≡ id_of bank.now }
        requires table { self.old.post.seat.table ≡ book.now.table }
        ensures ok { OnOk result (Stops self.old self.new trace.old trace.new) }
        ensures err { OnErr result ((self.new ≡ self.old) × HasSameEvents trace.old trace.new) }
        ensures only { OnErr result (result ≡ Err no_memory) }
        ensures ran { Ran (IsMailed self.old.threads) 258 self.old.seat self.new.seat trace.old trace.new }
        ensures traced { TracesMail self.old.post.seat self.new.post.seat trace.old.items trace.new.items }
        ensures same { IsSamePost self.old.post self.new.post }
    {
        reserve(trace, TURN_EVENTS)?;
        self.stop_in_room(bank, book, trace);
        Ok(())
    }

    /// Stops the processor as `stop` does, with a trace that has room for 512 events already. That it has is the caller's condition.
    pub fn stop_in_room(&mut self, bank: &Bank, book: &MsgBook, trace: &mut Vec<Event>)
        requires of { bank_of self.old.seat ≡ id_of bank.now }
        requires table { self.old.post.seat.table ≡ book.now.table }
        requires room { vec_len trace.old + STOP_EVENTS ≤ vec_capacity trace.old }
        ensures stops { Stops self.old self.new trace.old trace.new }
        ensures ran { Ran (IsMailed self.old.threads) 258 self.old.seat self.new.seat trace.old trace.new }
        ensures traced { TracesMail self.old.post.seat self.new.post.seat trace.old.items trace.new.items }
        ensures same { IsSamePost self.old.post self.new.post }
    {
        self.halt_running(bank, trace);
        self.end_all();
        self.pay(book, trace);
    }

    /// Gives back the seat at the bank, which holds nothing, the seat at the book, and the bodies, by the threads' numbers, each as
    /// its last poll left it. That every thread has ended is the caller's condition.
    pub fn retire(self) -> (CpuSeat, MsgSeat, Vec<B>)
        requires { AllOver self.threads }
        ensures seat { result.0 ≡ self.seat }
        ensures mail { result.1 ≡ self.post.seat }
        ensures bodies { result.2.items ≡ self.bodies }
        ensures empty { holding result.0 ≡ holds_nothing }
    {
        let Cpu {
            hold,
            ports,
            bodies,
            threads: _,
            running: _,
            cursor: _,
            popped: _,
        } = self;
        (hold.into_seat(), ports.retire(), bodies)
    }
}
