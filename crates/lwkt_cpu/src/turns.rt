//! A turn of a processor.
ghost use Rattle.std.specs.Prelude.{◌≡◌, ◌⊎◌, ℕ, ◌+◌, ◌<◌, ◌≤◌, ◌↔◌, IsTrue, IfOk, IfSome, OnErr, Some, None, Err, vec_len, vec_capacity};
ghost use Rattle.lwkt_bank.specs.Seats.{id_of, bank_of};
ghost use Rattle.lwkt_hold.specs.Runs.{Ran};
ghost use Rattle.lwkt_port.specs.Posts.{IsSamePost};
ghost use Rattle.lwkt_cpu.specs.Processors.{AllOver, IsAtRest};
ghost use Rattle.lwkt_cpu.specs.Searches.{IsOfOne};
ghost use Rattle.lwkt_cpu.specs.Turning.{cursor_after, Chooses, RunsOne, IsMailed, IsOfThread, HasSameEvents, LacksRoom, MakesTurn, IsSeatedAt};
ghost use Rattle.lwkt_cpu.specs.Waking.{TakesMail, AreWoken};
ghost use Rattle.lwkt_cpu.specs.Traced.{TracesMail, TracesTokensOnly};

use crate::Body;
use crate::answers::Turned;
use crate::cpus::Cpu;
use crate::ends::close_all;
use crate::phases::ToClose;
use crate::polls::poll_one;
use crate::searches::find;
use crate::wakes::wake_all;
use lwkt_bank::Bank;
use lwkt_base::Fault;
use lwkt_base::limits::THREAD_LIMIT;
use lwkt_base::memory::reserve;
use lwkt_core::Event;
use lwkt_msg::MsgBook;

/// For how many events a turn or a stop makes room in its trace before it begins.
pub const TURN_EVENTS: usize = 4096;

/// The most notes that a turn takes in.
pub const TURN_NOTES: usize = 16;

// Where the next search begins.
fn past(cursor: usize, found: Option<usize>) -> usize
    requires { IfSome found (λ place. place < THREAD_LIMIT) }
    ensures { result ≡ cursor_after cursor found }
{
    match found {
        Some(place) => place + 1,
        None => cursor,
    }
}

impl<B> Cpu<B> {
    // Whether every thread has ended.
    pub(crate) fn all_over(&self) -> bool
        ensures over { IsTrue result ↔ AllOver self.now.threads }
        ensures rest { IsAtRest self.now }
    {
        self.threads.iter().all(|thread| thread.phase.has_ended())
    }

    // Takes mail in, and looks after the threads that wait.
    #[inline]
    fn take_mail(&mut self, book: &MsgBook, trace: &mut Vec<Event>)
        requires table { self.old.post.seat.table ≡ book.now.table }
        requires room { vec_len trace.old + 2304 ≤ vec_capacity trace.old }
        ensures mail { TakesMail self.old self.new trace.old trace.new }
        ensures ran { Ran (IsMailed self.old.threads) 2304 self.old.seat self.new.seat trace.old trace.new }
        ensures traced { TracesMail self.old.post.seat self.new.post.seat trace.old.items trace.new.items }
        ensures woken { AreWoken self.old.threads self.new.threads }
        ensures table { self.new.post.seat.table ≡ self.old.post.seat.table }
        ensures same { IsSamePost self.old.post self.new.post }
    {
        let count = self.ports.take_in(book, TURN_NOTES, trace);
        self.popped = self.popped.wrapping_add(count as u64);
        wake_all(&mut self.ports, book, &mut self.threads, trace);
    }

    // The thread of this turn: the one that runs, or the one that a search finds, which runs from now on.
    #[inline]
    fn choose(&mut self, bank: &Bank, trace: &mut Vec<Event>) -> Option<usize>
        requires of { bank_of self.old.seat ≡ id_of bank.now }
        requires room { vec_len trace.old + 1024 ≤ vec_capacity trace.old }
        ensures chooses { Chooses self.old self.new trace.old trace.new self.old.running result }
        ensures runs { self.new.running ≡ result }
        ensures mail { self.new.post.seat ≡ self.old.post.seat }
        ensures ran { Ran (IsOfOne self.old.threads) 1024 self.old.seat self.new.seat trace.old trace.new }
        ensures quiet { TracesTokensOnly trace.old.items trace.new.items }
        ensures same { IsSamePost self.old.post self.new.post }
    {
        match self.running {
            Some(place) => Some(place),
            None => {
                let found = find(&mut self.hold, bank, &mut self.threads, self.cursor, trace);
                close_all(&mut self.ports, &self.threads, ToClose::Worn);
                self.running = found;
                self.cursor = past(self.cursor, found);
                found
            }
        }
    }
}

impl<B: Body> Cpu<B> {
    ghost use Rattle.lwkt_base.specs.Fault.{no_memory};

    // Polls the thread that runs.
    #[inline]
    fn run_on(&mut self, bank: &Bank, book: &MsgBook, place: usize, trace: &mut Vec<Event>)
        requires of { bank_of self.old.seat ≡ id_of bank.now }
        requires table { self.old.post.seat.table ≡ book.now.table }
        requires runs { self.old.running ≡ Some place }
        requires room { vec_len trace.old + 512 ≤ vec_capacity trace.old }
        ensures runs_one { RunsOne B.polled (id_of bank.now) self.old self.new trace.old trace.new place }
        ensures ran { Ran (IsOfThread self.old.threads self.new.threads) 320 self.old.seat self.new.seat trace.old trace.new }
        ensures traced { TracesMail self.old.post.seat self.new.post.seat trace.old.items trace.new.items }
        ensures table { self.new.post.seat.table ≡ self.old.post.seat.table }
        ensures same { IsSamePost self.old.post self.new.post }
        ensures rest { IsAtRest self.new }
    {
        let body = &mut self.bodies[place];
        let thread = &mut self.threads[place];
        let number = place as u8;
        if !poll_one(
            &mut self.hold,
            &mut self.ports,
            bank,
            book,
            number,
            body,
            thread,
            trace,
        ) {
            self.running = None;
        }
    }

    /// Makes a turn: mail is taken in, and then the running thread, or the first one from the cursor on, round once, that can run and
    /// whose whole list can be held, is polled once, and its ask is performed. The events are appended to the trace. That the seats
    /// are of this bank and book is the caller's condition.
    ///
    /// Refused with `Memory` if the trace lacks room for 4096 events and can't be given it; nothing has changed then, and the trace
    /// has no less room than before.
    pub fn turn(
        &mut self,
        bank: &Bank,
        book: &MsgBook,
        trace: &mut Vec<Event>,
    ) -> Result<Turned, Fault>
        requires { IsSeatedAt (id_of bank.now) book.now.table self.old }
        ensures ok { IfOk result (λ turned. MakesTurn B.polled (id_of bank.now) self.old self.new trace.old trace.new turned) }
        ensures refused { OnErr result ((result ≡ Err no_memory) × LacksRoom trace.new) }
        ensures err { OnErr result ((self.new ≡ self.old) × HasSameEvents trace.old trace.new) }
        ensures seated { IsSeatedAt (id_of bank.now) book.now.table self.new }
    {
        reserve(trace, TURN_EVENTS)?;
        Ok(self.turn_in_room(bank, book, trace))
    }

    /// Makes a turn as `turn` does, with a trace that has room for 4096 events already. That it has is the caller's condition.
    #[inline]
    pub fn turn_in_room(&mut self, bank: &Bank, book: &MsgBook, trace: &mut Vec<Event>) -> Turned
        requires of { bank_of self.old.seat ≡ id_of bank.now }
        requires table { self.old.post.seat.table ≡ book.now.table }
        requires room { vec_len trace.old + TURN_EVENTS ≤ vec_capacity trace.old }
        ensures makes { MakesTurn B.polled (id_of bank.now) self.old self.new trace.old trace.new result }
        ensures of { bank_of self.new.seat ≡ bank_of self.old.seat }
        ensures table { self.new.post.seat.table ≡ self.old.post.seat.table }
    {
        self.take_mail(book, trace);
        match self.choose(bank, trace) {
            Some(place) => {
                self.run_on(bank, book, place, trace);
                Turned::Ran { thread: place }
            }
            None if self.all_over() => Turned::AllExited,
            None => Turned::Idle,
        }
    }
}
