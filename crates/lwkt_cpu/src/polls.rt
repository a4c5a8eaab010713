//! A running thread polled: once, with the answer that is kept for it.
ghost use Rattle.std.specs.Prelude.{◌≡◌, ◌+◌, ◌<◌, ◌≤◌, true, false, None, vec_len, vec_capacity};
ghost use Rattle.lwkt_base.specs.Holding.{holding_of, holds_nothing};
ghost use Rattle.lwkt_base.specs.Refs.{IsLawfulList};
ghost use Rattle.lwkt_bank.specs.Seats.{id_of, bank_of, holding};
ghost use Rattle.lwkt_hold.specs.Holds.{seat_of};
ghost use Rattle.lwkt_hold.specs.Fronts.{IsBetween};
ghost use Rattle.lwkt_hold.specs.Runs.{Ran};
ghost use Rattle.lwkt_cpu.specs.Processors.{IsSettled, Awaits, is_over};
ghost use Rattle.lwkt_cpu.specs.Ending.{ClosesIf};
ghost use Rattle.lwkt_msg.specs.Desks.{desk_cpu, messages_of};
ghost use Rattle.lwkt_port.specs.Posts.{IsSamePost};
ghost use Rattle.lwkt_cpu.specs.Traced.{TracesMail};
ghost use Rattle.lwkt_cpu.specs.Polling.{Polls};

use crate::ends::{close_if, go_on};
use crate::phases::Phase;
use crate::threads::Thread;
use crate::{Body, perform};
use lwkt_bank::Bank;
use lwkt_base::TokList;
use lwkt_core::Event;
use lwkt_hold::Hold;
use lwkt_msg::MsgBook;
use lwkt_port::Ports;

// Recalls that a list of references is a lawful one. It computes nothing.
#[inline]
fn is_lawful(list: &TokList)
    ensures { IsLawfulList list.now }
{
    let _ = list.refs();
}

// No word that refused the thread's list is kept any more.
#[inline]
fn forget_refusal(thread: &mut Thread)
    ensures { thread.new ≡ record thread.old { busy = None } }
{
    if thread.busy.is_some() {
        thread.busy = None;
    }
}

// Closes the port of a thread that has ended; one that goes on running hasn't.
#[inline]
fn close_ended(ports: &mut Ports, number: u8, thread: &Thread, runs: bool)
    requires exists { number < ports.old.threads }
    requires live { runs ≡ true → thread.now.phase ≡ Phase.Live }
    ensures closes { ClosesIf (is_over thread.now.phase) number ports.old ports.new }
    ensures same { IsSamePost ports.old ports.new }
    ensures seat { ports.new.seat ≡ ports.old.seat }
{
    if !runs {
        close_if(ports, number, thread.phase.has_ended());
    }
}

/// Polls a thread whose list is held with the answer that is kept for it, and performs its ask; a thread that ends then has
/// its port closed. Says whether it goes on running.
#[inline(always)]
#[tactic(auto, using(crate::proofs::PollMoves::became_is))]
pub(crate) fn poll_one<B: Body>(
    hold: &mut Hold,
    ports: &mut Ports,
    bank: &Bank,
    book: &MsgBook,
    number: u8,
    body: &mut B,
    thread: &mut Thread,
    trace: &mut Vec<Event>,
) -> bool
    requires of { bank_of (seat_of hold.old) ≡ id_of bank.now }
    requires table { ports.old.seat.table ≡ book.now.table }
    requires exists { number < ports.old.threads }
    requires mine { desk_cpu ports.old.seat ≡ (seat_of hold.old).cpu }
    requires settled { IsSettled (seat_of hold.old) thread.old }
    requires live { thread.old.phase ≡ Phase.Live }
    requires held { holding (seat_of hold.old) ≡ holding_of thread.old.list }
    requires room { vec_len trace.old + 512 ≤ vec_capacity trace.old }
    ensures polls { Polls B.polled (id_of bank.now) number (seat_of hold.old) (seat_of hold.new) ports.old ports.new body.old body.new thread.old thread.new trace.old trace.new result }
    ensures ran { Ran (IsBetween thread.old.list thread.new.list) 320 (seat_of hold.old) (seat_of hold.new) trace.old trace.new }
    ensures up { result ≡ true → (thread.new.phase ≡ Phase.Live) × (holding (seat_of hold.new) ≡ holding_of thread.new.list) }
    ensures free { result ≡ false → holding (seat_of hold.new) ≡ holds_nothing }
    ensures settled { IsSettled (seat_of hold.new) thread.new }
    ensures awaits { Awaits (messages_of ports.new.seat) thread.new }
    ensures same { IsSamePost ports.old ports.new }
    ensures traced { TracesMail ports.old.seat ports.new.seat trace.old.items trace.new.items }
{
    forget_refusal(thread);
    let ask = body.poll(thread.last);
    let next = perform(
        hold,
        ports,
        bank,
        book,
        number,
        &mut thread.list,
        &ask,
        &mut thread.last,
        trace,
    );
    let runs = go_on(thread, next);
    is_lawful(&thread.list);
    close_ended(ports, number, thread, runs);
    runs
}
