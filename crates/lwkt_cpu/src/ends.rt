//! The end of a thread, whose port is closed, and what comes next for one whose ask was performed.
ghost use Rattle.std.specs.Prelude.{◌≡◌, ◌<◌, ◌≤◌, length};
ghost use Rattle.lwkt_port.specs.Posts.{IsSamePost};
ghost use Rattle.lwkt_cpu.specs.Searches.{ended_by};
ghost use Rattle.lwkt_cpu.specs.Ending.{ClosesIf, ClosesPorts, includes};
ghost use Rattle.lwkt_cpu.specs.Nexts.{next_with};
ghost use Rattle.lwkt_cpu.specs.Polling.{became, goes_on};

use crate::phases::{Phase, ToClose};
use crate::threads::Thread;
use crate::{AnswerKept, Next};
use lwkt_base::TokList;
use lwkt_base::limits::THREAD_LIMIT;
use lwkt_port::Ports;

/// Ends a thread: its list is empty from now on.
#[inline(never)]
pub(crate) fn end(thread: &mut Thread, phase: Phase)
    ensures { thread.new ≡ ended_by phase thread.old }
{
    thread.list = TokList::new();
    thread.phase = phase;
    thread.busy = None;
}

/// Closes the port of a thread, if it is to be.
#[inline]
pub(crate) fn close_if(ports: &mut Ports, number: u8, ends: bool)
    requires { number < ports.old.threads }
    ensures closes { ClosesIf ends number ports.old ports.new }
    ensures same { IsSamePost ports.old ports.new }
    ensures seat { ports.new.seat ≡ ports.old.seat }
{
    if ends {
        ports.close_port(number);
    }
}

/// Closes the ports of such threads, by rising number.
#[inline]
pub(crate) fn close_all(ports: &mut Ports, threads: &[Thread], which: ToClose)
    requires ported { ports.old.threads ≡ length threads.now }
    requires few { length threads.now ≤ THREAD_LIMIT }
    ensures closes { ClosesPorts (includes which) threads.now ports.old ports.new }
    ensures same { IsSamePost ports.old ports.new }
    ensures seat { ports.new.seat ≡ ports.old.seat }
{
    for at in 0..threads.len() {
        close_if(ports, at as u8, which.includes(threads[at].phase));
    }
}

/// What comes next for a thread comes, whose answer is kept already; says whether it goes on running.
#[inline(always)]
pub(crate) fn go_on(thread: &mut Thread, next: Next<AnswerKept>) -> bool
    ensures becomes { thread.new ≡ became thread.old (next_with next thread.old.last) }
    ensures runs { result ≡ goes_on (next_with next thread.old.last) }
{
    match next {
        Next::Runs(_) => true,
        Next::Readies(_) => false,
        Next::AwaitsItem => {
            thread.phase = Phase::AwaitsItem;
            false
        }
        Next::AwaitsReply(msg) => {
            thread.phase = Phase::AwaitsReply(msg);
            false
        }
        Next::Exits => {
            end(thread, Phase::Exited);
            false
        }
        Next::Faults(fault) => {
            end(thread, Phase::Faulted(fault));
            false
        }
    }
}
