//! References given up: for good, or until the thread is resumed.
ghost use Rattle.std.specs.Prelude.{◌≡◌, ◌+◌, ◌≤◌, length, take, vec_len, vec_capacity};
ghost use Rattle.lwkt_base.specs.Holding.{holding_of, holds_nothing};
ghost use Rattle.lwkt_base.specs.declared.asks.Answer.{Answer};
ghost use Rattle.lwkt_bank.specs.Seats.{id_of, bank_of, holding};
ghost use Rattle.lwkt_hold.specs.Holds.{seat_of};
ghost use Rattle.lwkt_hold.specs.Fronts.{IsFront};
ghost use Rattle.lwkt_hold.specs.Runs.{Ran};
ghost use Rattle.lwkt_cpu.specs.Leaving.{GivesUp};
ghost use Rattle.lwkt_cpu.specs.Nexts.{next_with, unless_broken, KeepsAnswer};

use crate::nexts::{AnswerKept, Next};
use lwkt_bank::Bank;
use lwkt_base::{Answer, Fault, TokList};
use lwkt_core::Event;
use lwkt_core::events::CALL_EVENTS;
use lwkt_hold::{Blocked, Hold};

// What comes next once everything was given up.
#[inline(always)]
fn after_blocking(meant: Next<AnswerKept>, blocked: Blocked) -> Next<AnswerKept>
    ensures { (answer : Answer) → next_with result answer ≡ unless_broken (next_with meant answer) blocked }
{
    match blocked {
        Blocked::Clean => meant,
        Blocked::Restored(_) => Next::Faults(Fault::Broken),
    }
}

// A thread that is ready now has the answer `Done` once it is resumed.
#[inline(always)]
fn keep_done(next: Next<AnswerKept>, last: &mut Answer)
    ensures done { next_with next last.new ≡ next_with next Answer.Done }
    ensures kept { KeepsAnswer next last.old last.new }
{
    match next {
        Next::Runs(_) | Next::Readies(_) => *last = Answer::Done,
        Next::AwaitsItem | Next::AwaitsReply(_) | Next::Exits | Next::Faults(_) => {}
    }
}

/// Gives up the first `held` references of a list. What was meant to come next comes, unless a section had broken its law:
/// then its first row was stored again, and the thread ends.
#[inline(always)]
fn give_up(
    hold: &mut Hold,
    bank: &Bank,
    list: &TokList,
    held: usize,
    meant: Next<AnswerKept>,
    trace: &mut Vec<Event>,
) -> Next<AnswerKept>
    requires of { bank_of (seat_of hold.old) ≡ id_of bank.now }
    requires within { held ≤ length list.now }
    requires held { holding (seat_of hold.old) ≡ holding_of (take held list.now) }
    requires room { vec_len trace.old + CALL_EVENTS ≤ vec_capacity trace.old }
    ensures ran { Ran (IsFront (take held list.now)) 192 (seat_of hold.old) (seat_of hold.new) trace.old trace.new }
    ensures empty { holding (seat_of hold.new) ≡ holds_nothing }
    ensures gives_up { (answer : Answer) → GivesUp (seat_of hold.old) (seat_of hold.new) list.now held trace.old trace.new (next_with meant answer) (next_with result answer) }
{
    let blocked = hold.block(bank, list, held, trace);
    after_blocking(meant, blocked)
}

/// Gives up the first `held` references of a list. The thread is ready then, and has the answer `Done` once it is resumed.
#[inline(always)]
pub(crate) fn be_ready(
    hold: &mut Hold,
    bank: &Bank,
    list: &TokList,
    held: usize,
    last: &mut Answer,
    trace: &mut Vec<Event>,
) -> Next<AnswerKept>
    requires of { bank_of (seat_of hold.old) ≡ id_of bank.now }
    requires within { held ≤ length list.now }
    requires held { holding (seat_of hold.old) ≡ holding_of (take held list.now) }
    requires room { vec_len trace.old + CALL_EVENTS ≤ vec_capacity trace.old }
    ensures ran { Ran (IsFront (take held list.now)) 192 (seat_of hold.old) (seat_of hold.new) trace.old trace.new }
    ensures empty { holding (seat_of hold.new) ≡ holds_nothing }
    ensures gives_up { GivesUp (seat_of hold.old) (seat_of hold.new) list.now held trace.old trace.new (Next.Readies Answer.Done) (next_with result last.new) }
    ensures kept { KeepsAnswer result last.old last.new }
{
    let next = give_up(hold, bank, list, held, Next::Readies(AnswerKept), trace);
    keep_done(next, last);
    next
}

/// Gives up a whole list.
#[inline(always)]
pub(crate) fn leave(
    hold: &mut Hold,
    bank: &Bank,
    list: &TokList,
    meant: Next<AnswerKept>,
    trace: &mut Vec<Event>,
) -> Next<AnswerKept>
    requires of { bank_of (seat_of hold.old) ≡ id_of bank.now }
    requires held { holding (seat_of hold.old) ≡ holding_of list.now }
    requires room { vec_len trace.old + CALL_EVENTS ≤ vec_capacity trace.old }
    ensures ran { Ran (IsFront list.now) 192 (seat_of hold.old) (seat_of hold.new) trace.old trace.new }
    ensures empty { holding (seat_of hold.new) ≡ holds_nothing }
    ensures gives_up { (answer : Answer) → GivesUp (seat_of hold.old) (seat_of hold.new) list.now (length list.now) trace.old trace.new (next_with meant answer) (next_with result answer) }
{
    let held = list.len();
    give_up(hold, bank, list, held, meant, trace)
}

/// Gives up a whole list. The thread is ready then, and has the answer `Done` once it is resumed.
#[inline(always)]
pub(crate) fn leave_ready(
    hold: &mut Hold,
    bank: &Bank,
    list: &TokList,
    last: &mut Answer,
    trace: &mut Vec<Event>,
) -> Next<AnswerKept>
    requires of { bank_of (seat_of hold.old) ≡ id_of bank.now }
    requires held { holding (seat_of hold.old) ≡ holding_of list.now }
    requires room { vec_len trace.old + CALL_EVENTS ≤ vec_capacity trace.old }
    ensures ran { Ran (IsFront list.now) 192 (seat_of hold.old) (seat_of hold.new) trace.old trace.new }
    ensures empty { holding (seat_of hold.new) ≡ holds_nothing }
    ensures gives_up { GivesUp (seat_of hold.old) (seat_of hold.new) list.now (length list.now) trace.old trace.new (Next.Readies Answer.Done) (next_with result last.new) }
    ensures kept { KeepsAnswer result last.old last.new }
{
    let held = list.len();
    be_ready(hold, bank, list, held, last, trace)
}

/// The ask to end: a thread that runs gives up its whole list. It `Exits`, or `Faults` with 19 if a section had broken its law, whose
/// first row is then stored again. That the trace has room for 256 events is the caller's condition; no more than 192 are made. No
/// answer comes with it, so the clause holds with each.
pub fn exit(
    hold: &mut Hold,
    bank: &Bank,
    list: &TokList,
    trace: &mut Vec<Event>,
) -> Next<AnswerKept>
    requires of { bank_of (seat_of hold.old) ≡ id_of bank.now }
    requires held { holding (seat_of hold.old) ≡ holding_of list.now }
    requires room { vec_len trace.old + CALL_EVENTS ≤ vec_capacity trace.old }
    ensures ran { Ran (IsFront list.now) 192 (seat_of hold.old) (seat_of hold.new) trace.old trace.new }
    ensures empty { holding (seat_of hold.new) ≡ holds_nothing }
    ensures gives_up { (answer : Answer) → GivesUp (seat_of hold.old) (seat_of hold.new) list.now (length list.now) trace.old trace.new Next.Exits (next_with result answer) }
{
    leave(hold, bank, list, Next::Exits, trace)
}
