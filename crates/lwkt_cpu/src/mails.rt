//! The asks about messages, each as the call on the ports that it makes.
ghost use Rattle.std.specs.Prelude.{◌≡◌, ℕ, ◌+◌, ◌<◌, ◌≤◌, Bool, List, false, true, Option, Result, vec_len, vec_capacity};
ghost use Rattle.lwkt_base.specs.Holding.{holding_of};
ghost use Rattle.lwkt_base.specs.declared.asks.Item.{Item};
ghost use Rattle.lwkt_base.specs.declared.faults.Fault.{Fault};
ghost use Rattle.lwkt_base.specs.declared.names.MsgId.{MsgId};
ghost use Rattle.lwkt_base.specs.declared.records.Rec.{Rec};
ghost use Rattle.lwkt_core.specs.declared.events.Event.{Event};
ghost use Rattle.lwkt_bank.specs.Seats.{id_of, bank_of, holding};
ghost use Rattle.lwkt_hold.specs.Holds.{seat_of};
ghost use Rattle.lwkt_hold.specs.Fronts.{IsFront};
ghost use Rattle.lwkt_hold.specs.Runs.{Ran};
ghost use Rattle.lwkt_msg.specs.Desks.{desk_cpu, messages_of};
ghost use Rattle.lwkt_port.specs.Posts.{IsSamePost};
ghost use Rattle.lwkt_port.specs.Works.{Grew};
ghost use Rattle.lwkt_port.specs.Servings.{PostGets};
ghost use Rattle.lwkt_cpu.specs.Nexts.{HoldsAfter, next_with, KeepsAnswer, done_or, bit_or};
ghost use Rattle.lwkt_cpu.specs.Traced.{TracesMail};
ghost use Rattle.lwkt_cpu.specs.Mailing.{sending, plain_flags, SendsMail, RepliesMail, AbortsMail, HearsMail, DropsMail, dropped_or, item_or, DoesMessage, WaitsPort};

use crate::calls::done;
use crate::leaves::leave;
use crate::nexts::{AnswerKept, Next};
use lwkt_bank::Bank;
use lwkt_base::{Answer, Call, Fault, Flags, Item, MsgId, Rec, ThreadId, TokList};
use lwkt_core::Event;
use lwkt_hold::Hold;
use lwkt_msg::MsgBook;
use lwkt_port::Ports;

// Keeps the answer for a look at a port.
#[inline(always)]
fn shown(came: Result<Option<Item>, Fault>, last: &mut Answer) -> AnswerKept
    ensures { last.new ≡ item_or came }
{
    match came {
        Ok(Some(item)) => *last = Answer::Got(item),
        Ok(None) => *last = Answer::NoMsg,
        Err(fault) => *last = Answer::Refused(fault),
    }
    AnswerKept
}

// Keeps the answer to a question: 1 for yes, 0 for no.
#[inline(always)]
fn said(came: Result<bool, Fault>, last: &mut Answer) -> AnswerKept
    ensures { last.new ≡ bit_or came }
{
    match came {
        Ok(true) => *last = Answer::Value(1),
        Ok(false) => *last = Answer::Value(0),
        Err(fault) => *last = Answer::Refused(fault),
    }
    AnswerKept
}

// Keeps the answer for a drop of a message: the message and the record that it was sent with.
#[inline(always)]
fn given_back(msg: MsgId, came: Result<Rec, Fault>, last: &mut Answer) -> AnswerKept
    ensures { last.new ≡ dropped_or msg came }
{
    match came {
        Ok(rec) => *last = Answer::Dropped(msg, rec),
        Err(fault) => *last = Answer::Refused(fault),
    }
    AnswerKept
}

/// Sends a message of the thread.
#[inline(always)]
pub(crate) fn send(
    ports: &mut Ports,
    book: &MsgBook,
    thread: u8,
    msg: MsgId,
    to: ThreadId,
    call: Call,
    flags: Flags,
    last: &mut Answer,
    trace: &mut Vec<Event>,
) -> AnswerKept
    requires table { ports.old.seat.table ≡ book.now.table }
    requires room { vec_len trace.old + 512 ≤ vec_capacity trace.old }
    ensures sends { (came : Result (Unit {0}) Fault) × (SendsMail (sending thread msg to call flags false) ports.old ports.new trace.old trace.new came × (last.new ≡ done_or came)) }
    ensures same { IsSamePost ports.old ports.new }
    ensures grew { Grew (desk_cpu ports.old.seat) 1 trace.old trace.new }
    ensures traced { TracesMail ports.old.seat ports.new.seat trace.old.items trace.new.items }
{
    let came = ports.send(book, thread, msg, to, call, flags, trace);
    done(came, last)
}

/// Sends a message of the thread, which then gives up everything and waits for the reply.
#[inline(always)]
pub(crate) fn send_and_wait(
    hold: &mut Hold,
    ports: &mut Ports,
    bank: &Bank,
    book: &MsgBook,
    thread: u8,
    list: &TokList,
    msg: MsgId,
    to: ThreadId,
    call: Call,
    last: &mut Answer,
    trace: &mut Vec<Event>,
) -> Next<AnswerKept>
    requires of { bank_of (seat_of hold.old) ≡ id_of bank.now }
    requires table { ports.old.seat.table ≡ book.now.table }
    requires mine { desk_cpu ports.old.seat ≡ (seat_of hold.old).cpu }
    requires held { holding (seat_of hold.old) ≡ holding_of list.now }
    requires room { vec_len trace.old + 512 ≤ vec_capacity trace.old }
    ensures does { DoesMessage (sending thread msg to call plain_flags true) ports.old ports.new (seat_of hold.old) (seat_of hold.new) list.now trace.old trace.new (next_with result last.new) }
    ensures ran { Ran (IsFront list.now) 320 (seat_of hold.old) (seat_of hold.new) trace.old trace.new }
    ensures kept { KeepsAnswer result last.old last.new }
    ensures held { HoldsAfter (next_with result last.new) (holding (seat_of hold.new)) list.now }
    ensures same { IsSamePost ports.old ports.new }
    ensures named { (m : MsgId) → next_with result last.new ≡ Next.AwaitsReply m → m.0 < messages_of ports.new.seat }
    ensures traced { TracesMail ports.old.seat ports.new.seat trace.old.items trace.new.items }
{
    let _ = ports.threads();
    match ports.send_sync(book, thread, msg, to, call, trace) {
        Ok(()) => leave(hold, bank, list, Next::AwaitsReply(msg), trace),
        Err(fault) => Next::Runs(done(Err(fault), last)),
    }
}

/// Replies to a message that the thread was shown.
#[inline(always)]
pub(crate) fn reply(
    ports: &mut Ports,
    book: &MsgBook,
    thread: u8,
    msg: MsgId,
    error: u32,
    outcome: u64,
    last: &mut Answer,
    trace: &mut Vec<Event>,
) -> AnswerKept
    requires table { ports.old.seat.table ≡ book.now.table }
    requires room { vec_len trace.old + 512 ≤ vec_capacity trace.old }
    ensures replies { (came : Result (Unit {0}) Fault) × (RepliesMail thread msg error outcome ports.old ports.new trace.old trace.new came × (last.new ≡ done_or came)) }
    ensures same { IsSamePost ports.old ports.new }
    ensures grew { Grew (desk_cpu ports.old.seat) 1 trace.old trace.new }
    ensures traced { TracesMail ports.old.seat ports.new.seat trace.old.items trace.new.items }
{
    let came = ports.reply(book, thread, msg, error, outcome, trace);
    done(came, last)
}

/// Asks for a message of the thread to be aborted.
#[inline(always)]
pub(crate) fn abort(
    ports: &mut Ports,
    book: &MsgBook,
    thread: u8,
    msg: MsgId,
    last: &mut Answer,
    trace: &mut Vec<Event>,
) -> AnswerKept
    requires table { ports.old.seat.table ≡ book.now.table }
    requires room { vec_len trace.old + 512 ≤ vec_capacity trace.old }
    ensures aborts { (came : Result (Unit {0}) Fault) × (AbortsMail thread msg ports.old ports.new trace.old trace.new came × (last.new ≡ done_or came)) }
    ensures same { IsSamePost ports.old ports.new }
    ensures grew { Grew (desk_cpu ports.old.seat) 1 trace.old trace.new }
    ensures traced { TracesMail ports.old.seat ports.new.seat trace.old.items trace.new.items }
{
    let came = ports.abort(book, thread, msg, trace);
    done(came, last)
}

/// Says whether a message that the thread was shown is to be aborted.
#[inline(always)]
pub(crate) fn is_aborted(
    ports: &mut Ports,
    book: &MsgBook,
    thread: u8,
    msg: MsgId,
    last: &mut Answer,
) -> AnswerKept
    requires table { ports.old.seat.table ≡ book.now.table }
    ensures hears { (came : Result Bool Fault) × (HearsMail thread msg ports.old ports.new came × (last.new ≡ bit_or came)) }
    ensures same { IsSamePost ports.old ports.new }
    ensures traced { (events : List Event) → TracesMail ports.old.seat ports.new.seat events events }
{
    let came = ports.is_aborted(book, thread, msg);
    said(came, last)
}

/// Drops a message of the thread that nobody has taken yet.
#[inline(always)]
pub(crate) fn drop_msg(
    ports: &mut Ports,
    book: &MsgBook,
    thread: u8,
    msg: MsgId,
    last: &mut Answer,
    trace: &mut Vec<Event>,
) -> AnswerKept
    requires table { ports.old.seat.table ≡ book.now.table }
    requires room { vec_len trace.old + 512 ≤ vec_capacity trace.old }
    ensures drops { (came : Result Rec Fault) × (DropsMail thread msg ports.old ports.new trace.old trace.new came × (last.new ≡ dropped_or msg came)) }
    ensures same { IsSamePost ports.old ports.new }
    ensures grew { Grew (desk_cpu ports.old.seat) 1 trace.old trace.new }
    ensures traced { TracesMail ports.old.seat ports.new.seat trace.old.items trace.new.items }
{
    let came = ports.drop_msg(book, thread, msg, trace);
    given_back(msg, came, last)
}

/// Gives the next item of the thread's port.
#[inline(always)]
pub(crate) fn get_port(
    ports: &mut Ports,
    book: &MsgBook,
    thread: u8,
    last: &mut Answer,
    trace: &mut Vec<Event>,
) -> AnswerKept
    requires table { ports.old.seat.table ≡ book.now.table }
    requires exists { thread < ports.old.threads }
    requires room { vec_len trace.old + 512 ≤ vec_capacity trace.old }
    ensures gets { (came : Result (Option Item) Fault) × (PostGets thread ports.old ports.new trace.old trace.new came × (last.new ≡ item_or came)) }
    ensures same { IsSamePost ports.old ports.new }
    ensures grew { Grew (desk_cpu ports.old.seat) 128 trace.old trace.new }
    ensures traced { TracesMail ports.old.seat ports.new.seat trace.old.items trace.new.items }
{
    let came = ports.get(book, thread, trace);
    shown(came, last)
}

/// Gives the next item of the thread's port at once; without one the thread gives up everything and waits.
#[inline(always)]
pub(crate) fn wait_port(
    hold: &mut Hold,
    ports: &mut Ports,
    bank: &Bank,
    book: &MsgBook,
    thread: u8,
    list: &TokList,
    last: &mut Answer,
    trace: &mut Vec<Event>,
) -> Next<AnswerKept>
    requires of { bank_of (seat_of hold.old) ≡ id_of bank.now }
    requires table { ports.old.seat.table ≡ book.now.table }
    requires exists { thread < ports.old.threads }
    requires mine { desk_cpu ports.old.seat ≡ (seat_of hold.old).cpu }
    requires held { holding (seat_of hold.old) ≡ holding_of list.now }
    requires room { vec_len trace.old + 512 ≤ vec_capacity trace.old }
    ensures waits { WaitsPort thread ports.old ports.new (seat_of hold.old) (seat_of hold.new) list.now trace.old trace.new (next_with result last.new) }
    ensures ran { Ran (IsFront list.now) 320 (seat_of hold.old) (seat_of hold.new) trace.old trace.new }
    ensures kept { KeepsAnswer result last.old last.new }
    ensures held { HoldsAfter (next_with result last.new) (holding (seat_of hold.new)) list.now }
    ensures same { IsSamePost ports.old ports.new }
    ensures named { (m : MsgId) → next_with result last.new ≡ Next.AwaitsReply m → m.0 < messages_of ports.new.seat }
    ensures traced { TracesMail ports.old.seat ports.new.seat trace.old.items trace.new.items }
{
    match ports.get(book, thread, trace) {
        Ok(Some(item)) => Next::Runs(shown(Ok(Some(item)), last)),
        Ok(None) => leave(hold, bank, list, Next::AwaitsItem, trace),
        Err(_) => leave(hold, bank, list, Next::AwaitsItem, trace),
    }
}
