//! A body's ask, performed: one call for each.
ghost use Rattle.std.specs.Prelude.{◌≡◌};
ghost use Rattle.lwkt_bank.specs.Seats.{id_of, bank_of, tokens_of};
ghost use Rattle.lwkt_hold.specs.Holds.{seat_of};
ghost use Rattle.lwkt_hold.specs.Fronts.{IsBetween};
ghost use Rattle.lwkt_hold.specs.Runs.{Ran};
ghost use Rattle.lwkt_cpu.specs.Nexts.{kept_list, next_with};
ghost use Rattle.lwkt_cpu.specs.Table.{Performs, MayPerform, EndsInOrder};
ghost use Rattle.lwkt_cpu.specs.Traced.{TracesMail};

use crate::calls::{add, get, read, read_blob, rel, swap, try_get, write, write_blob};
use crate::leaves::{leave, leave_ready};
use crate::mails::{abort, drop_msg, get_port, is_aborted, reply, send, send_and_wait, wait_port};
use crate::nexts::{AnswerKept, Next};
use lwkt_bank::Bank;
use lwkt_base::{Answer, Ask, Fault, Mode, Ref, TokId, TokList};
use lwkt_core::Event;
use lwkt_hold::Hold;
use lwkt_msg::MsgBook;
use lwkt_port::Ports;

#[inline]
fn exclusive(tok: TokId) -> Ref
    ensures { (result.tok ≡ tok) × (result.mode ≡ Mode.Exclusive) }
{
    Ref {
        tok,
        mode: Mode::Exclusive,
    }
}

#[inline]
fn shared(tok: TokId) -> Ref
    ensures { (result.tok ≡ tok) × (result.mode ≡ Mode.Shared) }
{
    Ref {
        tok,
        mode: Mode::Shared,
    }
}

/// Performs the ask of a running thread and says what comes next for the thread, which has this number on its processor, 0 to 15.
/// If it goes on running or is ready, the answer, which may be a refusal, is written to `last`. It is written there at once, since
/// one on its way takes the room of a record.
///
/// The caller's conditions: the seats are of this bank and book and of one processor, the ports have this thread, the seat at the
/// bank holds exactly the thread's list, and the trace has room for 512 events. No ask makes more than 320.
#[inline(always)]
pub fn perform(
    hold: &mut Hold,
    ports: &mut Ports,
    bank: &Bank,
    book: &MsgBook,
    thread: u8,
    list: &mut TokList,
    ask: &Ask,
    last: &mut Answer,
    trace: &mut Vec<Event>,
) -> Next<AnswerKept>
    requires { MayPerform (id_of bank.now) book.now.table thread (seat_of hold.old) ports.old list.old trace.old 512 }
    ensures performs { Performs (id_of bank.now) thread (seat_of hold.old) (seat_of hold.new) ports.old ports.new list.old list.new trace.old trace.new ask.now (next_with result last.new) }
    ensures ran { Ran (IsBetween list.old (kept_list (next_with result last.new) list.new)) 320 (seat_of hold.old) (seat_of hold.new) trace.old trace.new }
    ensures traced { TracesMail ports.old.seat ports.new.seat trace.old.items trace.new.items }
    ensures order { EndsInOrder (seat_of hold.new) (tokens_of (bank_of (seat_of hold.old))) list.old list.new ports.old ports.new last.old last.new result }
{
    match *ask {
        Ask::Get(tok) => get(hold, bank, list, exclusive(tok), last, trace),
        Ask::GetShared(tok) => get(hold, bank, list, shared(tok), last, trace),
        Ask::TryGet(tok) => Next::Runs(try_get(hold, bank, list, tok, last, trace)),
        Ask::Rel(tok) => Next::Runs(rel(hold, bank, list, tok, last, trace)),
        Ask::Swap => Next::Runs(swap(list, last)),
        Ask::Read(tok, cell) => Next::Runs(read(hold, bank, list, tok, cell, last, trace)),
        Ask::Write(tok, cell, value) => {
            Next::Runs(write(hold, bank, list, tok, cell, value, last, trace))
        }
        Ask::Add(tok, k) => Next::Runs(add(hold, bank, list, tok, k, last, trace)),
        Ask::ReadBlob(tok) => Next::Runs(read_blob(hold, bank, list, tok, last, trace)),
        Ask::WriteBlob(tok, ref blob) => {
            Next::Runs(write_blob(hold, bank, list, tok, blob, last, trace))
        }
        Ask::Send(msg, to, call, flags) => {
            Next::Runs(send(ports, book, thread, msg, to, call, flags, last, trace))
        }
        Ask::Do(msg, to, call) => {
            send_and_wait(
                hold, ports, bank, book, thread, list, msg, to, call, last, trace,
            )
        }
        Ask::Reply(msg, error, outcome) => {
            Next::Runs(reply(ports, book, thread, msg, error, outcome, last, trace))
        }
        Ask::Abort(msg) => Next::Runs(abort(ports, book, thread, msg, last, trace)),
        Ask::IsAborted(msg) => Next::Runs(is_aborted(ports, book, thread, msg, last)),
        Ask::DropMsg(msg) => Next::Runs(drop_msg(ports, book, thread, msg, last, trace)),
        Ask::GetPort => Next::Runs(get_port(ports, book, thread, last, trace)),
        Ask::WaitPort => wait_port(hold, ports, bank, book, thread, list, last, trace),
        Ask::Yield => leave_ready(hold, bank, list, last, trace),
        Ask::Exit => leave(hold, bank, list, Next::Exits, trace),
        Ask::Fail(_) => leave(hold, bank, list, Next::Faults(Fault::Assertion), trace),
    }
}
