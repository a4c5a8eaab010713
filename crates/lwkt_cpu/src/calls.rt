//! The asks about tokens, each as the call on the hold that it makes.
ghost use Rattle.std.specs.Prelude.{◌≡◌, ℕ, ◌<◌, List, All, Result};
ghost use Rattle.lwkt_base.specs.Holding.{holding_of};
ghost use Rattle.lwkt_base.specs.declared.faults.Fault.{Fault};
ghost use Rattle.lwkt_bank.specs.Seats.{id_of, bank_of, tokens_of, holding};
ghost use Rattle.lwkt_hold.specs.Holds.{seat_of};
ghost use Rattle.lwkt_hold.specs.Ready.{IsReady};
ghost use Rattle.lwkt_hold.specs.Fronts.{IsFront, IsBetween};
ghost use Rattle.lwkt_hold.specs.Runs.{Ran};
ghost use Rattle.lwkt_cpu.specs.Nexts.{kept_list, HoldsAfter, next_with, KeepsAnswer, done_or, value_or, bytes_or};
ghost use Rattle.lwkt_cpu.specs.Calls.{Tries, Rels, Swaps, Reads, Stores, Adds, ReadsRecord, StoresRecord};
ghost use Rattle.lwkt_cpu.specs.Table.{Gets};

use crate::leaves::be_ready;
use crate::nexts::{AnswerKept, Next};
use lwkt_bank::Bank;
use lwkt_base::{Answer, Blob, Fault, Ref, TokId, TokList};
use lwkt_core::Event;
use lwkt_hold::{Acquired, Hold};

// Keeps the answer for a call that answers nothing.
#[inline(always)]
pub(crate) fn done(came: Result<(), Fault>, last: &mut Answer) -> AnswerKept
    ensures { last.new ≡ done_or came }
{
    match came {
        Ok(()) => *last = Answer::Done,
        Err(fault) => *last = Answer::Refused(fault),
    }
    AnswerKept
}

// Keeps the answer for a call that answers a value.
#[inline(always)]
fn value(came: Result<u64, Fault>, last: &mut Answer) -> AnswerKept
    ensures { last.new ≡ value_or came }
{
    match came {
        Ok(value) => *last = Answer::Value(value),
        Err(fault) => *last = Answer::Refused(fault),
    }
    AnswerKept
}

// Keeps the answer for a call that answers a record.
#[inline(always)]
fn bytes(came: Result<Blob, Fault>, last: &mut Answer) -> AnswerKept
    ensures { last.new ≡ bytes_or came }
{
    match came {
        Ok(blob) => *last = Answer::Bytes(blob),
        Err(fault) => *last = Answer::Refused(fault),
    }
    AnswerKept
}

/// Asks for a reference. Where it is missed, the references before it are given up, and the thread is ready.
#[inline(always)]
pub(crate) fn get(
    hold: &mut Hold,
    bank: &Bank,
    list: &mut TokList,
    new: Ref,
    last: &mut Answer,
    trace: &mut Vec<Event>,
) -> Next<AnswerKept>
    requires { IsReady (id_of bank.now) (seat_of hold.old) list.old trace.old 512 }
    ensures ran { Ran (IsBetween list.old (kept_list (next_with result last.new) list.new)) 320 (seat_of hold.old) (seat_of hold.new) trace.old trace.new }
    ensures held { HoldsAfter (next_with result last.new) (holding (seat_of hold.new)) list.new }
    ensures there { All (λ r. r.tok.0 < tokens_of (bank_of (seat_of hold.old))) list.old → All (λ r. r.tok.0 < tokens_of (bank_of (seat_of hold.old))) list.new }
    ensures kept { KeepsAnswer result last.old last.new }
    ensures gets { Gets (id_of bank.now) (seat_of hold.old) (seat_of hold.new) list.old list.new new trace.old trace.new (next_with result last.new) }
{
    match hold.get(bank, list, new, trace) {
        Ok(Acquired::Got) => Next::Runs(done(Ok(()), last)),
        Ok(Acquired::MustSwitch { .. }) => {
            let held = list.len() - 1;
            be_ready(hold, bank, list, held, last, trace)
        }
        Err(fault) => Next::Runs(done(Err(fault), last)),
    }
}

/// Asks for an exclusive reference without blocking.
#[inline(always)]
pub(crate) fn try_get(
    hold: &mut Hold,
    bank: &Bank,
    list: &mut TokList,
    tok: TokId,
    last: &mut Answer,
    trace: &mut Vec<Event>,
) -> AnswerKept
    requires { IsReady (id_of bank.now) (seat_of hold.old) list.old trace.old 512 }
    ensures ran { Ran (IsBetween list.old list.new) 320 (seat_of hold.old) (seat_of hold.new) trace.old trace.new }
    ensures held { holding (seat_of hold.new) ≡ holding_of list.new }
    ensures there { All (λ r. r.tok.0 < tokens_of (bank_of (seat_of hold.old))) list.old → All (λ r. r.tok.0 < tokens_of (bank_of (seat_of hold.old))) list.new }
    ensures tries { (came : Result (Unit {0}) Fault) × (Tries (id_of bank.now) (seat_of hold.old) (seat_of hold.new) list.old list.new tok trace.old trace.new came × (last.new ≡ done_or came)) }
{
    let came = hold.try_get(bank, list, tok, trace);
    done(came, last)
}

/// Gives the last reference back.
#[inline(always)]
pub(crate) fn rel(
    hold: &mut Hold,
    bank: &Bank,
    list: &mut TokList,
    tok: TokId,
    last: &mut Answer,
    trace: &mut Vec<Event>,
) -> AnswerKept
    requires { IsReady (id_of bank.now) (seat_of hold.old) list.old trace.old 512 }
    ensures ran { Ran (IsBetween list.old list.new) 320 (seat_of hold.old) (seat_of hold.new) trace.old trace.new }
    ensures held { holding (seat_of hold.new) ≡ holding_of list.new }
    ensures there { All (λ r. r.tok.0 < tokens_of (bank_of (seat_of hold.old))) list.old → All (λ r. r.tok.0 < tokens_of (bank_of (seat_of hold.old))) list.new }
    ensures rels { (came : Result (Unit {0}) Fault) × (Rels (seat_of hold.old) (seat_of hold.new) list.old list.new tok trace.old trace.new came × (last.new ≡ done_or came)) }
{
    let came = hold.rel(bank, list, tok, trace);
    done(came, last)
}

/// Exchanges the two last references.
#[inline(always)]
pub(crate) fn swap(list: &mut TokList, last: &mut Answer) -> AnswerKept
    ensures held { holding_of list.new ≡ holding_of list.old }
    ensures there { (n : ℕ) → All (λ r. r.tok.0 < n) list.old → All (λ r. r.tok.0 < n) list.new }
    ensures swaps { (came : Result (Unit {0}) Fault) × (Swaps list.old list.new came × (last.new ≡ done_or came)) }
{
    let came = list.swap();
    done(came, last)
}

/// Reads a cell.
#[inline(always)]
pub(crate) fn read(
    hold: &mut Hold,
    bank: &Bank,
    list: &TokList,
    tok: TokId,
    cell: u8,
    last: &mut Answer,
    trace: &mut Vec<Event>,
) -> AnswerKept
    requires { IsReady (id_of bank.now) (seat_of hold.old) list.now trace.old 512 }
    ensures ran { Ran (IsFront list.now) 1 (seat_of hold.old) (seat_of hold.new) trace.old trace.new }
    ensures held { holding (seat_of hold.new) ≡ holding_of list.now }
    ensures reads { (came : Result ℕ Fault) × (Reads (id_of bank.now) (seat_of hold.old) (seat_of hold.new) list.now tok cell trace.old trace.new came × (last.new ≡ value_or came)) }
{
    let came = hold.read(bank, list, tok, cell, trace);
    value(came, last)
}

/// Stores a value in a cell.
#[inline(always)]
pub(crate) fn write(
    hold: &mut Hold,
    bank: &Bank,
    list: &TokList,
    tok: TokId,
    cell: u8,
    value: u64,
    last: &mut Answer,
    trace: &mut Vec<Event>,
) -> AnswerKept
    requires { IsReady (id_of bank.now) (seat_of hold.old) list.now trace.old 512 }
    ensures ran { Ran (IsFront list.now) 1 (seat_of hold.old) (seat_of hold.new) trace.old trace.new }
    ensures held { holding (seat_of hold.new) ≡ holding_of list.now }
    ensures stores { (came : Result (Unit {0}) Fault) × (Stores (id_of bank.now) (seat_of hold.old) (seat_of hold.new) list.now tok cell value trace.old trace.new came × (last.new ≡ done_or came)) }
{
    let came = hold.write(bank, list, tok, cell, value, trace);
    done(came, last)
}

/// Adds to the cell of a Tally token.
#[inline(always)]
pub(crate) fn add(
    hold: &mut Hold,
    bank: &Bank,
    list: &TokList,
    tok: TokId,
    k: u64,
    last: &mut Answer,
    trace: &mut Vec<Event>,
) -> AnswerKept
    requires { IsReady (id_of bank.now) (seat_of hold.old) list.now trace.old 512 }
    ensures ran { Ran (IsFront list.now) 1 (seat_of hold.old) (seat_of hold.new) trace.old trace.new }
    ensures held { holding (seat_of hold.new) ≡ holding_of list.now }
    ensures adds { (came : Result (Unit {0}) Fault) × (Adds (id_of bank.now) (seat_of hold.old) (seat_of hold.new) list.now tok k trace.old trace.new came × (last.new ≡ done_or came)) }
{
    let came = hold.add(bank, list, tok, k, trace);
    done(came, last)
}

/// Reads a record.
pub(crate) fn read_blob(
    hold: &mut Hold,
    bank: &Bank,
    list: &TokList,
    tok: TokId,
    last: &mut Answer,
    trace: &mut Vec<Event>,
) -> AnswerKept
    requires { IsReady (id_of bank.now) (seat_of hold.old) list.now trace.old 512 }
    ensures ran { Ran (IsFront list.now) 1 (seat_of hold.old) (seat_of hold.new) trace.old trace.new }
    ensures held { holding (seat_of hold.new) ≡ holding_of list.now }
    ensures reads { (came : Result (List ℕ) Fault) × (ReadsRecord (id_of bank.now) (seat_of hold.old) (seat_of hold.new) list.now tok trace.old trace.new came × (last.new ≡ bytes_or came)) }
{
    let came = hold.read_blob(bank, list, tok, trace);
    bytes(came, last)
}

/// Stores a record.
pub(crate) fn write_blob(
    hold: &mut Hold,
    bank: &Bank,
    list: &TokList,
    tok: TokId,
    blob: &Blob,
    last: &mut Answer,
    trace: &mut Vec<Event>,
) -> AnswerKept
    requires { IsReady (id_of bank.now) (seat_of hold.old) list.now trace.old 512 }
    ensures ran { Ran (IsFront list.now) 1 (seat_of hold.old) (seat_of hold.new) trace.old trace.new }
    ensures held { holding (seat_of hold.new) ≡ holding_of list.now }
    ensures stores { (came : Result (Unit {0}) Fault) × (StoresRecord (id_of bank.now) (seat_of hold.old) (seat_of hold.new) list.now tok blob.now trace.old trace.new came × (last.new ≡ done_or came)) }
{
    let came = hold.write_blob(bank, list, tok, blob, trace);
    done(came, last)
}
