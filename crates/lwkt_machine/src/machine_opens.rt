//! The opening of a machine.
ghost use Rattle.std.specs.Prelude.{◌≡◌, ◌≤◌, ◌↔◌, All, IfErr, IfOk, IsTrue, OnOk, length};
ghost use Rattle.lwkt_bank.specs.Gathered.{IsOpened};
ghost use Rattle.lwkt_core.specs.Opening.{AreWithin, AllOpenLawfully};
ghost use Rattle.lwkt_msg.specs.Desks.{AreOpened};
ghost use Rattle.lwkt_machine.specs.Machines.{AreKept};
ghost use Rattle.lwkt_machine.specs.Opened.{Declines, IsOpenedMachine, IsWithin};

use crate::lasting::Lasting;
use crate::machines::Machine;
use crate::processors::seat_all;
use crate::seatings::{Rest, origins_of};
use crate::tables::{Tables, open_tables};
use lwkt_base::limits::{CPU_LIMIT, THREAD_LIMIT};
use lwkt_base::{Fault, MsgSpec, OutOfMemory, TokSpec};
use lwkt_lane::{Lanes, open_lanes};
use std::alloc::Global;

// Whether no list has more bodies than a processor may have threads.
fn are_few<B>(lists: &[Vec<B>]) -> bool
    ensures { IsTrue result ↔ All (λ v. length v.items ≤ THREAD_LIMIT) lists.now }
{
    lists.iter().all(|list| list.len() <= THREAD_LIMIT)
}

impl<B: Lasting + Drop> Machine<B> {
    // A machine at tables that were just opened.
    fn open_at(
        alloc: Global,
        tokens: &[TokSpec],
        messages: &[MsgSpec],
        tables: Tables,
        bodies: Vec<Vec<B>>,
    ) -> Result<Self, OutOfMemory>
        requires bank { IsOpened (length bodies.items) tokens.now tables.bank tables.seats.items }
        requires book { AreOpened (length bodies.items) messages.now tables.book tables.mails.items }
        requires cpus { length bodies.items ≤ CPU_LIMIT }
        requires few { All (λ v. length v.items ≤ THREAD_LIMIT) bodies.items }
        requires kept { AreKept B.kept bodies.items }
        ensures { IfOk result (λ machine. IsOpenedMachine tokens.now messages.now bodies.items machine) }
    {
        let _ = tokens;
        let Tables {
            bank,
            seats,
            book,
            mails,
        } = tables;
        let Lanes { outs, ins } = open_lanes(alloc, bodies.len())?;
        let origins = origins_of(alloc, messages)?;
        let mut rest = Rest {
            seats,
            mails,
            outs,
            ins,
        };
        let cpus = seat_all(alloc, &bank, &book, &mut rest, &origins, bodies)?;
        Ok(Machine { bank, book, cpus })
    }

    /// Opens a machine of these tokens and messages, with a processor for each list of bodies and a thread for each body, in order.
    /// Each body is as it was handed in, and no thread was polled. That what a body keeps holds of each is the caller's condition.
    ///
    /// Refused with `Limits` only if a limit is passed: 1 to 8 processors, 64 tokens, 4 cells or 64 bytes of a token, 64 messages, 16
    /// bodies of a processor, or another one of the model's (`AreWithin`); with `LawBroken` only if it is within the limits and an
    /// opening row, with the length of its record, breaks its law; and else with `Memory`, if memory is refused.
    pub fn open(
        alloc: Global,
        tokens: &[TokSpec],
        messages: &[MsgSpec],
        bodies: Vec<Vec<B>>,
    ) -> Result<Self, Fault>
        requires kept { AreKept B.kept bodies.items }
        ensures ok { IfOk result (λ machine. IsOpenedMachine tokens.now messages.now bodies.items machine) }
        ensures within { OnOk result (IsWithin tokens.now messages.now bodies.items × AllOpenLawfully tokens.now) }
        ensures refused { IfErr result (λ fault. Declines tokens.now messages.now bodies.items fault) }
    {
        if !are_few(&bodies) {
            return Err(Fault::Limits);
        }
        let tables = open_tables(alloc, tokens, messages, bodies.len())?;
        Ok(Machine::open_at(alloc, tokens, messages, tables, bodies)?)
    }
}
