//! A bank and a book that are opened together.
ghost use Rattle.std.specs.Prelude.{IfOk, IfErr, OnOk};
ghost use Rattle.lwkt_core.specs.Opening.{AreWithin, AllOpenLawfully};
ghost use Rattle.lwkt_bank.specs.Gathered.{IsOpened};
ghost use Rattle.lwkt_msg.specs.Desks.{AreOpened};
ghost use Rattle.lwkt_machine.specs.Opened.{DeclinesTables};

use lwkt_bank::{Bank, CpuSeat};
use lwkt_base::{Fault, MsgSpec, TokSpec};
use lwkt_msg::{MsgBook, MsgSeat};
use std::alloc::Global;

/// A bank and a book that were just opened, with their seats.
#[derive(Drop)]
pub struct Tables {
    /// The bank.
    pub bank: Bank,
    /// Its seats, by processor.
    pub seats: Vec<CpuSeat>,
    /// The book.
    pub book: MsgBook,
    /// Its seats, by processor.
    pub mails: Vec<MsgSeat>,
}

/// Opens a bank of these tokens and a book of these messages, for so many processors. The book comes first, so that a law that is
/// broken is said only within all limits.
///
/// Refused with `Limits` only if a limit is passed (`AreWithin`); with `LawBroken` only if it is within the limits and an opening
/// row, with the length of its record, breaks its law; and else with `Memory`, if memory is refused.
pub fn open_tables(
    alloc: Global,
    tokens: &[TokSpec],
    messages: &[MsgSpec],
    cpus: usize,
) -> Result<Tables, Fault>
    ensures bank { IfOk result (λ t. IsOpened cpus tokens.now t.bank t.seats.items) }
    ensures book { IfOk result (λ t. AreOpened cpus messages.now t.book t.mails.items) }
    ensures within { OnOk result (AreWithin cpus tokens.now messages.now × AllOpenLawfully tokens.now) }
    ensures refused { IfErr result (λ fault. DeclinesTables cpus tokens.now messages.now fault) }
{
    let (book, mails) = MsgBook::open(alloc, messages, cpus)?;
    let (bank, seats) = Bank::open(alloc, tokens, cpus)?;
    Ok(Tables {
        bank,
        seats,
        book,
        mails,
    })
}
