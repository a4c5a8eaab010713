//! Processors of a script at their bank and their book, a seat that looks at words, and tables of turns.
ghost use Rattle.std.specs.Prelude.{◌≡◌, All, IfOk};
ghost use Rattle.lwkt_bank.specs.Seats.{id_of, bank_of};
ghost use Rattle.lwkt_machine.specs.Machines.{IsOfMachine};

use crate::script_machines::parts_of;
use lwkt_bank::{Bank, CpuSeat};
use lwkt_base::{Entry, Fault, ThreadState, TokId};
use lwkt_core::Event;
use lwkt_cpu::{Cpu, Drove, Turned};
use lwkt_machine::ScriptBody;
use lwkt_msg::MsgBook;
use std::alloc::Global;

/// The processors of a script but the last one, and that one's seat at the bank, which holds nothing and looks at words.
#[derive(Drop)]
pub struct Board {
    bank: Bank,
    book: MsgBook,
    cpus: Vec<Cpu<ScriptBody>>,
    watch: CpuSeat,
    /// The events of what was done last.
    trace: Vec<Event>,
    ghost sit: { All (IsOfMachine (id_of bank) book) cpus.items },
    ghost watches: { bank_of watch ≡ id_of bank },
}

/// A turn of this processor: its answer, and the words of tokens 0 and 1 behind it, 0 where there is no such token.
pub struct Line(pub usize, pub Turned, pub u64, pub u64);

/// An entry of a log, as tables have it.
#[derive(Clone, Copy, PartialEq, Eq)]
pub enum Logged {
    /// The number of a fault.
    Fault(u8),
    Value(u64),
    /// Message, op and arg.
    Request(u8, u32, u64),
    /// Message, error and result.
    Reply(u8, u32, u64),
    NoMessage,
    /// One that no table has.
    Other,
}

/// A script, turns of its processors, and the logs of their first threads after these.
pub struct Row {
    pub script: &'static [u8],
    pub lines: &'static [Line],
    pub logs: &'static [&'static [Logged]],
}

/// A turn in which thread 0 was polled.
pub const RAN: Turned = Turned::Ran { thread: 0 };

/// A turn in which none was.
pub const IDLE: Turned = Turned::Idle;

fn entry_in(entry: &Entry) -> Logged {
    match *entry {
        Entry::Refused(number) => Logged::Fault(number),
        Entry::Value(value) => Logged::Value(value),
        Entry::Request(msg, call) => Logged::Request(msg.0, call.op, call.arg),
        Entry::Reply(msg, error, outcome) => Logged::Reply(msg.0, error, outcome),
        Entry::NoMessage => Logged::NoMessage,
        _ => Logged::Other,
    }
}

// The seat of a processor, which is stopped.
fn seat_of(
    alloc: Global,
    bank: &Bank,
    book: &MsgBook,
    mut cpu: Cpu<ScriptBody>,
) -> Result<CpuSeat, Fault>
    requires { IsOfMachine (id_of bank.now) book.now cpu }
    ensures { IfOk result (λ seat. bank_of seat ≡ id_of bank.now) }
{
    let mut trace = Vec::new(alloc);
    cpu.stop(bank, book, &mut trace)?;
    let (seat, _mail, _bodies) = cpu.retire();
    Ok(seat)
}

// A turn of a processor, and of the one of this number.
fn turn_one(
    bank: &Bank,
    book: &MsgBook,
    cpu: &mut Cpu<ScriptBody>,
    trace: &mut Vec<Event>,
) -> Result<Turned, Fault>
    requires { IsOfMachine (id_of bank.now) book.now cpu.old }
    ensures { IsOfMachine (id_of bank.now) book.now cpu.new }
{
    cpu.turn(bank, book, trace)
}

fn turn_of(
    bank: &Bank,
    book: &MsgBook,
    cpus: &mut Vec<Cpu<ScriptBody>>,
    at: usize,
    trace: &mut Vec<Event>,
) -> Result<Turned, Fault>
    requires { All (IsOfMachine (id_of bank.now) book.now) cpus.old.items }
    ensures { All (IsOfMachine (id_of bank.now) book.now) cpus.new.items }
{
    match cpus.get_mut(at) {
        Some(cpu) => turn_one(bank, book, cpu, trace),
        None => Err(Fault::Limits),
    }
}

// Turns of a processor, at most so many, and of the one of this number.
fn drive_one(
    bank: &Bank,
    book: &MsgBook,
    cpu: &mut Cpu<ScriptBody>,
    limit: u64,
    trace: &mut Vec<Event>,
) -> Result<Drove, Fault>
    requires { IsOfMachine (id_of bank.now) book.now cpu.old }
    ensures { IsOfMachine (id_of bank.now) book.now cpu.new }
{
    cpu.drive(bank, book, limit, trace)
}

fn drive_of(
    bank: &Bank,
    book: &MsgBook,
    cpus: &mut Vec<Cpu<ScriptBody>>,
    at: usize,
    limit: u64,
    trace: &mut Vec<Event>,
) -> Result<Drove, Fault>
    requires { All (IsOfMachine (id_of bank.now) book.now) cpus.old.items }
    ensures { All (IsOfMachine (id_of bank.now) book.now) cpus.new.items }
{
    match cpus.get_mut(at) {
        Some(cpu) => drive_one(bank, book, cpu, limit, trace),
        None => Err(Fault::Limits),
    }
}

// A processor stops, and the one of this number.
fn stop_one(
    bank: &Bank,
    book: &MsgBook,
    cpu: &mut Cpu<ScriptBody>,
    trace: &mut Vec<Event>,
) -> Result<(), Fault>
    requires { IsOfMachine (id_of bank.now) book.now cpu.old }
    ensures { IsOfMachine (id_of bank.now) book.now cpu.new }
{
    cpu.stop(bank, book, trace)
}

fn stop_of(
    bank: &Bank,
    book: &MsgBook,
    cpus: &mut Vec<Cpu<ScriptBody>>,
    at: usize,
    trace: &mut Vec<Event>,
) -> Result<(), Fault>
    requires { All (IsOfMachine (id_of bank.now) book.now) cpus.old.items }
    ensures { All (IsOfMachine (id_of bank.now) book.now) cpus.new.items }
{
    match cpus.get_mut(at) {
        Some(cpu) => stop_one(bank, book, cpu, trace),
        None => Err(Fault::Limits),
    }
}

impl Board {
    /// The board of a script, whose last processor has no threads.
    pub fn open(alloc: Global, script: &[u8]) -> Result<Board, Fault> {
        let (bank, book, mut cpus) = parts_of(alloc, script)?;
        let Some(last) = cpus.pop() else {
            return Err(Fault::Limits);
        };
        let watch = seat_of(alloc, &bank, &book, last)?;
        let trace = Vec::new(alloc);
        Ok(Board {
            bank,
            book,
            cpus,
            watch,
            trace,
        })
    }

    /// The events of what was done last.
    pub fn events(&self) -> &[Event] {
        self.trace.as_slice()
    }

    // The word of a token, 0 if there is none.
    fn word(&mut self, tok: u8) -> u64 {
        if tok as usize >= self.bank.tokens() {
            return 0;
        }
        self.watch.word(&self.bank, TokId(tok))
    }

    /// Whether the words of tokens 0 and 1 are these.
    pub fn has_words(&mut self, first: u64, second: u64) -> bool {
        self.word(0) == first && self.word(1) == second
    }

    // Makes one turn.
    fn try_turn(&mut self, at: usize) -> Result<Turned, Fault> {
        self.trace.clear();
        turn_of(&self.bank, &self.book, &mut self.cpus, at, &mut self.trace)
    }

    /// Makes a turn. Where memory was refused the call is made again: nothing has changed then.
    pub fn turn(&mut self, at: usize) -> Result<Turned, Fault> {
        match self.try_turn(at) {
            Err(Fault::Memory(_)) => self.try_turn(at),
            answer => answer,
        }
    }

    /// Makes turns of a processor, at most so many.
    pub fn drive(&mut self, at: usize, limit: u64) -> Result<Drove, Fault> {
        self.trace.clear();
        drive_of(
            &self.bank,
            &self.book,
            &mut self.cpus,
            at,
            limit,
            &mut self.trace,
        )
    }

    /// Stops a processor.
    pub fn stop(&mut self, at: usize) -> Result<(), Fault> {
        self.trace.clear();
        stop_of(&self.bank, &self.book, &mut self.cpus, at, &mut self.trace)
    }

    // Whether a turn goes as it is written.
    fn makes(&mut self, line: &Line) -> Result<bool, Fault> {
        let turned = self.turn(line.0)?;
        Ok(turned == line.1 && self.has_words(line.2, line.3))
    }

    /// Makes turns, up to the first that goes otherwise than it is written. Whether there is none.
    pub fn makes_all(&mut self, lines: &[Line]) -> Result<bool, Fault> {
        for line in lines {
            if !self.makes(line)? {
                return Ok(false);
            }
        }
        Ok(true)
    }

    /// What the first thread of a processor is doing.
    pub fn state(&self, at: usize) -> Option<ThreadState> {
        Some(self.cpus.get(at)?.thread(0)?.state)
    }

    /// How many messages a processor owes a reply.
    pub fn owed(&self, at: usize) -> usize {
        match self.cpus.get(at) {
            Some(cpu) => cpu.owed(),
            None => 0,
        }
    }

    /// The log of the first thread of a processor.
    pub fn log(&self, at: usize) -> &[Entry] {
        match self.cpus.get(at) {
            Some(cpu) => match cpu.body(0) {
                Some(body) => body.log(),
                None => &[],
            },
            None => &[],
        }
    }

    /// Whether the first thread of a processor has this log.
    pub fn has_log(&self, at: usize, wanted: &[Logged]) -> bool {
        let log = self.log(at);
        log.len() == wanted.len()
            && log
                .iter()
                .zip(wanted)
                .all(|(entry, wanted_entry)| entry_in(entry) == *wanted_entry)
    }

    // Whether the first threads of the processors have these logs.
    fn has_logs(&self, logs: &[&[Logged]]) -> bool {
        for (at, log) in logs.iter().enumerate() {
            if !self.has_log(at, log) {
                return false;
            }
        }
        true
    }
}

// Whether the turns of a row go as they are written, with these logs.
fn play(alloc: Global, row: &Row) -> Result<bool, Fault> {
    let mut board = Board::open(alloc, row.script)?;
    Ok(board.makes_all(row.lines)? && board.has_logs(row.logs))
}

/// Whether a row goes as it is written. Where a call for memory was refused it is played once more.
pub fn goes(alloc: Global, row: &Row) -> bool {
    match play(alloc, row) {
        Err(Fault::Memory(_)) => play(alloc, row) == Ok(true),
        other => other == Ok(true),
    }
}
