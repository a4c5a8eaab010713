//! The log of a thread, told.
ghost use Rattle.std.specs.Prelude.{◌≡◌, ◌++◌, OnOk, None, string_bytes};
ghost use Rattle.std.specs.Option.{option_copied};
ghost use Rattle.lwkt_report.specs.Report.{numbered_lines, record_text};
ghost use Rattle.lwkt_told.specs.Told.{lead, label_part, call_told, reply_told, refusal_numbered, refusal_told, entry_told, before_entry, entry_part, log_part};

use crate::called::{show_called, show_cell};
use crate::labels::{Cell, label_of};
use lwkt_base::hexes::show_hex_or_none;
use lwkt_base::memory::{Piece, push_str, put};
use lwkt_base::{Blob, Call, Entry, Fault, MsgId, OutOfMemory};
use lwkt_code::Step;
use lwkt_text::Names;

/// The faults for which a step may be refused.
pub const REFUSALS: [Fault; 26] = [
    Fault::ListFull,
    Fault::Upgrade,
    Fault::NotLast,
    Fault::NotHeld,
    Fault::SwapSame,
    Fault::SwapShort,
    Fault::NoToken,
    Fault::NoCell,
    Fault::SharedWrite,
    Fault::Broken,
    Fault::Worn,
    Fault::Overflow,
    Fault::TallyOnly,
    Fault::Busy,
    Fault::LaneFull,
    Fault::NotOwner,
    Fault::NotOut,
    Fault::NotAbortable,
    Fault::NotDropable,
    Fault::SelfDo,
    Fault::NoPort,
    Fault::NotTaken,
    Fault::Again,
    Fault::RoundsOut,
    Fault::SharedRecord,
    Fault::RecordLong,
];

/// The bytes of a record, two digits for each, or `-` for none, as a piece of a text.
#[derive(Clone, Copy)]
pub struct RecordTold<'a> {
    /// The record.
    pub blob: &'a Blob,
}

impl<'a> Piece for RecordTold<'a> {
    ghost text = { λ r. record_text r.blob.now };

    fn put_on(self, out: &mut String) -> Result<(), OutOfMemory> {
        show_record(self.blob, out)
    }
}

/// An entry of a log by itself, as a piece of a text.
#[derive(Clone, Copy)]
pub struct EntryTold<'a> {
    /// The names of the text.
    pub names: &'a Names,
    /// The entry.
    pub entry: &'a Entry,
}

impl<'a> Piece for EntryTold<'a> {
    ghost text = { λ e. entry_told e.names.now None e.entry.now };

    fn put_on(self, out: &mut String) -> Result<(), OutOfMemory> {
        show_entry(self.names, None, self.entry, out)
    }
}

// What stands before an entry, by the entry before it.
fn lead(before: Option<&Entry>, entry: &Entry) -> &'static str
    ensures { result.now ≡ lead (option_copied before.entry) entry.now }
{
    match (before, entry) {
        (None, Entry::Value(_)) => "   saw ",
        (None, _) => "   ",
        (Some(Entry::Value(_)), Entry::Value(_)) => " ",
        (Some(_), Entry::Value(_)) => ", saw ",
        (Some(_), _) => ", ",
    }
}

/// Appends the bytes of a record, two digits for each, or `-` for none.
pub(crate) fn show_record(blob: &Blob, out: &mut String) -> Result<(), OutOfMemory>
    ensures { OnOk result (string_bytes out.new ≡ string_bytes out.old ++ record_text blob.now) }
{
    show_hex_or_none(blob.as_slice(), out)
}

// Appends the cell that a value was read from, if it is known.
fn show_label(names: &Names, label: Option<Cell>, out: &mut String) -> Result<(), OutOfMemory>
    ensures { OnOk result (string_bytes out.new ≡ string_bytes out.old ++ label_part names.now label) }
{
    match label {
        None => Ok(()),
        Some(cell) => {
            show_cell(names, cell.tok, cell.number, out)?;
            push_str(out, "=")
        }
    }
}

// Appends a word, a message, and what it asks for.
fn show_call(
    names: &Names,
    word: &str,
    message: MsgId,
    call: Call,
    out: &mut String,
) -> Result<(), OutOfMemory>
    ensures { OnOk result (string_bytes out.new ≡ string_bytes out.old ++ call_told names.now word.now message call) }
{
    push_str(out, word)?;
    show_called(names.messages.as_slice(), message.0 as usize, out)?;
    put(out, (" op ", call.op, " arg ", call.arg))
}

// Appends a reply.
fn show_reply(
    names: &Names,
    message: MsgId,
    error: u32,
    outcome: u64,
    out: &mut String,
) -> Result<(), OutOfMemory>
    ensures { OnOk result (string_bytes out.new ≡ string_bytes out.old ++ reply_told names.now message error outcome) }
{
    push_str(out, "answered ")?;
    show_called(names.messages.as_slice(), message.0 as usize, out)?;
    put(out, (" error ", error, " result ", outcome))
}

// The refusal of a number.
fn refusal_numbered(number: u8) -> Option<&'static Fault>
    ensures { option_copied result ≡ refusal_numbered number }
{
    REFUSALS.iter().find(|fault| fault.number() == number)
}

// Appends a refusal, with the message of its fault.
fn show_refusal(number: u8, out: &mut String) -> Result<(), OutOfMemory>
    ensures { OnOk result (string_bytes out.new ≡ string_bytes out.old ++ refusal_told number) }
{
    put(out, ("refused ", number))?;
    match refusal_numbered(number) {
        Some(fault) => put(out, (" (", *fault, ")")),
        None => Ok(()),
    }
}

// Appends an entry.
fn show_entry(
    names: &Names,
    label: Option<Cell>,
    entry: &Entry,
    out: &mut String,
) -> Result<(), OutOfMemory>
    ensures { OnOk result (string_bytes out.new ≡ string_bytes out.old ++ entry_told names.now label entry.now) }
{
    match entry {
        Entry::Value(value) => {
            show_label(names, label, out)?;
            put(out, *value)
        }
        Entry::Bytes(blob) => {
            push_str(out, "found ")?;
            show_record(blob, out)
        }
        Entry::Aborted(asked) => push_str(out, if *asked { "aborted 1" } else { "aborted 0" }),
        Entry::Request(message, call) => show_call(names, "took ", *message, *call, out),
        Entry::Reply(message, error, outcome) => show_reply(names, *message, *error, *outcome, out),
        Entry::NoMessage => push_str(out, "empty"),
        Entry::Dropped(message, call) => show_call(names, "lost ", *message, *call, out),
        Entry::Refused(number) => show_refusal(*number, out),
        Entry::Failed(number) => put(out, ("assert ", *number, " failed")),
    }
}

// The entry before one.
fn before_entry(log: &[Entry], i: usize) -> Option<&Entry>
    ensures { option_copied result ≡ before_entry log.now i }
{
    if i == 0 { None } else { log.get(i - 1) }
}

// Appends an entry of a log, and what stands before it.
fn show_part(
    names: &Names,
    program: &[Step],
    log: &[Entry],
    i: usize,
    entry: &Entry,
    out: &mut String,
) -> Result<(), OutOfMemory>
    ensures { OnOk result (string_bytes out.new ≡ string_bytes out.old ++ entry_part names.now program.now log.now i entry.now) }
{
    push_str(out, lead(before_entry(log, i), entry))?;
    show_entry(names, label_of(program, log, i), entry, out)
}

/// Appends all entries of a log.
pub(crate) fn show_log(
    names: &Names,
    program: &[Step],
    log: &[Entry],
    out: &mut String,
) -> Result<(), OutOfMemory>
    ensures { OnOk result (string_bytes out.new ≡ string_bytes out.old ++ log_part names.now program.now log.now) }
{
    for (i, entry) in log.iter().enumerate() {
        show_part(names, program, log, i, entry, out)?;
    }
    Ok(())
}
