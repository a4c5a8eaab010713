ghost use Rattle.std.specs.Prelude.{◌≡◌, ◌++◌, take, OnOk, Some, string_bytes};
ghost use Rattle.lwkt_base.specs.Hex.{bytes_text};
ghost use Rattle.lwkt_core.specs.Events.{place_of};
ghost use Rattle.lwkt_script.specs.Member.{law_of};
ghost use Rattle.lwkt_trace.specs.Words.{IsWordOf, place_at, spaced_numbers, numbers_text};
ghost use Rattle.lwkt_trace.specs.Written.{word_of_event, law_text};

use lwkt_base::hexes::show_hex_or_none;
use lwkt_base::limits::RECORD_LIMIT;
use lwkt_base::memory::{push_str, put};
use lwkt_base::{Blob, Law, MsgId, OutOfMemory, TokId};
use lwkt_core::Event;

/// The word of an event: the one that reading a trace takes for it.
pub fn event_word(event: &Event) -> &'static str
    ensures reads { IsWordOf result.now event.now }
    ensures word { result.now ≡ word_of_event event.now }
{
    match event {
        Event::Load { .. } => "load",
        Event::Take { .. } => "take",
        Event::Share { .. } => "share",
        Event::Again { .. } => "again",
        Event::Mark { .. } => "mark",
        Event::GiveOne { .. } => "give_one",
        Event::GiveClean { .. } => "give_clean",
        Event::GiveWritten { .. } => "give_written",
        Event::Read { .. } => "read",
        Event::Write { .. } => "write",
        Event::ReadBlob { .. } => "read_record",
        Event::WriteBlob { .. } => "write_record",
        Event::Send { .. } => "send",
        Event::TakeMsg { .. } => "take_msg",
        Event::DropMsg { .. } => "drop",
        Event::Reply { .. } => "reply",
        Event::Reap { .. } => "reap",
        Event::Abort { .. } => "abort",
    }
}

/// What an event is at, by its number.
#[derive(Clone, Copy)]
pub enum Subject {
    Token(TokId),
    Message(MsgId),
}

/// The token or message that an event is at.
pub fn subject_of(event: &Event) -> Subject
    ensures { place_at result ≡ place_of event.now }
{
    match *event {
        Event::Load { tok, .. }
        | Event::Take { tok, .. }
        | Event::Share { tok, .. }
        | Event::Again { tok, .. }
        | Event::Mark { tok, .. }
        | Event::GiveOne { tok, .. }
        | Event::GiveClean { tok, .. }
        | Event::GiveWritten { tok, .. }
        | Event::Read { tok, .. }
        | Event::Write { tok, .. }
        | Event::ReadBlob { tok, .. }
        | Event::WriteBlob { tok, .. } => Subject::Token(tok),
        Event::Send { msg, .. }
        | Event::TakeMsg { msg, .. }
        | Event::DropMsg { msg, .. }
        | Event::Reply { msg, .. }
        | Event::Reap { msg, .. }
        | Event::Abort { msg, .. } => Subject::Message(msg),
    }
}

/// The name of a law: the one that reading a trace, or a script that has the law, takes for it.
pub fn law_name(law: Law) -> &'static str
    ensures reads { law_of result.now ≡ Some law }
    ensures word { result.now ≡ law_text law }
{
    match law {
        Law::Any => "any",
        Law::Sum => "sum",
        Law::Order => "order",
        Law::Cap => "cap",
        Law::Tally => "tally",
        Law::Len => "len",
    }
}

/// Appends the bytes of a record that are kept, two digits for each, or `-` where it has none.
pub fn show_bytes(out: &mut String, blob: &Blob) -> Result<(), OutOfMemory>
    ensures { OnOk result (string_bytes out.new ≡ string_bytes out.old ++ bytes_text (take RECORD_LIMIT blob.now)) }
{
    show_hex_or_none(blob.as_slice(), out)
}

// Appends numbers, each after a space.
fn show_spaced(out: &mut String, numbers: &[u64]) -> Result<(), OutOfMemory>
    ensures { OnOk result (string_bytes out.new ≡ string_bytes out.old ++ spaced_numbers numbers.now) }
{
    for number in numbers {
        put(out, (' ', *number))?;
    }
    Ok(())
}

/// Appends numbers, each after a space, or ` -` where there are none.
pub fn show_numbers(out: &mut String, numbers: &[u64]) -> Result<(), OutOfMemory>
    ensures { OnOk result (string_bytes out.new ≡ string_bytes out.old ++ numbers_text numbers.now) }
{
    if numbers.is_empty() {
        push_str(out, " -")
    } else {
        show_spaced(out, numbers)
    }
}
