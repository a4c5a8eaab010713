//! Events that are written just as `writers` writes them. Such an event is read without a reader of JSON: what its bytes look
//! like is written again, and only the same bytes count.
ghost use Rattle.std.specs.Prelude.{◌≡◌, ◌++◌, IfSome, IsTrue, codes};
ghost use Rattle.lwkt_base.specs.Hex.{byte_text, hex_text};
ghost use Rattle.lwkt_trace.specs.Readback.{event_data, stated_alone, IsWritable, IsStatedBlob};
ghost use Rattle.lwkt_trace.specs.Printed.{HasWords};
ghost use Rattle.lwkt_trace.specs.Written.{comma, line_at, past_text, blob_text, rest_text, event_text};
ghost use Rattle.lwkt_trace.specs.Recognised.{IsWritten, IsNextWritten};

use crate::ranges::words_of_bytes;
use crate::traces::Stated;
use crate::words::event_word;
use arrayvec::ArrayVec;
use itoa::Buffer;
use lwkt_base::hexes::digits_of;
use lwkt_base::limits::RECORD_LIMIT;
use lwkt_base::{Blob, CpuId, MsgId, Row, Section, TokId};
use lwkt_core::Event;
use lwkt_script::records::blob_of;

// The most bytes of an event with a record of at most 64 bytes.
const TEXT_LIMIT: usize = 160;

// The most bytes of an event without a record and without a section.
const SHORT_LIMIT: usize = 64;

// The most numbers of an event.
const NUMBERS: usize = 4;

// Appends bytes, if there is room.
fn put<const SIZE: usize>(text: &mut ArrayVec<u8, SIZE>, bytes: &[u8]) -> Option<()>
    ensures { IfSome result (λ _. text.new.items ≡ text.old.items ++ bytes.now) }
{
    text.try_extend_from_slice(bytes).ok()
}

// Appends a number behind a comma.
fn put_number<const SIZE: usize>(text: &mut ArrayVec<u8, SIZE>, number: u64) -> Option<()>
    ensures { IfSome result (λ _. text.new.items ≡ text.old.items ++ comma number) }
{
    put(text, b",")?;
    put(text, Buffer::new().format(number).as_bytes())
}

// Appends three numbers, each with a comma before it.
fn put_three<const SIZE: usize>(
    text: &mut ArrayVec<u8, SIZE>,
    first: u64,
    second: u64,
    third: u64,
) -> Option<()>
    ensures { IfSome result (λ _. text.new.items ≡ text.old.items ++ (comma first ++ comma second ++ comma third)) }
{
    put_number(text, first)?;
    put_number(text, second)?;
    put_number(text, third)
}

// Appends a byte by its two digits.
fn put_byte<const SIZE: usize>(text: &mut ArrayVec<u8, SIZE>, byte: u8) -> Option<()>
    ensures { IfSome result (λ _. text.new.items ≡ text.old.items ++ byte_text byte) }
{
    let (high, low) = digits_of(byte);
    put(text, high.as_bytes())?;
    put(text, low.as_bytes())
}

// Appends bytes, each by its two digits.
fn put_digits<const SIZE: usize>(text: &mut ArrayVec<u8, SIZE>, bytes: &[u8]) -> Option<()>
    ensures { IfSome result (λ _. text.new.items ≡ text.old.items ++ hex_text bytes.now) }
{
    for byte in bytes {
        put_byte(text, *byte)?;
    }
    Some(())
}

// What stands behind the digits of a record's first 64 bytes.
fn record_end(blob: &Blob) -> &'static [u8]
    ensures { result.now ≡ past_text blob.now ++ codes "\"" }
{
    if blob.len() > 64 { b"00\"" } else { b"\"" }
}

// Appends a record behind a comma.
#[tactic(auto, unfolding(crate::specs::Written::blob_text))]
fn put_record<const SIZE: usize>(text: &mut ArrayVec<u8, SIZE>, blob: &Blob) -> Option<()>
    ensures { IfSome result (λ _. text.new.items ≡ text.old.items ++ (codes "," ++ blob_text blob.now)) }
{
    put(text, b",\"")?;
    put_digits(text, blob.as_slice())?;
    put(text, record_end(blob))
}

// Appends what an event is at, and what else it says; of a written give not its section.
fn put_rest<const SIZE: usize>(text: &mut ArrayVec<u8, SIZE>, event: &Event) -> Option<()>
    ensures { IfSome result (λ _. text.new.items ≡ text.old.items ++ rest_text event.now) }
{
    match *event {
        Event::Load { tok, .. }
        | Event::Take { tok, .. }
        | Event::Share { tok, .. }
        | Event::Again { tok, .. }
        | Event::Mark { tok, .. }
        | Event::GiveOne { tok, .. }
        | Event::GiveClean { tok, .. }
        | Event::GiveWritten { tok, .. } => put_number(text, u64::from(tok.0)),
        Event::Read {
            tok,
            cell,
            value,
            ..
        }
        | Event::Write {
            tok,
            cell,
            value,
            ..
        } => put_three(text, u64::from(tok.0), u64::from(cell), value),
        Event::ReadBlob { tok, blob, .. } | Event::WriteBlob { tok, blob, .. } => {
            put_number(text, u64::from(tok.0))?;
            put_record(text, &blob)
        }
        Event::Send { msg, to, round, .. } => {
            put_three(text, u64::from(msg.0), u64::from(to.0), round)
        }
        Event::TakeMsg { msg, round, .. } => {
            put_number(text, u64::from(msg.0))?;
            put_number(text, round)
        }
        Event::DropMsg { msg, .. }
        | Event::Reply { msg, .. }
        | Event::Reap { msg, .. }
        | Event::Abort { msg, .. } => put_number(text, u64::from(msg.0)),
    }
}

// Appends the text of an event.
fn put_event<const SIZE: usize>(text: &mut ArrayVec<u8, SIZE>, event: &Event) -> Option<()>
    ensures { IfSome result (λ _. text.new.items ≡ text.old.items ++ event_text event.now) }
{
    put(text, b"[\"")?;
    put(text, event_word(event).as_bytes())?;
    put(text, b"\"")?;
    put_number(text, u64::from(event.cpu().0))?;
    put_rest(text, event)?;
    put(text, b"]")
}

// What stands between the quotation mark that is byte 1 of a line and the next one, and what stands behind that.
fn parted(line: &[u8]) -> Option<(&[u8], &[u8])> {
    let quoted = line.get(2..)?;
    let end = quoted.iter().position(|byte| *byte == b'"')?;
    Some((&quoted[..end], &quoted[end + 1..]))
}

// What stands between the first two quotation marks.
fn quoted(bytes: &[u8]) -> Option<&[u8]> {
    let begin = bytes.iter().position(|byte| *byte == b'"')?;
    let behind = bytes.get(begin.saturating_add(1)..)?;
    let end = behind.iter().position(|byte| *byte == b'"')?;
    behind.get(..end)
}

// The numbers of bytes that have a comma before each, and how many there are.
fn numbers_of(bytes: &[u8]) -> ([u64; NUMBERS], usize) {
    let mut numbers = [0u64; NUMBERS];
    let mut count = 0usize;
    for byte in bytes {
        if *byte == b',' {
            count = count.saturating_add(1);
        } else if byte.is_ascii_digit() && 0 < count && count <= NUMBERS {
            let digit = u64::from(byte.wrapping_sub(b'0'));
            numbers[count - 1] = numbers[count - 1].wrapping_mul(10).wrapping_add(digit);
        }
    }
    (numbers, count)
}

// The event of a word with a processor and the number of what it is at.
fn at_place(word: &[u8], cpu: CpuId, place: u8) -> Option<Event>
    ensures { IfSome result (λ event. IsWritable event × HasWords (event_data event)) }
{
    let (tok, msg) = (TokId(place), MsgId(place));
    let row = Row::of(&[]);
    let section = Section {
        before: row,
        after: row,
        generation: 0,
        tok,
    };
    Some(match word {
        b"take" => Event::Take { cpu, tok },
        b"share" => Event::Share { cpu, tok },
        b"again" => Event::Again { cpu, tok },
        b"give_one" => Event::GiveOne { cpu, tok },
        b"give_clean" => Event::GiveClean { cpu, tok },
        b"give_written" => Event::GiveWritten { cpu, tok, section },
        b"load" => Event::Load { cpu, tok },
        b"mark" => Event::Mark { cpu, tok },
        b"reply" => Event::Reply { cpu, msg },
        b"reap" => Event::Reap { cpu, msg },
        b"drop" => Event::DropMsg { cpu, msg },
        b"abort" => Event::Abort { cpu, msg },
        _ => return None,
    })
}

// The event of a word with a processor, what it is at, and two numbers more.
fn at_part(word: &[u8], cpu: CpuId, place: u8, part: u8, value: u64) -> Option<Event>
    ensures { IfSome result (λ event. IsWritable event × HasWords (event_data event)) }
{
    let tok = TokId(place);
    match word {
        b"read" => Some(Event::Read {
            cpu,
            tok,
            cell: part,
            value,
        }),
        b"write" => Some(Event::Write {
            cpu,
            tok,
            cell: part,
            value,
        }),
        b"send" => Some(Event::Send {
            cpu,
            msg: MsgId(place),
            to: CpuId(part),
            round: value,
        }),
        _ => None,
    }
}

// The event of a word with a processor, a message and a round.
fn at_round(word: &[u8], cpu: CpuId, msg: u8, round: u64) -> Option<Event>
    ensures { IfSome result (λ event. IsWritable event × HasWords (event_data event)) }
{
    let msg = MsgId(msg);
    match word {
        b"take_msg" => Some(Event::TakeMsg { cpu, msg, round }),
        _ => None,
    }
}

// The record of at most 64 bytes that digits are.
fn record_of(digits: &[u8]) -> Option<Blob>
    ensures { IfSome result IsStatedBlob }
{
    let blob = blob_of(RECORD_LIMIT, digits)?;
    words_of_bytes(blob.as_slice());
    Some(blob)
}

// The event of a word with a processor, a token, and a record in quotation marks.
fn at_record(word: &[u8], cpu: CpuId, tok: u8, rest: &[u8]) -> Option<Event>
    ensures { IfSome result (λ event. IsWritable event × HasWords (event_data event)) }
{
    let tok = TokId(tok);
    let blob = record_of(quoted(rest)?)?;
    match word {
        b"read_record" => Some(Event::ReadBlob { cpu, tok, blob }),
        b"write_record" => Some(Event::WriteBlob { cpu, tok, blob }),
        _ => None,
    }
}

// The event of a word with a processor, what it is at, and a round or a record.
fn at_third(word: &[u8], cpu: CpuId, place: u8, round: u64, rest: &[u8]) -> Option<Event>
    ensures { IfSome result (λ event. IsWritable event × HasWords (event_data event)) }
{
    match at_round(word, cpu, place, round) {
        Some(event) => Some(event),
        None => at_record(word, cpu, place, rest),
    }
}

// A number as one of 8 bits.
fn small(number: u64) -> Option<u8> {
    u8::try_from(number).ok()
}

// The event that a line looks like.
fn likely_event(line: &[u8]) -> Option<Event>
    ensures { IfSome result (λ event. IsWritable event × HasWords (event_data event)) }
{
    let (word, rest) = parted(line)?;
    let ([cpu, place, third, fourth], count) = numbers_of(rest);
    let cpu = CpuId(small(cpu)?);
    let place = small(place)?;
    match count {
        2 => at_place(word, cpu, place),
        3 => at_third(word, cpu, place, third, rest),
        4 => at_part(word, cpu, place, small(third)?, fourth),
        _ => None,
    }
}

// Whether a line of at most 64 bytes is the text of an event.
fn is_short_text(line: &[u8], event: &Event) -> bool
    ensures { IsTrue result → line.now ≡ event_text event.now }
{
    let mut text: ArrayVec<u8, SHORT_LIMIT> = ArrayVec::new();
    match put_event(&mut text, event) {
        Some(()) => text.as_slice() == line,
        None => false,
    }
}

// Whether a line is the text of an event, if that has no record of more than 64 bytes.
fn is_long_text(line: &[u8], event: &Event) -> bool
    ensures { IsTrue result → line.now ≡ event_text event.now }
{
    let mut text: ArrayVec<u8, TEXT_LIMIT> = ArrayVec::new();
    match put_event(&mut text, event) {
        Some(()) => text.as_slice() == line,
        None => false,
    }
}

// Whether a line is the text of an event. Room for a long one is taken only for a long line.
fn is_text(line: &[u8], event: &Event) -> bool
    ensures { IsTrue result → line.now ≡ event_text event.now }
{
    if line.len() <= SHORT_LIMIT {
        is_short_text(line, event)
    } else {
        is_long_text(line, event)
    }
}

/// The event that a line is, if the line has just the bytes which this crate writes for it. None says nothing of the line: it
/// may be an event that is written in another way, or one with a section or a record of more than 64 bytes.
pub fn written_event(line: &[u8]) -> Option<Event>
    ensures { IfSome result (IsWritten line.now) }
{
    if line.len() > TEXT_LIMIT {
        return None;
    }
    let event = likely_event(line)?;
    if is_text(line, &event) {
        Some(event)
    } else {
        None
    }
}

/// An event as a trace states it where no section is stated.
pub fn stated_alone(event: &Event) -> Stated
    ensures { result ≡ stated_alone event.now }
{
    match *event {
        Event::GiveWritten { cpu, tok, .. } => Stated::Given { cpu, tok },
        other => Stated::Whole(other),
    }
}

// What stands before the event of a number, each on a line of its own.
fn break_before(number: usize) -> &'static [u8]
    ensures { result.now ≡ line_at number }
{
    if number == 0 { b"\n" } else { b",\n" }
}

/// The event of a number, which a text begins with just as this crate writes a list of events, and how many bytes it and what
/// stands before it are. None says nothing of the text.
pub fn next_written(text: &[u8], number: usize) -> Option<(Event, usize)>
    ensures { IfSome result (λ found. IsNextWritten text.now number found.0 found.1) }
{
    let before = break_before(number);
    let (first, behind) = text.split_at_checked(before.len())?;
    if first != before {
        return None;
    }
    let end = behind.iter().position(|byte| *byte == b']')?;
    let (line, _) = behind.split_at_checked(end.saturating_add(1))?;
    let event = written_event(line)?;
    Some((event, before.len() + line.len()))
}
