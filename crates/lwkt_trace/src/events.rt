ghost use Rattle.std.specs.Prelude.{◌≡◌, []};
ghost use Rattle.serde_json.specs.View.{view, items_view};
ghost use Rattle.lwkt_script.specs.Outcome.{Gives, each};
ghost use Rattle.lwkt_trace.specs.Words.{with_token, with_message, with_place, with_round, with_record, event_with_round, event_with_record, event_of_four, with_value, with_section, whole_event, stated_at, stated_of_three, event_of_five, event_of_six, happened, event_of};
ghost use Rattle.lwkt_trace.specs.Format.{event};

use crate::sections::section_in;
use crate::traces::Stated;
use lwkt_base::limits::TRACE_EVENTS;
use lwkt_base::memory::push;
use lwkt_base::{Blob, CpuId, Fault, MsgId, Section, TokId};
use lwkt_core::Event;
use lwkt_script::fields::item_count;
use lwkt_script::records::blob_in;
use lwkt_script::steps::{small_at, whole_at};
use serde_json::Value;
use std::alloc::Global;

// The event of a word with a processor and a token, but for a written give.
fn with_token(word: &str, cpu: u8, tok: u8) -> Option<Event>
    ensures { result ≡ with_token word.now cpu tok }
{
    let cpu = CpuId(cpu);
    let tok = TokId(tok);
    match word {
        "load" => Some(Event::Load { cpu, tok }),
        "take" => Some(Event::Take { cpu, tok }),
        "share" => Some(Event::Share { cpu, tok }),
        "again" => Some(Event::Again { cpu, tok }),
        "mark" => Some(Event::Mark { cpu, tok }),
        "give_one" => Some(Event::GiveOne { cpu, tok }),
        "give_clean" => Some(Event::GiveClean { cpu, tok }),
        _ => None,
    }
}

// The event of a word with a processor and a message.
fn with_message(word: &str, cpu: u8, msg: u8) -> Option<Event>
    ensures { result ≡ with_message word.now cpu msg }
{
    let cpu = CpuId(cpu);
    let msg = MsgId(msg);
    match word {
        "drop" => Some(Event::DropMsg { cpu, msg }),
        "reply" => Some(Event::Reply { cpu, msg }),
        "reap" => Some(Event::Reap { cpu, msg }),
        "abort" => Some(Event::Abort { cpu, msg }),
        _ => None,
    }
}

// The event of a word with a processor and the number of what it is at.
fn with_place(word: &str, cpu: u8, place: u8) -> Option<Event>
    ensures { result ≡ with_place word.now cpu place }
{
    match with_token(word, cpu, place) {
        Some(event) => Some(event),
        None => with_message(word, cpu, place),
    }
}

// The event of a word with a processor, a message and a round.
fn with_round(word: &str, cpu: u8, msg: u8, round: u64) -> Option<Event>
    ensures { result ≡ with_round word.now cpu msg round }
{
    match word {
        "take_msg" => Some(Event::TakeMsg {
            cpu: CpuId(cpu),
            msg: MsgId(msg),
            round,
        }),
        _ => None,
    }
}

// The event of a word with a processor, a token and a record.
fn with_record(word: &str, cpu: u8, tok: u8, blob: Blob) -> Option<Event>
    ensures { result ≡ with_record word.now cpu tok blob }
{
    let cpu = CpuId(cpu);
    let tok = TokId(tok);
    match word {
        "read_record" => Some(Event::ReadBlob { cpu, tok, blob }),
        "write_record" => Some(Event::WriteBlob { cpu, tok, blob }),
        _ => None,
    }
}

// The event of a word, items 1 and 2, and a round.
fn event_with_round(word: &str, value: &Value) -> Option<Event>
    ensures { result ≡ event_with_round word.now (view value.now) }
{
    let cpu = small_at(value, 1)?;
    let msg = small_at(value, 2)?;
    with_round(word, cpu, msg, whole_at(value, 3)?)
}

// The event of a word, items 1 and 2, and a record of at most 65 bytes: one of 65 is too long, which is for the model to say.
fn event_with_record(word: &str, value: &Value) -> Option<Event>
    ensures { result ≡ event_with_record word.now (view value.now) }
{
    let cpu = small_at(value, 1)?;
    let tok = small_at(value, 2)?;
    with_record(word, cpu, tok, blob_in(65, value.get(3usize)?)?)
}

// The event of a word with four items in all.
fn event_of_four(word: &str, value: &Value) -> Option<Event>
    ensures { result ≡ event_of_four word.now (view value.now) }
{
    match event_with_round(word, value) {
        Some(event) => Some(event),
        None => event_with_record(word, value),
    }
}

// The event of a word with a processor, a token, a cell and a value, or a message, a target and a round.
fn with_value(word: &str, cpu: u8, place: u8, part: u8, value: u64) -> Option<Event>
    ensures { result ≡ with_value word.now cpu place part value }
{
    let cpu = CpuId(cpu);
    match word {
        "read" => Some(Event::Read {
            cpu,
            tok: TokId(place),
            cell: part,
            value,
        }),
        "write" => Some(Event::Write {
            cpu,
            tok: TokId(place),
            cell: part,
            value,
        }),
        "send" => Some(Event::Send {
            cpu,
            msg: MsgId(place),
            to: CpuId(part),
            round: value,
        }),
        _ => None,
    }
}

// The event of a word with a processor and a section.
fn with_section(word: &str, cpu: u8, section: Section) -> Option<Event>
    ensures { result ≡ with_section word.now cpu section }
{
    match word {
        "give_written" => Some(Event::GiveWritten {
            cpu: CpuId(cpu),
            tok: section.tok,
            section,
        }),
        _ => None,
    }
}

// An event that is stated whole.
fn whole_event(event: Option<Event>) -> Option<Stated>
    ensures { result ≡ whole_event event }
{
    Some(Stated::Whole(event?))
}

// What a word states with a processor and the number of what it is at: a written give's section isn't stated.
fn stated_at(word: &str, cpu: u8, place: u8) -> Option<Stated>
    ensures { result ≡ stated_at word.now cpu place }
{
    match word {
        "give_written" => Some(Stated::Given {
            cpu: CpuId(cpu),
            tok: TokId(place),
        }),
        _ => whole_event(with_place(word, cpu, place)),
    }
}

// What a word with three items in all states.
fn stated_of_three(word: &str, value: &Value) -> Option<Stated>
    ensures { result ≡ stated_of_three word.now (view value.now) }
{
    let cpu = small_at(value, 1)?;
    stated_at(word, cpu, small_at(value, 2)?)
}

// The event of a word with five items in all.
fn event_of_five(word: &str, value: &Value) -> Option<Event>
    ensures { result ≡ event_of_five word.now (view value.now) }
{
    let cpu = small_at(value, 1)?;
    let place = small_at(value, 2)?;
    let part = small_at(value, 3)?;
    with_value(word, cpu, place, part, whole_at(value, 4)?)
}

// The event of a word with six items in all.
fn event_of_six(word: &str, value: &Value) -> Option<Event>
    ensures { result ≡ event_of_six word.now (view value.now) }
{
    let cpu = small_at(value, 1)?;
    let tok = small_at(value, 2)?;
    with_section(word, cpu, section_in(tok, value)?)
}

// What a word states with so many items in all.
fn happened(word: &str, count: usize, value: &Value) -> Option<Stated>
    ensures { result ≡ happened word.now count (view value.now) }
{
    match count {
        3 => stated_of_three(word, value),
        4 => whole_event(event_of_four(word, value)),
        5 => whole_event(event_of_five(word, value)),
        6 => whole_event(event_of_six(word, value)),
        _ => None,
    }
}

/// The event that a list states: a word, and what goes with it. None where the value is no event.
pub fn event_of(value: &Value) -> Option<Stated>
    ensures { result ≡ event_of (view value.now) }
{
    let count = item_count(value)?;
    happened(value.get(0usize)?.as_str()?, count, value)
}

// The event after those.
fn event(before: &[Stated], value: &Value) -> Result<Stated, Fault>
    ensures { Gives (λ e. e) result (event before.now (view value.now)) }
{
    if before.len() >= TRACE_EVENTS {
        return Err(Fault::Script { place: 51_000_000 });
    }
    match event_of(value) {
        Some(event) => Ok(event),
        None => Err(Fault::Script {
            place: 1_000_000 + before.len() as u32,
        }),
    }
}

/// The events of a trace.
pub fn events_of(alloc: Global, items: &[Value]) -> Result<Vec<Stated>, Fault>
    ensures { Gives (λ v. v.items) result (each event [] (items_view items.now)) }
{
    let mut events = Vec::new(alloc);
    for item in items {
        let next = event(events.as_slice(), item)?;
        push(&mut events, next)?;
    }
    Ok(events)
}
