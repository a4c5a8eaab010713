ghost use Rattle.std.specs.Prelude.{◌≡◌, ◌++◌, OnOk, string_bytes};
ghost use Rattle.lwkt_core.specs.Events.{place_of};
ghost use Rattle.lwkt_checker.specs.Said.{said, word_said, place_said, record_said, stated_record_said, rest_said, generation_said, section_said, stated_section_said, event_said, owner_said};

use lwkt_base::memory::{push_str, put};
use lwkt_base::{Blob, OutOfMemory, Owner};
use lwkt_core::Event;
use lwkt_trace::Stated;
use lwkt_trace::words::{Subject, event_word, show_bytes, show_numbers, subject_of};

/// Appends words of the verdict's sentence to the output, as they are.
#[tactic(auto, unfolding(crate::specs::Said::said))]
pub fn say(out: &mut String, words: &str) -> Result<(), OutOfMemory>
    ensures { OnOk result (string_bytes out.new ≡ string_bytes out.old ++ said words.now) }
{
    push_str(out, words)
}

// The word of an event, as in a trace, but for a message's taking.
fn word_of(event: &Event) -> &'static str
    ensures { result.now ≡ word_said event.now }
{
    match event {
        Event::TakeMsg { .. } => "take",
        _ => event_word(event),
    }
}

// What an event is at, in words.
fn show_place(out: &mut String, event: &Event) -> Result<(), OutOfMemory>
    ensures { OnOk result (string_bytes out.new ≡ string_bytes out.old ++ place_said (place_of event.now)) }
{
    match subject_of(event) {
        Subject::Token(tok) => put(out, (" of token ", tok.0)),
        Subject::Message(msg) => put(out, (" of message ", msg.0)),
    }
}

/// Appends a record: `record 616263`, `record -` where it is empty, `no record` where there is none.
pub fn show_record(out: &mut String, blob: &Option<Blob>) -> Result<(), OutOfMemory>
    ensures { OnOk result (string_bytes out.new ≡ string_bytes out.old ++ record_said blob.now) }
{
    match blob {
        None => push_str(out, "no record"),
        Some(blob) => {
            push_str(out, "record ")?;
            show_bytes(out, blob)
        }
    }
}

// The record that an event says: one that is too long by its length.
#[tactic(auto, unfolding(crate::specs::Said::stated_record_said))]
fn show_stated_record(out: &mut String, blob: Blob) -> Result<(), OutOfMemory>
    ensures { OnOk result (string_bytes out.new ≡ string_bytes out.old ++ stated_record_said blob) }
{
    if blob.len() > 64 {
        return put(out, (", a record of ", blob.len(), " bytes"));
    }
    push_str(out, ", ")?;
    show_record(out, &Some(blob))
}

// What else an event says.
fn show_rest(out: &mut String, event: &Event) -> Result<(), OutOfMemory>
    ensures { OnOk result (string_bytes out.new ≡ string_bytes out.old ++ rest_said event.now) }
{
    match *event {
        Event::Read { cell, value, .. } | Event::Write { cell, value, .. } => {
            put(out, (", cell ", cell, ", value ", value))
        }
        Event::ReadBlob { blob, .. } | Event::WriteBlob { blob, .. } => {
            show_stated_record(out, blob)
        }
        Event::Send { to, round, .. } => put(out, (" to ", to.0, ", round ", round)),
        Event::TakeMsg { round, .. } => put(out, (", round ", round)),
        _ => Ok(()),
    }
}

// Appends the generation of a section.
fn show_generation(out: &mut String, generation: u64) -> Result<(), OutOfMemory>
    ensures { OnOk result (string_bytes out.new ≡ string_bytes out.old ++ generation_said generation) }
{
    say(out, "generation ")?;
    put(out, (generation, ", rows"))
}

/// Appends a section in words: `generation 2, rows 1 2 to 3 4`.
#[tactic(auto, unfolding(crate::specs::Said::section_said))]
pub fn show_section(
    out: &mut String,
    generation: u64,
    before: &[u64],
    after: &[u64],
) -> Result<(), OutOfMemory>
    ensures { OnOk result (string_bytes out.new ≡ string_bytes out.old ++ section_said generation before.now after.now) }
{
    show_generation(out, generation)?;
    show_numbers(out, before)?;
    push_str(out, " to")?;
    show_numbers(out, after)
}

// Appends the section that is stated of a written give.
fn show_stated_section(out: &mut String, stated: &Stated) -> Result<(), OutOfMemory>
    ensures { OnOk result (string_bytes out.new ≡ string_bytes out.old ++ stated_section_said stated.now) }
{
    match stated {
        Stated::Whole(Event::GiveWritten { section, .. }) => {
            push_str(out, ", ")?;
            show_section(
                out,
                section.generation,
                section.before.as_slice(),
                section.after.as_slice(),
            )
        }
        _ => Ok(()),
    }
}

/// Appends an event in words: `take by 1 of token 0`; a written give's section only where it is stated.
#[tactic(auto, unfolding(crate::specs::Said::event_said))]
pub fn show_stated(out: &mut String, event: &Event, stated: &Stated) -> Result<(), OutOfMemory>
    ensures { OnOk result (string_bytes out.new ≡ string_bytes out.old ++ event_said event.now stated.now) }
{
    put(out, (word_of(event), " by ", event.cpu().0))?;
    show_place(out, event)?;
    show_rest(out, event)?;
    show_stated_section(out, stated)
}

/// Appends where a message is: `out from 0 to 1`.
pub fn show_owner(out: &mut String, owner: Owner) -> Result<(), OutOfMemory>
    ensures { OnOk result (string_bytes out.new ≡ string_bytes out.old ++ owner_said owner) }
{
    match owner {
        Owner::Rest { origin } => put(out, ("at rest with ", origin.0)),
        Owner::Out { origin, target } => put(out, ("out from ", origin.0, " to ", target.0)),
        Owner::With { origin, target } => put(out, ("with ", target.0, " from ", origin.0)),
        Owner::Back { origin, target } => put(out, ("back to ", origin.0, " from ", target.0)),
    }
}
