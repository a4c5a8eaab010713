ghost use Rattle.std.specs.Prelude.{◌≡◌, ◌++◌, OnOk, IfOk, slice_get, string_bytes};
ghost use Rattle.lwkt_checker.specs.Stated.{event_stated};
ghost use Rattle.lwkt_checker.specs.Said.{rows_said, records_said, unwritten_record_said, value_said, cell_said, raised_said, length_said, broken_law_text, broken_said, own_said, token_lack_said, message_lack_said, place_lack_said, lack_said, some_lack_said, reason_text, IsReason};
ghost use Rattle.lwkt_core.specs.Events.{place_of};

use crate::holdings::show_holders;
use crate::plays::event_stated;
use crate::words::{say, show_owner, show_record, show_section, show_stated};
use lwkt_base::memory::{push_str, put};
use lwkt_base::{Law, OutOfMemory};
use lwkt_core::{Event, Lack, Message, State, Token};
use lwkt_trace::Stated;
use lwkt_trace::words::{Subject, law_name, show_numbers, subject_of};
use std::alloc::Global;

// Appends the row and the first row of a token.
#[tactic(auto, unfolding(crate::specs::Said::rows_said))]
fn show_rows(out: &mut String, token: &Token) -> Result<(), OutOfMemory>
    ensures { OnOk result (string_bytes out.new ≡ string_bytes out.old ++ rows_said token.now) }
{
    push_str(out, "the row is")?;
    show_numbers(out, token.row.as_slice())?;
    push_str(out, " and was at the beginning of the section")?;
    show_numbers(out, token.first.as_slice())
}

// Appends the record and the first record of a token.
#[tactic(auto, unfolding(crate::specs::Said::records_said))]
fn show_records(out: &mut String, token: &Token) -> Result<(), OutOfMemory>
    ensures { OnOk result (string_bytes out.new ≡ string_bytes out.old ++ records_said token.now) }
{
    push_str(out, "it has ")?;
    show_record(out, &token.blob)?;
    push_str(out, " and had at the beginning of the section ")?;
    show_record(out, &token.first_blob)
}

// Appends that the record hasn't changed, where there is one.
fn show_unwritten_record(out: &mut String, token: &Token) -> Result<(), OutOfMemory>
    ensures { OnOk result (string_bytes out.new ≡ string_bytes out.old ++ unwritten_record_said token.now) }
{
    if token.blob.is_none() {
        return Ok(());
    }
    push_str(out, ", and ")?;
    show_records(out, token)
}

// Appends that neither the row nor, where there is one, the record of a token has changed.
fn show_unwritten(out: &mut String, token: &Token) -> Result<(), OutOfMemory>
    ensures { OnOk result (string_bytes out.new ≡ string_bytes out.old ++ rows_said token.now ++ unwritten_record_said token.now) }
{
    show_rows(out, token)?;
    show_unwritten_record(out, token)
}

// Appends the value of a cell, or how many there are.
fn show_value(out: &mut String, row: &[u64], cell: u8) -> Result<(), OutOfMemory>
    ensures { OnOk result (string_bytes out.new ≡ string_bytes out.old ++ value_said row.now (slice_get row.now cell)) }
{
    match row.get(cell as usize) {
        Some(value) => put(out, ("the cell has ", *value)),
        None => put(out, ("it has ", row.len(), " cells")),
    }
}

// Appends the value of the cell that an event is at.
fn show_cell(out: &mut String, token: &Token, event: &Event) -> Result<(), OutOfMemory>
    ensures { OnOk result (string_bytes out.new ≡ string_bytes out.old ++ cell_said token.now event.now) }
{
    match *event {
        Event::Read { cell, .. } | Event::Write { cell, .. } => {
            show_value(out, token.row.as_slice(), cell)
        }
        _ => Ok(()),
    }
}

// Appends the value of the cell that an event is at, which is more than its own.
fn show_raised(out: &mut String, token: &Token, event: &Event) -> Result<(), OutOfMemory>
    ensures { OnOk result (string_bytes out.new ≡ string_bytes out.old ++ raised_said token.now event.now) }
{
    show_cell(out, token, event)?;
    say(out, ", and a tally is only raised")
}

// Appends the length of a token's record, where its law is of it.
fn show_length(out: &mut String, token: &Token) -> Result<(), OutOfMemory>
    ensures { OnOk result (string_bytes out.new ≡ string_bytes out.old ++ length_said token.now.law token.now.blob) }
{
    match (token.law, token.blob) {
        (Law::Len, Some(blob)) => put(out, (", the record has ", blob.len(), " bytes")),
        _ => Ok(()),
    }
}

// Appends the law that a row breaks.
#[tactic(auto, unfolding(crate::specs::Said::broken_law_text))]
fn show_law(out: &mut String, law: Law, param: u64) -> Result<(), OutOfMemory>
    ensures { OnOk result (string_bytes out.new ≡ string_bytes out.old ++ broken_law_text law param) }
{
    say(out, " breaks the law ")?;
    push_str(out, law_name(law))?;
    put(out, (" ", param))
}

// Appends the law of a token, and the row that breaks it.
#[tactic(auto, unfolding(crate::specs::Said::broken_said))]
fn show_broken(out: &mut String, token: &Token) -> Result<(), OutOfMemory>
    ensures { OnOk result (string_bytes out.new ≡ string_bytes out.old ++ broken_said token.now) }
{
    push_str(out, "the row")?;
    show_numbers(out, token.row.as_slice())?;
    show_law(out, token.law, token.param)?;
    show_length(out, token)
}

// Appends the section of a token that would end now.
fn show_own_section(out: &mut String, token: &Token) -> Result<(), OutOfMemory>
    ensures { OnOk result (string_bytes out.new ≡ string_bytes out.old ++ own_said token.now) }
{
    say(out, "the section is of ")?;
    show_section(
        out,
        token.generation,
        token.first.as_slice(),
        token.row.as_slice(),
    )
}

// Appends why a token doesn't meet a need of an event.
fn show_token_lack(
    out: &mut String,
    token: &Token,
    event: &Event,
    lack: Lack,
) -> Result<(), OutOfMemory>
    ensures { OnOk result (string_bytes out.new ≡ string_bytes out.old ++ token_lack_said token.now event.now lack) }
{
    match lack {
        Lack::LastGeneration => put(out, ("its generation ", token.generation, " is the last")),
        Lack::LastExclusive => push_str(out, "it is the last reference of an exclusive holding"),
        Lack::FurtherReferences => put(
            out,
            (
                token.held_by(event.cpu()).references(),
                " references are held",
            ),
        ),
        Lack::RowChanged => show_rows(out, token),
        Lack::RowUnchanged => show_unwritten(out, token),
        Lack::RecordChanged => show_records(out, token),
        Lack::NoRecord => push_str(out, "it has no record"),
        Lack::OtherRecord => {
            push_str(out, "it has ")?;
            show_record(out, &token.blob)
        }
        Lack::RecordLong => push_str(out, "a record has at most 64 bytes"),
        Lack::LawBroken => show_broken(out, token),
        Lack::OtherSection => show_own_section(out, token),
        Lack::NoCell | Lack::OtherValue => show_cell(out, token, event),
        Lack::LessThanBefore => show_raised(out, token, event),
        _ => show_holders(out, token),
    }
}

// Appends why a message doesn't meet a need of an event.
fn show_message_lack(
    out: &mut String,
    message: &Message,
    cpus: usize,
    lack: Lack,
) -> Result<(), OutOfMemory>
    ensures { OnOk result (string_bytes out.new ≡ string_bytes out.old ++ message_lack_said message.now cpus lack) }
{
    match lack {
        Lack::NoTarget => put(out, ("there are ", cpus, " processors")),
        _ => {
            show_owner(out, message.owner)?;
            put(out, (", round ", message.round))
        }
    }
}

// Appends why what an event is at doesn't meet a need of it.
fn show_place_lack(
    out: &mut String,
    state: &State,
    event: &Event,
    lack: Lack,
) -> Result<(), OutOfMemory>
    ensures { OnOk result (string_bytes out.new ≡ string_bytes out.old ++ place_lack_said state.now event.now lack (place_of event.now)) }
{
    match subject_of(event) {
        Subject::Token(tok) => match state.token(tok) {
            Some(token) => show_token_lack(out, token, event, lack),
            None => push_str(out, "no such token"),
        },
        Subject::Message(msg) => match state.message(msg) {
            Some(message) => show_message_lack(out, message, state.cpus(), lack),
            None => push_str(out, "no such message"),
        },
    }
}

// Appends which need of an event isn't met.
fn show_lack(out: &mut String, state: &State, event: &Event, lack: Lack) -> Result<(), OutOfMemory>
    ensures { OnOk result (string_bytes out.new ≡ string_bytes out.old ++ lack_said state.now event.now lack) }
{
    match lack {
        Lack::NoProcessor => put(out, ("there are ", state.cpus(), " processors")),
        Lack::TooManyReferences => push_str(out, "the processor has 32 references"),
        _ => show_place_lack(out, state, event, lack),
    }
}

// Appends which need of an event isn't met, where one is named.
fn show_some_lack(
    out: &mut String,
    state: &State,
    event: &Event,
    lack: Option<Lack>,
) -> Result<(), OutOfMemory>
    ensures { OnOk result (string_bytes out.new ≡ string_bytes out.old ++ some_lack_said state.now event.now lack) }
{
    match lack {
        None => Ok(()),
        Some(lack) => show_lack(out, state, event, lack),
    }
}

// The line of an index, the event that is stated there, and a need of it.
#[tactic(auto, unfolding(crate::specs::Said::reason_text))]
fn line_of(
    alloc: Global,
    state: &State,
    index: usize,
    stated: &Stated,
    lack: Option<Lack>,
) -> Result<String, OutOfMemory>
    ensures { IfOk result (λ text. string_bytes text ≡ reason_text state.now index stated.now lack) }
{
    let event = event_stated(state, stated);
    let mut out = String::new(alloc);
    put(&mut out, ("event ", index, ": "))?;
    show_stated(&mut out, &event, stated)?;
    push_str(&mut out, ": ")?;
    show_some_lack(&mut out, state, &event, lack)?;
    push_str(&mut out, "\n")?;
    Ok(out)
}

/// The line that says which need of the event that is stated at an index isn't met in a state.
pub fn reason(
    alloc: Global,
    state: &State,
    index: usize,
    stated: &Stated,
) -> Result<String, OutOfMemory>
    ensures { IfOk result (λ text. IsReason state.now index stated.now (string_bytes text)) }
{
    let event = event_stated(state, stated);
    let lack = state.lack(&event);
    line_of(alloc, state, index, stated, lack)
}
