//! Writes a trace: the opening of a script, the events of a run, and the closing values of its report.
ghost use Rattle.std.specs.Prelude.{◌≡◌, ◌++◌, OnOk, IfOk, string_bytes};
ghost use Rattle.std.specs.Fmt.{decimal};
ghost use Rattle.std.specs.List.{list_any};
ghost use Rattle.lwkt_trace.specs.Written.{comma_at, line_at, member_name, parted, list_text, blob_text, guard_text, cells_text, law_member_text, param_text, gen_text, token_text, message_text, rest_text, event_text, owner_json, end_text, tallies_text, last_blob_text, row_text, generation_text, tally_text, last_record_text, has_record, records_text, listed_text, cpus_text, tokens_text, messages_text, events_text, rows_text, generations_text, all_tallies_text, ends_text, closing_text, trace_text, front_text, last_text, back_text};

use crate::words::{event_word, law_name};
use lwkt_base::hexes::show_hex;
use lwkt_base::memory::{push_str, put};
use lwkt_base::{Blob, Cells, Law, MsgEnd, MsgSpec, OutOfMemory, Owner, TokSpec};
use lwkt_core::Event;
use lwkt_report::{Closing, TokenLine};
use lwkt_script::Script;
use std::alloc::Global;

// Appends what stands before the part of a number in a list.
fn show_comma(out: &mut String, number: usize) -> Result<(), OutOfMemory>
    ensures { OnOk result (string_bytes out.new ≡ string_bytes out.old ++ comma_at number) }
{
    if number == 0 {
        Ok(())
    } else {
        push_str(out, ",")
    }
}

// Appends the same, where each part has a line of its own.
fn show_break(out: &mut String, number: usize) -> Result<(), OutOfMemory>
    ensures { OnOk result (string_bytes out.new ≡ string_bytes out.old ++ line_at number) }
{
    push_str(out, if number == 0 { "\n" } else { ",\n" })
}

// Appends numbers, each but the first behind a comma.
fn show_parts(out: &mut String, numbers: &[u64]) -> Result<(), OutOfMemory>
    ensures { OnOk result (string_bytes out.new ≡ string_bytes out.old ++ parted comma_at decimal 0 numbers.now) }
{
    for (place, number) in numbers.iter().enumerate() {
        show_comma(out, place)?;
        put(out, *number)?;
    }
    Ok(())
}

// Appends the name of a member, and what stands between it and its value.
#[tactic(auto, unfolding(crate::specs::Written::member_name))]
fn show_name(out: &mut String, name: &str) -> Result<(), OutOfMemory>
    ensures { OnOk result (string_bytes out.new ≡ string_bytes out.old ++ member_name name.now) }
{
    push_str(out, "\"")?;
    push_str(out, name)?;
    push_str(out, "\":")
}

// Appends numbers as a list.
#[tactic(auto, unfolding(crate::specs::Written::list_text))]
fn show_list(out: &mut String, numbers: &[u64]) -> Result<(), OutOfMemory>
    ensures { OnOk result (string_bytes out.new ≡ string_bytes out.old ++ list_text numbers.now) }
{
    push_str(out, "[")?;
    show_parts(out, numbers)?;
    push_str(out, "]")
}

// Appends a record: its digits in quotes.
#[tactic(auto, unfolding(crate::specs::Written::blob_text))]
fn show_blob(out: &mut String, blob: &Blob) -> Result<(), OutOfMemory>
    ensures { OnOk result (string_bytes out.new ≡ string_bytes out.old ++ blob_text blob.now) }
{
    push_str(out, "\"")?;
    show_hex(blob.as_slice(), out)?;
    push_str(out, if blob.len() > 64 { "00\"" } else { "\"" })
}

// Appends the record of a token, where it has one.
fn show_guard(out: &mut String, blob: &Option<Blob>) -> Result<(), OutOfMemory>
    ensures { OnOk result (string_bytes out.new ≡ string_bytes out.old ++ guard_text blob.now) }
{
    match blob {
        None => Ok(()),
        Some(blob) => {
            push_str(out, ",")?;
            show_name(out, "record")?;
            show_blob(out, blob)
        }
    }
}

// Appends the cells of a token.
#[tactic(auto, unfolding(crate::specs::Written::cells_text))]
fn show_cells(out: &mut String, cells: &[u64]) -> Result<(), OutOfMemory>
    ensures { OnOk result (string_bytes out.new ≡ string_bytes out.old ++ cells_text cells.now) }
{
    show_name(out, "cells")?;
    show_list(out, cells)?;
    push_str(out, ",")
}

// Appends the law of a token.
#[tactic(auto, unfolding(crate::specs::Written::law_member_text))]
fn show_law(out: &mut String, law: Law) -> Result<(), OutOfMemory>
    ensures { OnOk result (string_bytes out.new ≡ string_bytes out.old ++ law_member_text law) }
{
    show_name(out, "law")?;
    push_str(out, "\"")?;
    push_str(out, law_name(law))?;
    push_str(out, "\",")
}

// Appends the parameter of a law.
#[tactic(auto, unfolding(crate::specs::Written::param_text))]
fn show_param(out: &mut String, param: u64) -> Result<(), OutOfMemory>
    ensures { OnOk result (string_bytes out.new ≡ string_bytes out.old ++ param_text param) }
{
    show_name(out, "param")?;
    put(out, (param, ","))
}

// Appends the generation of a token.
#[tactic(auto, unfolding(crate::specs::Written::gen_text))]
fn show_gen(out: &mut String, generation: u64) -> Result<(), OutOfMemory>
    ensures { OnOk result (string_bytes out.new ≡ string_bytes out.old ++ gen_text generation) }
{
    show_name(out, "gen")?;
    put(out, generation)
}

// Appends a token of the opening.
fn show_token(out: &mut String, spec: &TokSpec) -> Result<(), OutOfMemory>
    ensures { OnOk result (string_bytes out.new ≡ string_bytes out.old ++ token_text spec.now) }
{
    push_str(out, "{")?;
    show_cells(out, spec.cells.as_slice())?;
    show_law(out, spec.law)?;
    show_param(out, spec.param)?;
    show_gen(out, spec.generation)?;
    show_guard(out, &spec.blob)?;
    push_str(out, "}")
}

// Appends a message of the opening.
fn show_message(out: &mut String, spec: &MsgSpec) -> Result<(), OutOfMemory>
    ensures { OnOk result (string_bytes out.new ≡ string_bytes out.old ++ message_text spec.now) }
{
    put(
        out,
        ("{\"of\":[", spec.origin.cpu.0, ",", spec.origin.thread),
    )?;
    put(out, ("],\"round\":", spec.round, "}"))
}

// Appends what an event is at, and what else it says.
fn show_rest(out: &mut String, event: &Event) -> Result<(), OutOfMemory>
    ensures { OnOk result (string_bytes out.new ≡ string_bytes out.old ++ rest_text event.now) }
{
    match *event {
        Event::Load { tok, .. }
        | Event::Take { tok, .. }
        | Event::Share { tok, .. }
        | Event::Again { tok, .. }
        | Event::Mark { tok, .. }
        | Event::GiveOne { tok, .. }
        | Event::GiveClean { tok, .. }
        | Event::GiveWritten { tok, .. } => put(out, (",", tok.0)),
        Event::Read {
            tok,
            cell,
            value,
            ..
        }
        | Event::Write {
            tok,
            cell,
            value,
            ..
        } => put(out, (',', tok.0, (',', cell), (',', value))),
        Event::ReadBlob { tok, blob, .. } | Event::WriteBlob { tok, blob, .. } => {
            put(out, (",", tok.0, ","))?;
            show_blob(out, &blob)
        }
        Event::Send { msg, to, round, .. } => put(out, (',', msg.0, (',', to.0), (',', round))),
        Event::TakeMsg { msg, round, .. } => put(out, (",", msg.0, ",", round)),
        Event::DropMsg { msg, .. }
        | Event::Reply { msg, .. }
        | Event::Reap { msg, .. }
        | Event::Abort { msg, .. } => put(out, (",", msg.0)),
    }
}

// Appends an event.
fn show_event(out: &mut String, event: &Event) -> Result<(), OutOfMemory>
    ensures { OnOk result (string_bytes out.new ≡ string_bytes out.old ++ event_text event.now) }
{
    push_str(out, "[\"")?;
    push_str(out, event_word(event))?;
    put(out, ("\",", event.cpu().0))?;
    show_rest(out, event)?;
    push_str(out, "]")
}

// Appends where a message is.
fn show_place(out: &mut String, state: &Owner) -> Result<(), OutOfMemory>
    ensures { OnOk result (string_bytes out.new ≡ string_bytes out.old ++ owner_json state.now) }
{
    match state {
        Owner::Rest { origin } => put(out, ("[\"rest\",", origin.0)),
        Owner::Out { origin, target } => put(out, ("[\"out\",", origin.0, ",", target.0)),
        Owner::With { origin, target } => put(out, ("[\"with\",", origin.0, ",", target.0)),
        Owner::Back { origin, target } => put(out, ("[\"back\",", origin.0, ",", target.0)),
    }
}

// Appends where a message is at the close, and its round.
fn show_end(out: &mut String, end: &MsgEnd) -> Result<(), OutOfMemory>
    ensures { OnOk result (string_bytes out.new ≡ string_bytes out.old ++ end_text end.now) }
{
    show_place(out, &end.state)?;
    put(out, (",", end.round, "]"))
}

// Appends the version, and how many processors there are.
#[tactic(auto, unfolding(crate::specs::Written::cpus_text))]
fn show_cpus(out: &mut String, cpus: u8) -> Result<(), OutOfMemory>
    ensures { OnOk result (string_bytes out.new ≡ string_bytes out.old ++ cpus_text cpus) }
{
    show_name(out, "version")?;
    push_str(out, "1,")?;
    show_name(out, "cpus")?;
    put(out, cpus)?;
    push_str(out, ",\n")
}

// Appends the tokens of the opening, each on a line of its own.
fn show_specs(out: &mut String, specs: &[TokSpec]) -> Result<(), OutOfMemory>
    ensures { OnOk result (string_bytes out.new ≡ string_bytes out.old ++ parted line_at token_text 0 specs.now) }
{
    for (number, spec) in specs.iter().enumerate() {
        show_break(out, number)?;
        show_token(out, spec)?;
    }
    Ok(())
}

// Appends the tokens of the opening.
#[tactic(auto, unfolding(crate::specs::Written::tokens_text))]
fn show_tokens(out: &mut String, specs: &[TokSpec]) -> Result<(), OutOfMemory>
    ensures { OnOk result (string_bytes out.new ≡ string_bytes out.old ++ tokens_text specs.now) }
{
    show_name(out, "tokens")?;
    push_str(out, "[")?;
    show_specs(out, specs)?;
    push_str(out, "],\n")
}

// Appends the messages of the opening, each on a line of its own.
fn show_origins(out: &mut String, specs: &[MsgSpec]) -> Result<(), OutOfMemory>
    ensures { OnOk result (string_bytes out.new ≡ string_bytes out.old ++ parted line_at message_text 0 specs.now) }
{
    for (number, spec) in specs.iter().enumerate() {
        show_break(out, number)?;
        show_message(out, spec)?;
    }
    Ok(())
}

// Appends the messages of the opening.
#[tactic(auto, unfolding(crate::specs::Written::messages_text))]
fn show_messages(out: &mut String, specs: &[MsgSpec]) -> Result<(), OutOfMemory>
    ensures { OnOk result (string_bytes out.new ≡ string_bytes out.old ++ messages_text specs.now) }
{
    show_name(out, "messages")?;
    push_str(out, "[")?;
    show_origins(out, specs)?;
    push_str(out, "],\n")
}

// Appends the events, each on a line of its own.
fn show_lines(out: &mut String, events: &[Event]) -> Result<(), OutOfMemory>
    ensures { OnOk result (string_bytes out.new ≡ string_bytes out.old ++ parted line_at event_text 0 events.now) }
{
    for (number, event) in events.iter().enumerate() {
        show_break(out, number)?;
        show_event(out, event)?;
    }
    Ok(())
}

// Appends the events.
#[tactic(auto, unfolding(crate::specs::Written::events_text))]
fn show_events(out: &mut String, events: &[Event]) -> Result<(), OutOfMemory>
    ensures { OnOk result (string_bytes out.new ≡ string_bytes out.old ++ events_text events.now) }
{
    show_name(out, "events")?;
    push_str(out, "[")?;
    show_lines(out, events)?;
    push_str(out, "],\n")
}

// Appends the rows of the tokens at the close.
fn show_rows(out: &mut String, lines: &[TokenLine]) -> Result<(), OutOfMemory>
    ensures { OnOk result (string_bytes out.new ≡ string_bytes out.old ++ parted comma_at row_text 0 lines.now) }
{
    for (number, line) in lines.iter().enumerate() {
        show_comma(out, number)?;
        show_list(out, line.cells.as_slice())?;
    }
    Ok(())
}

// Appends the generations of the tokens at the close.
fn show_generations(out: &mut String, lines: &[TokenLine]) -> Result<(), OutOfMemory>
    ensures { OnOk result (string_bytes out.new ≡ string_bytes out.old ++ parted comma_at generation_text 0 lines.now) }
{
    for (number, line) in lines.iter().enumerate() {
        show_comma(out, number)?;
        put(out, line.generation)?;
    }
    Ok(())
}

// Appends the tallies of a token at the close.
fn show_tally(out: &mut String, tallies: &Option<Cells>) -> Result<(), OutOfMemory>
    ensures { OnOk result (string_bytes out.new ≡ string_bytes out.old ++ tallies_text tallies.now) }
{
    match tallies {
        None => push_str(out, "[]"),
        Some(tallies) => show_list(out, tallies.as_slice()),
    }
}

// Appends the tallies of the tokens at the close.
fn show_tallies(out: &mut String, lines: &[TokenLine]) -> Result<(), OutOfMemory>
    ensures { OnOk result (string_bytes out.new ≡ string_bytes out.old ++ parted comma_at tally_text 0 lines.now) }
{
    for (number, line) in lines.iter().enumerate() {
        show_comma(out, number)?;
        show_tally(out, &line.tallies)?;
    }
    Ok(())
}

// Appends the record of a token at the close.
fn show_last_record(out: &mut String, blob: &Option<Blob>) -> Result<(), OutOfMemory>
    ensures { OnOk result (string_bytes out.new ≡ string_bytes out.old ++ last_blob_text blob.now) }
{
    match blob {
        None => push_str(out, "null"),
        Some(blob) => show_blob(out, blob),
    }
}

// Appends the records of the tokens at the close.
fn show_last_records(out: &mut String, lines: &[TokenLine]) -> Result<(), OutOfMemory>
    ensures { OnOk result (string_bytes out.new ≡ string_bytes out.old ++ parted comma_at last_record_text 0 lines.now) }
{
    for (number, line) in lines.iter().enumerate() {
        show_comma(out, number)?;
        show_last_record(out, &line.blob)?;
    }
    Ok(())
}

// Whether a token has a record at the close.
fn has_records(lines: &[TokenLine]) -> bool
    ensures { result ≡ list_any has_record lines.now }
{
    lines.iter().any(|line| line.blob.is_some())
}

// Appends the list of the records of the close.
#[tactic(auto, unfolding(crate::specs::Written::listed_text))]
fn show_listed(out: &mut String, lines: &[TokenLine]) -> Result<(), OutOfMemory>
    ensures { OnOk result (string_bytes out.new ≡ string_bytes out.old ++ listed_text lines.now) }
{
    show_name(out, "records")?;
    push_str(out, "[")?;
    show_last_records(out, lines)?;
    push_str(out, "],\n")
}

// Appends the records of the close, where a token has one.
fn show_records(out: &mut String, lines: &[TokenLine]) -> Result<(), OutOfMemory>
    ensures { OnOk result (string_bytes out.new ≡ string_bytes out.old ++ records_text lines.now) }
{
    if has_records(lines) {
        show_listed(out, lines)
    } else {
        Ok(())
    }
}

// Appends the list of the rows of the close.
#[tactic(auto, unfolding(crate::specs::Written::rows_text))]
fn show_all_rows(out: &mut String, lines: &[TokenLine]) -> Result<(), OutOfMemory>
    ensures { OnOk result (string_bytes out.new ≡ string_bytes out.old ++ rows_text lines.now) }
{
    show_name(out, "rows")?;
    push_str(out, "[")?;
    show_rows(out, lines)?;
    push_str(out, "],\n")
}

// Appends the list of the generations of the close.
#[tactic(auto, unfolding(crate::specs::Written::generations_text))]
fn show_all_generations(out: &mut String, lines: &[TokenLine]) -> Result<(), OutOfMemory>
    ensures { OnOk result (string_bytes out.new ≡ string_bytes out.old ++ generations_text lines.now) }
{
    show_name(out, "gens")?;
    push_str(out, "[")?;
    show_generations(out, lines)?;
    push_str(out, "],\n")
}

// Appends the list of the tallies of the close.
#[tactic(auto, unfolding(crate::specs::Written::all_tallies_text))]
fn show_all_tallies(out: &mut String, lines: &[TokenLine]) -> Result<(), OutOfMemory>
    ensures { OnOk result (string_bytes out.new ≡ string_bytes out.old ++ all_tallies_text lines.now) }
{
    show_name(out, "tallies")?;
    push_str(out, "[")?;
    show_tallies(out, lines)?;
    push_str(out, "],\n")
}

// Appends the places of the messages at the close, each on a line of its own.
fn show_ends(out: &mut String, ends: &[MsgEnd]) -> Result<(), OutOfMemory>
    ensures { OnOk result (string_bytes out.new ≡ string_bytes out.old ++ parted line_at end_text 0 ends.now) }
{
    for (number, end) in ends.iter().enumerate() {
        show_break(out, number)?;
        show_end(out, end)?;
    }
    Ok(())
}

// Appends the list of the places of the messages at the close.
#[tactic(auto, unfolding(crate::specs::Written::ends_text))]
fn show_all_ends(out: &mut String, ends: &[MsgEnd]) -> Result<(), OutOfMemory>
    ensures { OnOk result (string_bytes out.new ≡ string_bytes out.old ++ ends_text ends.now) }
{
    show_name(out, "messages")?;
    push_str(out, "[")?;
    show_ends(out, ends)?;
    push_str(out, "]")
}

// Appends the closing values.
#[tactic(auto, unfolding(crate::specs::Written::closing_text))]
fn show_closing(out: &mut String, closing: &Closing) -> Result<(), OutOfMemory>
    ensures { OnOk result (string_bytes out.new ≡ string_bytes out.old ++ closing_text closing.now) }
{
    let lines = closing.tokens.as_slice();
    show_name(out, "last")?;
    push_str(out, "{")?;
    show_all_rows(out, lines)?;
    show_all_generations(out, lines)?;
    show_all_tallies(out, lines)?;
    show_records(out, lines)?;
    show_all_ends(out, closing.messages.as_slice())?;
    push_str(out, "}")
}

/// The text of a trace: the opening of a script, events, and the closing values of a report. No section is stated.
#[tactic(auto, unfolding(crate::specs::Written::trace_text))]
pub fn trace_text(
    alloc: Global,
    script: &Script,
    events: &[Event],
    closing: &Closing,
) -> Result<String, OutOfMemory>
    ensures { IfOk result (λ text. string_bytes text ≡ trace_text script.now events.now closing.now) }
{
    let mut out = String::new(alloc);
    push_str(&mut out, "{")?;
    show_cpus(&mut out, script.cpus)?;
    show_tokens(&mut out, script.tokens.as_slice())?;
    show_messages(&mut out, script.messages.as_slice())?;
    show_events(&mut out, events)?;
    show_closing(&mut out, closing)?;
    push_str(&mut out, "}\n")?;
    Ok(out)
}

/// The same text up to its events.
#[tactic(auto, unfolding(crate::specs::Written::front_text))]
pub fn front_text(
    alloc: Global,
    cpus: u8,
    tokens: &[TokSpec],
    messages: &[MsgSpec],
) -> Result<String, OutOfMemory>
    ensures { IfOk result (λ text. string_bytes text ≡ front_text cpus tokens.now messages.now) }
{
    let mut out = String::new(alloc);
    push_str(&mut out, "{")?;
    show_cpus(&mut out, cpus)?;
    show_tokens(&mut out, tokens)?;
    show_messages(&mut out, messages)?;
    show_name(&mut out, "events")?;
    push_str(&mut out, "[")?;
    Ok(out)
}

// Appends the closing values, or null where there are none.
fn show_last(out: &mut String, last: &Option<Closing>) -> Result<(), OutOfMemory>
    ensures { OnOk result (string_bytes out.new ≡ string_bytes out.old ++ last_text last.now) }
{
    match last {
        None => {
            show_name(out, "last")?;
            push_str(out, "null")
        }
        Some(closing) => show_closing(out, closing),
    }
}

/// The same text behind its events, with closing values or without any.
#[tactic(auto, unfolding(crate::specs::Written::back_text))]
pub fn back_text(alloc: Global, last: &Option<Closing>) -> Result<String, OutOfMemory>
    ensures { IfOk result (λ text. string_bytes text ≡ back_text last.now) }
{
    let mut out = String::new(alloc);
    push_str(&mut out, "],\n")?;
    show_last(&mut out, last)?;
    push_str(&mut out, "}\n")?;
    Ok(out)
}
