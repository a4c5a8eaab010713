//! The closing values of a run, as JSON.
ghost use Rattle.std.specs.Prelude.{◌≡◌, ◌++◌, codes, OnOk, string_bytes};
ghost use Rattle.std.specs.Option.{option_copied};
ghost use Rattle.lwkt_report.specs.Report.{record_text};
ghost use Rattle.lwkt_explore.specs.Jsons.{closing_json, token_part, message_part, thread_part, message_begun, message_ended, items_json, cell_json, cells_json, tally_json, record_json, token_begun, token_ended, token_json, message_json, state_json, mode_json, ref_json, call_json, aborted_json, entry_json, thread_json};

use crate::forms::{Telling, owner_word};
use crate::json_parts::{
    add_comma, add_message_named, add_named, add_numbers, add_thread_named, add_token_named,
    bool_word,
};
use lwkt_base::hexes::show_hex_or_none;
use lwkt_base::memory::{push_str, put};
use lwkt_base::{
    Blob, Call, Cells, Entry, Mode, MsgEnd, OutOfMemory, Ref, ThreadLine, ThreadState,
};
use lwkt_report::{Closing, TokenLine};
use lwkt_text::Name;
use lwkt_told::cells_of;
use std::alloc::Global;

// Appends the named cells of a token.
fn add_named_cells(
    alloc: Global,
    out: &mut String,
    names: &[Name],
    cells: &[u64],
) -> Result<(), OutOfMemory>
    ensures { OnOk result (string_bytes out.new ≡ string_bytes out.old ++ items_json (cell_json names.now) cells.now) }
{
    for (n, value) in cells.iter().enumerate() {
        add_comma(out, n)?;
        add_named(alloc, out, names, n)?;
        put(out, (":", *value))?;
    }
    Ok(())
}

// Appends the cells of the token of a number.
fn add_cells(
    alloc: Global,
    out: &mut String,
    telling: Option<&Telling<'_>>,
    tok: usize,
    cells: &Cells,
) -> Result<(), OutOfMemory>
    ensures { OnOk result (string_bytes out.new ≡ string_bytes out.old ++ cells_json (option_copied telling.entry) tok cells.now) }
{
    let Some(telling) = telling else {
        return add_numbers(out, cells.as_slice());
    };
    push_str(out, "{")?;
    add_named_cells(alloc, out, cells_of(telling.names, tok), cells.as_slice())?;
    push_str(out, "}")
}

// Appends the tallies of a Tally token.
fn add_tally(out: &mut String, tallies: &Option<Cells>) -> Result<(), OutOfMemory>
    ensures { OnOk result (string_bytes out.new ≡ string_bytes out.old ++ tally_json tallies.now) }
{
    match tallies {
        None => Ok(()),
        Some(sums) => {
            push_str(out, ",\"tally\":")?;
            add_numbers(out, sums.as_slice())
        }
    }
}

// Appends the record of a token that has one.
fn add_record(out: &mut String, blob: &Option<Blob>) -> Result<(), OutOfMemory>
    ensures { OnOk result (string_bytes out.new ≡ string_bytes out.old ++ record_json blob.now) }
{
    match blob {
        None => Ok(()),
        Some(blob) => {
            push_str(out, ",\"record\":\"")?;
            show_hex_or_none(blob.as_slice(), out)?;
            push_str(out, "\"")
        }
    }
}

// Appends the begin of a token, up to its cells.
fn begin_token(
    alloc: Global,
    out: &mut String,
    telling: Option<&Telling<'_>>,
    tok: usize,
    line: &TokenLine,
) -> Result<(), OutOfMemory>
    ensures { OnOk result (string_bytes out.new ≡ string_bytes out.old ++ token_begun (option_copied telling.entry) tok line.now) }
{
    push_str(out, "{\"token\":")?;
    add_token_named(alloc, out, telling, tok)?;
    put(out, (",\"gen\":", line.generation, ",\"cells\":"))
}

// Appends the end of a token, behind its cells.
fn end_token(out: &mut String, line: &TokenLine) -> Result<(), OutOfMemory>
    ensures { OnOk result (string_bytes out.new ≡ string_bytes out.old ++ token_ended line.now) }
{
    add_tally(out, &line.tallies)?;
    add_record(out, &line.blob)?;
    push_str(out, "}")
}

// Appends a token.
fn add_token(
    alloc: Global,
    out: &mut String,
    telling: Option<&Telling<'_>>,
    tok: usize,
    line: &TokenLine,
) -> Result<(), OutOfMemory>
    ensures { OnOk result (string_bytes out.new ≡ string_bytes out.old ++ token_json (option_copied telling.entry) tok line.now) }
{
    begin_token(alloc, out, telling, tok, line)?;
    add_cells(alloc, out, telling, tok, &line.cells)?;
    end_token(out, line)
}

// Appends the begin of a message, with its name.
fn begin_message(
    alloc: Global,
    out: &mut String,
    telling: Option<&Telling<'_>>,
    message: usize,
) -> Result<(), OutOfMemory>
    ensures { OnOk result (string_bytes out.new ≡ string_bytes out.old ++ message_begun (option_copied telling.entry) message) }
{
    push_str(out, "{\"message\":")?;
    add_message_named(alloc, out, telling, message)
}

// Appends what stands behind it: the round, and where the message is.
fn end_message(out: &mut String, end: &MsgEnd) -> Result<(), OutOfMemory>
    ensures { OnOk result (string_bytes out.new ≡ string_bytes out.old ++ message_ended end.now) }
{
    let (round, word) = (end.round, owner_word(end.state));
    put(out, (",\"round\":", round, ",\"state\":\"", word, "\"}"))
}

// Appends a message.
fn add_message(
    alloc: Global,
    out: &mut String,
    telling: Option<&Telling<'_>>,
    message: usize,
    end: &MsgEnd,
) -> Result<(), OutOfMemory>
    ensures { OnOk result (string_bytes out.new ≡ string_bytes out.old ++ message_json (option_copied telling.entry) message end.now) }
{
    begin_message(alloc, out, telling, message)?;
    end_message(out, end)
}

// Appends what a thread is doing.
fn add_state(out: &mut String, state: ThreadState) -> Result<(), OutOfMemory>
    ensures { OnOk result (string_bytes out.new ≡ string_bytes out.old ++ state_json state) }
{
    match state {
        ThreadState::Ready => push_str(out, "\"ready\""),
        ThreadState::Waiting => push_str(out, "\"waiting\""),
        ThreadState::Running => push_str(out, "\"running\""),
        ThreadState::Exited => push_str(out, "\"exited\""),
        ThreadState::Faulted(fault) => put(out, ("\"faulted\",\"fault\":", fault.number())),
    }
}

// The end of a reference.
fn mode_end(mode: Mode) -> &'static str
    ensures { result.now ≡ mode_json mode }
{
    match mode {
        Mode::Exclusive => "\"exclusive\"}",
        Mode::Shared => "\"shared\"}",
    }
}

// Appends a reference of a list.
fn add_ref(
    alloc: Global,
    out: &mut String,
    telling: Option<&Telling<'_>>,
    n: usize,
    r: Ref,
) -> Result<(), OutOfMemory>
    ensures { OnOk result (string_bytes out.new ≡ string_bytes out.old ++ ref_json (option_copied telling.entry) n r) }
{
    push_str(out, "{\"token\":")?;
    add_token_named(alloc, out, telling, r.tok.0 as usize)?;
    put(out, (",\"mode\":", mode_end(r.mode)))
}

// Appends the references of a list.
fn add_refs(
    alloc: Global,
    out: &mut String,
    telling: Option<&Telling<'_>>,
    refs: &[Ref],
) -> Result<(), OutOfMemory>
    ensures { OnOk result (string_bytes out.new ≡ string_bytes out.old ++ items_json (ref_json (option_copied telling.entry)) refs.now) }
{
    for (n, r) in refs.iter().enumerate() {
        add_comma(out, n)?;
        add_ref(alloc, out, telling, n, *r)?;
    }
    Ok(())
}

// Appends what a message asks for, and the end of its entry.
fn add_call(out: &mut String, call: Call) -> Result<(), OutOfMemory>
    ensures { OnOk result (string_bytes out.new ≡ string_bytes out.old ++ call_json call) }
{
    put(out, (",\"op\":", call.op, ",\"arg\":", call.arg, "}"))
}

// Appends a record that was found.
fn add_found(out: &mut String, blob: &Blob) -> Result<(), OutOfMemory>
    ensures { OnOk result (string_bytes out.new ≡ string_bytes out.old ++ (codes "{\"found\":\"" ++ record_text blob.now ++ codes "\"}")) }
{
    push_str(out, "{\"found\":\"")?;
    show_hex_or_none(blob.as_slice(), out)?;
    push_str(out, "\"}")
}

// Appends whether an abort was in time.
fn add_aborted(out: &mut String, is_so: bool) -> Result<(), OutOfMemory>
    ensures { OnOk result (string_bytes out.new ≡ string_bytes out.old ++ aborted_json is_so) }
{
    put(out, ("{\"aborted\":", bool_word(is_so), "}"))
}

// Appends an entry of a log.
fn add_entry(
    alloc: Global,
    out: &mut String,
    telling: Option<&Telling<'_>>,
    n: usize,
    entry: &Entry,
) -> Result<(), OutOfMemory>
    ensures { OnOk result (string_bytes out.new ≡ string_bytes out.old ++ entry_json (option_copied telling.entry) n entry.now) }
{
    match entry {
        Entry::Value(value) => put(out, ("{\"saw\":", *value, "}")),
        Entry::Bytes(blob) => add_found(out, blob),
        Entry::Aborted(is_so) => add_aborted(out, *is_so),
        Entry::Request(message, call) => {
            push_str(out, "{\"took\":")?;
            add_message_named(alloc, out, telling, message.0 as usize)?;
            add_call(out, *call)
        }
        Entry::Reply(message, error, outcome) => {
            push_str(out, "{\"answered\":")?;
            add_message_named(alloc, out, telling, message.0 as usize)?;
            put(out, (",\"error\":", *error, ",\"result\":", *outcome, "}"))
        }
        Entry::NoMessage => push_str(out, "{\"empty\":true}"),
        Entry::Dropped(message, call) => {
            push_str(out, "{\"lost\":")?;
            add_message_named(alloc, out, telling, message.0 as usize)?;
            add_call(out, *call)
        }
        Entry::Refused(number) => put(out, ("{\"refused\":", *number, "}")),
        Entry::Failed(number) => put(out, ("{\"failed\":", *number, "}")),
    }
}

// Appends the entries of a log.
fn add_entries(
    alloc: Global,
    out: &mut String,
    telling: Option<&Telling<'_>>,
    log: &[Entry],
) -> Result<(), OutOfMemory>
    ensures { OnOk result (string_bytes out.new ≡ string_bytes out.old ++ items_json (entry_json (option_copied telling.entry)) log.now) }
{
    for (n, entry) in log.iter().enumerate() {
        add_comma(out, n)?;
        add_entry(alloc, out, telling, n, entry)?;
    }
    Ok(())
}

// Appends a thread.
fn add_thread(
    alloc: Global,
    out: &mut String,
    telling: Option<&Telling<'_>>,
    n: usize,
    line: &ThreadLine,
) -> Result<(), OutOfMemory>
    ensures { OnOk result (string_bytes out.new ≡ string_bytes out.old ++ thread_json (option_copied telling.entry) n line.now) }
{
    push_str(out, "{\"thread\":")?;
    add_thread_named(alloc, out, telling, line.id)?;
    push_str(out, ",\"state\":")?;
    add_state(out, line.state)?;
    push_str(out, ",\"list\":[")?;
    add_refs(alloc, out, telling, line.list.refs())?;
    push_str(out, "],\"log\":[")?;
    add_entries(alloc, out, telling, line.log.as_slice())?;
    push_str(out, "]}")
}

// Appends tokens, with commas between.
fn add_tokens(
    alloc: Global,
    out: &mut String,
    telling: Option<&Telling<'_>>,
    lines: &[TokenLine],
) -> Result<(), OutOfMemory>
    ensures { OnOk result (string_bytes out.new ≡ string_bytes out.old ++ items_json (token_json (option_copied telling.entry)) lines.now) }
{
    for (n, line) in lines.iter().enumerate() {
        add_comma(out, n)?;
        add_token(alloc, out, telling, n, line)?;
    }
    Ok(())
}

// Appends messages, with commas between.
fn add_messages(
    alloc: Global,
    out: &mut String,
    telling: Option<&Telling<'_>>,
    ends: &[MsgEnd],
) -> Result<(), OutOfMemory>
    ensures { OnOk result (string_bytes out.new ≡ string_bytes out.old ++ items_json (message_json (option_copied telling.entry)) ends.now) }
{
    for (n, end) in ends.iter().enumerate() {
        add_comma(out, n)?;
        add_message(alloc, out, telling, n, end)?;
    }
    Ok(())
}

// Appends threads, with commas between.
fn add_threads(
    alloc: Global,
    out: &mut String,
    telling: Option<&Telling<'_>>,
    lines: &[ThreadLine],
) -> Result<(), OutOfMemory>
    ensures { OnOk result (string_bytes out.new ≡ string_bytes out.old ++ items_json (thread_json (option_copied telling.entry)) lines.now) }
{
    for (n, line) in lines.iter().enumerate() {
        add_comma(out, n)?;
        add_thread(alloc, out, telling, n, line)?;
    }
    Ok(())
}

// Appends the tokens of a run.
fn add_token_part(
    alloc: Global,
    out: &mut String,
    telling: Option<&Telling<'_>>,
    closing: &Closing,
) -> Result<(), OutOfMemory>
    ensures { OnOk result (string_bytes out.new ≡ string_bytes out.old ++ token_part (option_copied telling.entry) closing.now) }
{
    push_str(out, ",\"tokens\":[")?;
    add_tokens(alloc, out, telling, closing.tokens.as_slice())
}

// Appends its messages.
fn add_message_part(
    alloc: Global,
    out: &mut String,
    telling: Option<&Telling<'_>>,
    closing: &Closing,
) -> Result<(), OutOfMemory>
    ensures { OnOk result (string_bytes out.new ≡ string_bytes out.old ++ message_part (option_copied telling.entry) closing.now) }
{
    push_str(out, "],\"messages\":[")?;
    add_messages(alloc, out, telling, closing.messages.as_slice())
}

// Appends its threads.
fn add_thread_part(
    alloc: Global,
    out: &mut String,
    telling: Option<&Telling<'_>>,
    closing: &Closing,
) -> Result<(), OutOfMemory>
    ensures { OnOk result (string_bytes out.new ≡ string_bytes out.old ++ thread_part (option_copied telling.entry) closing.now) }
{
    push_str(out, "],\"threads\":[")?;
    add_threads(alloc, out, telling, closing.threads.as_slice())?;
    push_str(out, "]}")
}

/// Appends the closing values of a run, and the end of the object that they stand in.
pub(crate) fn add_closing(
    alloc: Global,
    out: &mut String,
    telling: Option<&Telling<'_>>,
    closing: &Closing,
) -> Result<(), OutOfMemory>
    ensures { OnOk result (string_bytes out.new ≡ string_bytes out.old ++ closing_json (option_copied telling.entry) closing.now) }
{
    add_token_part(alloc, out, telling, closing)?;
    add_message_part(alloc, out, telling, closing)?;
    add_thread_part(alloc, out, telling, closing)
}
