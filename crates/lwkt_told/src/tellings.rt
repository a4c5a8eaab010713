//! The report of a run, told.
ghost use Rattle.std.specs.Prelude.{◌≡◌, ◌++◌, IfOk, OnOk, string_bytes};
ghost use Rattle.std.specs.List.{flat_map};
ghost use Rattle.std.specs.Option.{option_copied};
ghost use Rattle.lwkt_report.specs.Report.{numbered_lines};
ghost use Rattle.lwkt_text.specs.Naming.{cells_of};
ghost use Rattle.lwkt_told.specs.Called.{called, in_column, program_of, ref_part, thread_called, width_of};
ghost use Rattle.lwkt_told.specs.Told.{cell_part, cells_part, sum_part, tallies_part, record_part, token_told, owner_told, message_told, state_told, service_told, list_part, log_part, thread_told, told_front, told_text, named_report};

use crate::called::{
    cells_of, program_of, show_blanks, show_called, show_refs, show_thread_called, width_of,
};
use crate::circles::show_stuck;
use crate::logs::{show_log, show_record};
use crate::verdicts::show_verdict;
use lwkt_base::memory::{push_str, put};
use lwkt_base::{Blob, Cells, MsgEnd, OutOfMemory, Owner, Ref, ThreadId, ThreadLine, ThreadState};
use lwkt_report::{Closing, TokenLine, report};
use lwkt_script::Script;
use lwkt_text::{Name, Names};
use std::alloc::Global;

// Appends a name in its column.
#[tactic(auto, using(crate::proofs::ColumnLemmas::columned))]
fn show_in_column(
    width: usize,
    names: &[Name],
    n: usize,
    out: &mut String,
) -> Result<(), OutOfMemory>
    ensures { OnOk result (string_bytes out.new ≡ string_bytes out.old ++ in_column width (called names.now n)) }
{
    let before = out.len();
    show_called(names, n, out)?;
    show_blanks(width.saturating_sub(out.len().saturating_sub(before)), out)
}

// Appends a cell and its value.
fn show_cell_part(
    cells: &[Name],
    cell: usize,
    value: u64,
    out: &mut String,
) -> Result<(), OutOfMemory>
    ensures { OnOk result (string_bytes out.new ≡ string_bytes out.old ++ cell_part cells.now cell value) }
{
    push_str(out, " ")?;
    show_called(cells, cell, out)?;
    put(out, ("=", value))
}

// Appends the cells of a token, with their values.
fn show_cells(cells: &[Name], values: &[u64], out: &mut String) -> Result<(), OutOfMemory>
    ensures { OnOk result (string_bytes out.new ≡ string_bytes out.old ++ numbered_lines (cell_part cells.now) 0 values.now) }
{
    for (cell, value) in values.iter().enumerate() {
        show_cell_part(cells, cell, *value, out)?;
    }
    Ok(())
}

// The same, behind a gap, if there are cells.
fn show_cells_part(cells: &[Name], values: &[u64], out: &mut String) -> Result<(), OutOfMemory>
    ensures { OnOk result (string_bytes out.new ≡ string_bytes out.old ++ cells_part cells.now values.now) }
{
    if values.is_empty() {
        return Ok(());
    }
    push_str(out, "  ")?;
    show_cells(cells, values, out)
}

// The cells of the token of a number.
fn show_cells_of(
    names: &Names,
    tok: usize,
    values: &Cells,
    out: &mut String,
) -> Result<(), OutOfMemory>
    ensures { OnOk result (string_bytes out.new ≡ string_bytes out.old ++ cells_part (cells_of names.now (record { 0 = tok })) values.now) }
{
    show_cells_part(cells_of(names, tok), values.as_slice(), out)
}

// Appends what each processor has added.
fn show_sums(sums: &[u64], out: &mut String) -> Result<(), OutOfMemory>
    ensures { OnOk result (string_bytes out.new ≡ string_bytes out.old ++ numbered_lines sum_part 0 sums.now) }
{
    for (cpu, sum) in sums.iter().enumerate() {
        put(out, (" cpu", cpu, "=", *sum))?;
    }
    Ok(())
}

// Appends the tallies of a Tally token.
fn show_tallies(tallies: &Option<Cells>, out: &mut String) -> Result<(), OutOfMemory>
    ensures { OnOk result (string_bytes out.new ≡ string_bytes out.old ++ tallies_part tallies.now) }
{
    match tallies {
        None => Ok(()),
        Some(sums) => {
            push_str(out, "   tally")?;
            show_sums(sums.as_slice(), out)
        }
    }
}

// Appends the record of a token that has one.
fn show_record_part(blob: &Option<Blob>, out: &mut String) -> Result<(), OutOfMemory>
    ensures { OnOk result (string_bytes out.new ≡ string_bytes out.old ++ record_part blob.now) }
{
    match blob {
        None => Ok(()),
        Some(blob) => {
            push_str(out, "   record ")?;
            show_record(blob, out)
        }
    }
}

// Appends the name of a token in its column.
fn show_token_in_column(
    width: usize,
    names: &Names,
    tok: usize,
    out: &mut String,
) -> Result<(), OutOfMemory>
    ensures { OnOk result (string_bytes out.new ≡ string_bytes out.old ++ in_column width (called names.now.tokens tok)) }
{
    show_in_column(width, names.tokens.as_slice(), tok, out)
}

// Appends the line of a token.
fn show_token(
    width: usize,
    names: &Names,
    tok: usize,
    line: &TokenLine,
    out: &mut String,
) -> Result<(), OutOfMemory>
    ensures { OnOk result (string_bytes out.new ≡ string_bytes out.old ++ token_told width names.now tok line.now) }
{
    show_token_in_column(width, names, tok, out)?;
    push_str(out, "   gen ")?;
    put(out, line.generation)?;
    show_cells_of(names, tok, &line.cells, out)?;
    show_tallies(&line.tallies, out)?;
    show_record_part(&line.blob, out)?;
    push_str(out, "\n")
}

// Where a message is.
fn owner_words(owner: Owner) -> &'static str
    ensures { result.now ≡ owner_told owner }
{
    match owner {
        Owner::Rest { .. } => "at rest",
        Owner::Out { .. } => "out: sent, and not taken",
        Owner::With { .. } => "with its receiver: taken, and not answered",
        Owner::Back { .. } => "back: answered, and not taken back",
    }
}

// Appends the line of a message.
fn show_message(
    width: usize,
    names: &Names,
    message: usize,
    end: &MsgEnd,
    out: &mut String,
) -> Result<(), OutOfMemory>
    ensures { OnOk result (string_bytes out.new ≡ string_bytes out.old ++ message_told width names.now message end.now) }
{
    show_in_column(width, names.messages.as_slice(), message, out)?;
    put(
        out,
        ("   round ", end.round, "   ", owner_words(end.state), "\n"),
    )
}

// Appends how a thread stands.
fn show_state(state: ThreadState, out: &mut String) -> Result<(), OutOfMemory>
    ensures { OnOk result (string_bytes out.new ≡ string_bytes out.old ++ state_told state) }
{
    match state {
        ThreadState::Ready => push_str(out, "ready"),
        ThreadState::Waiting => push_str(out, "waiting"),
        ThreadState::Running => push_str(out, "running"),
        ThreadState::Exited => push_str(out, "exited"),
        ThreadState::Faulted(fault) => put(out, ("faulted ", fault.number(), " (", fault, ")")),
    }
}

// Appends that a thread is a service, if it is one.
fn show_service(service: bool, out: &mut String) -> Result<(), OutOfMemory>
    ensures { OnOk result (string_bytes out.new ≡ string_bytes out.old ++ service_told service) }
{
    if service {
        push_str(out, " (a service)")
    } else {
        Ok(())
    }
}

// Appends the list of a thread.
fn show_list(names: &Names, refs: &[Ref], out: &mut String) -> Result<(), OutOfMemory>
    ensures { OnOk result (string_bytes out.new ≡ string_bytes out.old ++ list_part names.now refs.now) }
{
    if refs.is_empty() {
        return Ok(());
    }
    push_str(out, "   list")?;
    show_refs(names, refs, out)
}

// Appends the name of a thread in its column.
#[tactic(auto, using(crate::proofs::ColumnLemmas::columned))]
fn show_thread_in_column(
    width: usize,
    names: &Names,
    id: ThreadId,
    out: &mut String,
) -> Result<(), OutOfMemory>
    ensures { OnOk result (string_bytes out.new ≡ string_bytes out.old ++ in_column width (thread_called names.now id)) }
{
    let before = out.len();
    show_thread_called(names, id, out)?;
    show_blanks(width.saturating_sub(out.len().saturating_sub(before)), out)
}

// Appends the list of the thread of a line.
fn show_list_of(names: &Names, line: &ThreadLine, out: &mut String) -> Result<(), OutOfMemory>
    ensures { OnOk result (string_bytes out.new ≡ string_bytes out.old ++ list_part names.now line.now.list) }
{
    show_list(names, line.list.refs(), out)
}

// Appends the log of the thread of a line.
fn show_log_of(
    names: &Names,
    script: &Script,
    line: &ThreadLine,
    out: &mut String,
) -> Result<(), OutOfMemory>
    ensures { OnOk result (string_bytes out.new ≡ string_bytes out.old ++ log_part names.now (program_of names.now script.now line.now.id) line.now.log) }
{
    let program = program_of(names, script, line.id);
    show_log(names, program, line.log.as_slice(), out)
}

// Appends the line of a thread.
fn show_thread(
    width: usize,
    names: &Names,
    script: &Script,
    line: &ThreadLine,
    out: &mut String,
) -> Result<(), OutOfMemory>
    ensures { OnOk result (string_bytes out.new ≡ string_bytes out.old ++ thread_told width names.now script.now line.now) }
{
    show_thread_in_column(width, names, line.id, out)?;
    push_str(out, "   ")?;
    show_state(line.state, out)?;
    show_service(line.service, out)?;
    show_list_of(names, line, out)?;
    show_log_of(names, script, line, out)?;
    push_str(out, "\n")
}

fn show_tokens(
    width: usize,
    names: &Names,
    lines: &[TokenLine],
    out: &mut String,
) -> Result<(), OutOfMemory>
    ensures { OnOk result (string_bytes out.new ≡ string_bytes out.old ++ numbered_lines (token_told width names.now) 0 lines.now) }
{
    for (tok, line) in lines.iter().enumerate() {
        show_token(width, names, tok, line, out)?;
    }
    Ok(())
}

fn show_messages(
    width: usize,
    names: &Names,
    ends: &[MsgEnd],
    out: &mut String,
) -> Result<(), OutOfMemory>
    ensures { OnOk result (string_bytes out.new ≡ string_bytes out.old ++ numbered_lines (message_told width names.now) 0 ends.now) }
{
    for (message, end) in ends.iter().enumerate() {
        show_message(width, names, message, end, out)?;
    }
    Ok(())
}

fn show_threads(
    width: usize,
    names: &Names,
    script: &Script,
    lines: &[ThreadLine],
    out: &mut String,
) -> Result<(), OutOfMemory>
    ensures { OnOk result (string_bytes out.new ≡ string_bytes out.old ++ flat_map (thread_told width names.now script.now) lines.now) }
{
    for line in lines {
        show_thread(width, names, script, line, out)?;
    }
    Ok(())
}

/// Appends the tokens, the messages and the threads of a run in the names of its text: the front of its report.
#[tactic(auto, unfolding(crate::specs::Told::told_front))]
pub fn show_front(
    names: &Names,
    script: &Script,
    closing: &Closing,
    out: &mut String,
) -> Result<(), OutOfMemory>
    ensures { OnOk result (string_bytes out.new ≡ string_bytes out.old ++ told_front names.now script.now closing.now) }
{
    let width = width_of(names);
    show_tokens(width, names, closing.tokens.as_slice(), out)?;
    show_messages(width, names, closing.messages.as_slice(), out)?;
    show_threads(width, names, script, closing.threads.as_slice(), out)
}

/// The report of a run of a text's script in the names of the text: each value that the report in numbers has (`report` of
/// lwkt_report), what the check of the run came to, and at the end, if some thread hasn't ended, that the run is stuck and what is
/// known of why.
///
/// Refused if memory is.
#[tactic(auto, unfolding(crate::specs::Told::told_text))]
pub fn told(
    alloc: Global,
    names: &Names,
    script: &Script,
    closing: &Closing,
) -> Result<String, OutOfMemory>
    ensures { IfOk result (λ text. string_bytes text ≡ told_text names.now script.now closing.now) }
{
    let mut out = String::new(alloc);
    show_front(names, script, closing, &mut out)?;
    show_verdict(closing.verdict, &mut out)?;
    show_stuck(names, script, closing.threads.as_slice(), &mut out)?;
    Ok(out)
}

/// The report of a run in these names; without names in numbers.
///
/// Refused if memory is.
pub fn report_in(
    alloc: Global,
    names: Option<&Names>,
    script: &Script,
    closing: &Closing,
) -> Result<String, OutOfMemory>
    ensures { IfOk result (λ text. string_bytes text ≡ named_report (option_copied names.entry) script.now closing.now) }
{
    match names {
        Some(names) => told(alloc, names, script, closing),
        None => report(alloc, closing),
    }
}
