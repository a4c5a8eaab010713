ghost use Rattle.std.specs.Prelude.{◌≡◌, ◌++◌, OnOk, IfOk, string_bytes};
ghost use Rattle.std.specs.List.{flat_map};
ghost use Rattle.lwkt_report.specs.Report.{token_line, tally_line, record_line, message_line, thread_line, verdict_line, numbered_lines, front_text, report_text};

use crate::closings::{Closing, TokenLine, Verdict};
use crate::listings::{show_listed, show_spaced};
use crate::shown::Shown;
use lwkt_base::memory::{push_str, put};
use lwkt_base::{Blob, Cells, MsgEnd, OutOfMemory, ThreadLine};
use std::alloc::Global;

fn show_tally(tok: usize, tallies: &Option<Cells>, out: &mut String) -> Result<(), OutOfMemory>
    ensures { OnOk result (string_bytes out.new ≡ string_bytes out.old ++ tally_line tok tallies.now) }
{
    match tallies {
        None => Ok(()),
        Some(tallies) => {
            put(out, ("tally ", tok))?;
            show_spaced(tallies.as_slice(), out)?;
            push_str(out, "\n")
        }
    }
}

fn show_record(tok: usize, blob: &Option<Blob>, out: &mut String) -> Result<(), OutOfMemory>
    ensures { OnOk result (string_bytes out.new ≡ string_bytes out.old ++ record_line tok blob.now) }
{
    match blob {
        None => Ok(()),
        Some(blob) => {
            put(out, ("record ", tok, " "))?;
            blob.show(out)?;
            push_str(out, "\n")
        }
    }
}

fn show_token(tok: usize, line: &TokenLine, out: &mut String) -> Result<(), OutOfMemory>
    ensures { OnOk result (string_bytes out.new ≡ string_bytes out.old ++ token_line tok line.now) }
{
    put(out, ("token ", tok, " gen ", line.generation, " cells"))?;
    show_listed(line.cells.as_slice(), out)?;
    push_str(out, "\n")?;
    show_tally(tok, &line.tallies, out)?;
    show_record(tok, &line.blob, out)
}

fn show_message(message: usize, end: &MsgEnd, out: &mut String) -> Result<(), OutOfMemory>
    ensures { OnOk result (string_bytes out.new ≡ string_bytes out.old ++ message_line message end.now) }
{
    put(out, ("message ", message, " round ", end.round, " "))?;
    end.state.show(out)?;
    push_str(out, "\n")
}

fn show_thread(line: &ThreadLine, out: &mut String) -> Result<(), OutOfMemory>
    ensures { OnOk result (string_bytes out.new ≡ string_bytes out.old ++ thread_line line.now) }
{
    put(out, ("thread ", line.id.cpu.0, ".", line.id.thread, " "))?;
    line.state.show(out)?;
    push_str(out, " list")?;
    show_listed(line.list.refs(), out)?;
    push_str(out, " log")?;
    show_listed(line.log.as_slice(), out)?;
    push_str(out, "\n")
}

fn show_verdict(verdict: &Verdict, out: &mut String) -> Result<(), OutOfMemory>
    ensures { OnOk result (string_bytes out.new ≡ string_bytes out.old ++ verdict_line verdict.now) }
{
    match verdict {
        Verdict::Closed => push_str(out, "closed\n"),
        Verdict::Lawful => push_str(out, "lawful\n"),
        Verdict::Unlawful { index } => put(out, ("unlawful ", *index, '\n')),
    }
}

fn show_tokens(lines: &[TokenLine], out: &mut String) -> Result<(), OutOfMemory>
    ensures { OnOk result (string_bytes out.new ≡ string_bytes out.old ++ numbered_lines token_line 0 lines.now) }
{
    for (tok, line) in lines.iter().enumerate() {
        show_token(tok, line, out)?;
    }
    Ok(())
}

fn show_messages(ends: &[MsgEnd], out: &mut String) -> Result<(), OutOfMemory>
    ensures { OnOk result (string_bytes out.new ≡ string_bytes out.old ++ numbered_lines message_line 0 ends.now) }
{
    for (message, end) in ends.iter().enumerate() {
        show_message(message, end, out)?;
    }
    Ok(())
}

fn show_threads(lines: &[ThreadLine], out: &mut String) -> Result<(), OutOfMemory>
    ensures { OnOk result (string_bytes out.new ≡ string_bytes out.old ++ flat_map thread_line lines.now) }
{
    for line in lines {
        show_thread(line, out)?;
    }
    Ok(())
}

/// The report of a run that has ended, without its last line, the verdict.
#[tactic(auto, unfolding(crate::specs::Report::front_text))]
pub fn report_front(alloc: Global, closing: &Closing) -> Result<String, OutOfMemory>
    ensures { IfOk result (λ text. string_bytes text ≡ front_text closing.now) }
{
    let mut out = String::new(alloc);
    show_tokens(closing.tokens.as_slice(), &mut out)?;
    show_messages(closing.messages.as_slice(), &mut out)?;
    show_threads(closing.threads.as_slice(), &mut out)?;
    Ok(out)
}

/// The report of a run that has ended, each line ended by a line feed.
#[tactic(auto, unfolding(crate::specs::Report::report_text))]
pub fn report(alloc: Global, closing: &Closing) -> Result<String, OutOfMemory>
    ensures { IfOk result (λ text. string_bytes text ≡ report_text closing.now) }
{
    let mut out = String::new(alloc);
    show_tokens(closing.tokens.as_slice(), &mut out)?;
    show_messages(closing.messages.as_slice(), &mut out)?;
    show_threads(closing.threads.as_slice(), &mut out)?;
    show_verdict(&closing.verdict, &mut out)?;
    Ok(out)
}
