// A script as a text.
ghost use Rattle.std.specs.Prelude.{◌≡◌, Ok, IfOk, IsTrue, string_bytes};
ghost use Rattle.lwkt_text.specs.Reading.{IsTextOf};

use crate::jsons::{law_name, write_bytes};
use crate::pages::Sheet;
use crate::readers::{Refusal, read_text};
use crate::sames::same_script;
use crate::steps_written::{write_steps, write_vars};
use crate::unsaid::Unsaid;
use lwkt_base::steps::step_of;
use lwkt_base::{
    Ask, Blob, Call, Flags, MsgId, MsgSpec, OutOfMemory, Part, ThreadId, TokId, TokSpec,
};
use lwkt_script::{Script, ThreadSpec};
use std::alloc::Global;

/// How many tokens and messages have names.
#[derive(Clone, Copy)]
pub struct Known {
    pub tokens: usize,
    pub messages: usize,
}

/// A record: two digits for each byte, or `-` for none.
pub fn write_record(page: &mut Sheet, text: &str, blob: &Blob) -> Result<(), OutOfMemory> {
    page.text(text)?;
    if blob.is_empty() {
        return page.text("-");
    }
    write_bytes(page, blob)
}

fn write_token(page: &mut Sheet, i: usize, token: &TokSpec) -> Result<(), OutOfMemory> {
    page.tagged("token t", i as u64)?;
    page.text(": ")?;
    page.text(law_name(token.law))?;
    page.tagged(" ", token.param)?;
    if token.generation > 0 {
        page.tagged(", gen ", token.generation)?;
    }
    if let Some(blob) = token.blob {
        write_record(page, ", record ", &blob)?;
    }
    if !token.cells.as_slice().is_empty() {
        page.text(", cells ")?;
        page.numbers(" ", token.cells.as_slice())?;
    }
    page.text("\n")
}

// A thread, by its processor and its number there.
fn write_id(page: &mut Sheet, id: ThreadId) -> Result<(), OutOfMemory> {
    page.number(u64::from(id.cpu.0))?;
    page.tagged(".", u64::from(id.thread))
}

fn write_message(page: &mut Sheet, i: usize, message: &MsgSpec) -> Result<(), OutOfMemory> {
    page.tagged("message m", i as u64)?;
    page.text(" of ")?;
    write_id(page, message.origin)?;
    if message.round > 0 {
        page.tagged(", round ", message.round)?;
    }
    page.text("\n")
}

// A token: its name, if it has one, and else its number.
fn write_tok(page: &mut Sheet, known: Known, tok: TokId) -> Result<(), OutOfMemory> {
    write_number_tok(page, known, u64::from(tok.0))
}

/// A token of a number: its name, if it has one, and else its number.
pub fn write_number_tok(page: &mut Sheet, known: Known, n: u64) -> Result<(), OutOfMemory> {
    page.text(if n < known.tokens as u64 { " t" } else { " " })?;
    page.number(n)
}

/// A message: its name, if it has one, and else its number.
pub fn write_msg(page: &mut Sheet, known: Known, msg: MsgId) -> Result<(), OutOfMemory> {
    page.text(if usize::from(msg.0) < known.messages {
        " m"
    } else {
        " "
    })?;
    page.number(u64::from(msg.0))
}

// What is asked for.
fn write_call(page: &mut Sheet, call: Call) -> Result<(), OutOfMemory> {
    if call.op > 0 {
        page.tagged(", op ", u64::from(call.op))?;
    }
    if call.arg > 0 {
        page.tagged(", arg ", call.arg)?;
    }
    Ok(())
}

/// What its origin may do with a message.
pub fn write_flags(page: &mut Sheet, flags: Flags) -> Result<(), OutOfMemory> {
    if flags.dropable {
        page.text(", dropable")?;
    }
    if flags.abortable {
        page.text(", abortable")?;
    }
    if flags.priority {
        page.text(", priority")?;
    }
    Ok(())
}

fn write_part(page: &mut Sheet, known: Known, part: &Part) -> Result<(), OutOfMemory> {
    match *part {
        Part::Token(tok) => write_tok(page, known, tok),
        Part::Cell(tok, cell) => {
            write_tok(page, known, tok)?;
            page.tagged(".", u64::from(cell))
        }
        Part::Value(value) => page.tagged(" ", value),
        Part::Record(blob) => write_record(page, " ", &blob),
        Part::Message(msg) => write_msg(page, known, msg),
        Part::Target(to) => {
            page.text(" -> ")?;
            write_id(page, to)
        }
        Part::Call(call) => write_call(page, call),
        Part::Flags(flags) => write_flags(page, flags),
        Part::Code(error) => page.tagged(" ", u64::from(error)),
        Part::Outcome(outcome) => page.tagged(" ", outcome),
    }
}

/// An ask.
pub fn write_ask(page: &mut Sheet, known: Known, ask: &Ask) -> Result<(), OutOfMemory> {
    let (verb, parts) = step_of(ask);
    page.text(verb.word())?;
    for part in parts.as_slice() {
        write_part(page, known, part)?;
    }
    Ok(())
}

// The head of a thread, which is named by its place among all threads.
fn write_thread(
    page: &mut Sheet,
    known: Known,
    i: usize,
    thread: &ThreadSpec,
) -> Result<(), OutOfMemory> {
    page.tagged("\nthread p", i as u64)?;
    page.tagged(" on ", u64::from(thread.cpu.0))?;
    if thread.code.repeat() != 1 {
        page.tagged(", repeat ", u64::from(thread.code.repeat()))?;
    }
    if thread.service {
        page.text(", service")?;
    }
    page.text(":\n")?;
    write_vars(page, &thread.code)?;
    write_steps(page, known, thread.code.steps())
}

fn write_tokens(page: &mut Sheet, tokens: &[TokSpec]) -> Result<(), OutOfMemory> {
    for (i, token) in tokens.iter().enumerate() {
        write_token(page, i, token)?;
    }
    Ok(())
}

fn write_messages(page: &mut Sheet, messages: &[MsgSpec]) -> Result<(), OutOfMemory> {
    for (i, message) in messages.iter().enumerate() {
        write_message(page, i, message)?;
    }
    Ok(())
}

fn write_threads(
    page: &mut Sheet,
    known: Known,
    threads: &[ThreadSpec],
) -> Result<(), OutOfMemory> {
    for (i, thread) in threads.iter().enumerate() {
        write_thread(page, known, i, thread)?;
    }
    Ok(())
}

// The text of a script, whatever it holds.
fn written(alloc: Global, script: &Script) -> Result<String, OutOfMemory> {
    let mut page = Sheet::new(alloc);
    page.tagged("turns ", u64::from(script.turns))?;
    page.tagged("; idle ", u64::from(script.idle))?;
    page.tagged("; cpus ", u64::from(script.cpus))?;
    page.text("\n\n")?;
    let tokens = script.tokens.as_slice();
    let messages = script.messages.as_slice();
    let known = Known {
        tokens: tokens.len(),
        messages: messages.len(),
    };
    write_tokens(&mut page, tokens)?;
    write_messages(&mut page, messages)?;
    write_threads(&mut page, known, script.threads.as_slice())?;
    Ok(page.into_string())
}

// Whether a text is one of a script, and expects nothing: it is read again.
fn is_text_of(alloc: Global, text: &str, script: &Script) -> Result<bool, OutOfMemory>
    ensures { IfOk result (λ is. IsTrue is → IsTextOf script.now text.now) }
{
    match read_text(alloc, text.as_bytes()) {
        Ok(reading) => {
            Ok(reading.expectations.as_slice().is_empty() && same_script(&reading.script, script))
        }
        Err(Refusal::Memory(refused)) => Err(refused),
        Err(Refusal::Wrongs(_)) => Ok(false),
    }
}

/// A script as a text of the language: each token is named `t` and its number, each message `m` and its number, each thread `p`
/// and its place among all threads. What was written is read again and compared, so that it is the same script, and nothing is expected of it.
///
/// Refused with `Memory` if an allocation is, and with `Limits` if the script doesn't keep the limits of the format.
pub fn text_of(alloc: Global, script: &Script) -> Result<String, Unsaid>
    ensures { IfOk result (λ text. IsTextOf script.now (string_bytes text)) }
{
    let text = written(alloc, script)?;
    if is_text_of(alloc, text.as_str(), script)? {
        Ok(text)
    } else {
        Err(Unsaid::Limits)
    }
}
