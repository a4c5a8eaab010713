// A script as a JSON text of the format.
ghost use Rattle.std.specs.Prelude.{◌≡◌, Ok, IfOk, OnOk, IsTrue, string_bytes};
ghost use Rattle.lwkt_script.specs.Format.{script_of};
ghost use Rattle.lwkt_script.specs.Limits.{IsWithinLimits};

use crate::json_steps::{held_first, write_steps};
use crate::pages::Sheet;
use crate::sames::same_script;
use crate::steps_written::is_listed;
use crate::unsaid::Unsaid;
use lwkt_base::hexes::digits_of;
use lwkt_base::steps::step_of;
use lwkt_base::{Ask, Blob, Fault, Flags, Law, MsgSpec, OutOfMemory, Part, TokSpec};
use lwkt_code::Step;
use lwkt_script::{Script, ThreadSpec, Version, read_script};
use std::alloc::Global;

/// The name of a law.
pub fn law_name(law: Law) -> &'static str {
    match law {
        Law::Any => "any",
        Law::Sum => "sum",
        Law::Order => "order",
        Law::Cap => "cap",
        Law::Tally => "tally",
        Law::Len => "len",
    }
}

// Whether a token needs a version with records.
fn is_guarded(token: &TokSpec) -> bool {
    token.law == Law::Len || token.blob.is_some()
}

// Whether an ask needs a version with records and messages sent with priority.
fn is_ask_of_second(ask: &Ask) -> bool {
    let (verb, parts) = step_of(ask);
    verb.is_later()
        || parts.as_slice().iter().any(|part| matches!(part, Part::Flags(flags) if flags.priority))
}

// Whether a step is such an ask.
fn is_of_second(step: &Step) -> bool {
    match step {
        Step::Fixed(ask) => is_ask_of_second(ask),
        _ => false,
    }
}

// Whether a thread needs a version in which threads compute and decide.
fn is_of_third(thread: &ThreadSpec) -> bool {
    thread.service || !is_listed(&thread.code)
}

// The least version for a script whose threads only ask.
fn version_of_asks(script: &Script) -> Version {
    for token in script.tokens.as_slice() {
        if is_guarded(token) {
            return Version::Second;
        }
    }
    for thread in script.threads.as_slice() {
        if thread.code.steps().iter().any(is_of_second) {
            return Version::Second;
        }
    }
    Version::First
}

// The least version in which a script can be written.
fn version_for(script: &Script) -> Version {
    if script.threads.as_slice().iter().any(is_of_third) {
        return Version::Third;
    }
    version_of_asks(script)
}

/// Writes the bytes of a record, two digits for each.
pub(crate) fn write_bytes(page: &mut Sheet, blob: &Blob) -> Result<(), OutOfMemory> {
    for byte in blob.as_slice() {
        let (high, low) = digits_of(*byte);
        page.text(high)?;
        page.text(low)?;
    }
    // A record that is too long for every token has 65 bytes, of which 64 are kept.
    if blob.len() > 64 {
        page.text("00")
    } else {
        Ok(())
    }
}

// What a token of the second version says of its record.
fn write_record(page: &mut Sheet, blob: &Option<Blob>) -> Result<(), OutOfMemory> {
    match blob {
        None => page.text(", \"record\": null"),
        Some(blob) => {
            page.text(", \"record\": \"")?;
            write_bytes(page, blob)?;
            page.text("\"")
        }
    }
}

fn write_token(page: &mut Sheet, version: Version, token: &TokSpec) -> Result<(), OutOfMemory> {
    page.text("{\"cells\": [")?;
    page.numbers(", ", token.cells.as_slice())?;
    page.text("], \"law\": \"")?;
    page.text(law_name(token.law))?;
    page.tagged("\", \"param\": ", token.param)?;
    page.tagged(", \"gen\": ", token.generation)?;
    if version.is_later() {
        write_record(page, &token.blob)?;
    }
    page.text("}")
}

fn write_message(page: &mut Sheet, message: &MsgSpec) -> Result<(), OutOfMemory> {
    page.tagged("{\"of\": [", u64::from(message.origin.cpu.0))?;
    page.tagged(", ", u64::from(message.origin.thread))?;
    page.tagged("], \"round\": ", message.round)?;
    page.text("}")
}

// Two numbers.
fn write_two(page: &mut Sheet, first: u64, second: u64) -> Result<(), OutOfMemory> {
    page.tagged(", ", first)?;
    page.tagged(", ", second)
}

/// What its origin may do with a message, as a number.
pub fn number_of_flags(flags: Flags) -> u64 {
    let dropable = if flags.dropable { 1 } else { 0 };
    let abortable = if flags.abortable { 2 } else { 0 };
    let priority = if flags.priority { 4 } else { 0 };
    dropable + abortable + priority
}

fn write_part(page: &mut Sheet, part: &Part) -> Result<(), OutOfMemory> {
    match *part {
        Part::Token(tok) => page.tagged(", ", u64::from(tok.0)),
        Part::Cell(tok, cell) => write_two(page, u64::from(tok.0), u64::from(cell)),
        Part::Value(value) => page.tagged(", ", value),
        Part::Record(blob) => {
            page.text(", \"")?;
            write_bytes(page, &blob)?;
            page.text("\"")
        }
        Part::Message(msg) => page.tagged(", ", u64::from(msg.0)),
        Part::Target(to) => write_two(page, u64::from(to.cpu.0), u64::from(to.thread)),
        Part::Call(call) => write_two(page, u64::from(call.op), call.arg),
        Part::Flags(flags) => page.tagged(", ", number_of_flags(flags)),
        Part::Code(error) => page.tagged(", ", u64::from(error)),
        Part::Outcome(outcome) => page.tagged(", ", outcome),
    }
}

/// What stands between the brackets of an ask.
pub fn write_ask(page: &mut Sheet, ask: &Ask) -> Result<(), OutOfMemory> {
    let (verb, parts) = step_of(ask);
    page.text("\"")?;
    page.text(verb.word())?;
    page.text("\"")?;
    for part in parts.as_slice() {
        write_part(page, part)?;
    }
    Ok(())
}

fn write_thread(
    page: &mut Sheet,
    version: Version,
    thread: &ThreadSpec,
) -> Result<(), OutOfMemory> {
    page.tagged("{\"cpu\": ", u64::from(thread.cpu.0))?;
    page.tagged(", \"repeat\": ", u64::from(thread.code.repeat()))?;
    if version == Version::Third {
        page.text(", \"vars\": [")?;
        page.numbers(", ", held_first(&thread.code))?;
        page.text(if thread.service {
            "], \"service\": true"
        } else {
            "], \"service\": false"
        })?;
    }
    page.text(", \"steps\": [")?;
    write_steps(page, thread.code.steps())?;
    page.text("]}")
}

// What stands before the item of a list that has this number.
fn break_line(page: &mut Sheet, i: usize) -> Result<(), OutOfMemory> {
    page.text(if i > 0 { ",\n    " } else { "\n    " })
}

fn write_tokens(page: &mut Sheet, version: Version, tokens: &[TokSpec]) -> Result<(), OutOfMemory> {
    for (i, token) in tokens.iter().enumerate() {
        break_line(page, i)?;
        write_token(page, version, token)?;
    }
    Ok(())
}

fn write_messages(page: &mut Sheet, messages: &[MsgSpec]) -> Result<(), OutOfMemory> {
    for (i, message) in messages.iter().enumerate() {
        break_line(page, i)?;
        write_message(page, message)?;
    }
    Ok(())
}

fn write_threads(
    page: &mut Sheet,
    version: Version,
    threads: &[ThreadSpec],
) -> Result<(), OutOfMemory> {
    for (i, thread) in threads.iter().enumerate() {
        break_line(page, i)?;
        write_thread(page, version, thread)?;
    }
    Ok(())
}

// The JSON text of a script, whatever it holds.
fn written(alloc: Global, script: &Script) -> Result<String, OutOfMemory> {
    let mut page = Sheet::new(alloc);
    let version = version_for(script);
    page.text(match version {
        Version::First => "{\"version\": 1",
        Version::Second => "{\"version\": 2",
        Version::Third => "{\"version\": 3",
    })?;
    page.tagged(", \"turns\": ", u64::from(script.turns))?;
    page.tagged(", \"idle\": ", u64::from(script.idle))?;
    page.tagged(", \"cpus\": ", u64::from(script.cpus))?;
    page.text(",\n  \"tokens\": [")?;
    write_tokens(&mut page, version, script.tokens.as_slice())?;
    page.text("],\n  \"messages\": [")?;
    write_messages(&mut page, script.messages.as_slice())?;
    page.text("],\n  \"threads\": [")?;
    write_threads(&mut page, version, script.threads.as_slice())?;
    page.text("]}\n")?;
    Ok(page.into_string())
}

// Whether a text is the JSON of a script: it is read again.
fn is_json_of(alloc: Global, text: &str, script: &Script) -> Result<bool, OutOfMemory>
    ensures exact { IfOk result (λ is. IsTrue is → script_of text.now ≡ Ok script.now) }
    ensures limits { IfOk result (λ is. IsTrue is → IsWithinLimits script.now) }
{
    match read_script(alloc, text.as_bytes()) {
        Ok(read) => Ok(same_script(&read, script)),
        Err(Fault::Memory(refused)) => Err(refused),
        Err(_) => Ok(false),
    }
}

/// A script as a JSON text of the format. What was written is read again and compared, so that it is the same script.
///
/// Refused with `Memory` if an allocation is, and with `Limits` if the script doesn't keep the limits of the format.
pub fn json_of(alloc: Global, script: &Script) -> Result<String, Unsaid>
    // The text is read as this script.
    ensures exact { IfOk result (λ text. script_of (string_bytes text) ≡ Ok script.now) }

    // What is written keeps the limits of the format.
    ensures limits { OnOk result (IsWithinLimits script.now) }
{
    let text = written(alloc, script)?;
    if is_json_of(alloc, text.as_str(), script)? {
        Ok(text)
    } else {
        Err(Unsaid::Limits)
    }
}
