//! What goes to standard error, beside why input is refused.
ghost use Rattle.std.specs.Prelude.{◌≡◌, IfOk, IsTrue, OnErr, OnOk, string_bytes};
ghost use Rattle.lwkt_refusals.specs.Sayings.{SaysMore};
ghost use Rattle.lwkt_report.specs.Complaint.{IsSaid};
ghost use Rattle.lwkt.specs.Answering.{IsByOldName, lines_shown};

use crate::failures::Failure;
use lwkt_base::memory::{from_str, push_str};
use lwkt_base::{Fault, OutOfMemory, memory};
use lwkt_refusals::{has_no_reader, say_of_file, say_opening};
use lwkt_report::{Sink, push_escaped, write_whole};
use lwkt_request::{Form, Task, Wording};
use lwkt_text::Input;
use std::alloc::Global;
use std::io;

/// What is read, as errors name it.
#[derive(Clone, Copy)]
pub struct Origin<'o> {
    /// What is to be done with it.
    pub task: Task,
    /// The path of its file, if there is one.
    pub path: Option<&'o str>,
    /// Whether verdicts are painted.
    pub paints: bool,
}

impl<'o> Origin<'o> {
    /// The command that reads it from standard input.
    pub fn piped(self) -> &'static str {
        match self.task {
            Task::Run { .. } => "lwkt run <",
            Task::Show { .. } => "lwkt show <",
            Task::Check { .. } => "lwkt check <",
            Task::Text(_) => "lwkt text --text <",
            Task::Explore(_) => "lwkt explore <",
        }
    }

    /// What the verdicts of one run call its file: only `lwkt text` names it, standard input by `-`.
    pub fn shown_path(self) -> Option<&'o str> {
        match self.task {
            Task::Text(_) => Some(self.path.unwrap_or("-")),
            _ => None,
        }
    }
}

/// Writes bytes. What can't be written is let go.
pub fn put_bytes<K: Sink>(sink: &mut K, bytes: &[u8])
    ensures said { IsSaid (K.has_failed sink.new) (K.contents sink.old) (K.contents sink.new) bytes.now }
    ensures more { SaysMore (K.has_failed sink.old) (K.has_failed sink.new) (K.contents sink.old) (K.contents sink.new) }
{
    let _ = write_whole(sink, bytes);
}

/// Writes a text. What can't be written is let go.
pub fn put<K: Sink>(sink: &mut K, text: &str)
    ensures said { IsSaid (K.has_failed sink.new) (K.contents sink.old) (K.contents sink.new) text.now }
    ensures more { SaysMore (K.has_failed sink.old) (K.has_failed sink.new) (K.contents sink.old) (K.contents sink.new) }
{
    put_bytes(sink, text.as_bytes());
}

// The lines of a text, as they are shown.
fn lines_shown(alloc: Global, text: &str) -> Result<String, OutOfMemory>
    ensures { IfOk result (λ shown. string_bytes shown ≡ lines_shown text.now) }
{
    let mut shown = String::new(alloc);
    for line in text.lines() {
        push_escaped(&mut shown, line)?;
        push_str(&mut shown, "\n")?;
    }
    Ok(shown)
}

/// Writes lines in which words of the command line stand, with escapes for what isn't shown as it is. What can't be written is let go.
///
/// Refused if memory is, and then nothing is written.
pub fn put_lines<E: Sink>(alloc: Global, errors: &mut E, text: &str) -> Result<(), OutOfMemory>
    ensures said { OnOk result (IsSaid (E.has_failed errors.new) (E.contents errors.old) (E.contents errors.new) (lines_shown text.now)) }
    ensures unsaid { OnErr result (errors.new ≡ errors.old) }
{
    let shown = lines_shown(alloc, text)?;
    put(errors, shown.as_str());
    Ok(())
}

/// Says that memory was refused.
pub fn say_memory<E: Sink>(errors: &mut E)
    ensures { SaysMore (E.has_failed errors.old) (E.has_failed errors.new) (E.contents errors.old) (E.contents errors.new) }
{
    put(errors, "lwkt: out of memory\n");
}

// Says that an order names a processor that the script doesn't have.
fn say_absent<E: Sink>(alloc: Global, errors: &mut E, path: Option<&str>, cpus: u8) {
    let last = cpus.saturating_sub(1);
    let mut words = String::new(alloc);
    match memory::put(
        &mut words,
        (
            "the order names a processor that isn't there; the last one is ",
            last,
        ),
    ) {
        Ok(()) => say_of_file(alloc, errors, path, words.as_str()),
        Err(_) => say_memory(errors),
    }
}

// What is said if a script that was read isn't written again: of the limits of the format its form can pass this one alone. And a text
// numbers assertions in order.
fn long_words(task: Task) -> &'static str {
    match task {
        Task::Text(Form::Json) =>
            "as JSON the script has more than 1048576 bytes, and isn't written",
        _ => "no text of at most 1048576 bytes means this script, so none is written",
    }
}

// Says why a script that was read is refused.
fn say_fault<E: Sink>(
    alloc: Global,
    errors: &mut E,
    path: Option<&str>,
    bytes: &[u8],
    input: &Input,
    fault: Fault,
) {
    match fault {
        Fault::Memory(_) => {}
        Fault::Unlawful { .. } => say_of_file(
            alloc,
            errors,
            path,
            "a run along an order was not lawful",
        ),
        Fault::NoPort => say_absent(alloc, errors, path, input.script.cpus),
        fault => say_opening(alloc, errors, path, bytes, input, fault),
    }
}

/// Says why nothing is made of input that was read, unless memory was refused.
pub fn say_unmade<E: Sink>(
    alloc: Global,
    errors: &mut E,
    origin: Origin<'_>,
    bytes: &[u8],
    input: &Input,
    failure: Failure,
) {
    match failure {
        Failure::Fault(fault) => say_fault(alloc, errors, origin.path, bytes, input, fault),
        Failure::Past => say_of_file(
            alloc,
            errors,
            origin.path,
            "the range lies behind the end of the run",
        ),
        Failure::Long => say_of_file(alloc, errors, origin.path, long_words(origin.task)),
        Failure::Stream => {}
    }
}

/// Says that a file, or standard input, can't be opened or read, and why.
pub fn say_unreadable<E: Sink>(
    alloc: Global,
    errors: &mut E,
    path: Option<&str>,
    error: &Option<io::Error>,
)
    ensures { SaysMore (E.has_failed errors.old) (E.has_failed errors.new) (E.contents errors.old) (E.contents errors.new) }
{
    let words = match error {
        Some(error) => error.to_string(alloc).ok(),
        None => None,
    };
    match words {
        Some(words) => say_of_file(alloc, errors, path, words.as_str()),
        None => say_of_file(alloc, errors, path, "it can't be read"),
    }
}

/// Whether a request has the old name `lwkt_run`.
pub fn is_by_old_name(task: Task) -> bool
    ensures { IsTrue result → IsByOldName task }
{
    matches!(
        task,
        Task::Run {
            wording: Wording::OldName,
            ..
        }
    )
}

// What is said by the name `lwkt_run` of a file that can't be opened or read.
fn old_line(alloc: Global, path: &str, error: &Option<io::Error>) -> Result<String, OutOfMemory> {
    let mut line = from_str(alloc, "lwkt_run: ")?;
    push_escaped(&mut line, path)?;
    let words = match error {
        Some(error) => error.to_string(alloc).ok(),
        None => None,
    };
    match words {
        Some(words) => memory::put(&mut line, (": ", words.as_str(), "\n"))?,
        None => push_str(&mut line, ": it can't be read\n")?,
    }
    Ok(line)
}

/// Says that the file of a request, or standard input, can't be opened or read, and why; of a file the old name `lwkt_run` says it by
/// that name.
pub fn say_unread<E: Sink>(
    alloc: Global,
    errors: &mut E,
    origin: Origin<'_>,
    error: &Option<io::Error>,
)
    ensures { SaysMore (E.has_failed errors.old) (E.has_failed errors.new) (E.contents errors.old) (E.contents errors.new) }
{
    match origin.path {
        Some(path) if is_by_old_name(origin.task) => match old_line(alloc, path, error) {
            Ok(line) => put(errors, line.as_str()),
            Err(_) => say_memory(errors),
        },
        _ => say_unreadable(alloc, errors, origin.path, error),
    }
}

/// Says that a write failed, and why; nothing if nobody reads any more what is written.
pub fn say_unwritten<E: Sink>(alloc: Global, errors: &mut E, error: &Option<io::Error>)
    ensures { SaysMore (E.has_failed errors.old) (E.has_failed errors.new) (E.contents errors.old) (E.contents errors.new) }
{
    if has_no_reader(error) {
        return;
    }
    let line = match error {
        Some(error) => format!(in alloc; "lwkt: the output could not be written: {error}\n").ok(),
        None => None,
    };
    match line {
        Some(line) => put(errors, line.as_str()),
        None => put(errors, "lwkt: the output could not be written\n"),
    }
}
