//! Traces, checked.
ghost use Rattle.std.specs.Prelude.{◌≡◌, ◌↔◌, ◌⊎◌, false, true, IsTrue};
ghost use Rattle.std.specs.Io.KnownBytes.{Keeps};
ghost use Rattle.lwkt_checker.specs.Output.{ReportsFinding};
ghost use Rattle.lwkt_checker.specs.LineOutput.{ReportsLines};
ghost use Rattle.lwkt_refusals.specs.Sayings.{SaysMore};
ghost use Rattle.lwkt.specs.Checking.{ComplainsFirst, IsUnread, ChecksAloud};
ghost use Rattle.lwkt.specs.Ending.{ending_of_check};

use crate::endings::Ending;
use crate::errors::{say_memory, say_unreadable, say_unwritten};
use lwkt_base::Fault;
use lwkt_checker::{Lines, check_keeping, check_lines};
use lwkt_refusals::{has_no_reader, say_untraced, say_untraced_line};
use lwkt_report::{
    NotedReader, NotedWriter, Program, ReaderSource, RunFault, Sink, WriterSink, complain,
    complaint_of,
};
use std::alloc::Global;
use std::io::{Read, Write};

// What was read of a trace, of which is said why it is refused.
#[derive(Drop)]
enum Given<'g> {
    // Of a trace in lines its opening, and the line that was read last.
    Lines(&'g Lines),
    // The whole text of any other.
    Text(&'g [u8]),
}

// Says why the trace is refused with this fault: of a trace in lines by the line that is, or by its opening; else by its text.
fn say_refusal<E: Sink>(
    alloc: Global,
    errors: &mut E,
    path: Option<&str>,
    fault: Fault,
    given: &Given,
)
    ensures { SaysMore (E.has_failed errors.old) (E.has_failed errors.new) (E.contents errors.old) (E.contents errors.new) }
{
    match (given, fault) {
        (Given::Text(text), fault) => say_untraced(alloc, errors, path, text, fault),
        (Given::Lines(lines), Fault::Script { place }) => say_untraced_line(
            alloc,
            errors,
            path,
            lines.number,
            lines.line.as_slice(),
            place,
        ),
        (Given::Lines(lines), fault) => {
            say_untraced(alloc, errors, path, lines.opening_line(), fault)
        }
    }
}

// Says why nothing was found, behind the line.
fn say_why<I, O, E: Sink>(
    alloc: Global,
    errors: &mut E,
    path: Option<&str>,
    fault: RunFault,
    given: &Given,
    source: &ReaderSource<NotedReader<I>>,
    sink: &WriterSink<NotedWriter<O>>,
)
    ensures { SaysMore (E.has_failed errors.old) (E.has_failed errors.new) (E.contents errors.old) (E.contents errors.new) }
{
    match fault {
        RunFault::Fault(Fault::Memory(_)) => say_memory(errors),
        RunFault::Fault(fault) => say_refusal(alloc, errors, path, fault, given),
        RunFault::Stream if source.failed => {
            say_unreadable(alloc, errors, path, &source.reader.error)
        }
        RunFault::Stream => say_unwritten(alloc, errors, &sink.writer.error),
    }
}

// Says what came of a check: nothing beside a finding, else why nothing was found, by the name `lwkt_check` behind its line.
fn say_all<I, O, E: Sink>(
    alloc: Global,
    errors: &mut E,
    by_old_name: bool,
    path: Option<&str>,
    outcome: &Result<bool, RunFault>,
    given: &Given,
    source: &ReaderSource<NotedReader<I>>,
    sink: &WriterSink<NotedWriter<O>>,
)
    ensures { ComplainsFirst by_old_name (E.has_failed errors.new) (E.contents errors.old) (E.contents errors.new) outcome.now }
{
    let Err(fault) = *outcome else {
        return;
    };
    if by_old_name {
        complain(errors, Program::Check, complaint_of(fault));
        say_why(alloc, errors, path, fault, given, source, sink);
    } else {
        say_why(alloc, errors, path, fault, given, source, sink);
    }
}

// Whether the output has failed since nobody reads any more what is written.
fn is_unread<O>(sink: &WriterSink<NotedWriter<O>>) -> bool
    ensures { IsTrue result ↔ IsUnread sink.now.failed sink.now.writer.error }
{
    sink.failed && has_no_reader(&sink.writer.error)
}

// How a check ended.
fn ending_of(outcome: &Result<bool, RunFault>) -> Ending
    ensures { result ≡ ending_of_check outcome.now }
{
    match *outcome {
        Ok(true) => Ending::Done(0),
        Ok(false) => Ending::Done(4),
        Err(RunFault::Fault(Fault::Memory(refused))) => Ending::Memory(refused),
        Err(RunFault::Fault(_)) => Ending::Done(1),
        Err(RunFault::Stream) => Ending::Stream,
    }
}

// Says what came of a check, but nothing where nobody reads any more what is written. The answer is how it ended.
fn conclude<I, O, E: Sink>(
    alloc: Global,
    errors: &mut E,
    by_old_name: bool,
    path: Option<&str>,
    outcome: &Result<bool, RunFault>,
    given: &Given,
    source: &ReaderSource<NotedReader<I>>,
    sink: &WriterSink<NotedWriter<O>>,
) -> Ending
    ensures complains { (IsUnread sink.now.failed sink.now.writer.error × Keeps (E.contents errors.old) (E.contents errors.new)) ⊎ ((IsUnread sink.now.failed sink.now.writer.error → ⊥) × ComplainsFirst by_old_name (E.has_failed errors.new) (E.contents errors.old) (E.contents errors.new) outcome.now) }
    ensures ending { result ≡ ending_of_check outcome.now }
{
    if !is_unread(sink) {
        say_all(
            alloc,
            errors,
            by_old_name,
            path,
            outcome,
            given,
            source,
            sink,
        );
    }
    ending_of(outcome)
}

/// Checks a trace, in lines or not: writes what is found, and answers how that ended. If nothing is found, where errors go stands why,
/// by the name `lwkt_check` behind the line of the fault: the part of the trace that is refused, with its place, or how a stream failed. If
/// nobody reads any more what is written, nothing goes there.
pub fn check<I: Read, O: Write, E: Sink>(
    alloc: Global,
    by_lines: bool,
    by_old_name: bool,
    path: Option<&str>,
    source: &mut ReaderSource<NotedReader<I>>,
    sink: &mut WriterSink<NotedWriter<O>>,
    errors: &mut E,
) -> Ending
    ensures whole { by_lines ≡ false → ChecksAloud by_old_name ReportsFinding source.new.failed sink.new.failed (I.remaining source.old.reader.reader) (O.contents sink.old.writer.writer) (O.contents sink.new.writer.writer) (IsUnread sink.new.failed sink.new.writer.error) (E.has_failed errors.new) (E.contents errors.old) (E.contents errors.new) result }
    ensures lines { by_lines ≡ true → ChecksAloud by_old_name ReportsLines source.new.failed sink.new.failed (I.remaining source.old.reader.reader) (O.contents sink.old.writer.writer) (O.contents sink.new.writer.writer) (IsUnread sink.new.failed sink.new.writer.error) (E.has_failed errors.new) (E.contents errors.old) (E.contents errors.new) result }
{
    if by_lines {
        let mut lines = Lines::new(alloc);
        let outcome = check_lines(alloc, &mut lines, source, sink);
        return conclude(
            alloc,
            errors,
            by_old_name,
            path,
            &outcome,
            &Given::Lines(&lines),
            source,
            sink,
        );
    }
    let mut text = Vec::new(alloc);
    let outcome = check_keeping(alloc, source, sink, &mut text);
    conclude(
        alloc,
        errors,
        by_old_name,
        path,
        &outcome,
        &Given::Text(&text),
        source,
        sink,
    )
}
