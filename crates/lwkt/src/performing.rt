//! A request, performed.
ghost use Rattle.std.specs.Prelude.{◌≡◌, ◌⊎◌, Err, IfErr, IfOk, IsTrue, OnOk, false, string_bytes};
ghost use Rattle.std.specs.Option.{option_copied};
ghost use Rattle.lwkt_text.specs.Inputs.{input_of};
ghost use Rattle.lwkt.specs.Answering.{Serves};
ghost use Rattle.lwkt.specs.Failing.{Declines, IsFailureOf, ending_of};
ghost use Rattle.lwkt.specs.Making.{IsMade, IsMadeOf, TakesScript};
ghost use Rattle.lwkt.specs.Performing.{AnswersRead, Performs, SaysAfter, complains, order_of};

use crate::checks::check;
use crate::endings::Ending;
use crate::errors::{
    Origin, is_by_old_name, put, put_bytes, say_memory, say_unmade, say_unread, say_unwritten,
};
use crate::explores::finding_of;
use crate::failures::Failure;
use crate::reads::read_said;
use crate::runs::{Words, mode_of, report_of};
use crate::shows::{names_in, shown_of};
use crate::texts::form_of;
use crate::written::{Made, written};
use lwkt_base::Fault;
use lwkt_report::{
    Complaint, NotedReader, NotedWriter, Program, ReaderSource, RunFault, Sink, Source, WriterSink,
    complain, read_capped,
};
use lwkt_request::{Request, Task, Wording};
use lwkt_text::Input;
use std::alloc::Global;
use std::io::{Read, Write};
use std::thread::Threads;
use std::time::Clock;

// What a task makes of an input. `errors` gets how far a search is.
fn made_of<R: Threads + Sync + Clock, E: Sink>(
    rt: &R,
    alloc: Global,
    origin: Origin<'_>,
    order: Option<&[u8]>,
    bytes: &[u8],
    input: &Input,
    errors: &mut E,
) -> Result<Made, Failure>
    requires { TakesScript origin.task }
    ensures made { IfOk result (λ made. IsMade origin.entry.task (option_copied order.entry) input.now (string_bytes made.text) made.status) }
    ensures declined { IfErr result (Declines origin.entry.task (option_copied order.entry) input.now.script) }
{
    let path = origin.shown_path();
    match origin.task {
        Task::Run {
            on_threads,
            wording,
        } => {
            let words = Words {
                wording,
                paints: origin.paints,
            };
            report_of(rt, alloc, mode_of(on_threads), words, path, bytes, input)
        }
        Task::Show {
            on_threads,
            in_numbers,
            options,
        } => {
            let names = names_in(in_numbers, input);
            shown_of(rt, alloc, on_threads, names, options, order, &input.script)
        }
        Task::Check { .. } => unreachable!(),
        Task::Text(form) => form_of(rt, alloc, form, path, bytes, input),
        Task::Explore(search) => {
            finding_of(rt, alloc, search, origin.paints, bytes, input, errors)
        }
    }
}

// What a task makes of bytes. `errors` gets why it makes nothing, unless memory was refused.
fn made_of_bytes<R: Threads + Sync + Clock, E: Sink>(
    rt: &R,
    alloc: Global,
    origin: Origin<'_>,
    order: Option<&[u8]>,
    bytes: &[u8],
    errors: &mut E,
) -> Result<Made, Failure>
    requires { TakesScript origin.task }
    ensures made { IfOk result (λ made. IsMadeOf origin.entry.task (option_copied order.entry) (input_of (option_copied origin.entry.path) bytes.now) (string_bytes made.text) made.status) }
    ensures failed { IfErr result (IsFailureOf origin.entry.task (option_copied order.entry) (input_of (option_copied origin.entry.path) bytes.now)) }
{
    let input = match read_said(alloc, origin, bytes, errors) {
        Ok(input) => input,
        Err(fault) => return Err(Failure::Fault(fault)),
    };
    match made_of(rt, alloc, origin, order, bytes, &input, errors) {
        Ok(made) => Ok(made),
        Err(failure) => {
            say_unmade(alloc, errors, origin, bytes, &input, failure);
            Err(failure)
        }
    }
}

// Performs a task that takes a script, and answers the status of what it wrote. `errors` gets why it writes nothing, unless memory was
// refused or a stream failed; and the verdicts on what is expected, behind the whole text.
fn answered<R: Threads + Sync + Clock, S: Source, K: Sink, E: Sink>(
    rt: &R,
    alloc: Global,
    origin: Origin<'_>,
    order: Option<&[u8]>,
    source: &mut S,
    sink: &mut K,
    errors: &mut E,
) -> Result<u8, Failure>
    requires { TakesScript origin.task }
    ensures answers { AnswersRead origin.entry.task (option_copied order.entry) (option_copied origin.entry.path) (S.left source.old) (K.contents sink.old) (K.contents sink.new) result }
    ensures blames { result ≡ Err Failure.Stream → IsTrue (S.has_failed source.new) ⊎ IsTrue (K.has_failed sink.new) }
    ensures flushed { OnOk result (K.is_flushed sink.new) }
    ensures unfailed { (result ≡ Err Failure.Stream → ⊥) → (S.has_failed source.new ≡ S.has_failed source.old) × (K.has_failed sink.new ≡ K.has_failed sink.old) }
{
    let bytes = match read_capped(alloc, source) {
        Ok(bytes) => bytes,
        Err(RunFault::Fault(fault)) => return Err(Failure::Fault(fault)),
        Err(RunFault::Stream) => return Err(Failure::Stream),
    };
    let made = match made_of_bytes(rt, alloc, origin, order, bytes.as_slice(), errors) {
        Ok(made) => made,
        Err(failure) => return Err(failure),
    };
    let answer = written(sink, made.text.as_str(), made.status);
    if answer.is_ok() {
        put(errors, made.verdicts.as_str());
    }
    answer
}

// Writes the line of a fault, if one stands in place of a report.
fn complain_of<K: Sink>(task: Task, sink: &mut K, answer: &Result<u8, Failure>)
    ensures says { SaysAfter (complains task) (K.has_failed sink.new) (K.contents sink.old) (K.contents sink.new) answer.now }
    ensures still { IsTrue (K.has_failed sink.old) → IsTrue (K.has_failed sink.new) }
    ensures quiet { complains task ≡ false → K.has_failed sink.new ≡ K.has_failed sink.old }
    ensures flushed { OnOk answer.now (K.is_flushed sink.old → K.is_flushed sink.new) }
{
    let Task::Run {
        wording: Wording::OldName,
        ..
    } = task
    else {
        return;
    };
    match *answer {
        Err(Failure::Fault(fault)) => complain(sink, Program::Run, Complaint::Fault(fault)),
        Err(Failure::Stream) => complain(sink, Program::Run, Complaint::Stream),
        _ => {}
    }
}

// How the program ends by an answer.
fn ending_of(answer: &Result<u8, Failure>) -> Ending
    ensures { result ≡ ending_of answer.now }
{
    match *answer {
        Ok(status) => Ending::Done(status),
        Err(Failure::Fault(Fault::Memory(refused))) => Ending::Memory(refused),
        Err(Failure::Stream) => Ending::Stream,
        Err(Failure::Fault(Fault::Unlawful { .. })) => Ending::Done(4),
        Err(_) => Ending::Done(1),
    }
}

// Says that memory was refused, or how a stream failed.
fn say_streams<I, O, E: Sink>(
    alloc: Global,
    errors: &mut E,
    origin: Origin<'_>,
    answer: &Result<u8, Failure>,
    source: &ReaderSource<NotedReader<I>>,
    sink: &WriterSink<NotedWriter<O>>,
) {
    if matches!(answer, Err(Failure::Fault(Fault::Memory(_)))) {
        say_memory(errors);
    }
    if source.failed {
        say_unread(alloc, errors, origin, &source.reader.error);
    }
    if sink.failed {
        say_unwritten(alloc, errors, &sink.writer.error);
    }
}

// Passes on what was said; if memory for it was refused, this alone is said.
fn pass_on<E: Sink>(errors: &mut E, said: &WriterSink<Vec<u8>>) {
    if said.failed {
        say_memory(errors);
    } else {
        put_bytes(errors, said.writer.as_slice());
    }
}

// The same. By the name `lwkt_run` `said` gets what `errors` gets by the others.
fn answered_by_name<R: Threads + Sync + Clock, S: Source, K: Sink, E: Sink>(
    rt: &R,
    alloc: Global,
    origin: Origin<'_>,
    order: Option<&[u8]>,
    source: &mut S,
    sink: &mut K,
    said: &mut WriterSink<Vec<u8>>,
    errors: &mut E,
) -> Result<u8, Failure>
    requires { TakesScript origin.task }
    ensures answers { AnswersRead origin.entry.task (option_copied order.entry) (option_copied origin.entry.path) (S.left source.old) (K.contents sink.old) (K.contents sink.new) result }
    ensures blames { result ≡ Err Failure.Stream → IsTrue (S.has_failed source.new) ⊎ IsTrue (K.has_failed sink.new) }
    ensures flushed { OnOk result (K.is_flushed sink.new) }
    ensures unfailed { (result ≡ Err Failure.Stream → ⊥) → (S.has_failed source.new ≡ S.has_failed source.old) × (K.has_failed sink.new ≡ K.has_failed sink.old) }
{
    if is_by_old_name(origin.task) {
        answered(rt, alloc, origin, order, source, sink, said)
    } else {
        answered(rt, alloc, origin, order, source, sink, errors)
    }
}

// Performs a task that takes a script, and answers how that ended. By the name `lwkt_run` the line of a fault comes before what is said
// of it, for a terminal that shows both.
fn perform_on_script<R: Threads + Sync + Clock, I: Read, O: Write, E: Sink>(
    rt: &R,
    alloc: Global,
    origin: Origin<'_>,
    order: Option<&[u8]>,
    source: &mut ReaderSource<NotedReader<I>>,
    sink: &mut WriterSink<NotedWriter<O>>,
    errors: &mut E,
) -> Ending
    requires { TakesScript origin.task }
    ensures performs { Performs origin.entry.task (option_copied order.entry) (option_copied origin.entry.path) source.new.failed sink.new.failed (IsTrue sink.new.flushed) (I.remaining source.old.reader.reader) (O.contents sink.old.writer.writer) (O.contents sink.new.writer.writer) result }
    ensures failed_source { source.old.failed ≡ false → IsTrue source.new.failed → result ≡ Ending.Stream }
    ensures failed_sink { complains origin.entry.task ≡ false → sink.old.failed ≡ false → IsTrue sink.new.failed → result ≡ Ending.Stream }
{
    let mut said = WriterSink::new(Vec::new(alloc));
    let answer = answered_by_name(rt, alloc, origin, order, source, sink, &mut said, errors);
    complain_of(origin.task, sink, &answer);
    pass_on(errors, &said);
    say_streams(alloc, errors, origin, &answer, source, sink);
    ending_of(&answer)
}

// The order that a request names.
fn order_of(request: &Request) -> Option<&[u8]>
    ensures { option_copied result ≡ order_of request.now }
{
    match &request.order {
        Some(order) => Some(order.as_slice()),
        None => None,
    }
}

/// Performs a request, asked for by an older name of `lwkt check` or not: reads all that is left of the source, writes what the task makes of it, and answers how that ended.
///
/// A script is read in JSON or as a text, by the name of its file too. What is made of it is whole in memory before its first byte is
/// written, and its status stands if all is written. Else memory was refused or a stream failed; or the status is 1 if the input, its opening
/// or its order is refused, if the run ended before the range that is shown, or if a form of the script is too long, and 4 if a run along an
/// order isn't lawful. By the name `lwkt_run` the line of the fault stands on the sink then.
///
/// `errors` gets why nothing is written, and of each thing that a text expects whether it holds; these verdicts are painted if that is
/// asked for.
pub fn perform<R: Threads + Sync + Clock, I: Read, O: Write, E: Sink>(
    rt: &R,
    alloc: Global,
    request: &Request,
    by_old_name: bool,
    paints: bool,
    name: Option<&str>,
    source: &mut ReaderSource<NotedReader<I>>,
    sink: &mut WriterSink<NotedWriter<O>>,
    errors: &mut E,
) -> Ending
    // What is written, and how that ended.
    ensures serves { Serves request.now.task (order_of request.now) (option_copied name.entry) by_old_name source.new.failed (I.remaining source.old.reader.reader) (record { old = O.contents sink.old.writer.writer; new = O.contents sink.new.writer.writer; failed = sink.new.failed; error = sink.new.writer.error; flushed = sink.new.flushed; before = E.contents errors.old; after = E.contents errors.new; lost = E.has_failed errors.new }) result }

    // a stream that fails is reported.
    ensures failed_source { TakesScript request.now.task → source.old.failed ≡ false → IsTrue source.new.failed → result ≡ Ending.Stream }
    ensures failed_sink { TakesScript request.now.task → complains request.now.task ≡ false → sink.old.failed ≡ false → IsTrue sink.new.failed → result ≡ Ending.Stream }
{
    let origin = Origin {
        task: request.task,
        path: name,
        paints,
    };
    let order = order_of(request);
    match request.task {
        Task::Check { by_lines } => {
            check(alloc, by_lines, by_old_name, name, source, sink, errors)
        }
        _ => perform_on_script(rt, alloc, origin, order, source, sink, errors),
    }
}
