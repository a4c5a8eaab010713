//! The answer to the words of the command line.
ghost use Rattle.std.specs.Prelude.{◌≡◌, ◌⊎◌, IfErr, IfOk, IsTrue, map, string_bytes};
ghost use Rattle.std.specs.Option.{option_copied};
ghost use Rattle.lwkt_request.specs.Wishes.{wish_by};
ghost use Rattle.lwkt.specs.Answering.{Does, IsByOldName, ServesBy, ServesFile, PrintsMisuse, PrintsPage, PrintsUsage, names_old_check, takes_folder};
ghost use Rattle.lwkt.specs.Ending.{OwnsThree, WantsMemory, ending_of_words};
ghost use Rattle.lwkt.specs.Performing.{order_of};

use crate::endings::Ending;
use crate::errors::{
    Origin, is_by_old_name, put, put_lines, say_memory, say_unread, say_unwritten,
};
use crate::files::{opened, source_of};
use crate::folders::perform_all;
use crate::foreign::foreign_word;
use crate::performing::perform;
use crate::written::written;
use lwkt_base::memory;
use lwkt_report::{
    Complaint, NotedReader, NotedWriter, Program, ReaderSource, Sink, WordsFault, WriterSink,
    complain,
};
use lwkt_request::{Asked, Request, Search, Task, request_of};
use std::alloc::Global;
use std::fs::Files;
use std::io;
use std::io::{Read, Write};
use std::rt::Env;
use std::thread::Threads;
use std::time::Clock;

// What is said of an argument that isn't UTF-8.
const FOREIGN_WORDS: &str = " isn't UTF-8; give such a file as standard input, by < FILE\n";

// How `lwkt_run` is called.
const RUN_USAGE: &str = "\
usage: lwkt_run turns [FILE]     run a script in rounds, on one thread, and write its report
       lwkt_run threads [FILE]   the same with a thread for each processor
       lwkt_run --help           say more
example: ./lwkt_run turns examples/tally_add.json
";

// Writes the usage line of `lwkt_run`, and says how it is called.
fn misused<O: Write, E: Sink>(sink: &mut WriterSink<NotedWriter<O>>, errors: &mut E) -> Ending
    ensures { PrintsUsage (record { old = O.contents sink.old.writer.writer; new = O.contents sink.new.writer.writer; failed = sink.new.failed; error = sink.new.writer.error; flushed = sink.new.flushed; before = E.contents errors.old; after = E.contents errors.new; lost = E.has_failed errors.new }) result }
{
    complain(sink, Program::Run, Complaint::Usage);
    put(errors, RUN_USAGE);
    Ending::Done(1)
}

// Whether this is a word of `lwkt_run`, taken for a file that isn't there.
fn is_word(path: &str, error: &io::Error) -> bool {
    (path == "turns" || path == "threads") && error.kind() == io::ErrorKind::NotFound
}

// Performs a request on the file of this path; a check by the name `lwkt_check` or by the new one.
fn perform_on_file<R: Threads + Sync + Clock + Files, O: Write, E: Sink>(
    rt: &R,
    alloc: Global,
    request: &Request,
    by_old_name: bool,
    paints: bool,
    path: &str,
    sink: &mut WriterSink<NotedWriter<O>>,
    errors: &mut E,
) -> Ending
    ensures { ServesFile request.now.task (order_of request.now) by_old_name path.now (record { old = O.contents sink.old.writer.writer; new = O.contents sink.new.writer.writer; failed = sink.new.failed; error = sink.new.writer.error; flushed = sink.new.flushed; before = E.contents errors.old; after = E.contents errors.new; lost = E.has_failed errors.new }) result }
{
    match opened(rt, path) {
        Ok(file) => {
            let mut source = source_of(file);
            perform(
                rt,
                alloc,
                request,
                by_old_name,
                paints,
                Some(path),
                &mut source,
                sink,
                errors,
            )
        }
        Err(error) => {
            if is_by_old_name(request.task) && is_word(path, &error) {
                return misused(sink, errors);
            }
            let origin = Origin {
                task: request.task,
                path: Some(path),
                paints,
            };
            say_unread(alloc, errors, origin, &Some(error));
            Ending::Stream
        }
    }
}

// Whether all scripts of a folder are to be tried.
fn takes_folder(task: Task) -> bool
    ensures { result ≡ takes_folder task }
{
    match task {
        Task::Explore(search) => search.all,
        _ => false,
    }
}

// Performs a request; a check by the name `lwkt_check` or by the new one.
fn done<R: Threads + Sync + Clock + Files, I: Read, O: Write, E: Sink>(
    rt: &R,
    alloc: Global,
    request: &Request,
    by_old_name: bool,
    paints: bool,
    source: &mut ReaderSource<NotedReader<I>>,
    sink: &mut WriterSink<NotedWriter<O>>,
    errors: &mut E,
) -> Ending
    ensures { ServesBy (wish_by request.now).path request.now.task (order_of request.now) by_old_name source.new.failed (I.remaining source.old.reader.reader) (source.new ≡ source.old) (record { old = O.contents sink.old.writer.writer; new = O.contents sink.new.writer.writer; failed = sink.new.failed; error = sink.new.writer.error; flushed = sink.new.flushed; before = E.contents errors.old; after = E.contents errors.new; lost = E.has_failed errors.new }) result }
{
    let Some(path) = &request.path else {
        return perform(
            rt,
            alloc,
            request,
            by_old_name,
            paints,
            None,
            source,
            sink,
            errors,
        );
    };
    if takes_folder(request.task) {
        perform_all(rt, alloc, request, path.as_str(), sink, errors)
    } else {
        perform_on_file(
            rt,
            alloc,
            request,
            by_old_name,
            paints,
            path.as_str(),
            sink,
            errors,
        )
    }
}

// Writes a page that is asked for.
fn print_page<O: Write, E: Sink>(
    alloc: Global,
    sink: &mut WriterSink<NotedWriter<O>>,
    errors: &mut E,
    text: &str,
) -> Ending
    ensures { PrintsPage text.now (record { old = O.contents sink.old.writer.writer; new = O.contents sink.new.writer.writer; failed = sink.new.failed; error = sink.new.writer.error; flushed = sink.new.flushed; before = E.contents errors.old; after = E.contents errors.new; lost = E.has_failed errors.new }) result }
{
    match written(sink, text, 0) {
        Ok(status) => Ending::Done(status),
        Err(_) => {
            say_unwritten(alloc, errors, &sink.writer.error);
            Ending::Stream
        }
    }
}

// Says why words ask for nothing, unless memory is refused.
fn refused<E: Sink>(alloc: Global, errors: &mut E, text: &str) -> Ending
    ensures { WantsMemory result ⊎ PrintsMisuse text.now (E.has_failed errors.new) (E.contents errors.old) (E.contents errors.new) result }
{
    match put_lines(alloc, errors, text) {
        Ok(()) => Ending::Done(1),
        Err(refused) => {
            say_memory(errors);
            Ending::Memory(refused)
        }
    }
}

// Whether words are those of `lwkt_check`.
fn names_old_check(words: &[String]) -> bool
    ensures { result ≡ names_old_check (map string_bytes words.now) }
{
    match words {
        [name, ..] => name.as_str() == "lwkt_check",
        [] => false,
    }
}

// Does what the words of the command line ask for. If they ask for nothing, nothing is read, and where errors go stands why.
fn answer_to<R: Threads + Sync + Clock + Files, I: Read, O: Write, E: Sink>(
    rt: &R,
    alloc: Global,
    words: &[String],
    paints: bool,
    source: &mut ReaderSource<NotedReader<I>>,
    sink: &mut WriterSink<NotedWriter<O>>,
    errors: &mut E,
) -> Ending
    ensures { Does (map string_bytes words.now) source.new.failed (I.remaining source.old.reader.reader) (source.new ≡ source.old) (sink.new ≡ sink.old) (record { old = O.contents sink.old.writer.writer; new = O.contents sink.new.writer.writer; failed = sink.new.failed; error = sink.new.writer.error; flushed = sink.new.flushed; before = E.contents errors.old; after = E.contents errors.new; lost = E.has_failed errors.new }) result }
{
    match request_of(alloc, words) {
        Ok(Asked::Do(request)) => {
            let by_old_name = names_old_check(words);
            done(
                rt,
                alloc,
                &request,
                by_old_name,
                paints,
                source,
                sink,
                errors,
            )
        }
        Ok(Asked::Print(text)) => print_page(alloc, sink, errors, text.as_str()),
        Ok(Asked::Misuse(text)) => refused(alloc, errors, text.as_str()),
        Ok(Asked::OldUsage) => misused(sink, errors),
        Err(refused) => {
            say_memory(errors);
            Ending::Memory(refused)
        }
    }
}

// Says that an argument isn't UTF-8, and which one, if that is known.
fn say_foreign<E: Sink>(alloc: Global, errors: &mut E, word: Option<String>) {
    let mut line = String::new(alloc);
    let done_line = match &word {
        Some(word) => memory::put(
            &mut line,
            ("lwkt: the argument ", word.as_str(), FOREIGN_WORDS),
        ),
        None => memory::put(&mut line, ("lwkt: an argument", FOREIGN_WORDS)),
    };
    match done_line {
        Ok(()) => put(errors, line.as_str()),
        Err(_) => say_memory(errors),
    }
}

// Says why the command line has no words: memory was refused for them, or one isn't UTF-8.
fn unworded<R: Env, E: Sink>(rt: &R, alloc: Global, errors: &mut E, fault: WordsFault) -> Ending
    ensures { result ≡ ending_of_words fault }
{
    match fault {
        WordsFault::Memory(refused) => {
            say_memory(errors);
            Ending::Memory(refused)
        }
        WordsFault::NotUtf8 => {
            say_foreign(alloc, errors, foreign_word(rt, alloc));
            Ending::Done(1)
        }
    }
}

/// Does what the words of the command line ask for, and answers how that ended.
///
/// The source is standard input, the sink standard output, and `errors` standard error, on which verdicts in names are painted if that
/// is asked for. Of standard input nothing is read unless the words
/// ask for it. If they ask for nothing, standard error gets why, and standard output nothing, but for the usage line of `lwkt_run`.
pub fn answer<R: Threads + Sync + Clock + Files + Env, I: Read, O: Write, E: Sink>(
    rt: &R,
    alloc: Global,
    words: Result<Vec<String>, WordsFault>,
    paints: bool,
    source: &mut ReaderSource<NotedReader<I>>,
    sink: &mut WriterSink<NotedWriter<O>>,
    errors: &mut E,
) -> Ending
    ensures does { IfOk words (λ words. Does (map string_bytes words.items) source.new.failed (I.remaining source.old.reader.reader) (source.new ≡ source.old) (sink.new ≡ sink.old) (record { old = O.contents sink.old.writer.writer; new = O.contents sink.new.writer.writer; failed = sink.new.failed; error = sink.new.writer.error; flushed = sink.new.flushed; before = E.contents errors.old; after = E.contents errors.new; lost = E.has_failed errors.new }) result) }
    ensures unworded { IfErr words (λ fault. (source.new ≡ source.old) × ((sink.new ≡ sink.old) × (result ≡ ending_of_words fault))) }

    // The exit status 3 is that of an ending for which memory was refused, or a file or a stream failed.
    ensures three { OwnsThree result }
{
    match words {
        Ok(words) => answer_to(rt, alloc, words.as_slice(), paints, source, sink, errors),
        Err(fault) => unworded(rt, alloc, errors, fault),
    }
}
