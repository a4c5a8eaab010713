//! All scripts of a folder, each performed.
ghost use Rattle.std.specs.Prelude.{◌≡◌, ◌≤◌, ◌<◌, IfOk, OnOk, false, length, string_bytes, true};
ghost use Rattle.lwkt_refusals.specs.Sayings.{SaysMore};
ghost use Rattle.lwkt_report.specs.Complaint.{IsSaid};
ghost use Rattle.lwkt.specs.Counting.{Counts, HaveFailed, HavePassed, count_line};
ghost use Rattle.lwkt.specs.Ending.{HasFailed};

use crate::endings::Ending;
use crate::errors::{put, put_bytes, say_memory, say_unreadable, say_unwritten};
use crate::files::{opened, source_of};
use crate::foreign::shown_of;
use crate::performing::perform;
use lwkt_base::memory::{extend_from_slice, from_str, push, push_str, sort};
use lwkt_base::{Fault, OutOfMemory, memory};
use lwkt_refusals::say_of_file;
use lwkt_report::{NotedWriter, RunFault, Sink, WriterSink, escaped, read_up_to};
use lwkt_request::Request;
use std::alloc::Global;
use std::fs::Files;
use std::io;
use std::io::Write;
use std::str::from_utf8;
use std::thread::Threads;
use std::time::Clock;

// A file of a folder that is to be tried.
#[derive(Drop, PartialEq, Eq, PartialOrd, Ord)]
enum Listed {
    // By this name.
    Named(String),
    // Its name isn't UTF-8 and is shown so: it can't be opened.
    Foreign(String),
}

// Whether a file of this name is tried.
fn is_script(name: &[u8]) -> bool {
    name.ends_with(b".lwkt") || name.ends_with(b".json")
}

// Why the names of a folder aren't known.
#[derive(Drop)]
enum Unlisted {
    // Memory for them was refused.
    Memory(OutOfMemory),
    // The folder can't be read, and why, if that is known.
    Folder(Option<io::Error>),
}

impl From<OutOfMemory> for Unlisted {
    fn from(refused: OutOfMemory) -> Unlisted {
        Unlisted::Memory(refused)
    }
}

impl From<io::Error> for Unlisted {
    fn from(error: io::Error) -> Unlisted {
        Unlisted::Folder(Some(error))
    }
}

// The path of a folder, ended by a slash.
fn path_of(alloc: Global, folder: &str) -> Result<String, OutOfMemory> {
    let mut path = from_str(alloc, folder)?;
    if !folder.is_empty() && !folder.ends_with('/') {
        push_str(&mut path, "/")?;
    }
    Ok(path)
}

// The names in a folder, each ended by a zero.
fn listing_of<R: Files>(rt: &R, alloc: Global, folder: &str) -> Result<Vec<u8>, Unlisted> {
    let path = path_of(alloc, folder)?;
    let mut source = source_of(rt.open_dir(path.as_str())?);
    match read_up_to(alloc, &mut source, usize::MAX) {
        Ok(names) => Ok(names),
        Err(RunFault::Fault(Fault::Memory(refused))) => Err(Unlisted::Memory(refused)),
        Err(_) => Err(Unlisted::Folder(source.reader.error)),
    }
}

// A file by its name.
fn file_of(alloc: Global, name: &[u8]) -> Result<Listed, OutOfMemory> {
    match from_utf8(name) {
        Ok(name) => Ok(Listed::Named(from_str(alloc, name)?)),
        Err(_) => Ok(Listed::Foreign(shown_of(alloc, name)?)),
    }
}

// The scripts of a folder, in order of their names; behind them those whose names aren't UTF-8.
fn files_in<R: Files>(rt: &R, alloc: Global, folder: &str) -> Result<Vec<Listed>, Unlisted> {
    let listing = listing_of(rt, alloc, folder)?;
    let mut files = Vec::new(alloc);
    for name in listing.as_slice().split(|byte| *byte == 0) {
        if is_script(name) {
            push(&mut files, file_of(alloc, name)?)?;
        }
    }
    sort(&mut files)?;
    Ok(files)
}

// Says why the names of a folder aren't known.
fn say_unlisted<E: Sink>(alloc: Global, errors: &mut E, folder: &str, why: Unlisted) -> Ending
    ensures { HasFailed result }
{
    match why {
        Unlisted::Memory(refused) => {
            say_memory(errors);
            Ending::Memory(refused)
        }
        Unlisted::Folder(error) => {
            say_unreadable(alloc, errors, Some(folder), &error);
            Ending::Stream
        }
    }
}

// What a try of one file came to: how it ended, and all that it wrote and said, if memory for it was there.
#[derive(Drop)]
struct Try {
    ending: Ending,
    said: Vec<u8>,
}

// Tries one file.
fn tried<R: Threads + Sync + Clock + Files>(
    rt: &R,
    alloc: Global,
    request: &Request,
    path: &str,
) -> Try {
    let mut sink = WriterSink::new(NotedWriter::new(Vec::new(alloc)));
    let mut errors = WriterSink::new(Vec::new(alloc));
    let ending = match opened(rt, path) {
        Ok(file) => {
            let mut source = source_of(file);
            perform(
                rt,
                alloc,
                request,
                false,
                false,
                Some(path),
                &mut source,
                &mut sink,
                &mut errors,
            )
        }
        Err(error) => {
            say_unreadable(alloc, &mut errors, Some(path), &Some(error));
            Ending::Stream
        }
    };
    let mut said = sink.writer.writer;
    let _ = extend_from_slice(&mut said, errors.writer.as_slice());
    Try { ending, said }
}

// Tries the file of this name, and writes what it said if it fails. The answer is whether it passed.
fn try_named<R: Threads + Sync + Clock + Files, O: Write>(
    rt: &R,
    alloc: Global,
    request: &Request,
    folder: &str,
    name: &str,
    sink: &mut WriterSink<NotedWriter<O>>,
) -> Result<bool, OutOfMemory>
    ensures quiet { IfOk result (λ passed. passed ≡ true → sink.new ≡ sink.old) }
    ensures more { SaysMore sink.old.failed sink.new.failed (O.contents sink.old.writer.writer) (O.contents sink.new.writer.writer) }
{
    let mut path = String::new(alloc);
    memory::put(&mut path, (folder, "/", name))?;
    let Try { ending, said } = tried(rt, alloc, request, path.as_str());
    let status = ending.status();
    if status == 0 {
        return Ok(true);
    }
    let mut head = escaped(alloc, name)?;
    memory::put(&mut head, (": status ", status, "\n"))?;
    put(sink, head.as_str());
    put_bytes(sink, said.as_slice());
    Ok(false)
}

// Names a file that isn't tried, since its name isn't UTF-8.
fn say_foreign<K: Sink>(
    alloc: Global,
    folder: &str,
    shown: &str,
    sink: &mut K,
) -> Result<(), OutOfMemory>
    ensures { SaysMore (K.has_failed sink.old) (K.has_failed sink.new) (K.contents sink.old) (K.contents sink.new) }
{
    let folder = escaped(alloc, folder)?;
    let mut shown_line = from_str(alloc, shown)?;
    memory::put(
        &mut shown_line,
        (
            ": status 3\nlwkt: ",
            folder.as_str(),
            "/",
            shown,
            ": the name isn't UTF-8; give such a file as standard input, by < FILE\n",
        ),
    )?;
    put(sink, shown_line.as_str());
    Ok(())
}

// Tries one file, and writes what it said if it fails; one whose name isn't UTF-8 fails. The answer is whether it passed.
fn try_one<R: Threads + Sync + Clock + Files, O: Write>(
    rt: &R,
    alloc: Global,
    request: &Request,
    folder: &str,
    file: &Listed,
    sink: &mut WriterSink<NotedWriter<O>>,
) -> Result<bool, OutOfMemory>
    ensures quiet { IfOk result (λ passed. passed ≡ true → sink.new ≡ sink.old) }
    ensures more { SaysMore sink.old.failed sink.new.failed (O.contents sink.old.writer.writer) (O.contents sink.new.writer.writer) }
{
    match file {
        Listed::Named(name) => try_named(rt, alloc, request, folder, name.as_str(), sink),
        Listed::Foreign(shown) => {
            say_foreign(alloc, folder, shown.as_str(), sink)?;
            Ok(false)
        }
    }
}

// Tries each file, and writes what those said that fail. The answer is how many failed.
fn tried_all<R: Threads + Sync + Clock + Files, O: Write>(
    rt: &R,
    alloc: Global,
    request: &Request,
    folder: &str,
    files: &[Listed],
    sink: &mut WriterSink<NotedWriter<O>>,
) -> Result<usize, OutOfMemory>
    ensures within { IfOk result (λ failed. failed ≤ length files.now) }
    ensures quiet { IfOk result (λ failed. failed ≡ 0 → sink.new ≡ sink.old) }
    ensures more { SaysMore sink.old.failed sink.new.failed (O.contents sink.old.writer.writer) (O.contents sink.new.writer.writer) }
{
    let mut failed = 0;
    for file in files {
        if !try_one(rt, alloc, request, folder, file, sink)? {
            failed += 1;
        }
    }
    Ok(failed)
}

// How many passed, and how many failed.
fn count_line(alloc: Global, passed: usize, failed: usize) -> Result<String, OutOfMemory>
    ensures { IfOk result (λ line. string_bytes line ≡ count_line passed failed) }
{
    let mut line = String::new(alloc);
    memory::put(&mut line, (passed, " passed, ", failed, " failed\n"))?;
    Ok(line)
}

// Writes how many passed, and how many failed.
fn put_count<K: Sink>(
    alloc: Global,
    sink: &mut K,
    passed: usize,
    failed: usize,
) -> Result<(), OutOfMemory>
    ensures said { OnOk result (IsSaid (K.has_failed sink.new) (K.contents sink.old) (K.contents sink.new) (count_line passed failed)) }
    ensures stays { K.has_failed sink.new ≡ false → K.has_failed sink.old ≡ false }
{
    let line = count_line(alloc, passed, failed)?;
    put(sink, line.as_str());
    Ok(())
}

// Tries each file, and writes what those said that fail; in the end how many passed and failed. The answer is how many failed.
fn counted<R: Threads + Sync + Clock + Files, O: Write>(
    rt: &R,
    alloc: Global,
    request: &Request,
    folder: &str,
    files: &[Listed],
    sink: &mut WriterSink<NotedWriter<O>>,
) -> Result<usize, OutOfMemory>
    ensures passed { sink.new.failed ≡ false → IfOk result (λ failed. failed ≡ 0 → HavePassed (length files.now) (O.contents sink.old.writer.writer) (O.contents sink.new.writer.writer)) }
    ensures failed { sink.new.failed ≡ false → IfOk result (λ failed. 0 < failed → HaveFailed (length files.now) (O.contents sink.old.writer.writer) (O.contents sink.new.writer.writer)) }
{
    let failed = tried_all(rt, alloc, request, folder, files, sink)?;
    put_count(alloc, sink, files.len() - failed, failed)?;
    Ok(failed)
}

/// Performs a request on each `.lwkt` and `.json` file of a folder, by name. Of those whose status isn't 0, the name, the status and all
/// that was written stands on the sink; in the end how many passed and failed. A file whose name isn't UTF-8 can't be opened, and fails.
///
/// It ends with status 0 if all passed and all was written, 5 if not all passed, and 1 if there is no file to try; or the folder can't be
/// read, memory was refused or a stream failed.
pub fn perform_all<R: Threads + Sync + Clock + Files, O: Write, E: Sink>(
    rt: &R,
    alloc: Global,
    request: &Request,
    folder: &str,
    sink: &mut WriterSink<NotedWriter<O>>,
    errors: &mut E,
) -> Ending
    ensures { Counts sink.new.failed (O.contents sink.old.writer.writer) (O.contents sink.new.writer.writer) result }
{
    let files = match files_in(rt, alloc, folder) {
        Ok(files) => files,
        Err(why) => return say_unlisted(alloc, errors, folder, why),
    };
    if files.is_empty() {
        say_of_file(
            alloc,
            errors,
            Some(folder),
            "no file there ends in .lwkt or .json",
        );
        return Ending::Done(1);
    }
    let failed = match counted(rt, alloc, request, folder, files.as_slice(), sink) {
        Ok(failed) => failed,
        Err(refused) => {
            say_memory(errors);
            return Ending::Memory(refused);
        }
    };
    if sink.failed {
        say_unwritten(alloc, errors, &sink.writer.error);
        return Ending::Stream;
    }
    Ending::Done(if failed == 0 { 0 } else { 5 })
}
