//! Which request the words of the command line ask for.
ghost use Rattle.std.specs.Prelude.{◌≡◌, ◌≢◌, IfOk, map, string_bytes};
ghost use Rattle.std.specs.Option.{option_copied, option_map};
ghost use Rattle.clap.specs.Words.{kind_of, subcommand_rows_of};
ghost use Rattle.clap.specs.Walk.{texts};
ghost use Rattle.clap.specs.declared.error.kind.ErrorKind.TheVariants.{OutOfMemory as MemoryKind};
ghost use Rattle.lwkt_request.specs.Answers.{asked_in, IsAnswer, IsCalled, IsFailed, IsFound, IsParsed};
ghost use Rattle.lwkt_request.specs.OldNames.{call_by, call_of, old_run};
ghost use Rattle.lwkt_request.specs.Tasks.{rows_in};
ghost use Rattle.lwkt_request.specs.Texts.{path_of, turns_of};
ghost use Rattle.lwkt_request.specs.Wishes.{run_wish, wish_by, wish_for, wish_of};

use crate::commands::command_line;
use crate::matched::value_in;
use crate::old::{OldRun, new_words, old_run};
use crate::ranges::{path_of, turns_of};
use crate::requests::{Asked, Request, Task, Wording};
use crate::tasks::task_in;
use crate::wrongs::{Wrong, failure_of, misuse_of};
use clap::error::ErrorKind;
use clap::{ArgMatches, Error};
use lwkt_base::OutOfMemory;
use lwkt_base::memory::{from_str, matches_of, said_by};
use std::alloc::Global;

// The order that is named.
fn order_in(alloc: Global, text: Option<&str>) -> Result<Option<Vec<u8>>, OutOfMemory>
    ensures { IfOk result (λ order. option_map (λ turns. turns.items) order ≡ option_map turns_of (option_copied text.entry)) }
{
    match text {
        Some(text) => Ok(Some(turns_of(alloc, text)?)),
        None => Ok(None),
    }
}

// The path of the file that is named.
fn path_in(alloc: Global, file: Option<&str>) -> Result<Option<String>, OutOfMemory>
    ensures { IfOk result (λ path. option_map string_bytes path ≡ path_of (option_copied file.entry)) }
{
    match path_of(file) {
        Some(path) => Ok(Some(from_str(alloc, path)?)),
        None => Ok(None),
    }
}

// The request for a task.
fn request_for(alloc: Global, task: Task, matches: &ArgMatches<'_>) -> Result<Request, OutOfMemory>
    ensures { IfOk result (λ request. wish_by request ≡ wish_for (rows_in matches.now) task) }
{
    let order = order_in(alloc, value_in(matches, "order"))?;
    let path = path_in(alloc, value_in(matches, "FILE"))?;
    Ok(Request { task, order, path })
}

// The answer to words in which a parse found nothing wrong.
fn found_in(alloc: Global, matches: &ArgMatches<'_>) -> Result<Asked, OutOfMemory>
    ensures { IfOk result (IsFound (subcommand_rows_of matches.now)) }
{
    let Some((name, inner)) = matches.subcommand() else {
        return Ok(Asked::Misuse(misuse_of(alloc, "run", Wrong::NoCommand)?));
    };
    match task_in(name, inner) {
        Ok(task) => Ok(Asked::Do(request_for(alloc, task, inner)?)),
        Err(wrong) => Ok(Asked::Misuse(misuse_of(alloc, name, wrong)?)),
    }
}

// The answer to words at which a parse failed, but not for want of memory.
fn failed_by(alloc: Global, error: &Error, words: &[&str]) -> Result<Asked, OutOfMemory>
    ensures { kind_of error.now ≢ MemoryKind → IfOk result (IsFailed (kind_of error.now)) }
{
    let said = said_by(alloc, error)?;
    match error.kind() {
        ErrorKind::DisplayHelp | ErrorKind::DisplayVersion => Ok(Asked::Print(said)),
        ErrorKind::DisplayHelpOnMissingArgumentOrSubcommand => Ok(Asked::Misuse(said)),
        _ => Ok(Asked::Misuse(failure_of(alloc, said.as_str(), words)?)),
    }
}

// The answer to words for a parse.
fn parsed<'a>(alloc: Global, words: &'a [&'a str]) -> Result<Asked, OutOfMemory>
    ensures { IfOk result (IsParsed (texts words.entry.now)) }
{
    let command = command_line(alloc)?;
    let parse = matches_of(command, words)?;
    match parse {
        Ok(matches) => found_in(alloc, &matches),
        Err(error) => failed_by(alloc, &error, words),
    }
}

// The request for a run by the name `lwkt_run`.
fn run_request(alloc: Global, on_threads: bool, file: Option<&str>) -> Result<Request, OutOfMemory>
    ensures { IfOk result (λ request. wish_by request ≡ run_wish on_threads (option_copied file.entry)) }
{
    Ok(Request {
        task: Task::Run {
            on_threads,
            wording: Wording::OldName,
        },
        order: None,
        path: path_in(alloc, file)?,
    })
}

// The answer to the words behind `lwkt_run`.
fn run_asked(alloc: Global, words: &[String]) -> Result<Asked, OutOfMemory>
    ensures { IfOk result (IsCalled (old_run (map string_bytes words.now))) }
{
    match old_run(words) {
        OldRun::Direct(on_threads, file) => { Ok(Asked::Do(run_request(alloc, on_threads, file)?)) }
        OldRun::Help(question) => {
            let words = ["run", question];
            parsed(alloc, words.as_slice())
        }
        OldRun::Version => {
            let words = ["--version"];
            parsed(alloc, words.as_slice())
        }
        OldRun::Misused => Ok(Asked::OldUsage),
    }
}

// The answer to the words of the program.
fn answer_to(alloc: Global, words: &[String]) -> Result<Asked, OutOfMemory>
    ensures { IfOk result (IsAnswer (map string_bytes words.now)) }
{
    let Some((name, rest)) = words.split_first() else {
        return parsed(alloc, &[]);
    };
    if name.as_str() == "lwkt_run" {
        return run_asked(alloc, rest);
    }
    let new = new_words(alloc, name.as_str(), rest)?;
    parsed(alloc, new.as_slice())
}

/// What the words of the command line ask for; the program's own name isn't among them. A request comes exactly if the words ask for
/// one, and it is that one.
///
/// The first word may be the old name of a subcommand: `lwkt_run`, `lwkt_show`, `lwkt_check`, `lwkt_text` or `lwkt_explore`.
///
/// Refused only if memory is.
pub fn request_of(alloc: Global, words: &[String]) -> Result<Asked, OutOfMemory>
    ensures request { IfOk result (λ asked. wish_of asked ≡ asked_in (map string_bytes words.now)) }
    ensures answer { IfOk result (IsAnswer (map string_bytes words.now)) }
{
    answer_to(alloc, words)
}
