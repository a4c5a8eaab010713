//! The program `lwkt`: runs a script, shows the run, translates it or tries its orders, and checks a trace.
//!
//! Words: a *task* is what the command line asks for; *input* is a script that was read, in JSON or as a text, with what is expected of
//! it; a task *makes* a text of input, and the exit status that goes with it.
#![tactic(auto)]

mod answering;
mod checks;
mod endings;
mod errors;
mod explores;
mod failures;
mod files;
mod folders;
mod foreign;
mod performing;
mod reads;
mod runs;
mod shows;
mod texts;
mod tickers;
mod written;

use crate::answering::answer;
use crate::files::source_of;
use lwkt_report::{NotedWriter, WriterSink, words_of};
use std::alloc::Global;
use std::env::FillError;
use std::io::IsTerminal;
use std::process::ExitCode;
use std::rt::Env;

// Whether the variable `NO_COLOR` is set, and isn't empty.
fn asks_for_no_colour<R: Env>(rt: &R) -> bool {
    let mut front = [0u8; 1];
    match rt.var("NO_COLOR", &mut front) {
        Ok(length) => length > 0,
        Err(FillError::TooLong) => true,
        Err(FillError::NotPresent) => false,
    }
}

fn main(rt: HostRuntime) -> ExitCode {
    let alloc: Global = rt.alloc();
    let words = words_of(&rt);
    let mut source = source_of(rt.stdin());
    let mut sink = WriterSink::new(NotedWriter::new(rt.stdout()));
    let mut errors = WriterSink::new(rt.stderr());
    let paints = rt.stderr().is_terminal() && !asks_for_no_colour(&rt);
    let ending = answer(
        &rt,
        alloc,
        words,
        paints,
        &mut source,
        &mut sink,
        &mut errors,
    );
    ExitCode::from(ending.status())
}
