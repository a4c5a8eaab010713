//! Why a call makes nothing, in the words of the program of what it reads from standard input: of each cause
//! `lwkt: standard input:LINE:COLUMN: WORDS`, the line with a mark under the place, a known word that is near, and what to try.

use lwkt_base::limits::TRACE_BYTES;
use lwkt_base::memory::put;
use lwkt_base::{Fault, OutOfMemory};
use lwkt_refusals::{say_of_file, say_opening, say_unread, say_untraced};
use lwkt_report::{Page, READ_LIMIT, write_whole};
use lwkt_script::read_script;
use lwkt_text::{Input, Many, Unread, Wrong, is_text};
use std::alloc::Global;

// What is said where memory was refused.
const NO_MEMORY: &str = "lwkt: out of memory\n";

// What is said of a text that had to be JSON.
const IS_TEXT: &str = "this is a text, and no JSON; lwkt_run_text runs it (fault 33 at 0)";

// What is said where the order names a processor that isn't there, before the number of the last one.
const ABSENT: &str = "the order names a processor that isn't there; the last one is ";

/// Says that memory was refused.
pub fn say_memory(page: &mut Page) {
    let _ = write_whole(page, NO_MEMORY.as_bytes());
}

/// Says something of what was given as a whole.
pub fn say_whole(alloc: Global, page: &mut Page, words: &str) {
    say_of_file(alloc, page, None, words);
}

/// Says why a script in either form isn't read.
pub fn say_input(alloc: Global, page: &mut Page, script: &[u8], unread: &Unread) {
    // Where no file is named, who speaks doesn't matter.
    say_unread(alloc, page, "lwkt run <", None, script, unread);
}

/// Says all that is wrong with a text.
pub fn say_wrongs(alloc: Global, page: &mut Page, text: &[u8], wrongs: Many<Wrong>) {
    say_input(alloc, page, text, &Unread::Wrongs(wrongs));
}

// That the order names a processor that isn't there.
fn absent_words(alloc: Global, cpus: u8) -> Result<String, OutOfMemory> {
    let mut words = String::new(alloc);
    put(&mut words, (ABSENT, cpus.saturating_sub(1)))?;
    Ok(words)
}

// Says that the order names a processor that a script with so many doesn't have.
fn say_absent(alloc: Global, page: &mut Page, cpus: u8) {
    match absent_words(alloc, cpus) {
        Ok(words) => say_whole(alloc, page, words.as_str()),
        Err(_) => say_memory(page),
    }
}

/// Says why a script that was read of these bytes isn't run.
pub fn say_unmade(alloc: Global, page: &mut Page, script: &[u8], input: &Input, fault: Fault) {
    match fault {
        Fault::NoPort => say_absent(alloc, page, input.script.cpus),
        Fault::Unlawful { .. } => say_whole(alloc, page, "a run along an order was not lawful"),
        fault => say_opening(alloc, page, None, script, input, fault),
    }
}

// Says why the machine of a script in JSON isn't opened.
fn say_unopened(alloc: Global, page: &mut Page, script: &[u8], fault: Fault) {
    match read_script(alloc, script) {
        Ok(read) => {
            let input = Input {
                script: read,
                names: None,
                expectations: Many::new(alloc),
            };
            say_unmade(alloc, page, script, &input, fault);
        }
        Err(_) => say_memory(page),
    }
}

/// Says why a script that had to be JSON isn't run: of its front that is read.
pub fn say_json(alloc: Global, page: &mut Page, script: &[u8], fault: Fault) {
    let read = &script[..script.len().min(READ_LIMIT)];
    match fault {
        Fault::Memory(_) => say_memory(page),
        Fault::Script { place } => {
            if place == 0 && matches!(is_text(alloc, read), Ok(true)) {
                say_whole(alloc, page, IS_TEXT);
            } else {
                say_input(alloc, page, read, &Unread::Json { place });
            }
        }
        fault => say_unopened(alloc, page, read, fault),
    }
}

/// Says why a trace isn't judged: of its front that is read.
pub fn say_trace(alloc: Global, page: &mut Page, trace: &[u8], fault: Fault) {
    let read = &trace[..trace.len().min(TRACE_BYTES + 1)];
    say_untraced(alloc, page, None, read, fault);
}
