//! The two forms of scripts: whether bytes are a text, and the JSON of one.
ghost use Rattle.std.specs.Prelude.{◌≡◌, [], IfOk, IfErr, string_bytes};
ghost use Rattle.lwkt_ffi.specs.Texts.{IsJsonOf, RefusesJson, ReportsForm, ReportsJson, AnswersJson, status_of_made};

use crate::answers::{LwktAnswer, status_of_fault};
use crate::fronts::{blank, fill};
use crate::readings::read_onto;
use crate::refusals::{say_memory, say_whole};
use lwkt_base::Fault;
use lwkt_base::memory::extend_from_slice;
use lwkt_report::Page;
use lwkt_text::{Unsaid, is_text, json_of};
use std::alloc::Global;

// What is said where a text is too long as JSON.
const LONG: &str = "as JSON the script has more than 1048576 bytes, and isn't written";

/// Whether the bytes of a script are taken for a text of the language, as `is_text` of lwkt_text does: 1 if they are, 0 if they are
/// left to those who read JSON, 3 for want of memory.
#[unsafe(no_mangle)]
pub extern "C" fn lwkt_is_text(alloc: Global, script: &[u8]) -> u32
    ensures { ReportsForm script.now result }
{
    match is_text(alloc, script) {
        Ok(true) => 1,
        Ok(false) => 0,
        Err(_) => 3,
    }
}

// The script of a text, in JSON; why there is none is put on a page.
fn json_of_text(alloc: Global, text: &[u8], page: &mut Page) -> Result<String, Fault>
    ensures ok { IfOk result (λ json. IsJsonOf text.now (string_bytes json)) }
    ensures refused { IfErr result (λ fault. RefusesJson text.now fault) }
{
    let reading = match read_onto(alloc, text, page) {
        Ok(reading) => reading,
        Err(fault) => return Err(fault),
    };
    match json_of(alloc, &reading.script) {
        Ok(json) => Ok(json),
        Err(Unsaid::Memory(refused)) => {
            say_memory(page);
            Err(Fault::Memory(refused))
        }
        Err(Unsaid::Limits) => {
            say_whole(alloc, page, LONG);
            Err(Fault::Limits)
        }
    }
}

// Puts the script of a text, in JSON, on an empty page, or why there is none.
fn json_onto(alloc: Global, text: &[u8], page: &mut Page) -> Result<(), Fault>
    requires { page.old.text.items ≡ [] }
    ensures { ReportsJson text.now result page.new.text.items }
{
    let mut errors = blank(alloc);
    match json_of_text(alloc, text, &mut errors) {
        Ok(json) => Ok(extend_from_slice(&mut page.text, json.as_bytes())?),
        Err(fault) => {
            *page = errors;
            Err(fault)
        }
    }
}

// The status of a text whose JSON was asked for.
fn status_of(outcome: &Result<(), Fault>) -> u32
    ensures { result ≡ status_of_made outcome.now }
{
    match *outcome {
        Ok(()) => 0,
        Err(fault) => status_of_fault(fault),
    }
}

/// Puts the script of a text, in JSON, into the buffer, or in words all that is wrong with the text.
///
/// The status: 0 where it is there; 1 with the fault 33 where something is wrong with the text, and with the fault 39 where the JSON
/// would have more bytes than a script may have; 3 with the fault 32 for want of memory.
#[unsafe(no_mangle)]
pub extern "C" fn lwkt_text_json(
    alloc: Global,
    text: &[u8],
    buffer: &mut [u8],
    answer: &mut LwktAnswer,
) -> u32
    ensures { AnswersJson text.now buffer.old buffer.new answer.new result }
{
    let mut page = blank(alloc);
    let outcome = json_onto(alloc, text, &mut page);
    fill(buffer, &page.text);
    *answer = LwktAnswer::new(page.text.len(), outcome.err());
    status_of(&outcome)
}
