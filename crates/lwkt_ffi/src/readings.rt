//! Scripts in either form, and texts, read.
ghost use Rattle.std.specs.Prelude.{◌≡◌, None, Ok, IfOk, IfErr};
ghost use Rattle.lwkt_text.specs.Inputs.{input_of};
ghost use Rattle.lwkt_text.specs.Reading.{reading_of};
ghost use Rattle.lwkt_ffi.specs.Answers.{RefusesInput, fault_of};
ghost use Rattle.lwkt_ffi.specs.Texts.{RefusesReading};

use crate::refusals::{say_input, say_memory, say_wrongs};
use lwkt_base::Fault;
use lwkt_report::Page;
use lwkt_text::{Input, Reading, Refusal, Unread, read_input, read_text};
use std::alloc::Global;

/// Reads a text, and puts all that is wrong with it on a page, or that there was no memory.
///
/// Refused as bytes that are no JSON where something is wrong, and with `Memory`.
pub fn read_onto(alloc: Global, text: &[u8], page: &mut Page) -> Result<Reading, Fault>
    ensures ok { IfOk result (λ reading. reading_of text.now ≡ Ok reading) }
    ensures refused { IfErr result (λ fault. RefusesReading text.now fault) }
{
    match read_text(alloc, text) {
        Ok(reading) => Ok(reading),
        Err(Refusal::Memory(refused)) => {
            say_memory(page);
            Err(Fault::Memory(refused))
        }
        Err(Refusal::Wrongs(wrongs)) => {
            say_wrongs(alloc, page, text, wrongs);
            Err(Fault::Script { place: 0 })
        }
    }
}

// The fault of input that isn't read.
fn fault_of(unread: &Unread) -> Fault
    ensures { result ≡ fault_of unread.now }
{
    match unread {
        Unread::Memory(refused) => Fault::Memory(*refused),
        Unread::Json { place } => Fault::Script { place: *place },
        Unread::Wrongs(_) => Fault::Script { place: 0 },
    }
}

/// Reads a script in either form, and puts why it isn't read on a page.
///
/// Refused with the place of the first bad part of JSON; as bytes that are no JSON where something is wrong with a text; and with
/// `Memory`.
pub fn input_onto(alloc: Global, script: &[u8], page: &mut Page) -> Result<Input, Fault>
    ensures ok { IfOk result (λ input. input_of None script.now ≡ Ok input) }
    ensures refused { IfErr result (λ fault. RefusesInput script.now fault) }
{
    match read_input(alloc, None, script) {
        Ok(input) => Ok(input),
        Err(unread) => {
            let fault = fault_of(&unread);
            say_input(alloc, page, script, &unread);
            Err(fault)
        }
    }
}
