//! Input, read.
ghost use Rattle.std.specs.Prelude.{◌≡◌, IfErr, IfOk, Ok, Result};
ghost use Rattle.std.specs.Option.{option_copied};
ghost use Rattle.lwkt_text.specs.declared.inputs.Input.{Input};
ghost use Rattle.lwkt_text.specs.declared.inputs.Unread.{Unread};
ghost use Rattle.lwkt_text.specs.Inputs.{IsUnread, input_of};
ghost use Rattle.lwkt.specs.Failing.{RefusesInput};

use crate::errors::Origin;
use lwkt_base::Fault;
use lwkt_refusals::{say_releases, say_unread};
use lwkt_report::Sink;
use lwkt_text::{Input, Unread, read_input};
use std::alloc::Global;

// The fault of input that isn't read: a text with something wrong is refused as bytes that are no JSON.
fn fault_of(unread: &Unread) -> Fault
    ensures { (read : Result Input Unread) → IsUnread unread.now read → RefusesInput read result }
{
    match unread {
        Unread::Memory(refused) => Fault::Memory(*refused),
        Unread::Json { place } => Fault::Script { place: *place },
        Unread::Wrongs(_) => Fault::Script { place: 0 },
    }
}

/// Reads a script with all that a text says beside it. Why it isn't read `errors` gets, unless memory was refused; and of a text which
/// releases a run refuses for their order.
pub fn read_said<E: Sink>(
    alloc: Global,
    origin: Origin<'_>,
    bytes: &[u8],
    errors: &mut E,
) -> Result<Input, Fault>
    ensures ok { IfOk result (λ input. input_of (option_copied origin.entry.path) bytes.now ≡ Ok input) }
    ensures refused { IfErr result (RefusesInput (input_of (option_copied origin.entry.path) bytes.now)) }
{
    match read_input(alloc, origin.path, bytes) {
        Ok(input) => {
            if input.names.is_some() {
                say_releases(alloc, errors, origin.path, bytes);
            }
            Ok(input)
        }
        Err(unread) => {
            let fault = fault_of(&unread);
            if !matches!(unread, Unread::Memory(_)) {
                say_unread(alloc, errors, origin.piped(), origin.path, bytes, &unread);
            }
            Err(fault)
        }
    }
}
