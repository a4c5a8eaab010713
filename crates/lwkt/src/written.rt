//! What a task makes, written.
ghost use Rattle.std.specs.Prelude.{◌≡◌, IsTrue, OnOk, string_bytes};
ghost use Rattle.lwkt.specs.Performing.{Writes};

use crate::failures::Failure;
use lwkt_report::{Sink, write_whole};

/// What a task makes of an input.
#[derive(Drop)]
pub struct Made {
    /// What goes to standard output.
    pub text: String,
    /// The exit status if all of it is written.
    pub status: u8,
    /// What goes to standard error then: a line for each expectation.
    pub verdicts: String,
}

/// Writes a text. The answer is the status that goes with it, unless the sink fails.
pub fn written<K: Sink>(sink: &mut K, text: &str, status: u8) -> Result<u8, Failure>
    ensures writes { Writes text.now status (K.has_failed sink.new) (K.contents sink.old) (K.contents sink.new) result }
    ensures flushed { OnOk result (K.is_flushed sink.new) }
    ensures unfailed { OnOk result (K.has_failed sink.new ≡ K.has_failed sink.old) }
{
    match write_whole(sink, text.as_bytes()) {
        Ok(()) => Ok(status),
        Err(_) => Err(Failure::Stream),
    }
}
