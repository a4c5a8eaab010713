//! The report of a run written, whichever way its processors were driven.
ghost use Rattle.std.specs.Prelude.{◌≡◌, Err, IfOk, IsTrue, OnOk, string_bytes};
ghost use Rattle.lwkt_report.specs.Report.{report_text};
ghost use Rattle.lwkt_run.specs.Run.{Concludes, end_of_closing};

use crate::runs::{End, end_of_closing};
use lwkt_base::{Fault, OutOfMemory};
use lwkt_report::{Closing, RunFault, Sink, report, write_whole};
use std::alloc::Global;

/// A run that has ended: its report, and how it ended.
#[derive(Drop)]
pub struct Done {
    /// The report, whole.
    pub text: String,
    /// How the run ended, by what the report says.
    pub end: End,
}

/// The report of what a run closed with, and how it ended.
pub fn done_of(alloc: Global, closing: &Closing) -> Result<Done, OutOfMemory>
    ensures text { IfOk result (λ done. string_bytes done.text ≡ report_text closing.now) }
    ensures end { IfOk result (λ done. done.end ≡ end_of_closing closing.now) }
{
    let end = end_of_closing(closing);
    let text = report(alloc, closing)?;
    Ok(Done { text, end })
}

/// Writes the report of a run that has ended, and says how it ended.
///
/// Refused with `Fault` if the run was, and nothing is written; with `Stream` if a call of the sink failed, and then a front of the
/// report stands.
pub fn conclude<K: Sink>(sink: &mut K, outcome: Result<Done, Fault>) -> Result<End, RunFault>
    ensures concludes { Concludes (K.contents sink.old) (K.contents sink.new) outcome result }
    ensures stream { result ≡ Err RunFault.Stream → IsTrue (K.has_failed sink.new) }
    ensures flushed { OnOk result (K.is_flushed sink.new) }
    ensures unfailed { OnOk result (K.has_failed sink.new ≡ K.has_failed sink.old) }
{
    let done = match outcome {
        Ok(done) => done,
        Err(fault) => return Err(RunFault::Fault(fault)),
    };
    match write_whole(sink, done.text.as_bytes()) {
        Ok(()) => Ok(done.end),
        Err(_) => Err(RunFault::Stream),
    }
}
