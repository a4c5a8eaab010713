ghost use Rattle.std.specs.Prelude.{◌≡◌, ◌≢◌, ◌⊎◌, [], Ok, Err, IsTrue, IfOk, IfErr, OnOk};
ghost use Rattle.lwkt_trace.specs.declared.traces.Trace.{Trace};
ghost use Rattle.lwkt_trace.specs.Format.{trace_of};
ghost use Rattle.lwkt_checker.specs.Judgement.{IsJudgedTrace, RefusesTrace};
ghost use Rattle.lwkt_report.specs.Complaint.{fault_line, IsSaid};
ghost use Rattle.lwkt_checker.specs.Output.{WritesFinding, ReportsFinding, LeavesRead, status_of, Complains, ChecksAs};

use crate::framed::found_written;
use crate::judges::{Finding, finding_text};
use crate::trees::found_whole;
use lwkt_base::Fault;
use lwkt_base::limits::TRACE_BYTES;
use lwkt_report::{
    Complaint, Program, RunFault, Sink, Source, complain, complaint_of, read_up_to, write_whole,
};
use lwkt_trace::read_trace;
use std::alloc::Global;

// What the trace that the bytes are is found to be: as its events are read, where it is written so that they can be; else of
// the whole trace.
fn finding_of(alloc: Global, bytes: &[u8]) -> Result<Finding, Fault>
    ensures found { IfOk result (λ finding. (trace : Trace) × ((trace_of bytes.now ≡ Ok trace) × IsJudgedTrace trace finding)) }
    ensures refused { IfErr result (λ fault. RefusesTrace bytes.now fault) }
{
    match found_written(alloc, bytes)? {
        Some(finding) => Ok(finding),
        None => found_whole(alloc, read_trace(alloc, bytes)?),
    }
}

/// Writes what was found of a trace, which is whole in memory before its first byte is written. The answer is whether it is
/// lawful.
///
/// Refused with `Memory` and nothing written if an allocation is; with `Stream` only if a call of the sink failed, and then a
/// front of the text stands.
pub fn write_finding<K: Sink>(
    alloc: Global,
    sink: &mut K,
    finding: &Finding,
) -> Result<bool, RunFault>
    ensures writes { WritesFinding finding.now (K.contents sink.old) (K.contents sink.new) result }
    ensures stream { result ≡ Err RunFault.Stream → IsTrue (K.has_failed sink.new) }
    ensures flushed { OnOk result (K.is_flushed sink.new) }
    ensures unfailed { OnOk result (K.has_failed sink.new ≡ K.has_failed sink.old) }
{
    let text = match finding_text(alloc, finding) {
        Ok(text) => text,
        Err(refused) => return Err(RunFault::Fault(Fault::Memory(refused))),
    };
    match write_whole(sink, text.as_bytes()) {
        Ok(()) => Ok(matches!(finding, Finding::Lawful)),
        Err(_) => Err(RunFault::Stream),
    }
}

/// As `check_stream`, and what it read is in `read` then, so that the caller can say of it why it is refused. Where it can't be
/// read, nothing is said of what `read` has.
pub fn check_keeping<S: Source, K: Sink>(
    alloc: Global,
    source: &mut S,
    sink: &mut K,
    read: &mut Vec<u8>,
) -> Result<bool, RunFault>
    ensures reports { ReportsFinding (S.left source.old) (K.contents sink.old) (K.contents sink.new) result }
    ensures leaves { LeavesRead (S.left source.old) read.new.items result }
    ensures stream { result ≡ Err RunFault.Stream → IsTrue (S.has_failed source.new) ⊎ IsTrue (K.has_failed sink.new) }
    ensures flushed { OnOk result (K.is_flushed sink.new) }
    ensures unfailed { OnOk result ((S.has_failed source.new ≡ S.has_failed source.old) × (K.has_failed sink.new ≡ K.has_failed sink.old)) }
{
    match read_up_to(alloc, source, TRACE_BYTES + 1) {
        Ok(bytes) => *read = bytes,
        Err(fault) => return Err(fault),
    }
    match finding_of(alloc, read) {
        Ok(finding) => write_finding(alloc, sink, &finding),
        Err(fault) => Err(RunFault::Fault(fault)),
    }
}

/// Reads a trace to its end, or to 268435457 bytes, checks it, and writes what was found of it, which is whole in memory
/// before its first byte is written. The answer is whether it is lawful.
///
/// Refused with `Fault` and nothing written: `Script` with the place of its first bad part, `Limits` or `LawBroken` for its
/// opening, `Memory` for a refused allocation; with `Stream` only if a call of the source or the sink failed, and then a
/// front of the text stands.
pub fn check_stream<S: Source, K: Sink>(
    alloc: Global,
    source: &mut S,
    sink: &mut K,
) -> Result<bool, RunFault>
    ensures reports { ReportsFinding (S.left source.old) (K.contents sink.old) (K.contents sink.new) result }
    ensures stream { result ≡ Err RunFault.Stream → IsTrue (S.has_failed source.new) ⊎ IsTrue (K.has_failed sink.new) }
    ensures flushed { OnOk result (K.is_flushed sink.new) }
    ensures unfailed { OnOk result ((S.has_failed source.new ≡ S.has_failed source.old) × (K.has_failed sink.new ≡ K.has_failed sink.old)) }
{
    let mut read = Vec::new(alloc);
    check_keeping(alloc, source, sink, &mut read)
}

/// The exit status of what came of a check: 0 lawful; 4 unlawful; 1 a trace or opening that was refused; 3 want of memory, or a
/// stream that failed.
pub fn status_of(outcome: &Result<bool, RunFault>) -> u8
    ensures { result ≡ status_of outcome.now }
{
    match outcome {
        Ok(true) => 0,
        Ok(false) => 4,
        Err(RunFault::Fault(Fault::Memory(_))) | Err(RunFault::Stream) => 3,
        Err(RunFault::Fault(_)) => 1,
    }
}

/// Writes the line that what came of a check asks for: none beside a finding.
pub fn say_outcome<E: Sink>(errors: &mut E, outcome: &Result<bool, RunFault>)
    ensures { Complains (E.has_failed errors.new) (E.contents errors.old) (E.contents errors.new) outcome.now }
{
    match *outcome {
        Ok(_) => {}
        Err(fault) => complain(errors, Program::Check, complaint_of(fault)),
    }
}

/// The whole program: its arguments without its own name, what it reads, what it writes, and where its errors go. The
/// answer is its exit status: 0 lawful; 4 unlawful; 1 arguments, or a trace or opening that was refused; 3 want of memory,
/// or a stream that failed. With 1 and 3 one line goes to where errors go.
///
/// The arguments are looked at before anything is read.
pub fn run_checker<S: Source, K: Sink, E: Sink>(
    alloc: Global,
    words: &[String],
    source: &mut S,
    sink: &mut K,
    errors: &mut E,
) -> u8
    ensures checks { words.now ≡ [] → ChecksAs (S.has_failed source.new) (K.has_failed sink.new) (S.left source.old) (K.contents sink.old) (K.contents sink.new) (E.has_failed errors.new) (E.contents errors.old) (E.contents errors.new) result }
    ensures usage { words.now ≢ [] → (result ≡ 1) × IsSaid (E.has_failed errors.new) (E.contents errors.old) (E.contents errors.new) (fault_line Program.Check Complaint.Usage) }
    ensures unread { words.now ≢ [] → source.new ≡ source.old }
    ensures unwritten { words.now ≢ [] → sink.new ≡ sink.old }
{
    if !words.is_empty() {
        complain(errors, Program::Check, Complaint::Usage);
        return 1;
    }
    let outcome = check_stream(alloc, source, sink);
    say_outcome(errors, &outcome);
    status_of(&outcome)
}
