//! Runs on threads.
ghost use Rattle.std.specs.Prelude.{◌≡◌, ◌⊎◌, map, IfOk, IfErr, OnOk, Err, IsTrue, string_bytes};
ghost use Rattle.lwkt_core.specs.Opening.{AreWithin, AllOpenLawfully};
ghost use Rattle.lwkt_run.specs.Judging.{ids_of};
ghost use Rattle.lwkt_run.specs.Values.{AreValuesOf};
ghost use Rattle.lwkt_run.specs.Run.{DeclinesRun, Refuses};
ghost use Rattle.lwkt_run.specs.Threaded.{AreTracesOfRun, MayCloseOnThreads, IsThreadRecord, HasThreadedRun, ReportsOnThreads, lets_all};

use crate::endings::{Remains, closing_of, left_by};
use crate::givers::givers_of;
use crate::reports::{Done, conclude, done_of};
use crate::runs::End;
use crate::written_sections::{judged, judged_by_stretches, sections_in_order};
use lwkt_base::{CpuId, Fault, OutOfMemory, Section};
use lwkt_machine::{Gate, Limits, Machine, OpenGate};
use lwkt_report::{Closing, RunFault, Sink, Source, read_capped};
use lwkt_script::{Script, read_script};
use std::alloc::Global;
use std::thread::Threads;

/// A run of a script on threads: what its report shows, and the written sections that its processors reported, by token and then by
/// generation.
#[derive(Drop)]
pub struct ThreadRecord {
    /// What the report shows; its verdict is that on these sections.
    pub closing: Closing,
    /// The written sections. Those of one token are a chain from its opening row to that of its line.
    pub sections: Vec<Section>,
    /// Of each section, in the same order, the processor that ended it, 0 to 7.
    pub givers: Vec<CpuId>,
}

// Drives the processors of a script on threads, and closes their machine.
fn remains_of<R: Threads + Sync, G: Gate + Sync>(
    rt: &R,
    alloc: Global,
    gate: &G,
    script: &Script,
) -> Result<Remains, Fault>
    ensures values { IfOk result (λ remains. AreValuesOf script.now.tokens remains.left.last) }
    ensures traces_of_run { IfOk result (λ remains. AreTracesOfRun (G.answers gate.now) script.now remains.left.threads.items remains.left.last remains.traces.items remains.stops.items) }
    ensures threads { IfOk result (λ remains. map (λ line. line.id) remains.left.threads.items ≡ ids_of script.now.cpus script.now.threads) }
    ensures within { OnOk result (AreWithin script.now.cpus script.now.tokens script.now.messages) }
    ensures lawful { OnOk result (AllOpenLawfully script.now.tokens) }
    ensures refused { IfErr result (λ fault. DeclinesRun script.now fault) }
{
    let mut machine = Machine::open_script(alloc, script)?;
    let close_room = machine.room(alloc)?;
    let limits = Limits {
        turns: script.turns,
        idle: script.idle,
    };
    let threads = machine.cpus();
    machine.drive_on_threads(rt, threads, gate, &limits)?;
    Ok(left_by(alloc, script, machine, close_room)?)
}

// What the report of a run on threads shows, with the verdict on the sections that were named.
fn judged_closing<R: Threads + Sync, G: Gate>(
    rt: &R,
    alloc: Global,
    gate: &G,
    script: &Script,
    remains: Remains,
) -> Result<Closing, OutOfMemory>
    requires within { AreWithin script.now.cpus script.now.tokens script.now.messages }
    requires lawful { AllOpenLawfully script.now.tokens }
    requires values { AreValuesOf script.now.tokens remains.left.last }
    requires threads { map (λ line. line.id) remains.left.threads.items ≡ ids_of script.now.cpus script.now.threads }
    requires traces_of_run { AreTracesOfRun (G.answers gate.now) script.now remains.left.threads.items remains.left.last remains.traces.items remains.stops.items }
    ensures { IfOk result (λ closing. MayCloseOnThreads (G.answers gate.now) script.now closing) }
{
    let Remains {
        left,
        traces,
        stops,
    } = remains;
    let verdict = judged_by_stretches(
        rt,
        alloc,
        script.tokens.as_slice(),
        &left.last,
        traces,
        &stops,
    )?;
    closing_of(alloc, script, left, verdict)
}

// What is kept of a run on threads: what its report shows, and the sections that were named, with the verdict on these.
fn record_of<G: Gate>(
    alloc: Global,
    gate: &G,
    script: &Script,
    remains: Remains,
) -> Result<ThreadRecord, OutOfMemory>
    requires within { AreWithin script.now.cpus script.now.tokens script.now.messages }
    requires lawful { AllOpenLawfully script.now.tokens }
    requires values { AreValuesOf script.now.tokens remains.left.last }
    requires threads { map (λ line. line.id) remains.left.threads.items ≡ ids_of script.now.cpus script.now.threads }
    requires traces_of_run { AreTracesOfRun (G.answers gate.now) script.now remains.left.threads.items remains.left.last remains.traces.items remains.stops.items }
    ensures { IfOk result (λ kept. IsThreadRecord (G.answers gate.now) script.now kept) }
{
    let Remains {
        left,
        traces,
        stops,
    } = remains;
    let givers = givers_of(alloc, traces.as_slice(), &stops)?;
    let sections = sections_in_order(alloc, traces, &stops)?;
    let verdict = judged(alloc, script.tokens.as_slice(), &left.last, &sections)?;
    Ok(ThreadRecord {
        closing: closing_of(alloc, script, left, verdict)?,
        sections,
        givers,
    })
}

// Runs a script on threads, for what its report shows.
fn closing_of_script<R: Threads + Sync, G: Gate + Sync>(
    rt: &R,
    alloc: Global,
    gate: &G,
    script: &Script,
) -> Result<Closing, Fault>
    ensures ok { IfOk result (λ closing. MayCloseOnThreads (G.answers gate.now) script.now closing) }
    ensures refused { IfErr result (λ fault. DeclinesRun script.now fault) }
{
    let remains = remains_of(rt, alloc, gate, script)?;
    Ok(judged_closing(rt, alloc, gate, script, remains)?)
}

// Runs the script that the bytes are on threads, to the text of its report.
fn done_of_bytes<R: Threads + Sync, G: Gate + Sync>(
    rt: &R,
    alloc: Global,
    gate: &G,
    bytes: &[u8],
) -> Result<Done, Fault>
    ensures ok { IfOk result (λ done. HasThreadedRun (G.answers gate.now) bytes.now done.end (string_bytes done.text)) }
    ensures refused { IfErr result (λ fault. Refuses bytes.now fault) }
{
    let script = read_script(alloc, bytes)?;
    let closing = closing_of_script(rt, alloc, gate, &script)?;
    Ok(done_of(alloc, &closing)?)
}

/// Reads a script to its end, or to 1048577 bytes, drives each of its processors on a thread of its own if one can be made, and
/// writes the report, which is whole in memory before its first byte is written. The gate is asked before each turn of a processor,
/// and no stops that processor. A processor also stops after the script's `turns` turns that polled a thread, after its `idle`
/// turns that polled none, once every processor has said that all its threads have ended, or once no turn of any processor can
/// change anything.
///
/// Refused with `Fault` and nothing written: `Script` with the place of the script's first bad part, `Limits` or `LawBroken` for
/// its opening, `Memory` if memory is refused, to one processor for a turn's events too, which stops all; with `Stream` only if a
/// call of the source or the sink failed, and then a front of the report stands.
pub fn run_threads_gated<R: Threads + Sync, G: Gate + Sync, S: Source, K: Sink>(
    rt: &R,
    alloc: Global,
    source: &mut S,
    sink: &mut K,
    gate: &G,
) -> Result<End, RunFault>
    ensures reports { ReportsOnThreads (G.answers gate.now) (S.left source.old) (K.contents sink.old) (K.contents sink.new) result }
    ensures stream { result ≡ Err RunFault.Stream → IsTrue (S.has_failed source.new) ⊎ IsTrue (K.has_failed sink.new) }
    ensures flushed { OnOk result (K.is_flushed sink.new) }
    ensures unfailed { OnOk result ((S.has_failed source.new ≡ S.has_failed source.old) × (K.has_failed sink.new ≡ K.has_failed sink.old)) }
{
    let bytes = match read_capped(alloc, source) {
        Ok(bytes) => bytes,
        Err(fault) => return Err(fault),
    };
    conclude(sink, done_of_bytes(rt, alloc, gate, &bytes))
}

/// Runs a script on threads, as `run_threads_gated` does with a gate that never says no.
///
/// Refused as `run_threads_gated` is.
pub fn run_threads<R: Threads + Sync, S: Source, K: Sink>(
    rt: &R,
    alloc: Global,
    source: &mut S,
    sink: &mut K,
) -> Result<End, RunFault>
    ensures reports { ReportsOnThreads lets_all (S.left source.old) (K.contents sink.old) (K.contents sink.new) result }
    ensures stream { result ≡ Err RunFault.Stream → IsTrue (S.has_failed source.new) ⊎ IsTrue (K.has_failed sink.new) }
    ensures flushed { OnOk result (K.is_flushed sink.new) }
    ensures unfailed { OnOk result ((S.has_failed source.new ≡ S.has_failed source.old) × (K.has_failed sink.new ≡ K.has_failed sink.old)) }
{
    run_threads_gated(rt, alloc, source, sink, &OpenGate)
}

/// Runs a script on threads, and gives what its report shows.
///
/// Refused with `Limits` or `LawBroken` for the script's opening, and with `Memory` if memory is refused.
pub fn close_threads<R: Threads + Sync>(
    rt: &R,
    alloc: Global,
    script: &Script,
) -> Result<Closing, Fault>
    ensures ok { IfOk result (λ closing. MayCloseOnThreads lets_all script.now closing) }
    ensures refused { IfErr result (λ fault. DeclinesRun script.now fault) }
{
    closing_of_script(rt, alloc, &OpenGate, script)
}

/// Runs a script on threads, and keeps what its report shows and the written sections that its processors reported, in order, each
/// with its processor.
///
/// Refused with `Limits` or `LawBroken` for the script's opening, and with `Memory` if memory is refused.
pub fn record_threads<R: Threads + Sync>(
    rt: &R,
    alloc: Global,
    script: &Script,
) -> Result<ThreadRecord, Fault>
    ensures ok { IfOk result (λ kept. IsThreadRecord lets_all script.now kept) }
    ensures refused { IfErr result (λ fault. DeclinesRun script.now fault) }
{
    let remains = remains_of(rt, alloc, &OpenGate, script)?;
    Ok(record_of(alloc, &OpenGate, script, remains)?)
}
