ghost use Rattle.std.specs.Prelude.{◌≡◌, ◌↔◌, false, ℕ, List, IfOk, IfErr, IsTrue, Some, string_bytes};
ghost use Rattle.lwkt_report.specs.Complaint.{fault_line, IsSaid};
ghost use Rattle.lwkt_script.specs.Format.{script_of};
ghost use Rattle.lwkt_script.specs.Outcome.{Gives};
ghost use Rattle.lwkt_run.specs.Modes.{MayCloseBy, HasRunBy, RunsJsonAs};
ghost use Rattle.lwkt_run.specs.Run.{RunsAs, AsksTurns, DeclinesRun, Refuses, exit_status, SaysAfterRun};
ghost use Rattle.lwkt_run.specs.Threaded.{RunsOnThreadsAs, AsksThreads, AsksNoRun};

use crate::modes::Mode;
use crate::reports::{Done, conclude, done_of};
use crate::runs::{End, close_turns, run_turns};
use crate::threaded::{close_threads, run_threads};
use lwkt_base::Fault;
use lwkt_report::{Closing, Complaint, Program, RunFault, Sink, Source, complain, complaint_of};
use lwkt_script::Script;
use std::alloc::Global;
use std::thread::Threads;

/// The exit status of an outcome: 0 `Ended`, 2 `TurnsOut`, 4 `Unlawful`, 3 fault 32 or a stream that failed, 1 any other fault.
pub fn exit_status(outcome: &Result<End, RunFault>) -> u8
    ensures { result ≡ exit_status outcome.now }
{
    match outcome {
        Ok(End::Ended) => 0,
        Ok(End::TurnsOut) => 2,
        Ok(End::Unlawful) => 4,
        Err(RunFault::Fault(Fault::Memory(_))) | Err(RunFault::Stream) => 3,
        Err(RunFault::Fault(_)) => 1,
    }
}

/// Ends the program after a run: if the run was refused, writes the line that stands in place of a report. The answer is the exit
/// status: 0 `Ended`, 2 `TurnsOut`, 4 `Unlawful`, 3 fault 32 or a stream that failed, 1 any other fault. If writing the line fails,
/// a front of it stands, and the status is the same. A sink that had failed has failed still.
pub fn finish<K: Sink>(sink: &mut K, outcome: &Result<End, RunFault>) -> u8
    ensures line { SaysAfterRun (K.has_failed sink.new) (K.contents sink.old) (K.contents sink.new) outcome.now }
    ensures failed { IsTrue (K.has_failed sink.old) → IsTrue (K.has_failed sink.new) }
    ensures status { result ≡ exit_status outcome.now }
{
    match *outcome {
        Ok(_) => {}
        Err(fault) => complain(sink, Program::Run, complaint_of(fault)),
    }
    exit_status(outcome)
}

/// Runs a script, driven so, and gives what its report shows.
///
/// Refused with `Limits` or `LawBroken` for the script's opening, and with `Memory` if memory is refused.
pub fn close_by<R: Threads + Sync>(
    rt: &R,
    alloc: Global,
    mode: Mode,
    script: &Script,
) -> Result<Closing, Fault>
    ensures closes { IfOk result (λ closing. MayCloseBy mode script.now closing) }
    ensures refused { IfErr result (λ fault. DeclinesRun script.now fault) }
{
    match mode {
        Mode::Turns => close_turns(alloc, script),
        Mode::Threads => close_threads(rt, alloc, script),
    }
}

// Runs what was read, driven so, to the text of its report.
fn done_of_read<R: Threads + Sync>(
    rt: &R,
    alloc: Global,
    mode: Mode,
    read: Result<Script, Fault>,
) -> Result<Done, Fault>
    ensures ok { (bytes : List ℕ) → Gives (λ s. s) read (script_of bytes) → IfOk result (λ done. HasRunBy mode bytes done.end (string_bytes done.text)) }
    ensures refused { (bytes : List ℕ) → Gives (λ s. s) read (script_of bytes) → IfErr result (λ fault. Refuses bytes fault) }
{
    let script = read?;
    let closing = close_by(rt, alloc, mode, &script)?;
    Ok(done_of(alloc, &closing)?)
}

/// Does with what was read of bytes what `run_program` does with these bytes, where its argument is the word for this mode: runs the
/// script and writes its report, or the line of why there is none. The answer is the exit status.
///
/// What was read is the script that the bytes are, or as `read_script` refuses them.
pub fn run_read<R: Threads + Sync, K: Sink>(
    rt: &R,
    alloc: Global,
    mode: Mode,
    read: Result<Script, Fault>,
    sink: &mut K,
) -> u8
    ensures { (bytes : List ℕ) → Gives (λ s. s) read (script_of bytes) → RunsJsonAs mode false (K.has_failed sink.new) (Some bytes) (K.contents sink.old) (K.contents sink.new) result }
{
    let outcome = conclude(sink, done_of_read(rt, alloc, mode, read));
    finish(sink, &outcome)
}

/// Whether the arguments are the one word `turns`.
pub fn asks_turns(words: &[String]) -> bool
    ensures { IsTrue result ↔ AsksTurns words.now }
{
    words.len() == 1 && words.iter().all(|word| word.as_str() == "turns")
}

/// Whether the arguments are the one word `threads`.
pub fn asks_threads(words: &[String]) -> bool
    ensures { IsTrue result ↔ AsksThreads words.now }
{
    words.len() == 1 && words.iter().all(|word| word.as_str() == "threads")
}

/// The whole program: its arguments without its own name, what it reads and what it writes. The answer is its exit status: 0 every
/// thread ended; 1 wrong arguments, or a script or opening that was refused; 2 a thread hadn't ended when the turns were used up,
/// or when no turn could change anything; 3 memory was refused, or a stream failed; 4 the verdict is `unlawful`. With 1 and 3 one
/// line stands in place of the report, or after a front of it.
///
/// The arguments are checked before anything is read.
pub fn run_program<R: Threads + Sync, S: Source, K: Sink>(
    rt: &R,
    alloc: Global,
    words: &[String],
    source: &mut S,
    sink: &mut K,
) -> u8
    ensures turns { AsksTurns words.now → RunsAs (S.has_failed source.new) (K.has_failed sink.new) (S.left source.old) (K.contents sink.old) (K.contents sink.new) result }
    ensures threads { AsksThreads words.now → RunsOnThreadsAs (S.has_failed source.new) (K.has_failed sink.new) (S.left source.old) (K.contents sink.old) (K.contents sink.new) result }
    ensures usage { AsksNoRun words.now → (result ≡ 1) × IsSaid (K.has_failed sink.new) (K.contents sink.old) (K.contents sink.new) (fault_line Program.Run Complaint.Usage) }
    ensures unread { AsksNoRun words.now → source.new ≡ source.old }
{
    if asks_turns(words) {
        let outcome = run_turns(alloc, source, sink);
        return finish(sink, &outcome);
    }
    if asks_threads(words) {
        let outcome = run_threads(rt, alloc, source, sink);
        return finish(sink, &outcome);
    }
    complain(sink, Program::Run, Complaint::Usage);
    1
}
