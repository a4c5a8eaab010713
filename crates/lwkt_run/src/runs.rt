ghost use Rattle.std.specs.Prelude.{◌≡◌, ◌⊎◌, ◌↔◌, IfOk, IfErr, OnOk, Err, IsTrue, string_bytes};
ghost use Rattle.std.specs.List.{list_all};
ghost use Rattle.lwkt_base.specs.Threads.{is_done};
ghost use Rattle.lwkt_run.specs.Driving.{IsCourseOf};
ghost use Rattle.lwkt_run.specs.Courses.{ClosesBy, IsRunBy};
ghost use Rattle.lwkt_run.specs.Run.{AreThere, MayClose, IsTurnsRun, IsOrderRun, ClosesAlong, DeclinesAlong, end_of_closing, HasRun, DeclinesRun, Refuses, ReportsRounds};

use crate::checked::{Checked, checked_run};
use crate::endings::closing_of;
use crate::keepers::NoKeeper;
use crate::records::Record;
use crate::reports::{Done, conclude, done_of};
use crate::rounds::Course;
use lwkt_base::{Fault, ThreadLine};
use lwkt_drive::EventList;
use lwkt_report::{Closing, RunFault, Sink, Source, Verdict, read_capped};
use lwkt_script::{Script, read_script};
use lwkt_verdict::{Pace, Poll, Turn, are_processors};
use std::alloc::Global;

/// How a run ended, by its report.
#[derive(Clone, Copy, PartialEq, Eq)]
pub enum End {
    /// Every thread had ended, exited or faulted.
    Ended,
    /// A thread hadn't ended when the last turn was made: the script's turns or the order were used up, or, on threads, the gate
    /// had said no, or no turn could change anything any more.
    TurnsOut,
    /// The verdict is `Unlawful`: the check of the run said no, and the run was stopped there; on threads, the written sections were no
    /// chains.
    Unlawful,
}

/// A run of a script, in rounds or along an order of its processors: all that was kept of the run, and what its report shows. If the
/// check said no, the last turn is the one that it said no to, or else it said no to the end.
#[derive(Drop)]
pub struct TurnsRun {
    /// The events of all turns in order, and after them those of the stop.
    pub trace: EventList,
    /// The polls of all turns, in order, each with its answer if its thread was polled again.
    pub polls: Vec<Poll>,
    /// The turns in order.
    pub turns: Vec<Turn>,
    /// The processor of each turn, in order, 0 to 7.
    pub order: Vec<u8>,
    /// What the report shows; its verdict is that on this trace and these turns.
    pub closing: Closing,
}

// What the report of a run of a script along a course shows, of which nothing is kept.
fn close_course(alloc: Global, script: &Script, course: Course<'_>) -> Result<Closing, Fault>
    requires { IsCourseOf script.now course }
    ensures closes { IfOk result (λ closing. ClosesBy course.entry script.now closing) }
    ensures refused { IfErr result (λ fault. DeclinesRun script.now fault) }
{
    let Checked { left, verdict, .. } = checked_run(alloc, script, course, NoKeeper)?;
    Ok(closing_of(alloc, script, left, verdict)?)
}

// Runs a script along a course, and gives out all that was kept of the run.
fn run_course(alloc: Global, script: &Script, course: Course<'_>) -> Result<TurnsRun, Fault>
    requires { IsCourseOf script.now course }
    ensures ok { IfOk result (λ run. IsRunBy course.entry script.now run) }
    ensures refused { IfErr result (λ fault. DeclinesRun script.now fault) }
{
    let Checked {
        left,
        stops,
        keeper,
        verdict,
    } = checked_run(alloc, script, course, Record::new(alloc))?;
    let Record {
        mut trace,
        order,
        polls,
        turns,
        ..
    } = keeper;
    trace.append(stops.as_slice())?;
    let closing = closing_of(alloc, script, left, verdict)?;
    Ok(TurnsRun {
        trace,
        polls,
        turns,
        order,
        closing,
    })
}

/// Runs a script in rounds, on one thread, and gives what its report shows. A check follows the run as it is made, and nothing is kept of
/// it. If the check says no to a turn, that is the last one; a script whose `turns` are 0 has no run in rounds, and the check says no.
///
/// Refused with `Limits` or `LawBroken` for the script's opening, and with `Memory` if memory is refused.
pub fn close_turns(alloc: Global, script: &Script) -> Result<Closing, Fault>
    ensures closes { IfOk result (λ closing. MayClose (Pace.Rounds script.now.turns) script.now closing) }
    ensures refused { IfErr result (λ fault. DeclinesRun script.now fault) }
{
    close_course(alloc, script, Course::Rounds(script.turns))
}

/// Runs a script in rounds, as `close_turns` does, and gives out all that was kept of the run.
///
/// Refused with `Limits` or `LawBroken` for the script's opening, and with `Memory` if memory is refused.
pub fn turns_run_of(alloc: Global, script: &Script) -> Result<TurnsRun, Fault>
    ensures ok { IfOk result (λ run. IsTurnsRun script.now run) }
    ensures refused { IfErr result (λ fault. DeclinesRun script.now fault) }
{
    run_course(alloc, script, Course::Rounds(script.turns))
}

// Whether an order names processors of a script alone.
fn are_there(script: &Script, order: &[u8]) -> bool
    ensures { IsTrue result ↔ AreThere script.now order.now }
{
    are_processors(usize::from(script.cpus), order)
}

/// Runs a script along an order of its processors, on one thread: each makes its turn when it is named, and after the last one they
/// stop. A check follows the run as it is made; if it says no to a turn, that is the last one. Gives out all that was kept of the run. The
/// number of rounds in the script doesn't count.
///
/// Refused with `NoPort` if the order names a processor that isn't there, with `Limits` or `LawBroken` for the script's opening, and
/// with `Memory` if memory is refused.
pub fn order_run_of(alloc: Global, script: &Script, order: &[u8]) -> Result<TurnsRun, Fault>
    ensures ok { IfOk result (λ run. IsOrderRun script.now order.now run) }
    ensures refused { IfErr result (λ fault. DeclinesAlong script.now order.now fault) }
{
    if !are_there(script, order) {
        return Err(Fault::NoPort);
    }
    run_course(alloc, script, Course::Along(order))
}

/// Runs a script along an order, as `order_run_of` does, and gives what its report shows. Nothing is kept of the run.
///
/// Refused as `order_run_of` is.
pub fn close_along(alloc: Global, script: &Script, order: &[u8]) -> Result<Closing, Fault>
    ensures closes { IfOk result (λ closing. ClosesAlong script.now order.now closing) }
    ensures refused { IfErr result (λ fault. DeclinesAlong script.now order.now fault) }
{
    if !are_there(script, order) {
        return Err(Fault::NoPort);
    }
    close_course(alloc, script, Course::Along(order))
}

/// How a run ended, by the contents of its report: `Unlawful` by its verdict, else by whether every thread that is no service had ended.
pub fn end_of_closing(closing: &Closing) -> End
    ensures { result ≡ end_of_closing closing.now }
{
    let all = all_done(&closing.threads);
    match closing.verdict {
        Verdict::Unlawful { .. } => End::Unlawful,
        Verdict::Closed | Verdict::Lawful => { if all { End::Ended } else { End::TurnsOut } }
    }
}

// Whether every thread that is no service had ended.
fn all_done(lines: &[ThreadLine]) -> bool
    ensures { result ≡ list_all is_done lines.now }
{
    lines.iter().all(|line| line.is_done())
}

// Runs the script that the bytes are, to the text of its report.
fn done_of_bytes(alloc: Global, bytes: &[u8]) -> Result<Done, Fault>
    ensures ok { IfOk result (λ done. HasRun bytes.now done.end (string_bytes done.text)) }
    ensures refused { IfErr result (λ fault. Refuses bytes.now fault) }
{
    let script = read_script(alloc, bytes)?;
    let closing = close_turns(alloc, &script)?;
    Ok(done_of(alloc, &closing)?)
}

/// Reads a script to its end, or to 1048577 bytes, runs it on one thread, and writes its report, which is whole in memory
/// before its first byte is written.
///
/// Refused with `Fault` and nothing written: `Script` with the place of its first bad part, `Limits` or `LawBroken` for its
/// opening, `Memory` if memory is refused; with `Stream` only if a call of the source or the sink failed, and then a front of the
/// report stands.
pub fn run_turns<S: Source, K: Sink>(
    alloc: Global,
    source: &mut S,
    sink: &mut K,
) -> Result<End, RunFault>
    ensures reports { ReportsRounds (S.left source.old) (K.contents sink.old) (K.contents sink.new) result }
    ensures stream { result ≡ Err RunFault.Stream → IsTrue (S.has_failed source.new) ⊎ IsTrue (K.has_failed sink.new) }
    ensures flushed { OnOk result (K.is_flushed sink.new) }
    ensures unfailed { OnOk result ((S.has_failed source.new ≡ S.has_failed source.old) × (K.has_failed sink.new ≡ K.has_failed sink.old)) }
{
    let bytes = match read_capped(alloc, source) {
        Ok(bytes) => bytes,
        Err(fault) => return Err(fault),
    };
    conclude(sink, done_of_bytes(alloc, &bytes))
}
