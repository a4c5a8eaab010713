//! The end of a machine.
ghost use Rattle.std.specs.Prelude.{◌≡◌, length, map, IfOk, Option};
ghost use Rattle.lwkt_bank.specs.Opened.{plans_of};
ghost use Rattle.lwkt_run.specs.Judging.{ids_of};
ghost use Rattle.lwkt_machine.specs.Bodies.{Scripted};
ghost use Rattle.lwkt_machine.specs.Ended.{IsRoomFor};
ghost use Rattle.lwkt_machine.specs.Machines.{ShowsBody};
ghost use Rattle.lwkt_run.specs.Leaving.{events_of_stops, IsLeftBy, LeavesRemains};
ghost use Rattle.lwkt_run.specs.Running.{HasThreads, ShowThreads, IsLogOf, is_service, log_in};
ghost use Rattle.lwkt_run.specs.Threaded.{ShowsLeft};
ghost use Rattle.lwkt_run.specs.Values.{AreValuesOf};

use crate::lines::token_lines;
use lwkt_base::memory::{extend_from_slice, from_slice, push, with_capacity_for};
use lwkt_base::{Log, OutOfMemory, ThreadId, ThreadLine};
use lwkt_core::{Event, Final};
use lwkt_drive::EventList;
use lwkt_machine::{CloseRoom, Closed, Machine, ScriptBody, ThreadStatus};
use lwkt_report::{Closing, Verdict};
use lwkt_script::Script;
use lwkt_verdict::find_thread;
use std::alloc::Global;

/// What a machine leaves: its closing values, and the lines of its threads as they were before it stopped.
#[derive(Drop)]
pub struct Left {
    /// The values with which bank and book closed.
    pub last: Final,
    /// A line for each thread, by processor, then by number, as it was before the stop.
    pub threads: Vec<ThreadLine>,
}

/// What a run left, and what its processors traced: in the traces that their machine has kept, and of its stop.
#[derive(Drop)]
pub struct Remains {
    /// The closing values, and the lines of the threads.
    pub left: Left,
    /// The events of the turns that were kept, by processor.
    pub traces: Vec<EventList>,
    /// The events of the stop, one processor's after another's.
    pub stops: Vec<Event>,
}

// What a thread has logged.
fn log_of(alloc: Global, machine: &Machine<ScriptBody>, id: ThreadId) -> Result<Log, OutOfMemory>
    ensures { IfOk result (λ log. (body : Option Scripted) × (ShowsBody machine.now id.cpu.0 id.thread body × (log ≡ log_in body))) }
{
    let entries = match machine.body(usize::from(id.cpu.0), usize::from(id.thread)) {
        Some(body) => from_slice(alloc, body.log())?,
        None => Vec::new(alloc),
    };
    Ok(Log::from_vec(entries))
}

// Whether a thread of a script is a service.
fn is_service(script: &Script, id: ThreadId) -> bool
    ensures { result ≡ is_service script.now.threads id }
{
    let threads = script.threads.as_slice();
    match find_thread(id.cpu.0, id.thread, threads) {
        Some(at) => threads[at].service,
        None => false,
    }
}

// The line of a thread of a script that stands so.
fn thread_line(
    alloc: Global,
    script: &Script,
    machine: &Machine<ScriptBody>,
    status: ThreadStatus,
) -> Result<ThreadLine, OutOfMemory>
    ensures id { IfOk result (λ line. line.id ≡ status.id) }
    ensures state { IfOk result (λ line. line.state ≡ status.state) }
    ensures list { IfOk result (λ line. line.list ≡ status.list) }
    ensures log { IfOk result (λ line. IsLogOf machine.now line) }
    ensures service { IfOk result (λ line. line.service ≡ is_service script.now.threads line.id) }
{
    let ThreadStatus { id, state, list } = status;
    let log = log_of(alloc, machine, id)?;
    Ok(ThreadLine {
        id,
        state,
        list,
        log,
        service: is_service(script, id),
    })
}

// The lines of the threads of a script's machine.
fn thread_lines(
    alloc: Global,
    script: &Script,
    machine: &Machine<ScriptBody>,
) -> Result<Vec<ThreadLine>, OutOfMemory>
    ensures { IfOk result (λ lines. ShowThreads script.now.threads lines.items machine.now) }
{
    let statuses = machine.statuses(alloc)?;
    let mut lines = with_capacity_for(alloc, &statuses)?;
    for status in statuses {
        push(&mut lines, thread_line(alloc, script, machine, status)?)?;
    }
    Ok(lines)
}

// The events of the stops of processors, one processor's after another's.
fn joined(alloc: Global, stops: &[Vec<Event>]) -> Result<Vec<Event>, OutOfMemory>
    ensures { IfOk result (λ all. all.items ≡ events_of_stops stops.now) }
{
    let mut all = Vec::new(alloc);
    for stop in stops {
        extend_from_slice(&mut all, stop)?;
    }
    Ok(all)
}

// What remains of a run that left these lines of threads, and whose machine closed so.
fn remains_at_close(
    alloc: Global,
    threads: Vec<ThreadLine>,
    closed: Closed<ScriptBody>,
) -> Result<Remains, OutOfMemory>
    ensures left { IfOk result (λ remains. IsLeftBy closed remains) }
    ensures threads { IfOk result (λ remains. remains.left.threads.items ≡ threads.items) }
{
    let Closed {
        tokens,
        messages,
        traces,
        stops,
        ..
    } = closed;
    let lwkt_bank::Closed {
        rows,
        gens,
        tallies,
        blobs,
    } = tokens;
    let last = Final {
        rows,
        gens,
        tallies,
        blobs,
        messages,
    };
    Ok(Remains {
        left: Left { last, threads },
        traces,
        stops: joined(alloc, &stops)?,
    })
}

/// Takes the lines of the threads of a script's machine, and closes it in room that was made for that, by which it stops. That the
/// machine is of this script, and the room for its close, is the caller's condition.
///
/// Refused if memory for the lines of the threads or for the events of the stop is; the machine is gone then.
pub fn left_by(
    alloc: Global,
    script: &Script,
    machine: Machine<ScriptBody>,
    close_room: CloseRoom<ScriptBody>,
) -> Result<Remains, OutOfMemory>
    requires bank { machine.bank.plans ≡ plans_of script.now.tokens }
    requires room { IsRoomFor machine.bank machine.book (length machine.cpus) close_room }
    requires threads { HasThreads script.now.cpus script.now.threads machine.cpus }
    ensures values { IfOk result (λ remains. AreValuesOf script.now.tokens remains.left.last) }
    ensures leaves { IfOk result (λ remains. LeavesRemains machine remains) }
    ensures shown { IfOk result (λ remains. ShowThreads script.now.threads remains.left.threads.items machine) }
    ensures threads { IfOk result (λ remains. map (λ line. line.id) remains.left.threads.items ≡ ids_of script.now.cpus script.now.threads) }
{
    let threads = thread_lines(alloc, script, &machine)?;
    remains_at_close(alloc, threads, machine.close_in(close_room))
}

/// What a report shows of what a run left, with this verdict. That the values are of the script's tokens is the caller's condition.
pub fn closing_of(
    alloc: Global,
    script: &Script,
    left: Left,
    verdict: Verdict,
) -> Result<Closing, OutOfMemory>
    requires { AreValuesOf script.now.tokens left.last }
    ensures { IfOk result (λ closing. ShowsLeft script.now.tokens left.threads.items left.last verdict closing) }
{
    let Left { last, threads } = left;
    let tokens = token_lines(alloc, script.tokens.as_slice(), &last)?;
    let Final { messages, .. } = last;
    Ok(Closing {
        tokens,
        messages,
        threads,
        verdict,
    })
}
