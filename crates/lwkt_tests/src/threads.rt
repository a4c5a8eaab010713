//! Runs on threads through gates: how they end, and their output.

use crate::gates::{Kind, Watch};
use lwkt_base::memory::from_str;
use lwkt_base::{CpuId, Fault, OutOfMemory, ThreadState};
use lwkt_machine::{Limits, Machine, ScriptBody};
use lwkt_report::Page;
use lwkt_run::{End, RunFault, run_program, run_threads_gated};
use lwkt_script::read_script;
use std::alloc::Global;
use std::thread::Threads;

// The most turns of a run that can't go on; `idle` allows each processor a thousand times as many.
const FEW: u64 = 100_000;

/// A script, and its report.
#[derive(Clone, Copy)]
pub struct Reported(pub &'static [u8], pub &'static [u8]);

const CROSSED_CALLS: Reported = Reported(
    b"{\"version\":1,\"turns\":50,\"idle\":100000000,\"cpus\":2,\"tokens\":[],\"messages\":[{\"of\":[0,0],\"round\":0},{\"of\":[1,0],\"round\":0}],\"threads\":[{\"cpu\":0,\"repeat\":1,\"steps\":[[\"do\",0,1,0,1,10],[\"wait\"],[\"reply\",1,0,21]]},{\"cpu\":1,\"repeat\":1,\"steps\":[[\"wait\"],[\"reply\",0,0,11],[\"do\",1,0,0,2,20]]}]}",
    b"message 0 round 1 rest\nmessage 1 round 1 rest\nthread 0.0 exited list - log r=0:0:11 q=1:2:20\nthread 1.0 exited list - log q=0:1:10 r=1:0:21\nclosed\n",
);

// Each of three asks the next one, and serves the one before.
const ROUND_OF_CALLS: Reported = Reported(
    b"{\"version\":1,\"turns\":50,\"idle\":100000000,\"cpus\":3,\"tokens\":[],\"messages\":[{\"of\":[0,0],\"round\":0},{\"of\":[1,0],\"round\":0},{\"of\":[2,0],\"round\":0}],\"threads\":[{\"cpu\":0,\"repeat\":1,\"steps\":[[\"do\",0,1,0,1,10],[\"wait\"],[\"reply\",2,0,33]]},{\"cpu\":1,\"repeat\":1,\"steps\":[[\"wait\"],[\"reply\",0,0,11],[\"do\",1,2,0,2,20]]},{\"cpu\":2,\"repeat\":1,\"steps\":[[\"wait\"],[\"reply\",1,0,22],[\"do\",2,0,0,3,30]]}]}",
    b"message 0 round 1 rest\nmessage 1 round 1 rest\nmessage 2 round 1 rest\nthread 0.0 exited list - log r=0:0:11 q=2:3:30\nthread 1.0 exited list - log q=0:1:10 r=1:0:22\nthread 2.0 exited list - log q=1:2:20 r=2:0:33\nclosed\n",
);

// 1.0 ends at once; 0.0 calls it later, and is answered by the port of a thread that has ended.
const CALLS_AN_ENDED_ONE: Reported = Reported(
    b"{\"version\":1,\"turns\":50,\"idle\":100000000,\"cpus\":2,\"tokens\":[],\"messages\":[{\"of\":[0,0],\"round\":0}],\"threads\":[{\"cpu\":0,\"repeat\":1,\"steps\":[[\"yield\"],[\"yield\"],[\"do\",0,1,0,1,10]]},{\"cpu\":1,\"repeat\":1,\"steps\":[]}]}",
    b"message 0 round 1 rest\nthread 0.0 exited list - log r=0:30:0\nthread 1.0 exited list - log -\nclosed\n",
);

// Two threads that call each other at once wait for good.
const CALLS_THAT_WAIT: Reported = Reported(
    b"{\"version\":1,\"turns\":10,\"idle\":100000000,\"cpus\":2,\"tokens\":[],\"messages\":[{\"of\":[0,0],\"round\":0},{\"of\":[1,0],\"round\":0}],\"threads\":[{\"cpu\":0,\"repeat\":1,\"steps\":[[\"do\",0,1,0,1,10],[\"wait\"],[\"reply\",1,0,21]]},{\"cpu\":1,\"repeat\":1,\"steps\":[[\"do\",1,0,0,2,20],[\"wait\"],[\"reply\",0,0,11]]}]}",
    b"message 0 round 1 out\nmessage 1 round 1 out\nthread 0.0 waiting list - log -\nthread 1.0 waiting list - log -\nclosed\n",
);

// A thread waits for one whose processor has made all its turns.
const YIELDS_ON: Reported = Reported(
    b"{\"version\":1,\"turns\":20,\"idle\":100000000,\"cpus\":2,\"tokens\":[],\"messages\":[{\"of\":[0,0],\"round\":0}],\"threads\":[{\"cpu\":0,\"repeat\":1,\"steps\":[[\"do\",0,1,0,1,10]]},{\"cpu\":1,\"repeat\":100,\"steps\":[[\"yield\"]]}]}",
    b"message 0 round 1 out\nthread 0.0 waiting list - log -\nthread 1.0 ready list - log -\nclosed\n",
);

const ALONE: Reported = Reported(
    b"{\"version\":1,\"turns\":10,\"idle\":100000000,\"cpus\":1,\"tokens\":[],\"messages\":[],\"threads\":[{\"cpu\":0,\"repeat\":1,\"steps\":[[\"wait\"]]}]}",
    b"thread 0.0 waiting list - log -\nclosed\n",
);

const FOUR_PROCESSORS_TALLY: Reported = Reported(
    b"{\"version\":1,\"turns\":10000,\"idle\":100000000,\"cpus\":4,\"tokens\":[{\"cells\":[0],\"law\":\"tally\",\"param\":0,\"gen\":0}],\"messages\":[],\"threads\":[{\"cpu\":0,\"repeat\":1000,\"steps\":[[\"get\",0],[\"add\",0,3],[\"rel\",0]]},{\"cpu\":1,\"repeat\":1000,\"steps\":[[\"get\",0],[\"add\",0,3],[\"rel\",0]]},{\"cpu\":2,\"repeat\":1000,\"steps\":[[\"get\",0],[\"add\",0,3],[\"rel\",0]]},{\"cpu\":3,\"repeat\":1000,\"steps\":[[\"get\",0],[\"add\",0,3],[\"rel\",0]]}]}",
    b"token 0 gen 4000 cells 12000\ntally 0 3000 3000 3000 3000\nthread 0.0 exited list - log -\nthread 1.0 exited list - log -\nthread 2.0 exited list - log -\nthread 3.0 exited list - log -\nclosed\n",
);

/// How a run through a gate ends, and its report.
pub fn run<R: Threads + Sync>(
    rt: &R,
    alloc: Global,
    script: &[u8],
    gate: &Watch,
) -> Result<(End, Page), RunFault> {
    let mut source = script;
    let mut page = Page::with_room(alloc, 4096)?;
    let end = run_threads_gated(rt, alloc, &mut source, &mut page, gate)?;
    Ok((end, page))
}

// Whether a run through a gate ends so, with its report.
fn ends_as<R: Threads + Sync>(
    rt: &R,
    alloc: Global,
    row: Reported,
    gate: &Watch,
    end: End,
) -> bool {
    match run(rt, alloc, row.0, gate) {
        Ok((ended, page)) => ended == end && page.text.as_slice() == row.1,
        Err(_) => false,
    }
}

// Both processors are there at once: a body that drives one to its end before it begins the other can't pass this gate.
#[test]
fn crossed_calls_threaded(rt: HostRuntime) {
    let gate = Watch::new(Kind::Meeting);
    assert!(rt; ends_as(&rt, rt.alloc(), CROSSED_CALLS, &gate, End::Ended));
}

// Whether a run that can't go on ends long before its idle turns are used up.
fn ends_soon<R: Threads + Sync>(rt: &R, alloc: Global, row: Reported) -> bool {
    let gate = Watch::new(Kind::Open);
    ends_as(rt, alloc, row, &gate, End::TurnsOut) && gate.asked() < FEW
}

#[test]
fn runs_that_cannot_go_on_end_soon(rt: HostRuntime) {
    for row in [CALLS_THAT_WAIT, YIELDS_ON, ALONE] {
        assert!(rt; ends_soon(&rt, rt.alloc(), row));
    }
}

// Whether a run ends as it does otherwise, whichever of so many processors is slow.
fn is_waited_for<R: Threads + Sync>(rt: &R, alloc: Global, row: Reported, cpus: u8) -> bool {
    for cpu in 0..cpus {
        let gate = Watch::new(Kind::Slow(CpuId(cpu)));
        if !ends_as(rt, alloc, row, &gate, End::Ended) {
            return false;
        }
    }
    true
}

// The others don't take the run for one that can't go on, and one whose threads have ended still answers.
#[test]
fn a_slow_processor_is_waited_for(rt: HostRuntime) {
    let rows = [
        (CROSSED_CALLS, 2),
        (ROUND_OF_CALLS, 3),
        (CALLS_AN_ENDED_ONE, 2),
    ];
    for (row, cpus) in rows {
        assert!(rt; is_waited_for(&rt, rt.alloc(), row, cpus));
    }
}

// A thread sends a message, drops it or asks for it to be aborted, and waits for a reply where it wasn't dropped last, 5000 times;
// another one answers what it takes.
const DROPS_AND_ABORTS: &[u8] =
    b"{\"version\":1,\"turns\":1000000,\"idle\":100000000,\"cpus\":2,\"tokens\":[],\"messages\":[{\"of\":[0,0],\"round\":0}],\"threads\":[{\"cpu\":0,\"repeat\":5000,\"steps\":[[\"send\",0,1,0,5,9,3],[\"drop\",0],[\"send\",0,1,0,5,9,3],[\"yield\"],[\"drop\",0],[\"send\",0,1,0,5,9,3],[\"abort\",0],[\"wait\"]]},{\"cpu\":1,\"repeat\":20000,\"steps\":[[\"wait\"],[\"isab\",0],[\"reply\",0,7,42]]}]}";

// Whether the sender has ended, and its message is at rest: each of its rounds was dropped or answered, and each answer came.
fn has_rested(text: &[u8]) -> bool {
    let mut lines = text.split(|byte| *byte == b'\n');
    let (Some(message), Some(sender)) = (lines.next(), lines.next()) else {
        return false;
    };
    message.ends_with(b" rest") && sender.starts_with(b"thread 0.0 exited ")
}

#[test]
fn each_round_is_dropped_or_answered(rt: HostRuntime) {
    let gate = Watch::new(Kind::Open);
    match run(&rt, rt.alloc(), DROPS_AND_ABORTS, &gate) {
        Ok((end, page)) => assert!(rt; end == End::TurnsOut && has_rested(&page.text)),
        Err(_) => assert!(rt; false),
    }
}

// Whether the first thread of a processor stands so.
fn stands(machine: &Machine<ScriptBody>, cpu: usize, wanted: ThreadState) -> bool {
    match machine.thread(cpu, 0) {
        Some(status) => status.state == wanted,
        None => false,
    }
}

// Whether a script that is driven on so many threads leaves the first thread of each processor so, after few turns.
fn leaves<R: Threads + Sync>(
    rt: &R,
    alloc: Global,
    threads: usize,
    script: &[u8],
    wanted: &[ThreadState],
) -> Result<bool, Fault> {
    let script = read_script(alloc, script)?;
    let mut machine = Machine::open_script(alloc, &script)?;
    let limits = Limits {
        turns: script.turns,
        idle: script.idle,
    };
    let gate = Watch::new(Kind::Open);
    machine.drive_on_threads(rt, threads, &gate, &limits)?;
    let states = wanted
        .iter()
        .enumerate()
        .all(|(cpu, state)| stands(&machine, cpu, *state));
    Ok(states && machine.cpus() == wanted.len() && gate.asked() < FEW)
}

const EXITED: ThreadState = ThreadState::Exited;

const WAITING: ThreadState = ThreadState::Waiting;

// Whether a script that is driven on one thread, on two and on three leaves the first thread of each processor so.
fn leaves_on_few<R: Threads + Sync>(
    rt: &R,
    alloc: Global,
    row: Reported,
    wanted: &[ThreadState],
) -> Result<bool, Fault> {
    for threads in 1..4 {
        if !leaves(rt, alloc, threads, row.0, wanted)? {
            return Ok(false);
        }
    }
    Ok(true)
}

// Several processors take turns on one thread, and the runs go on, and end, as on a thread each.
#[test]
fn few_threads_are_shared(rt: HostRuntime) {
    let rows: [(Reported, &[ThreadState]); 5] = [
        (CROSSED_CALLS, &[EXITED, EXITED]),
        (ROUND_OF_CALLS, &[EXITED, EXITED, EXITED]),
        (FOUR_PROCESSORS_TALLY, &[EXITED, EXITED, EXITED, EXITED]),
        (CALLS_THAT_WAIT, &[WAITING, WAITING]),
        (YIELDS_ON, &[WAITING, ThreadState::Ready]),
    ];
    for (row, states) in rows {
        let left = leaves_on_few(&rt, rt.alloc(), row, states);
        assert!(rt; left == Ok(true));
    }
}

const CUT_OFF: Reported = Reported(b"{\"version\":1,\"turns\":5", b"lwkt_run: fault 33 at 0\n");

const NO_MODE: Reported = Reported(b"", b"lwkt_run: turns or threads\n");

// Whether the whole program, asked by this word, ends so and writes this.
fn writes<R: Threads + Sync>(
    rt: &R,
    alloc: Global,
    word: &str,
    row: Reported,
    status: u8,
) -> Result<bool, OutOfMemory> {
    let words = [from_str(alloc, word)?];
    let mut source = row.0;
    let mut page = Page::with_room(alloc, 4096)?;
    let ended = run_program(rt, alloc, &words, &mut source, &mut page);
    Ok(ended == status && page.text.as_slice() == row.1)
}

#[test]
fn whole_runs(rt: HostRuntime) {
    let rows = [
        ("threads", FOUR_PROCESSORS_TALLY, 0),
        ("threads", CALLS_THAT_WAIT, 2),
        ("turns", CUT_OFF, 1),
        ("rounds", NO_MODE, 1),
    ];
    for (word, row, status) in rows {
        assert!(rt; writes(&rt, rt.alloc(), word, row, status) == Ok(true));
    }
}
