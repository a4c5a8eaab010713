//! Processors that stop for good after each number of turns: the others go on, and what is left keeps the rules.

use crate::gates::{Kind, Watch};
use crate::threads::run;
use lwkt_base::CpuId;
use lwkt_run::End;
use std::alloc::Global;
use std::thread::Threads;

// A script of two processors, and how each of the first lines of its report may begin.
struct Stopping(&'static [u8], &'static [&'static [&'static [u8]]]);

// Tokens without a law: a row is the opening one or one that a thread writes, and the generation is how many sections did so.
const CROSSED_LISTS: Stopping = Stopping(
    b"{\"version\":1,\"turns\":50,\"idle\":1000,\"cpus\":2,\"tokens\":[{\"cells\":[0],\"law\":\"any\",\"param\":0,\"gen\":0},{\"cells\":[0],\"law\":\"any\",\"param\":0,\"gen\":0}],\"messages\":[],\"threads\":[{\"cpu\":0,\"repeat\":1,\"steps\":[[\"get\",0],[\"get\",1],[\"read\",0,0],[\"write\",0,0,8],[\"yield\"],[\"read\",0,0],[\"rel\",1],[\"rel\",0]]},{\"cpu\":1,\"repeat\":1,\"steps\":[[\"get\",1],[\"get\",0],[\"write\",0,0,7],[\"rel\",0],[\"rel\",1]]}]}",
    &[
        &[
            b"token 0 gen 0 cells 0\n",
            b"token 0 gen 1 cells 7\n",
            b"token 0 gen 1 cells 8\n",
            b"token 0 gen 2 cells 7\n",
            b"token 0 gen 2 cells 8\n",
        ],
        &[b"token 1 gen 0 cells 0\n"],
    ],
);

const CROSSED_CALLS: Stopping = Stopping(
    b"{\"version\":1,\"turns\":50,\"idle\":1000,\"cpus\":2,\"tokens\":[],\"messages\":[{\"of\":[0,0],\"round\":0},{\"of\":[1,0],\"round\":0}],\"threads\":[{\"cpu\":0,\"repeat\":1,\"steps\":[[\"do\",0,1,0,1,10],[\"wait\"],[\"reply\",1,0,21]]},{\"cpu\":1,\"repeat\":1,\"steps\":[[\"wait\"],[\"reply\",0,0,11],[\"do\",1,0,0,2,20]]}]}",
    &[
        &[b"message 0 round 0 rest\n", b"message 0 round 1 "],
        &[b"message 1 round 0 rest\n", b"message 1 round 1 "],
    ],
);

const ABORT_BEFORE_AND_AFTER: Stopping = Stopping(
    b"{\"version\":1,\"turns\":50,\"idle\":1000,\"cpus\":2,\"tokens\":[],\"messages\":[{\"of\":[0,0],\"round\":0},{\"of\":[0,0],\"round\":0}],\"threads\":[{\"cpu\":0,\"repeat\":1,\"steps\":[[\"send\",0,1,0,1,10,2],[\"abort\",0],[\"wait\"],[\"send\",1,1,0,2,20,2],[\"yield\"],[\"abort\",1],[\"wait\"]]},{\"cpu\":1,\"repeat\":1,\"steps\":[[\"yield\"],[\"wait\"],[\"yield\"],[\"yield\"],[\"isab\",1],[\"reply\",1,4,0]]}]}",
    &[
        &[b"message 0 round 0 rest\n", b"message 0 round 1 "],
        &[b"message 1 round 0 rest\n", b"message 1 round 1 "],
    ],
);

const ENDED_PORT: Stopping = Stopping(
    b"{\"version\":1,\"turns\":50,\"idle\":1000,\"cpus\":2,\"tokens\":[{\"cells\":[],\"law\":\"any\",\"param\":0,\"gen\":0},{\"cells\":[],\"law\":\"any\",\"param\":0,\"gen\":0}],\"messages\":[{\"of\":[0,0],\"round\":0}],\"threads\":[{\"cpu\":0,\"repeat\":1,\"steps\":[[\"do\",0,1,0,1,10],[\"do\",0,1,0,2,20]]},{\"cpu\":1,\"repeat\":1,\"steps\":[[\"get\",0],[\"get\",1],[\"wait\"],[\"exit\"]]}]}",
    &[
        &[b"token 0 gen 0 cells -\n"],
        &[b"token 1 gen 0 cells -\n"],
        &[
            b"message 0 round 0 rest\n",
            b"message 0 round 1 ",
            b"message 0 round 2 ",
        ],
    ],
);

// What stands behind the first line.
fn behind(text: &[u8]) -> &[u8] {
    for at in 0..text.len() {
        if text[at] == b'\n' {
            return &text[at + 1..];
        }
    }
    &[]
}

fn begins(text: &[u8], fronts: &[&[u8]]) -> bool {
    for front in fronts {
        if text.starts_with(front) {
            return true;
        }
    }
    false
}

// Whether each of the first lines begins in one of its ways.
fn has_lines(mut text: &[u8], lines: &[&[&[u8]]]) -> bool {
    for fronts in lines {
        if !begins(text, fronts) {
            return false;
        }
        text = behind(text);
    }
    true
}

// Whether a run in which this processor stops after so many turns ends, with these lines.
fn is_stopped<R: Threads + Sync>(rt: &R, alloc: Global, row: &Stopping, kind: Kind) -> bool {
    match run(rt, alloc, row.0, &Watch::new(kind)) {
        Ok((End::Ended | End::TurnsOut, page)) => {
            has_lines(page.text.as_slice(), row.1) && page.text.ends_with(b"\nclosed\n")
        }
        _ => false,
    }
}

// The turns after which a run in which this processor stops ends otherwise.
fn first_other<R: Threads + Sync>(rt: &R, alloc: Global, row: &Stopping, cpu: u8) -> Option<u64> {
    for turns in 0..11 {
        if !is_stopped(rt, alloc, row, Kind::Stops(CpuId(cpu), turns)) {
            return Some(turns);
        }
    }
    None
}

const ROWS: [&Stopping; 4] = [
    &CROSSED_LISTS,
    &CROSSED_CALLS,
    &ABORT_BEFORE_AND_AFTER,
    &ENDED_PORT,
];

#[test]
fn each_processor_stops_after_each_number_of_turns(rt: HostRuntime) {
    for row in ROWS {
        for cpu in 0..2 {
            let other = first_other(&rt, rt.alloc(), row, cpu);
            assert!(rt; other == None, "{other:?}");
        }
    }
}
