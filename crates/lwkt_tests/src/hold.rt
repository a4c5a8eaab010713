//! Holds: the worked rows, turn by turn, with the words behind each.

use crate::boards::{Board, IDLE, Line, Logged, RAN, Row, goes};
use crate::fixtures::is_right;
use lwkt_base::{Blob, CpuId, Entry, Fault, TokId};
use lwkt_core::Event;
use lwkt_cpu::Turned;
use std::alloc::Global;

const WORD_SEQUENCE: Row = Row {
    script: b"{\"version\":1,\"turns\":50,\"idle\":5,\"cpus\":2,\"tokens\":[{\"cells\":[0],\"law\":\"any\",\"param\":0,\"gen\":0}],\"messages\":[],\"threads\":[{\"cpu\":0,\"repeat\":1,\"steps\":[[\"get\",0],[\"get\",0],[\"gets\",0],[\"rel\",0],[\"rel\",0],[\"rel\",0]]}]}",
    lines: &[
        Line(0, RAN, 1, 0),
        Line(0, RAN, 5, 0),
        Line(0, RAN, 9, 0),
        Line(0, RAN, 5, 0),
        Line(0, RAN, 1, 0),
        Line(0, RAN, 0, 0),
    ],
    logs: &[&[]],
};

#[test]
fn word_sequence(rt: HostRuntime) {
    assert!(rt; goes(rt.alloc(), &WORD_SEQUENCE));
}

// The list is still that of both tokens behind the refusal: it is given up from its end.
const RELEASE_ORDER: Row = Row {
    script: b"{\"version\":1,\"turns\":50,\"idle\":5,\"cpus\":2,\"tokens\":[{\"cells\":[0],\"law\":\"any\",\"param\":0,\"gen\":0},{\"cells\":[0],\"law\":\"any\",\"param\":0,\"gen\":0}],\"messages\":[],\"threads\":[{\"cpu\":0,\"repeat\":1,\"steps\":[[\"get\",0],[\"get\",1],[\"rel\",0],[\"rel\",1],[\"rel\",0]]}]}",
    lines: &[
        Line(0, RAN, 1, 0),
        Line(0, RAN, 1, 1),
        Line(0, RAN, 1, 1),
        Line(0, RAN, 1, 0),
        Line(0, RAN, 0, 0),
    ],
    logs: &[&[Logged::Fault(12)]],
};

#[test]
fn release_order(rt: HostRuntime) {
    assert!(rt; goes(rt.alloc(), &RELEASE_ORDER));
}

const MARK_STOPS_LONE_SHARERS: Row = Row {
    script: b"{\"version\":1,\"turns\":50,\"idle\":5,\"cpus\":5,\"tokens\":[{\"cells\":[0],\"law\":\"any\",\"param\":0,\"gen\":0},{\"cells\":[0],\"law\":\"any\",\"param\":0,\"gen\":0}],\"messages\":[],\"threads\":[{\"cpu\":0,\"repeat\":1,\"steps\":[[\"gets\",0],[\"rel\",0]]},{\"cpu\":1,\"repeat\":1,\"steps\":[[\"gets\",0],[\"rel\",0]]},{\"cpu\":2,\"repeat\":1,\"steps\":[[\"get\",0],[\"read\",0,0]]},{\"cpu\":3,\"repeat\":1,\"steps\":[[\"gets\",0]]},{\"cpu\":3,\"repeat\":1,\"steps\":[[\"get\",1],[\"gets\",0],[\"rel\",0]]}]}",
    lines: &[
        Line(0, RAN, 4, 0),
        Line(1, RAN, 8, 0),
        Line(2, RAN, 10, 0),
        Line(3, RAN, 10, 0),
        Line(3, Turned::Ran { thread: 1 }, 10, 1),
        Line(3, Turned::Ran { thread: 1 }, 14, 1),
        Line(3, Turned::Ran { thread: 1 }, 10, 1),
        Line(0, RAN, 6, 1),
        Line(1, RAN, 2, 1),
        Line(2, RAN, 1, 1),
    ],
    logs: &[],
};

#[test]
fn mark_stops_lone_sharers(rt: HostRuntime) {
    assert!(rt; goes(rt.alloc(), &MARK_STOPS_LONE_SHARERS));
}

const SHARED_AND_HOLD_2: Row = Row {
    script: b"{\"version\":1,\"turns\":50,\"idle\":5,\"cpus\":2,\"tokens\":[{\"cells\":[5,5],\"law\":\"sum\",\"param\":10,\"gen\":0}],\"messages\":[],\"threads\":[{\"cpu\":0,\"repeat\":1,\"steps\":[[\"get\",0],[\"write\",0,0,9],[\"rel\",0],[\"get\",0],[\"read\",0,0],[\"read\",0,1],[\"rel\",0]]}]}",
    lines: &[
        Line(0, RAN, 1, 0),
        Line(0, RAN, 1, 0),
        Line(0, RAN, 0, 0),
        Line(0, RAN, 1, 0),
        Line(0, RAN, 1, 0),
        Line(0, RAN, 1, 0),
        Line(0, RAN, 0, 0),
    ],
    logs: &[&[Logged::Fault(19), Logged::Value(5), Logged::Value(5)]],
};

#[test]
fn bank_shared_and_hold_2(rt: HostRuntime) {
    assert!(rt; goes(rt.alloc(), &SHARED_AND_HOLD_2));
}

// The one takes both tokens and gives them up for a while, and the other one takes the second.
const GIVES_UP: &[u8] =
    b"{\"version\":1,\"turns\":50,\"idle\":5,\"cpus\":3,\"tokens\":[{\"cells\":[0],\"law\":\"any\",\"param\":0,\"gen\":0},{\"cells\":[0],\"law\":\"any\",\"param\":0,\"gen\":0}],\"messages\":[],\"threads\":[{\"cpu\":0,\"repeat\":1,\"steps\":[[\"get\",0],[\"get\",1],[\"yield\"]]},{\"cpu\":1,\"repeat\":1,\"steps\":[[\"get\",1],[\"rel\",1]]}]}";

const MISSED: &[Line] = &[
    Line(0, RAN, 1, 0),
    Line(0, RAN, 1, 1),
    Line(0, RAN, 0, 0),
    Line(1, RAN, 0, 1),
    Line(0, IDLE, 0, 1),
];

// The events of a list that is missed at its second reference.
fn taken_and_given() -> [Event; 2] {
    let (cpu, tok) = (CpuId(0), TokId(0));
    [Event::Take { cpu, tok }, Event::GiveClean { cpu, tok }]
}

fn shared_and_hold_1(alloc: Global) -> Result<bool, Fault> {
    let mut board = Board::open(alloc, GIVES_UP)?;
    Ok(board.makes_all(MISSED)? && board.events() == taken_and_given().as_slice())
}

#[test]
fn bank_shared_and_hold_1(rt: HostRuntime) {
    let alloc = rt.alloc();
    assert!(rt; is_right(shared_and_hold_1(alloc), shared_and_hold_1(alloc)));
}

// The first writes a record and a cell, and the second reads the record.
const WRITES_RECORD: &[u8] =
    b"{\"version\":2,\"turns\":50,\"idle\":5,\"cpus\":3,\"tokens\":[{\"cells\":[3],\"law\":\"len\",\"param\":0,\"gen\":0,\"record\":\"616263\"}],\"messages\":[],\"threads\":[{\"cpu\":0,\"repeat\":1,\"steps\":[[\"get\",0],[\"wrec\",0,\"68656c6c6f\"],[\"write\",0,0,5],[\"rel\",0]]},{\"cpu\":1,\"repeat\":1,\"steps\":[[\"get\",0],[\"rrec\",0],[\"rel\",0]]}]}";

const WRITTEN: &[Line] = &[
    Line(0, RAN, 1, 0),
    Line(0, RAN, 1, 0),
    Line(0, RAN, 1, 0),
    Line(0, RAN, 262_144, 0),
    Line(1, RAN, 262_145, 0),
    Line(1, RAN, 262_145, 0),
    Line(1, RAN, 262_144, 0),
];

fn guarded_2(alloc: Global) -> Result<bool, Fault> {
    let mut board = Board::open(alloc, WRITES_RECORD)?;
    let hello = [Entry::Bytes(Blob::of(b"hello"))];
    Ok(board.makes_all(WRITTEN)? && board.log(1) == hello.as_slice())
}

#[test]
fn guarded_records_2(rt: HostRuntime) {
    let alloc = rt.alloc();
    assert!(rt; is_right(guarded_2(alloc), guarded_2(alloc)));
}
