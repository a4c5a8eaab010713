//! Processors: the worked rows, turn by turn.

use crate::boards::{Board, IDLE, Line, Logged, RAN, Row, goes};
use crate::fixtures::{closed_by, is_right};
use crate::port::MANY_SENDS;
use lwkt_base::{CpuId, Fault, MsgEnd, MsgId, Owner, ThreadState, TokId};
use lwkt_core::Event;
use lwkt_cpu::Turned;
use std::alloc::Global;

const CPU: CpuId = CpuId(0);

const FIRST: TokId = TokId(0);

const MESSAGE: MsgId = MsgId(0);

const CROSSED_LISTS: Row = Row {
    script: b"{\"version\":1,\"turns\":50,\"idle\":5,\"cpus\":3,\"tokens\":[{\"cells\":[0],\"law\":\"any\",\"param\":0,\"gen\":0},{\"cells\":[0],\"law\":\"any\",\"param\":0,\"gen\":0}],\"messages\":[],\"threads\":[{\"cpu\":0,\"repeat\":1,\"steps\":[[\"get\",0],[\"get\",1],[\"read\",0,0],[\"write\",0,0,8],[\"yield\"],[\"read\",0,0],[\"rel\",1],[\"rel\",0]]},{\"cpu\":1,\"repeat\":1,\"steps\":[[\"get\",1],[\"get\",0],[\"write\",0,0,7],[\"rel\",0],[\"rel\",1]]}]}",
    lines: &[
        Line(0, RAN, 1, 0),
        Line(1, RAN, 1, 1),
        Line(0, RAN, 0, 3),
        Line(1, RAN, 1, 3),
        Line(0, IDLE, 1, 3),
        Line(1, RAN, 1, 3),
        Line(0, IDLE, 1, 3),
        Line(1, RAN, 262_144, 3),
        Line(0, IDLE, 262_144, 3),
        Line(1, RAN, 262_144, 2),
        Line(0, RAN, 262_145, 1),
        Line(1, RAN, 262_145, 1),
        Line(0, RAN, 262_145, 1),
        Line(0, RAN, 524_288, 0),
        Line(0, RAN, 524_289, 1),
        Line(0, RAN, 524_289, 0),
        Line(0, RAN, 524_288, 0),
        Line(0, RAN, 524_288, 0),
        Line(1, Turned::AllExited, 524_288, 0),
    ],
    logs: &[&[Logged::Value(7), Logged::Value(8)], &[]],
};

#[test]
fn crossed_lists(rt: HostRuntime) {
    assert!(rt; goes(rt.alloc(), &CROSSED_LISTS));
}

const CALL_AND_REPLY: Row = Row {
    script: b"{\"version\":1,\"turns\":50,\"idle\":5,\"cpus\":3,\"tokens\":[],\"messages\":[{\"of\":[0,0],\"round\":0}],\"threads\":[{\"cpu\":0,\"repeat\":1,\"steps\":[[\"do\",0,1,0,5,9],[\"getport\"]]},{\"cpu\":1,\"repeat\":1,\"steps\":[[\"wait\"],[\"reply\",0,7,42]]}]}",
    lines: &[
        Line(0, RAN, 0, 0),
        Line(1, RAN, 0, 0),
        Line(0, IDLE, 0, 0),
        Line(1, RAN, 0, 0),
        Line(0, RAN, 0, 0),
        Line(1, RAN, 0, 0),
        Line(0, RAN, 0, 0),
    ],
    logs: &[
        &[Logged::Reply(0, 7, 42), Logged::NoMessage],
        &[Logged::Request(0, 5, 9)],
    ],
};

#[test]
fn call_and_reply(rt: HostRuntime) {
    assert!(rt; goes(rt.alloc(), &CALL_AND_REPLY));
}

// Asks that name nothing.
const NAMES_NOTHING: &[u8] =
    b"{\"version\":2,\"turns\":50,\"idle\":5,\"cpus\":2,\"tokens\":[{\"cells\":[0],\"law\":\"any\",\"param\":0,\"gen\":0,\"record\":null}],\"messages\":[],\"threads\":[{\"cpu\":0,\"repeat\":1,\"steps\":[[\"get\",255],[\"gets\",255],[\"try\",255],[\"rel\",255],[\"read\",255,255],[\"write\",255,255,255],[\"add\",255,255],[\"rrec\",255],[\"send\",255,255,255,5,9,0],[\"do\",255,255,255,5,9],[\"reply\",255,255,255],[\"abort\",255],[\"isab\",255],[\"drop\",255]]}]}";

// How they are refused.
const REFUSED: &[Logged] = &[
    Logged::Fault(16),
    Logged::Fault(16),
    Logged::Fault(16),
    Logged::Fault(13),
    Logged::Fault(16),
    Logged::Fault(16),
    Logged::Fault(16),
    Logged::Fault(16),
    Logged::Fault(30),
    Logged::Fault(30),
    Logged::Fault(31),
    Logged::Fault(25),
    Logged::Fault(31),
    Logged::Fault(25),
];

fn are_refused(alloc: Global) -> Result<bool, Fault> {
    let mut board = Board::open(alloc, NAMES_NOTHING)?;
    let ran = board.drive(0, 15)?.ran == 15;
    Ok(ran && board.has_log(0, REFUSED) && board.events().is_empty())
}

#[test]
fn asks_of_nothing(rt: HostRuntime) {
    let alloc = rt.alloc();
    assert!(rt; is_right(are_refused(alloc), are_refused(alloc)));
}

// Whether the first 32 messages are on their way, and the last one is at rest at its opening round.
fn are_sent(ends: &[MsgEnd]) -> bool {
    let (origin, target) = (CPU, CpuId(1));
    let out = MsgEnd {
        round: 1,
        state: Owner::Out { origin, target },
    };
    let rest = MsgEnd {
        round: 0,
        state: Owner::Rest { origin },
    };
    match ends.split_last() {
        Some((last, front)) => {
            *last == rest && front.len() == 32 && front.iter().all(|end| *end == out)
        }
        None => false,
    }
}

// 33 sends over a lane that has room for 32 notes.
fn fills(alloc: Global) -> Result<bool, Fault> {
    let mut board = Board::open(alloc, MANY_SENDS)?;
    let ran = board.drive(0, 34)?.ran == 34;
    let closed = closed_by(alloc, MANY_SENDS, &[0; 34])?;
    Ok(ran && board.has_log(0, &[Logged::Fault(24)]) && are_sent(&closed.messages))
}

#[test]
fn full_lane(rt: HostRuntime) {
    let alloc = rt.alloc();
    assert!(rt; is_right(fills(alloc), fills(alloc)));
}

// The first wants a token that the second holds.
const WAITS: &[u8] =
    b"{\"version\":1,\"turns\":50,\"idle\":5,\"cpus\":3,\"tokens\":[{\"cells\":[0],\"law\":\"any\",\"param\":0,\"gen\":0},{\"cells\":[0],\"law\":\"any\",\"param\":0,\"gen\":0}],\"messages\":[],\"threads\":[{\"cpu\":0,\"repeat\":1,\"steps\":[[\"get\",0],[\"get\",1]]},{\"cpu\":1,\"repeat\":1,\"steps\":[[\"get\",1]]}]}";

// Whether a turn of the first processor answers so, and makes these events alone.
fn makes(board: &mut Board, turned: Turned, events: &[Event]) -> Result<bool, Fault> {
    Ok(board.turn(0)? == turned && board.events() == events)
}

// A thread whose list was refused is passed over while the word that refused it stands.
fn skips(alloc: Global) -> Result<bool, Fault> {
    let mut board = Board::open(alloc, WAITS)?;
    let take = Event::Take {
        cpu: CPU,
        tok: FIRST,
    };
    let give = Event::GiveClean {
        cpu: CPU,
        tok: FIRST,
    };
    let mark = Event::Mark {
        cpu: CPU,
        tok: TokId(1),
    };
    board.turn(1)?;
    Ok(
        makes(&mut board, RAN, &[take])?
            && makes(&mut board, RAN, &[mark, give])?
            && makes(&mut board, IDLE, &[take, give])?
            && makes(&mut board, IDLE, &[])?,
    )
}

#[test]
fn skipped_tries_1(rt: HostRuntime) {
    let alloc = rt.alloc();
    assert!(rt; is_right(skips(alloc), skips(alloc)));
}

// The one breaks a law, and the other wants its token.
const BREAKS: &[u8] =
    b"{\"version\":1,\"turns\":50,\"idle\":5,\"cpus\":3,\"tokens\":[{\"cells\":[5,5],\"law\":\"sum\",\"param\":10,\"gen\":0},{\"cells\":[0],\"law\":\"any\",\"param\":0,\"gen\":0}],\"messages\":[],\"threads\":[{\"cpu\":0,\"repeat\":1,\"steps\":[[\"get\",0],[\"write\",0,0,9]]},{\"cpu\":1,\"repeat\":1,\"steps\":[[\"get\",0],[\"read\",0,0]]}]}";

const BEFORE: &[Line] = &[
    Line(0, RAN, 1, 0),
    Line(0, RAN, 1, 0),
    Line(1, RAN, 3, 0),
    Line(1, IDLE, 3, 0),
    Line(1, IDLE, 3, 0),
    Line(1, IDLE, 3, 0),
    Line(1, IDLE, 3, 0),
];

const BEHIND: &[Line] = &[Line(1, RAN, 1, 0), Line(1, RAN, 0, 0)];

// A processor stands still in a section that has broken its law, and is stopped later: the other one waits, and goes on.
fn stands_still(alloc: Global) -> Result<bool, Fault> {
    let mut board = Board::open(alloc, BREAKS)?;
    let waits = board.makes_all(BEFORE)?;
    board.stop(0)?;
    let restored = board.has_words(2, 0);
    let faulted = board.state(0) == Some(ThreadState::Faulted(Fault::Broken));
    let goes_on = board.makes_all(BEHIND)?;
    Ok(waits && restored && faulted && goes_on && board.has_log(1, &[Logged::Value(5)]))
}

#[test]
fn callers_that_stop_1_and_2(rt: HostRuntime) {
    let alloc = rt.alloc();
    assert!(rt; is_right(stands_still(alloc), stands_still(alloc)));
}

// The second calls the first, which takes the request and goes on.
const CALLS: &[u8] =
    b"{\"version\":1,\"turns\":50,\"idle\":5,\"cpus\":3,\"tokens\":[],\"messages\":[{\"of\":[1,0],\"round\":0}],\"threads\":[{\"cpu\":0,\"repeat\":1,\"steps\":[[\"wait\"],[\"getport\"],[\"getport\"]]},{\"cpu\":1,\"repeat\":1,\"steps\":[[\"do\",0,0,0,5,9]]}]}";

const TAKES: &[Line] = &[Line(0, RAN, 0, 0), Line(1, RAN, 0, 0), Line(0, RAN, 0, 0)];

// A processor stops whose thread was shown a request.
fn stops_with_a_request(alloc: Global) -> Result<bool, Fault> {
    let mut board = Board::open(alloc, CALLS)?;
    let taken = board.makes_all(TAKES)?;
    board.stop(0)?;
    let made = board.turn(1)? == RAN;
    Ok(taken && made && board.has_log(1, &[Logged::Reply(0, 41, 0)]))
}

#[test]
fn callers_that_stop_3(rt: HostRuntime) {
    let alloc = rt.alloc();
    assert!(rt; is_right(stops_with_a_request(alloc), stops_with_a_request(alloc)));
}

// The second takes a request of the first, and fills its lane to it.
const FILLS: &[u8] =
    b"{\"version\":1,\"turns\":50,\"idle\":5,\"cpus\":3,\"tokens\":[],\"messages\":[{\"of\":[0,0],\"round\":0},{\"of\":[1,0],\"round\":0},{\"of\":[1,0],\"round\":0},{\"of\":[1,0],\"round\":0},{\"of\":[1,0],\"round\":0},{\"of\":[1,0],\"round\":0},{\"of\":[1,0],\"round\":0},{\"of\":[1,0],\"round\":0},{\"of\":[1,0],\"round\":0},{\"of\":[1,0],\"round\":0},{\"of\":[1,0],\"round\":0},{\"of\":[1,0],\"round\":0},{\"of\":[1,0],\"round\":0},{\"of\":[1,0],\"round\":0},{\"of\":[1,0],\"round\":0},{\"of\":[1,0],\"round\":0},{\"of\":[1,0],\"round\":0},{\"of\":[1,0],\"round\":0},{\"of\":[1,0],\"round\":0},{\"of\":[1,0],\"round\":0},{\"of\":[1,0],\"round\":0},{\"of\":[1,0],\"round\":0},{\"of\":[1,0],\"round\":0},{\"of\":[1,0],\"round\":0},{\"of\":[1,0],\"round\":0},{\"of\":[1,0],\"round\":0},{\"of\":[1,0],\"round\":0},{\"of\":[1,0],\"round\":0},{\"of\":[1,0],\"round\":0},{\"of\":[1,0],\"round\":0},{\"of\":[1,0],\"round\":0},{\"of\":[1,0],\"round\":0},{\"of\":[1,0],\"round\":0}],\"threads\":[{\"cpu\":0,\"repeat\":1,\"steps\":[[\"send\",0,1,0,5,9,0]]},{\"cpu\":1,\"repeat\":1,\"steps\":[[\"wait\"],[\"send\",1,0,0,5,9,0],[\"send\",2,0,0,5,9,0],[\"send\",3,0,0,5,9,0],[\"send\",4,0,0,5,9,0],[\"send\",5,0,0,5,9,0],[\"send\",6,0,0,5,9,0],[\"send\",7,0,0,5,9,0],[\"send\",8,0,0,5,9,0],[\"send\",9,0,0,5,9,0],[\"send\",10,0,0,5,9,0],[\"send\",11,0,0,5,9,0],[\"send\",12,0,0,5,9,0],[\"send\",13,0,0,5,9,0],[\"send\",14,0,0,5,9,0],[\"send\",15,0,0,5,9,0],[\"send\",16,0,0,5,9,0],[\"send\",17,0,0,5,9,0],[\"send\",18,0,0,5,9,0],[\"send\",19,0,0,5,9,0],[\"send\",20,0,0,5,9,0],[\"send\",21,0,0,5,9,0],[\"send\",22,0,0,5,9,0],[\"send\",23,0,0,5,9,0],[\"send\",24,0,0,5,9,0],[\"send\",25,0,0,5,9,0],[\"send\",26,0,0,5,9,0],[\"send\",27,0,0,5,9,0],[\"send\",28,0,0,5,9,0],[\"send\",29,0,0,5,9,0],[\"send\",30,0,0,5,9,0],[\"send\",31,0,0,5,9,0],[\"send\",32,0,0,5,9,0]]}]}";

// A processor stops with a full lane: the reply that it owes goes out in a later turn, once there is room.
fn owes(alloc: Global) -> Result<bool, Fault> {
    let mut board = Board::open(alloc, FILLS)?;
    let filled = board.turn(0)? == RAN && board.drive(1, 33)?.ran == 33;
    board.stop(1)?;
    let owed = board.owed(1) == 1;
    let taken = board.turn(0)? == RAN;
    let paid = board.turn(1)? == Turned::AllExited && board.owed(1) == 0;
    let reply = Event::Reply {
        cpu: CpuId(1),
        msg: MESSAGE,
    };
    Ok(filled && owed && taken && paid && board.events() == [reply].as_slice())
}

#[test]
fn callers_that_stop_4(rt: HostRuntime) {
    let alloc = rt.alloc();
    assert!(rt; is_right(owes(alloc), owes(alloc)));
}
