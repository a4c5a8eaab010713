//! Message ports: the worked rows, turn by turn.

use crate::boards::{Board, IDLE, Line, Logged, RAN, Row, goes};
use crate::fixtures::is_right;
use lwkt_base::Fault;
use std::alloc::Global;

const PORTS_1_TO_3: Row = Row {
    script: b"{\"version\":1,\"turns\":50,\"idle\":5,\"cpus\":3,\"tokens\":[],\"messages\":[{\"of\":[0,0],\"round\":0}],\"threads\":[{\"cpu\":0,\"repeat\":1,\"steps\":[[\"send\",0,1,0,5,9,0],[\"getport\"],[\"do\",0,1,0,6,1],[\"getport\"]]},{\"cpu\":1,\"repeat\":1,\"steps\":[[\"getport\"],[\"getport\"],[\"reply\",0,7,42],[\"getport\"],[\"reply\",0,0,1]]}]}",
    lines: &[
        Line(0, RAN, 0, 0),
        Line(1, RAN, 0, 0),
        Line(1, RAN, 0, 0),
        Line(1, RAN, 0, 0),
        Line(0, RAN, 0, 0),
        Line(0, RAN, 0, 0),
        Line(0, IDLE, 0, 0),
        Line(1, RAN, 0, 0),
        Line(1, RAN, 0, 0),
        Line(0, RAN, 0, 0),
        Line(0, RAN, 0, 0),
    ],
    logs: &[
        &[
            Logged::Reply(0, 7, 42),
            Logged::Reply(0, 0, 1),
            Logged::NoMessage,
        ],
        &[
            Logged::Request(0, 5, 9),
            Logged::NoMessage,
            Logged::Request(0, 6, 1),
        ],
    ],
};

#[test]
fn lanes_and_ports_1_to_3(rt: HostRuntime) {
    assert!(rt; goes(rt.alloc(), &PORTS_1_TO_3));
}

/// 33 messages are sent to thread 1.0, and the last one, which was refused, to the thread itself.
pub const MANY_SENDS: &[u8] =
    b"{\"version\":1,\"turns\":50,\"idle\":5,\"cpus\":3,\"tokens\":[],\"messages\":[{\"of\":[0,0],\"round\":0},{\"of\":[0,0],\"round\":0},{\"of\":[0,0],\"round\":0},{\"of\":[0,0],\"round\":0},{\"of\":[0,0],\"round\":0},{\"of\":[0,0],\"round\":0},{\"of\":[0,0],\"round\":0},{\"of\":[0,0],\"round\":0},{\"of\":[0,0],\"round\":0},{\"of\":[0,0],\"round\":0},{\"of\":[0,0],\"round\":0},{\"of\":[0,0],\"round\":0},{\"of\":[0,0],\"round\":0},{\"of\":[0,0],\"round\":0},{\"of\":[0,0],\"round\":0},{\"of\":[0,0],\"round\":0},{\"of\":[0,0],\"round\":0},{\"of\":[0,0],\"round\":0},{\"of\":[0,0],\"round\":0},{\"of\":[0,0],\"round\":0},{\"of\":[0,0],\"round\":0},{\"of\":[0,0],\"round\":0},{\"of\":[0,0],\"round\":0},{\"of\":[0,0],\"round\":0},{\"of\":[0,0],\"round\":0},{\"of\":[0,0],\"round\":0},{\"of\":[0,0],\"round\":0},{\"of\":[0,0],\"round\":0},{\"of\":[0,0],\"round\":0},{\"of\":[0,0],\"round\":0},{\"of\":[0,0],\"round\":0},{\"of\":[0,0],\"round\":0},{\"of\":[0,0],\"round\":0}],\"threads\":[{\"cpu\":0,\"repeat\":1,\"steps\":[[\"send\",0,1,0,5,9,0],[\"send\",1,1,0,5,9,0],[\"send\",2,1,0,5,9,0],[\"send\",3,1,0,5,9,0],[\"send\",4,1,0,5,9,0],[\"send\",5,1,0,5,9,0],[\"send\",6,1,0,5,9,0],[\"send\",7,1,0,5,9,0],[\"send\",8,1,0,5,9,0],[\"send\",9,1,0,5,9,0],[\"send\",10,1,0,5,9,0],[\"send\",11,1,0,5,9,0],[\"send\",12,1,0,5,9,0],[\"send\",13,1,0,5,9,0],[\"send\",14,1,0,5,9,0],[\"send\",15,1,0,5,9,0],[\"send\",16,1,0,5,9,0],[\"send\",17,1,0,5,9,0],[\"send\",18,1,0,5,9,0],[\"send\",19,1,0,5,9,0],[\"send\",20,1,0,5,9,0],[\"send\",21,1,0,5,9,0],[\"send\",22,1,0,5,9,0],[\"send\",23,1,0,5,9,0],[\"send\",24,1,0,5,9,0],[\"send\",25,1,0,5,9,0],[\"send\",26,1,0,5,9,0],[\"send\",27,1,0,5,9,0],[\"send\",28,1,0,5,9,0],[\"send\",29,1,0,5,9,0],[\"send\",30,1,0,5,9,0],[\"send\",31,1,0,5,9,0],[\"send\",32,1,0,5,9,0],[\"yield\"],[\"send\",32,0,0,2,2,0],[\"getport\"]]}]}";

// The 33rd send is refused, and its message at rest: it can be sent to the processor itself.
fn ports_5(alloc: Global) -> Result<bool, Fault> {
    let mut board = Board::open(alloc, MANY_SENDS)?;
    let ran = board.drive(0, 37)?.ran == 37;
    let last = Logged::Request(32, 2, 2);
    Ok(ran && board.has_log(0, &[Logged::Fault(24), last]))
}

#[test]
fn lanes_and_ports_5(rt: HostRuntime) {
    let alloc = rt.alloc();
    assert!(rt; is_right(ports_5(alloc), ports_5(alloc)));
}
