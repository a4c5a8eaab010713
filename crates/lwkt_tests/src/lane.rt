//! Lanes: the worked row, what no clause says of a pop, and a million notes between two threads.
ghost use Rattle.lwkt_lane.specs.Lane.{IsLane};

use crate::fixtures::is_right;
use lwkt_base::{Fault, MsgId};
use lwkt_lane::{LaneIn, LaneOut, Note, NoteKind, lane, settle};
use std::alloc::Global;
use std::thread;
use std::thread::Threads;

const TRIES: u32 = 100_000_000;

const NOTES: u64 = 1_000_000;

// Notes differ in their rounds.
fn note(round: u64) -> Note {
    Note {
        round,
        msg: MsgId(7),
        port: 3,
        kind: NoteKind::Answer,
        urgent: false,
    }
}

// A call on a lane, and the answer that is wanted.
#[derive(Clone, Copy)]
enum Line {
    Room(bool),
    /// Whether this note goes into the lane.
    Push(u64, bool),
    /// The note that comes out of it.
    Pop(Option<u64>),
}

fn push(out: &mut LaneOut, into: &LaneIn, round: u64, wanted: bool) -> bool
    requires { IsLane out.old into.now }
    ensures { IsLane out.new into.now }
{
    match out.push(note(round)) {
        Ok(()) => wanted,
        Err(fault) => !wanted && fault == Fault::LaneFull,
    }
}

fn pop(out: &LaneOut, into: &mut LaneIn, wanted: Option<u64>) -> bool
    requires { IsLane out.now into.old }
    ensures { IsLane out.now into.new }
{
    match (into.pop(), wanted) {
        (Some(next), Some(round)) => next == note(round),
        (None, None) => true,
        _ => false,
    }
}

fn goes_as(out: &mut LaneOut, into: &mut LaneIn, line: Line) -> bool
    requires { IsLane out.old into.old }
    ensures { IsLane out.new into.new }
{
    match line {
        Line::Room(wanted) => out.room() == wanted,
        Line::Push(round, wanted) => push(out, into, round, wanted),
        Line::Pop(wanted) => pop(out, into, wanted),
    }
}

fn play_lines(out: &mut LaneOut, into: &mut LaneIn, lines: &[Line]) -> bool
    requires { IsLane out.old into.old }
    ensures { IsLane out.new into.new }
{
    for (at, line) in lines.iter().enumerate() {
        if !goes_as(out, into, *line) {
            return false;
        }
    }
    true
}

// Whether calls on a lane of four go as is written, and these two notes are left.
fn play(alloc: Global, lines: &[Line], left: [u64; 2]) -> Result<bool, Fault> {
    let (mut out, mut into) = lane(alloc, 4)?;
    let good = play_lines(&mut out, &mut into, lines);
    let notes = settle(alloc, out, into)?;
    Ok(good && notes.as_slice() == [note(left[0]), note(left[1])].as_slice())
}

const IN_HAND: &[Line] = &[
    Line::Room(true),
    Line::Push(1, true),
    Line::Room(true),
    Line::Push(2, true),
    Line::Room(true),
    Line::Push(3, true),
    Line::Room(true),
    Line::Push(4, true),
    Line::Room(false),
    Line::Push(5, false),
    Line::Pop(Some(1)),
    Line::Pop(Some(2)),
];

fn in_hand(alloc: Global) -> Result<bool, Fault> {
    play(alloc, IN_HAND, [3, 4])
}

#[test]
fn lane_in_hand(rt: HostRuntime) {
    let alloc = rt.alloc();
    assert!(rt; is_right(in_hand(alloc), in_hand(alloc)));
}

// A note goes into the queue at once if that has room, also where a note in hand goes first.
const AT_ONCE: &[Line] = &[
    Line::Pop(None),
    Line::Push(1, true),
    Line::Pop(Some(1)),
    Line::Push(2, true),
    Line::Push(3, true),
    Line::Push(4, true),
    Line::Push(5, true),
    Line::Pop(Some(2)),
    Line::Pop(Some(3)),
    Line::Push(6, true),
    Line::Pop(Some(4)),
    Line::Pop(Some(5)),
    Line::Pop(Some(6)),
    Line::Pop(None),
    Line::Push(7, true),
    Line::Push(8, true),
];

fn at_once(alloc: Global) -> Result<bool, Fault> {
    play(alloc, AT_ONCE, [7, 8])
}

#[test]
fn a_note_with_room_is_not_kept_in_hand(rt: HostRuntime) {
    let alloc = rt.alloc();
    assert!(rt; is_right(at_once(alloc), at_once(alloc)));
}

// How many of the notes 0, 1, .. were pushed, and whether the last of them left the sender's hand.
fn push_all(mut out: LaneOut) -> (u64, bool) {
    let mut pushed = 0;
    let mut emptied = false;
    for _ in 0..TRIES {
        if pushed < NOTES && out.push(note(pushed)).is_ok() {
            pushed += 1;
        } else if pushed == NOTES && out.room() {
            emptied = true;
            break;
        } else {
            thread::yield_now();
        }
    }
    (pushed, emptied)
}

// How many notes came as 0, 1, .., up to the first that is another.
fn pop_all(mut into: LaneIn) -> u64 {
    let mut popped = 0;
    for _ in 0..TRIES {
        if popped >= NOTES {
            break;
        }
        match into.pop() {
            Some(next) if next == note(popped) => popped += 1,
            Some(_) => break,
            None => thread::yield_now(),
        }
    }
    popped
}

fn cross<R: Threads + Sync>(rt: &R, alloc: Global) -> Result<bool, Fault> {
    let (out, into) = lane(alloc, 32)?;
    let (pushed, popped) = thread::join(rt, || push_all(out), || pop_all(into));
    Ok(pushed == (NOTES, true) && popped == NOTES)
}

#[test]
fn notes_cross_two_threads_in_order(rt: HostRuntime) {
    assert!(rt; cross(&rt, rt.alloc()) == Ok(true));
}
