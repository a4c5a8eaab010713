//! A message word, and the numbers and messages of faults.

use lwkt_base::memory::{MOST_ROOM, with_capacity};
use lwkt_base::{CpuId, Fault, MsgState, MsgWord, OutOfMemory};
use std::alloc::Global;

// A message on its way from processor 0 to processor 1, in its first round.
const OUT: MsgWord = MsgWord {
    round: 1,
    state: MsgState::Out,
    origin: CpuId(0),
    target: CpuId(1),
    aborted: false,
    sync: false,
    dropable: false,
    abortable: false,
    priority: false,
};

#[test]
fn book_basics_5(rt: HostRuntime) {
    assert!(rt; MsgWord::parts(9217) == OUT);
    let urgent = MsgWord {
        priority: true,
        ..OUT
    };
    assert!(rt; MsgWord::parts(9281) == urgent);
}

// Faults with their numbers and messages.
const FAULTS: &[(Fault, u8, &str)] = &[
    (Fault::ListFull, 10, "list full"),
    (
        Fault::Upgrade,
        11,
        "shared reference can't become exclusive",
    ),
    (Fault::NotLast, 12, "not the last reference"),
    (Fault::NotHeld, 13, "token not held"),
    (Fault::SwapSame, 14, "swap of one token"),
    (Fault::SwapShort, 15, "swap needs two references"),
    (Fault::NoToken, 16, "no such token"),
    (Fault::NoCell, 17, "no such cell"),
    (Fault::SharedWrite, 18, "write under a shared token"),
    (Fault::Broken, 19, "law broken, cells restored"),
    (Fault::Worn, 20, "last generation"),
    (Fault::Overflow, 21, "sum too large"),
    (Fault::TallyOnly, 22, "call and law don't fit"),
    (Fault::Busy, 23, "token busy"),
    (Fault::LaneFull, 24, "lane full"),
    (Fault::NotOwner, 25, "message not owned"),
    (Fault::NotOut, 26, "message not out"),
    (Fault::NotAbortable, 27, "message not abortable"),
    (Fault::NotDropable, 28, "message not dropable"),
    (Fault::SelfDo, 29, "synchronous send to itself"),
    (Fault::NoPort, 30, "no such port"),
    (Fault::NotTaken, 31, "message not taken"),
    (
        Fault::Script { place: 100_002 },
        33,
        "script refused at 100002",
    ),
    (Fault::Again, 34, "lost a race, try again"),
    (Fault::Unlawful { index: 7 }, 35, "unlawful at 7"),
    (Fault::RoundsOut, 36, "last round"),
    (Fault::SharedRecord, 37, "record under a shared token"),
    (Fault::RecordLong, 38, "record too long"),
    (Fault::Limits, 39, "limit passed"),
    (Fault::LawBroken, 40, "opening breaks its law"),
    (Fault::Assertion, 42, "assertion failed"),
];

// Whether a fault has this number and this message.
fn is_said(alloc: Global, fault: Fault, number: u8, message: &str) -> bool {
    match fault.to_string(alloc) {
        Ok(text) => fault.number() == number && text.as_str() == message,
        Err(_) => false,
    }
}

// The first of the faults that is said otherwise.
fn first_other(alloc: Global) -> Option<u8> {
    for (fault, number, message) in FAULTS {
        if !is_said(alloc, *fault, *number, message) {
            return Some(*number);
        }
    }
    None
}

// What is answered where a call asks for more memory than a process may have.
fn want_of_memory(alloc: Global) -> Option<OutOfMemory> {
    let asked: Result<Vec<[u64; 1_048_576]>, OutOfMemory> = with_capacity(alloc, MOST_ROOM);
    asked.err()
}

#[test]
fn faults(rt: HostRuntime) {
    assert!(rt; first_other(rt.alloc()).is_none());
    let refused = want_of_memory(rt.alloc()).expect(&rt, "refused");
    let memory = Fault::Memory(refused);
    assert!(rt; is_said(rt.alloc(), memory, 32, "out of memory"));
}
