//! The message book: the worked rows as tables of calls.
ghost use Rattle.std.specs.Prelude.{◌≡◌, IfSome, IfOk, [], ◌∷◌};
ghost use Rattle.lwkt_msg.specs.Desks.{AreSeats};

use crate::fixtures::{NO_FLAGS, OWN, is_right};
use lwkt_base::memory::push;
use lwkt_base::{Call, CpuId, Fault, MsgEnd, MsgId, MsgSpec, OutOfMemory, Owner, Rec, ThreadId};
use lwkt_msg::{MsgBook, MsgSeat, Reaped, Taken};
use std::alloc::Global;

const LAST_ROUND: u64 = 2_251_799_813_685_247;

const MESSAGE: MsgId = MsgId(0);

// A call on the message.
#[derive(Clone, Copy)]
enum Ask {
    /// The message, its target, and what it asks for.
    Send(MsgId, CpuId, Call),
    /// The round.
    Take(u64),
    /// The error and the result.
    Reply(u32, u64),
    /// The round.
    Reap(u64),
}

// What a call answered.
#[derive(Clone, Copy, PartialEq, Eq)]
enum Answered {
    Sent(u64),
    Taken(Taken),
    Replied,
    Reaped(Reaped),
    Refused(Fault),
    /// There is no message, or no such processor.
    Unfit,
}

fn send(book: &MsgBook, seat: &mut MsgSeat, msg: MsgId, to: CpuId, call: Call) -> Answered
    requires { seat.old.table ≡ book.now.table }
    ensures { seat.new.table ≡ seat.old.table }
{
    if to.0 as usize >= seat.cpus() {
        return Answered::Unfit;
    }
    match seat.send(book, msg, to, call, NO_FLAGS, false) {
        Ok(round) => Answered::Sent(round),
        Err(fault) => Answered::Refused(fault),
    }
}

fn reply(book: &MsgBook, seat: &mut MsgSeat, error: u32, outcome: u64) -> Answered
    requires { seat.old.table ≡ book.now.table }
    ensures { seat.new.table ≡ seat.old.table }
{
    match seat.reply(book, MESSAGE, error, outcome) {
        Ok(()) => Answered::Replied,
        Err(fault) => Answered::Refused(fault),
    }
}

// The answer of a call. Where a condition of the call isn't met, no call is made.
fn call(book: &MsgBook, seat: &mut MsgSeat, ask: Ask) -> Answered
    requires { seat.old.table ≡ book.now.table }
    ensures { seat.new.table ≡ seat.old.table }
{
    if seat.messages() == 0 {
        return Answered::Unfit;
    }
    match ask {
        Ask::Send(msg, to, call) => send(book, seat, msg, to, call),
        Ask::Take(round) => Answered::Taken(seat.take(book, MESSAGE, round)),
        Ask::Reply(error, outcome) => reply(book, seat, error, outcome),
        Ask::Reap(round) => Answered::Reaped(seat.reap(book, MESSAGE, round)),
    }
}

// A book of two processors with this message.
fn opened(alloc: Global, spec: MsgSpec) -> Result<(MsgBook, Vec<MsgSeat>), Fault>
    ensures two { IfOk result (λ r. r.0.cpus ≡ 2) }
    ensures seats { IfOk result (λ r. AreSeats 2 r.0 r.1.items) }
{
    MsgBook::open(alloc, &[spec], 2)
}

// The two seats of a book of two processors.
fn both(mut seats: Vec<MsgSeat>, book: &MsgBook) -> Option<(MsgSeat, MsgSeat)>
    requires { AreSeats 2 book.now seats.items }
    ensures { IfSome result (λ p. (p.0.table ≡ book.now.table) × (p.1.table ≡ book.now.table)) }
{
    let second = seats.pop()?;
    let first = seats.pop()?;
    Some((first, second))
}

// A list of two seats.
fn list_of(alloc: Global, first: MsgSeat, second: MsgSeat) -> Result<Vec<MsgSeat>, OutOfMemory>
    ensures { IfOk result (λ v. v.items ≡ first ∷ second ∷ []) }
{
    let mut seats = Vec::new(alloc);
    push(&mut seats, first)?;
    push(&mut seats, second)?;
    Ok(seats)
}

// Whether the book's one message is at rest at the end, in this round.
fn ends_at(
    alloc: Global,
    book: MsgBook,
    first: MsgSeat,
    second: MsgSeat,
    round: u64,
) -> Result<bool, Fault>
    requires two { book.cpus ≡ 2 }
    requires first { first.table ≡ book.table }
    requires second { second.table ≡ book.table }
{
    let seats = list_of(alloc, first, second)?;
    let ends = book.close(alloc, seats)?;
    let state = Owner::Rest { origin: CpuId(0) };
    Ok(ends.as_slice() == [MsgEnd { round, state }].as_slice())
}

// A call by the seat of this processor, and the answer that is wanted.
#[derive(Clone, Copy)]
struct Line(usize, Ask, Answered);

fn answer_to(book: &MsgBook, first: &mut MsgSeat, second: &mut MsgSeat, line: Line) -> Answered
    requires first { first.old.table ≡ book.now.table }
    requires second { second.old.table ≡ book.now.table }
    ensures first { first.new.table ≡ first.old.table }
    ensures second { second.new.table ≡ second.old.table }
{
    if line.0 == 0 {
        call(book, first, line.1)
    } else {
        call(book, second, line.1)
    }
}

// Makes the calls of a table, up to the first that answers otherwise. Whether there is none.
fn play_lines(book: &MsgBook, first: &mut MsgSeat, second: &mut MsgSeat, lines: &[Line]) -> bool
    requires first { first.old.table ≡ book.now.table }
    requires second { second.old.table ≡ book.now.table }
    ensures first { first.new.table ≡ first.old.table }
    ensures second { second.new.table ≡ second.old.table }
{
    for (at, line) in lines.iter().enumerate() {
        if answer_to(book, first, second, *line) != line.2 {
            return false;
        }
    }
    true
}

// Whether calls on a message in this round go as is written, and it is at rest then, in this later one.
fn play(alloc: Global, round: u64, lines: &[Line], last: u64) -> Result<bool, Fault> {
    let (book, seats) = opened(alloc, MsgSpec { round, ..OWN })?;
    let Some((mut first, mut second)) = both(seats, &book) else {
        return Ok(false);
    };
    let good = play_lines(&book, &mut first, &mut second, lines);
    Ok(ends_at(alloc, book, first, second, last)? && good)
}

const ASKED: Call = Call { arg: 9, op: 5 };

const STALE: Answered = Answered::Taken(Taken::Stale);

const NOT_OWNER: Answered = Answered::Refused(Fault::NotOwner);

const TAKEN: Answered = Answered::Taken(Taken::Took {
    rec: Rec {
        arg: 9,
        result: 0,
        op: 5,
        error: 0,
    },
    aborted: false,
    priority: false,
});

const REAPED: Answered = Answered::Reaped(Reaped::Done {
    rec: Rec {
        arg: 9,
        result: 42,
        op: 5,
        error: 7,
    },
});

const BASICS_1_TO_4: &[Line] = &[
    Line(0, Ask::Send(MESSAGE, CpuId(1), ASKED), Answered::Sent(1)),
    Line(1, Ask::Take(2), STALE),
    Line(0, Ask::Take(1), STALE),
    Line(1, Ask::Take(1), TAKEN),
    Line(0, Ask::Reply(1, 1), Answered::Refused(Fault::NotTaken)),
    Line(1, Ask::Reply(7, 42), Answered::Replied),
    Line(0, Ask::Reap(1), REAPED),
    Line(0, Ask::Reap(1), Answered::Reaped(Reaped::Stale)),
    Line(1, Ask::Send(MESSAGE, CpuId(0), ASKED), NOT_OWNER),
    Line(0, Ask::Send(MsgId(5), CpuId(1), ASKED), NOT_OWNER),
];

fn basics_1_to_4(alloc: Global) -> Result<bool, Fault> {
    play(alloc, 0, BASICS_1_TO_4, 1)
}

#[test]
fn book_basics_1_to_4(rt: HostRuntime) {
    let alloc = rt.alloc();
    assert!(rt; is_right(basics_1_to_4(alloc), basics_1_to_4(alloc)));
}

const BASICS_6: &[Line] = &[Line(
    0,
    Ask::Send(MESSAGE, CpuId(1), ASKED),
    Answered::Refused(Fault::RoundsOut),
)];

// A message of a processor that isn't there.
const FAR: MsgSpec = MsgSpec {
    round: 0,
    origin: ThreadId {
        cpu: CpuId(2),
        thread: 0,
    },
};

fn basics_6(alloc: Global) -> Result<bool, Fault> {
    let far = opened(alloc, FAR).err() == Some(Fault::Limits);
    Ok(play(alloc, LAST_ROUND, BASICS_6, LAST_ROUND)? && far)
}

#[test]
fn book_basics_6(rt: HostRuntime) {
    let alloc = rt.alloc();
    assert!(rt; is_right(basics_6(alloc), basics_6(alloc)));
}
