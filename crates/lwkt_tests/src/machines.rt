//! Machines for bodies of one's own: each call that takes memory succeeds with ample memory, and its answer is as it must be.

use crate::cautious::{Cautious, ends_at_a_refusal};
use crate::listed::{Listed, TOKEN};
use crate::traders::{ROUNDS, Trader};
use lwkt_base::{Ask, CpuId, Fault, MsgEnd, Owner, Row, Section, ThreadState, TokSpec};
use lwkt_core::Event;
use lwkt_machine::{Closed, Ending, LIMITS, Machine, Stepper, Turned, makers};
use std::alloc::Global;
use std::thread::Threads;

// Two processors with a thread each: the first takes the token, writes this value and asks one thing more, and the second ends.
fn one(
    alloc: Global,
    token: TokSpec,
    value: u64,
    then: Ask,
) -> Result<Machine<Stepper<Listed>>, Fault> {
    let asks = [Ask::Get(TOKEN), Ask::Write(TOKEN, 0, value), then];
    let first = makers::list(alloc, [Listed::new(asks)])?;
    let second = makers::list(alloc, [Listed::new([Ask::Exit; 3])])?;
    let bodies = makers::list(alloc, [first, second])?;
    Machine::open(alloc, &[token], &[], bodies)
}

// The events of the section.
fn section() -> [Event; 3] {
    let (cpu, tok) = (CpuId(0), TOKEN);
    [
        Event::Take { cpu, tok },
        Event::Write {
            cpu,
            tok,
            cell: 0,
            value: 7,
        },
        Event::GiveWritten {
            cpu,
            tok,
            section: Section {
                before: Row::of(&[3]),
                after: Row::of(&[7]),
                generation: 0,
                tok,
            },
        },
    ]
}

// Whether a machine closes with the events of the section, its row and its generation.
fn has_section(alloc: Global, closed: &Closed<Stepper<Listed>>) -> Result<bool, Fault> {
    let Some(trace) = closed.traces.first() else {
        return Ok(false);
    };
    let events = trace.whole(alloc)?;
    let row = closed.row(TOKEN) == [7].as_slice() && closed.generation(TOKEN) == 1;
    Ok(row && events.as_slice() == section().as_slice())
}

// A turn, and then all the others, each processor on a thread.
fn drives<R: Threads + Sync>(rt: &R, alloc: Global) -> Result<bool, Fault> {
    let mut machine = one(alloc, makers::any(alloc, &[3])?, 7, Ask::Rel(TOKEN))?;
    let ran = machine.turn(CpuId(0))? == Turned::Ran { thread: 0 };
    machine.drive(rt, &LIMITS);
    let over = machine.ending(CpuId(0)) == Some(Ending::AllExited);
    let closed = machine.close(alloc)?;
    Ok(ran && over && has_section(alloc, &closed)?)
}

#[test]
fn a_machine_is_driven(rt: HostRuntime) {
    assert!(rt; drives(&rt, rt.alloc()) == Ok(true));
}

// Whether a token is closed with this first cell and generation.
fn is_left<B>(closed: &Closed<B>, cell: u64, generation: u64) -> bool {
    closed.cell(TOKEN, 0) == cell && closed.generation(TOKEN) == generation
}

// A stop within a section that has broken its law undoes it.
fn stops(alloc: Global) -> Result<bool, Fault> {
    let mut machine = one(alloc, makers::sum(alloc, &[5, 0], 5)?, 4, Ask::Yield)?;
    machine.run(2)?;
    machine.stop()?;
    Ok(is_left(&machine.close(alloc)?, 5, 0))
}

#[test]
fn a_stop_undoes_a_broken_section(rt: HostRuntime) {
    assert!(rt; stops(rt.alloc()) == Ok(true));
}

// Whether a token that is declared so is closed with this first cell and generation, once a value was written and `then` asked.
fn closes(
    alloc: Global,
    token: TokSpec,
    value: u64,
    then: Ask,
    cell: u64,
    generation: u64,
) -> Result<bool, Fault> {
    let mut machine = one(alloc, token, value, then)?;
    machine.run(9)?;
    Ok(is_left(&machine.close(alloc)?, cell, generation))
}

#[test]
fn law_broken_at_wait(rt: HostRuntime) {
    let alloc = rt.alloc();
    let sum = makers::sum(alloc, &[5, 5], 10).expect(&rt, "a token");
    assert!(rt; closes(alloc, sum, 9, Ask::WaitPort, 5, 0) == Ok(true));
}

// Whether a thread that writes this value in a section, and then fails an assertion, is ended by this fault, and what it leaves.
fn fails(
    alloc: Global,
    value: u64,
    fault: Fault,
    cell: u64,
    generation: u64,
) -> Result<bool, Fault> {
    let mut machine = one(alloc, makers::cap(alloc, &[1], 3)?, value, Ask::Fail(0))?;
    machine.run(9)?;
    let ended = match machine.thread(0, 0) {
        Some(status) => status.state == ThreadState::Faulted(fault),
        None => false,
    };
    Ok(ended && is_left(&machine.close(alloc)?, cell, generation))
}

#[test]
fn a_failed_assertion_ends_its_thread(rt: HostRuntime) {
    let alloc = rt.alloc();
    assert!(rt; fails(alloc, 2, Fault::Assertion, 2, 1) == Ok(true));
    assert!(rt; fails(alloc, 4, Fault::Broken, 1, 0) == Ok(true));
}

// Sections that obey a law and that break it.
fn are_declared(alloc: Global) -> Result<bool, Fault> {
    let rel = Ask::Rel(TOKEN);
    let order = closes(alloc, makers::order(alloc, &[1, 2])?, 2, rel, 2, 1)?;
    let cap = closes(alloc, makers::cap(alloc, &[1], 3)?, 4, rel, 1, 0)?;
    let tally = closes(alloc, makers::tally(alloc, 7)?, 8, rel, 7, 0)?;
    let len = closes(alloc, makers::len(alloc, &[3], b"abc")?, 2, rel, 3, 0)?;
    Ok(order && cap && tally && len)
}

#[test]
fn tokens_are_declared(rt: HostRuntime) {
    assert!(rt; are_declared(rt.alloc()) == Ok(true));
}

// What two threads leave of which one calls and the other serves, and which hand a record to and fro.
fn traded<R: Threads + Sync>(rt: &R, alloc: Global) -> Result<Closed<Stepper<Trader>>, Fault> {
    let token = makers::guarding(makers::any(alloc, &[0])?, &[0; 64])?;
    let message = makers::message(makers::thread(0, 0));
    let caller = makers::list(alloc, [Trader::new(false)])?;
    let server = makers::list(alloc, [Trader::new(true)])?;
    let bodies = makers::list(alloc, [caller, server])?;
    let mut machine = Machine::open(alloc, &[token], &[message], bodies)?;
    machine.drive(rt, &LIMITS);
    Ok(machine.close(alloc)?)
}

// Each of 1000 calls is served and answered, with each record found whole: a body that doesn't find it so ends, and both numbers stay
// lower.
#[test]
fn book_basics_9(rt: HostRuntime) {
    let end = MsgEnd {
        round: ROUNDS,
        state: Owner::Rest { origin: CpuId(0) },
    };
    match traded(&rt, rt.alloc()) {
        Ok(closed) => {
            assert!(rt;
                is_left(&closed, 0, 2 * ROUNDS) && closed.messages.as_slice() == [end].as_slice()
            );
        }
        Err(_) => assert!(rt; false),
    }
}

#[test]
fn a_refusal_is_heard_as_one(rt: HostRuntime) {
    let mut alone = Stepper::new(Cautious { refusals: 0 });
    assert!(rt; ends_at_a_refusal(&mut alone, Fault::NotHeld) == Ask::Exit);
}
