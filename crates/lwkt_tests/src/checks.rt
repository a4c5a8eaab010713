//! The checkers of traces and of written sections on worked rows, and events that name what isn't there.

use crate::fixtures::{OWN, is_right, token};
use lwkt_base::memory::{from_slice, push};
use lwkt_base::{
    Cells, CpuId, Fault, Law, MsgEnd, MsgId, OutOfMemory, Owner, Row, Rows, Section, TokId,
};
use lwkt_core::{Event, Final, State, check, check_sections};
use std::alloc::Global;

const FIRST: CpuId = CpuId(0);

const SECOND: CpuId = CpuId(1);

const TOKEN: TokId = TokId(0);

const MESSAGE: MsgId = MsgId(0);

// Two processors, a token of one cell and a message of the first processor.
fn opening(alloc: Global) -> Result<State, Fault> {
    State::open(alloc, &[token(alloc, Law::Any, 0, 0)?], &[OWN], 2)
}

// A list of one token's cells.
fn one_row(alloc: Global, items: &[u64]) -> Result<Vec<Cells>, OutOfMemory> {
    let mut rows = Vec::new(alloc);
    push(&mut rows, Cells::from_vec(from_slice(alloc, items)?))?;
    Ok(rows)
}

// The closing values of the token's cell and generation, and of the message.
fn closing(alloc: Global, cell: u64, generation: u64, end: MsgEnd) -> Result<Final, OutOfMemory> {
    Ok(Final {
        rows: one_row(alloc, &[cell])?,
        gens: from_slice(alloc, &[generation])?,
        tallies: one_row(alloc, &[])?,
        blobs: from_slice(alloc, &[None])?,
        messages: from_slice(alloc, &[end])?,
    })
}

// The index at which the checker refuses events, if it does.
fn refused_at(
    alloc: Global,
    events: &[Event],
    cell: u64,
    generation: u64,
    end: MsgEnd,
) -> Result<Option<usize>, Fault> {
    let last = closing(alloc, cell, generation, end)?;
    match check(opening(alloc)?, events, &last) {
        Ok(()) => Ok(None),
        Err(Fault::Unlawful { index }) => Ok(Some(index)),
        Err(other) => Err(other),
    }
}

// The message at rest in this round.
fn at_rest(round: u64) -> MsgEnd {
    MsgEnd {
        round,
        state: Owner::Rest { origin: FIRST },
    }
}

// A section of the token that this row was left in, and the row that it left.
fn section(generation: u64, before: u64, after: u64) -> Section {
    Section {
        before: Row::of(&[before]),
        after: Row::of(&[after]),
        generation,
        tok: TOKEN,
    }
}

// The first processor takes the token, writes 7 and gives it; and the second one shares it.
fn deeds() -> [Event; 4] {
    let (cpu, tok) = (FIRST, TOKEN);
    [
        Event::Take { cpu, tok },
        Event::Write {
            cpu,
            tok,
            cell: 0,
            value: 7,
        },
        Event::GiveWritten {
            cpu,
            tok,
            section: section(0, 0, 7),
        },
        Event::Share { cpu: SECOND, tok },
    ]
}

// What the checker says of a section, of the same with another closing generation, of one that is not given, and of one in
// which another processor shares the token.
fn verdicts(alloc: Global) -> Result<bool, Fault> {
    let [take, write, give, share] = deeds();
    let end = at_rest(0);
    Ok(
        refused_at(alloc, &[take, write, give], 7, 1, end)? == None
            && refused_at(alloc, &[take, write, give], 7, 0, end)? == Some(3)
            && refused_at(alloc, &[take, write], 7, 0, end)? == Some(2)
            && refused_at(alloc, &[take, share, write, give], 7, 1, end)? == Some(1),
    )
}

#[test]
fn checker_verdicts(rt: HostRuntime) {
    let alloc = rt.alloc();
    assert!(rt; is_right(verdicts(alloc), verdicts(alloc)));
}

// The second processor takes the message of this round.
fn takes(round: u64) -> Event {
    Event::TakeMsg {
        cpu: SECOND,
        msg: MESSAGE,
        round,
    }
}

// What the checker says of two replies, of a take of another round, and of a drop behind the take.
fn verdicts_on_messages(alloc: Global) -> Result<bool, Fault> {
    let send = Event::Send {
        cpu: FIRST,
        msg: MESSAGE,
        to: SECOND,
        round: 1,
    };
    let reply = Event::Reply {
        cpu: SECOND,
        msg: MESSAGE,
    };
    let drop = Event::DropMsg {
        cpu: FIRST,
        msg: MESSAGE,
    };
    let end = at_rest(1);
    Ok(
        refused_at(alloc, &[send, takes(1), reply, reply], 0, 0, end)? == Some(3)
            && refused_at(alloc, &[send, takes(2)], 0, 0, end)? == Some(1)
            && refused_at(alloc, &[send, takes(1), drop], 0, 0, end)? == Some(2),
    )
}

#[test]
fn book_basics_7_and_8(rt: HostRuntime) {
    let alloc = rt.alloc();
    assert!(rt; is_right(verdicts_on_messages(alloc), verdicts_on_messages(alloc)));
}

// Events that name a processor, a token, a cell and a message that aren't there.
fn placeless() -> [Event; 4] {
    let (cpu, tok) = (FIRST, TOKEN);
    [
        Event::Take { cpu: CpuId(8), tok },
        Event::Take {
            cpu,
            tok: TokId(64),
        },
        Event::Read {
            cpu,
            tok,
            cell: 4,
            value: 0,
        },
        Event::Abort {
            cpu,
            msg: MsgId(64),
        },
    ]
}

// Whether an event is refused at its index, and changes nothing.
fn is_refused(alloc: Global, event: &Event) -> Result<bool, Fault> {
    let [take, ..] = deeds();
    let index = refused_at(alloc, &[take, *event], 0, 0, at_rest(0))?;
    let mut state = opening(alloc)?;
    let refused = state.step(event) == Err(Fault::Unlawful { index: 0 });
    let same = state.closes(&closing(alloc, 0, 0, at_rest(0))?);
    Ok(index == Some(1) && refused && same)
}

fn are_all_refused(alloc: Global) -> Result<bool, Fault> {
    for event in &placeless() {
        if !is_refused(alloc, event)? {
            return Ok(false);
        }
    }
    Ok(true)
}

#[test]
fn events_without_a_place(rt: HostRuntime) {
    let alloc = rt.alloc();
    assert!(rt; is_right(are_all_refused(alloc), are_all_refused(alloc)));
}

// The row of one token at this cell and generation.
fn rows(alloc: Global, cell: u64, generation: u64) -> Result<Rows, OutOfMemory> {
    let items = from_slice(alloc, &[(Row::of(&[cell]), generation)])?;
    Ok(Rows::from_vec(items))
}

// Whether the checker refuses the second of these sections between row 0 of generation 0 and row 9 of generation 2, or none.
fn are_chained(alloc: Global, sections: &[Section]) -> Result<bool, Fault> {
    let first = rows(alloc, 0, 0)?;
    let last = rows(alloc, 9, 2)?;
    if first.as_slice().len() != last.as_slice().len() {
        return Err(Fault::Limits);
    }
    match check_sections(&first, &last, sections) {
        Ok(()) => Ok(true),
        Err(Fault::Unlawful { index: 1 }) => Ok(false),
        Err(other) => Err(other),
    }
}

// A chain, one whose rows don't fit, one that ends early, and one that leaves a generation out.
fn chains(alloc: Global) -> Result<bool, Fault> {
    let one = section(0, 0, 7);
    Ok(
        are_chained(alloc, &[one, section(1, 7, 9)])?
            && !are_chained(alloc, &[one, section(1, 8, 9)])?
            && !are_chained(alloc, &[one])?
            && !are_chained(alloc, &[one, section(2, 7, 9)])?,
    )
}

#[test]
fn section_chains_1_to_4(rt: HostRuntime) {
    let alloc = rt.alloc();
    assert!(rt; is_right(chains(alloc), chains(alloc)));
}
