//! The token bank: the worked rows, turn by turn, and openings that are refused. What they leave at the close is told by a whole
//! machine, and by a bank that nobody used.

use crate::boards::{Line, Logged, RAN, Row, goes};
use crate::fixtures::{closed_by, is_right, open_bank, token};
use lwkt_bank::{Bank, Closed};
use lwkt_base::memory::push;
use lwkt_base::{Blob, Fault, Law, OutOfMemory, TokSpec};
use std::alloc::Global;

// Whether the one token is closed with this cell, generation and tallies.
fn has_end(closed: &Closed, cell: u64, generation: u64, tallies: &[u64]) -> bool {
    let Some(row) = closed.rows.first() else {
        return false;
    };
    let Some(shares) = closed.tallies.first() else {
        return false;
    };
    row.as_slice() == [cell].as_slice()
        && shares.as_slice() == tallies
        && closed.gens.as_slice() == [generation].as_slice()
}

// One processor writes, and the other one tries meanwhile and reads then.
const WRITTEN_AND_READ: &[u8] =
    b"{\"version\":1,\"turns\":50,\"idle\":5,\"cpus\":3,\"tokens\":[{\"cells\":[0],\"law\":\"any\",\"param\":0,\"gen\":0}],\"messages\":[],\"threads\":[{\"cpu\":0,\"repeat\":1,\"steps\":[[\"get\",0],[\"write\",0,0,7],[\"rel\",0]]},{\"cpu\":1,\"repeat\":1,\"steps\":[[\"try\",0],[\"get\",0],[\"read\",0,0],[\"rel\",0]]}]}";

const EXCLUSIVE_1_AND_2: Row = Row {
    script: WRITTEN_AND_READ,
    lines: &[
        Line(0, RAN, 1, 0),
        Line(1, RAN, 1, 0),
        Line(0, RAN, 1, 0),
        Line(0, RAN, 262_144, 0),
        Line(1, RAN, 262_145, 0),
        Line(1, RAN, 262_145, 0),
        Line(1, RAN, 262_144, 0),
    ],
    logs: &[&[], &[Logged::Fault(23), Logged::Value(7)]],
};

fn exclusive_1_and_2(alloc: Global) -> Result<bool, Fault> {
    let closed = closed_by(alloc, WRITTEN_AND_READ, &[0, 0, 0, 1, 1, 1, 1])?;
    Ok(has_end(&closed.tokens, 7, 1, &[]))
}

#[test]
fn bank_exclusive_1_and_2(rt: HostRuntime) {
    let alloc = rt.alloc();
    let ends = is_right(exclusive_1_and_2(alloc), exclusive_1_and_2(alloc));
    assert!(rt; ends && goes(alloc, &EXCLUSIVE_1_AND_2));
}

// A tally is added to, once more than it can hold.
const ADDED_TO: &[u8] =
    b"{\"version\":1,\"turns\":50,\"idle\":5,\"cpus\":2,\"tokens\":[{\"cells\":[10],\"law\":\"tally\",\"param\":10,\"gen\":0}],\"messages\":[],\"threads\":[{\"cpu\":0,\"repeat\":1,\"steps\":[[\"get\",0],[\"write\",0,0,1],[\"add\",0,5],[\"read\",0,0],[\"add\",0,18446744073709551615],[\"rel\",0]]}]}";

const EXCLUSIVE_3: Row = Row {
    script: ADDED_TO,
    lines: &[
        Line(0, RAN, 1, 0),
        Line(0, RAN, 1, 0),
        Line(0, RAN, 1, 0),
        Line(0, RAN, 1, 0),
        Line(0, RAN, 1, 0),
        Line(0, RAN, 262_144, 0),
    ],
    logs: &[&[Logged::Fault(22), Logged::Value(15), Logged::Fault(21)]],
};

fn exclusive_3(alloc: Global) -> Result<bool, Fault> {
    let closed = closed_by(alloc, ADDED_TO, &[0, 0, 0, 0, 0, 0])?;
    Ok(has_end(&closed.tokens, 15, 1, &[5, 0]))
}

#[test]
fn bank_exclusive_3(rt: HostRuntime) {
    let alloc = rt.alloc();
    let ends = is_right(exclusive_3(alloc), exclusive_3(alloc));
    assert!(rt; ends && goes(alloc, &EXCLUSIVE_3));
}

// Why no bank of these tokens is opened, if it is refused.
fn refusal(alloc: Global, specs: &[TokSpec]) -> Result<Option<Fault>, Fault> {
    match Bank::open(alloc, specs, 1) {
        Ok(_) => Ok(None),
        Err(Fault::Memory(refused)) => Err(Fault::Memory(refused)),
        Err(fault) => Ok(Some(fault)),
    }
}

// One token more than a bank may have.
fn too_many(alloc: Global) -> Result<Vec<TokSpec>, OutOfMemory> {
    let mut specs = Vec::new(alloc);
    for _number in 0..65 {
        push(&mut specs, token(alloc, Law::Any, 0, 0)?)?;
    }
    Ok(specs)
}

fn exclusive_4(alloc: Global) -> Result<bool, Fault> {
    let specs = too_many(alloc)?;
    let many = refusal(alloc, &specs)?;
    let above = refusal(alloc, &[token(alloc, Law::Cap, 1, 2)?])?;
    Ok(many == Some(Fault::Limits) && above == Some(Fault::LawBroken))
}

#[test]
fn bank_exclusive_4(rt: HostRuntime) {
    let alloc = rt.alloc();
    assert!(rt; is_right(exclusive_4(alloc), exclusive_4(alloc)));
}

// Why no bank of a token with this cell and record is opened, if it is refused.
fn guarded(alloc: Global, law: Law, cell: u64, record: Blob) -> Result<Option<Fault>, Fault> {
    let mut spec = token(alloc, law, 0, cell)?;
    spec.blob = Some(record);
    refusal(alloc, &[spec])
}

fn guarded_5(alloc: Global) -> Result<bool, Fault> {
    let long = guarded(alloc, Law::Any, 1, Blob::of(&[0; 65]))?;
    let other = guarded(alloc, Law::Len, 4, Blob::of(b"abc"))?;
    let fits = guarded(alloc, Law::Len, 3, Blob::of(b"abc"))?;
    Ok(long == Some(Fault::Limits) && other == Some(Fault::LawBroken) && fits.is_none())
}

#[test]
fn guarded_records_5(rt: HostRuntime) {
    let alloc = rt.alloc();
    assert!(rt; is_right(guarded_5(alloc), guarded_5(alloc)));
}

fn closes(alloc: Global) -> Result<bool, Fault> {
    let (bank, seats) = open_bank(alloc, &[token(alloc, Law::Tally, 10, 10)?], 2)?;
    let closed = bank.close(alloc, seats)?;
    Ok(has_end(&closed, 10, 0, &[0, 0]))
}

#[test]
fn a_bank_is_closed(rt: HostRuntime) {
    let alloc = rt.alloc();
    assert!(rt; is_right(closes(alloc), closes(alloc)));
}
