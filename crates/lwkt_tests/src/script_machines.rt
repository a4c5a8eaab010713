//! The parts of a script's machine: its bank, its book and its processors, put at their seats one by one.
ghost use Rattle.std.specs.Prelude.{◌≡◌, ◌+◌, ◌<◌, All, IfOk, OnOk, length};
ghost use Rattle.lwkt_bank.specs.Seats.{id_of};
ghost use Rattle.lwkt_machine.specs.Machines.{IsOfMachine};
ghost use Rattle.lwkt_machine.specs.Seating.{IsRest};

use lwkt_bank::Bank;
use lwkt_base::limits::THREAD_LIMIT;
use lwkt_base::memory::push;
use lwkt_base::{Fault, OutOfMemory};
use lwkt_cpu::Cpu;
use lwkt_lane::{Lanes, open_lanes};
use lwkt_machine::{Rest, ScriptBody, Tables, open_tables, origins_of};
use lwkt_msg::MsgBook;
use lwkt_script::{Script, ThreadSpec, read_script};
use std::alloc::Global;

// The bodies of a processor's threads.
fn bodies_on(
    alloc: Global,
    threads: &[ThreadSpec],
    cpu: usize,
) -> Result<Vec<ScriptBody>, OutOfMemory> {
    let mut bodies = Vec::new(alloc);
    for spec in threads {
        if spec.cpu.0 as usize == cpu {
            let body = ScriptBody::new(alloc, &spec.code)?;
            push(&mut bodies, body)?;
        }
    }
    Ok(bodies)
}

// The next processor.
fn seat_next(
    alloc: Global,
    bank: &Bank,
    book: &MsgBook,
    rest: &mut Rest,
    script: &Script,
    number: usize,
) -> Result<Cpu<ScriptBody>, Fault>
    requires some { 0 < length rest.old.seats.items }
    requires rest { IsRest (id_of bank.now) book.now number rest.old }
    requires specs { book.now.specs ≡ script.now.messages }
    ensures of { IfOk result (λ cpu. IsOfMachine (id_of bank.now) book.now cpu) }
    ensures rest { OnOk result (IsRest (id_of bank.now) book.now (number + 1) rest.new) }
    ensures fewer { OnOk result (length rest.new.seats.items + 1 ≡ length rest.old.seats.items) }
{
    let origins = origins_of(alloc, script.messages.as_slice())?;
    let bodies = bodies_on(alloc, script.threads.as_slice(), number)?;
    if bodies.len() > THREAD_LIMIT {
        return Err(Fault::Limits);
    }
    Ok(rest.next(alloc, bank, book, &origins, bodies, number)?)
}

// All the processors.
fn seat_all(
    alloc: Global,
    bank: &Bank,
    book: &MsgBook,
    rest: &mut Rest,
    script: &Script,
) -> Result<Vec<Cpu<ScriptBody>>, Fault>
    requires rest { IsRest (id_of bank.now) book.now 0 rest.old }
    requires specs { book.now.specs ≡ script.now.messages }
    ensures { IfOk result (λ cpus. All (IsOfMachine (id_of bank.now) book.now) cpus.items) }
{
    let mut cpus = Vec::new(alloc);
    for number in 0..rest.seats.len() {
        let cpu = seat_next(alloc, bank, book, rest, script, number)?;
        push(&mut cpus, cpu)?;
    }
    Ok(cpus)
}

/// The parts of the machine of a script.
pub fn parts_of(
    alloc: Global,
    script: &[u8],
) -> Result<(Bank, MsgBook, Vec<Cpu<ScriptBody>>), Fault>
    ensures { IfOk result (λ parts. All (IsOfMachine (id_of parts.0) parts.1) parts.2.items) }
{
    let script = read_script(alloc, script)?;
    let cpus = usize::from(script.cpus);
    let tables = open_tables(
        alloc,
        script.tokens.as_slice(),
        script.messages.as_slice(),
        cpus,
    )?;
    let Tables {
        bank,
        seats,
        book,
        mails,
    } = tables;
    let Lanes { outs, ins } = open_lanes(alloc, cpus)?;
    let mut rest = Rest {
        seats,
        mails,
        outs,
        ins,
    };
    let cpus = seat_all(alloc, &bank, &book, &mut rest, &script)?;
    Ok((bank, book, cpus))
}
