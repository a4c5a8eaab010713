//! Processors of these bodies, put at their seats.
ghost use Rattle.std.specs.Prelude.{◌≡◌, ◌+◌, ◌<◌, ◌≤◌, All, IfOk, length, map};
ghost use Rattle.lwkt_base.specs.declared.opening_specs.MsgSpec.{MsgSpec};
ghost use Rattle.lwkt_bank.specs.Seats.{id_of};
ghost use Rattle.lwkt_cpu.specs.Wiring.{HasLines, HaveLines};
ghost use Rattle.lwkt_machine.specs.Seating.{AreLeft, IsRest};
ghost use Rattle.lwkt_machine.specs.Machines.{processors};
ghost use Rattle.lwkt_machine.specs.Opened.{IsOpenedDriven, AreOpenedCpus};

use crate::seatings::Rest;
use lwkt_bank::Bank;
use lwkt_base::limits::THREAD_LIMIT;
use lwkt_base::memory::push;
use lwkt_base::{MsgSpec, OutOfMemory, ThreadId};
use lwkt_drive::Driven;
use lwkt_msg::MsgBook;
use std::alloc::Global;

// The next processor, with a thread for each of these bodies. It wasn't driven yet.
fn seat_next<B: Drop>(
    alloc: Global,
    bank: &Bank,
    book: &MsgBook,
    rest: &mut Rest,
    origins: &[ThreadId],
    bodies: Vec<B>,
    number: usize,
) -> Result<Driven<B>, OutOfMemory>
    requires some { 0 < length rest.old.seats.items }
    requires rest { IsRest (id_of bank.now) book.now number rest.old }
    requires origins { origins.now ≡ map (λ (spec : MsgSpec). spec.origin) book.now.specs }
    requires few { length bodies.items ≤ THREAD_LIMIT }
    ensures ok { IfOk result (λ d. IsOpenedDriven (id_of bank.now) book.now number bodies.items d) }
    ensures lines { IfOk result (λ d. HasLines rest.old.outs.items rest.old.ins.items 0 d.cpu) }
    ensures left { AreLeft 1 rest.old rest.new }
    ensures rest { IsRest (id_of bank.now) book.now (number + 1) rest.new }
    ensures fewer { length rest.new.seats.items + 1 ≡ length rest.old.seats.items }
{
    let id = rest.seats[0].cpu();
    let cpu = rest.next(alloc, bank, book, origins, bodies, number)?;
    Ok(Driven::new(alloc, id, cpu))
}

/// All the processors, each with a thread for each body of its list.
pub(crate) fn seat_all<B: Drop>(
    alloc: Global,
    bank: &Bank,
    book: &MsgBook,
    rest: &mut Rest,
    origins: &[ThreadId],
    lists: Vec<Vec<B>>,
) -> Result<Vec<Driven<B>>, OutOfMemory>
    requires rest { IsRest (id_of bank.now) book.now 0 rest.old }
    requires origins { origins.now ≡ map (λ (spec : MsgSpec). spec.origin) book.now.specs }
    requires lists { length lists.items ≡ length rest.old.seats.items }
    requires few { All (λ v. length v.items ≤ THREAD_LIMIT) lists.items }
    ensures as_many { IfOk result (λ cpus. length cpus.items ≡ length lists.items) }
    ensures each { IfOk result (λ cpus. AreOpenedCpus (id_of bank.now) book.now lists.items cpus.items) }
    ensures lines { IfOk result (λ cpus. HaveLines rest.old.outs.items rest.old.ins.items (processors cpus.items)) }
{
    let mut left = lists;
    let mut cpus = Vec::new(alloc);
    for number in 0..left.len() {
        let bodies = left.remove(0);
        let driven = seat_next(alloc, bank, book, rest, origins, bodies, number)?;
        push(&mut cpus, driven)?;
    }
    Ok(cpus)
}
