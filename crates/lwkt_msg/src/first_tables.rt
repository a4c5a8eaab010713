//! A book's table at the opening, and the seats that are made there.
ghost use Rattle.std.specs.Prelude.{◌≡◌, ℕ, ◌+◌, ◌*◌, ◌<◌, ◌≤◌, [], length, replicate, IfOk};
ghost use Rattle.lwkt_core.specs.Opening.{AreWithin};
ghost use Rattle.lwkt_msg.specs.Book.{no_rec};
ghost use Rattle.lwkt_msg.specs.Desks.{AreOpeningWords, IsHanding, IsClerk, IsOpened, AreSeats};
ghost use Rattle.lwkt_msg.specs.Plays.{IsSameSeat};

use crate::calls::rest;
use crate::places::{slots_of, word_of_message, words_of};
use crate::plays::{HandOut, MakeSeat};
use crate::rules::{Place, Top};
use crate::seats::MsgSeat;
use lwkt_base::limits::MESSAGE_LIMIT;
use lwkt_base::memory::{from_slice, push, resize};
use lwkt_base::{CpuId, MsgSpec, OutOfMemory, Rec};
use std::alloc::Global;

// The opening messages, as the table keeps them.
pub(crate) fn known_specs(alloc: Global, specs: &[MsgSpec]) -> Result<Vec<MsgSpec>, OutOfMemory>
    ensures { IfOk result (λ v. v.items ≡ specs.now) }
{
    from_slice(alloc, specs)
}

// The words of a table that is opened with these messages.
pub(crate) fn opening_words(
    alloc: Global,
    specs: &[MsgSpec],
    cpus: usize,
) -> Result<Vec<u64>, OutOfMemory>
    requires { AreWithin cpus [] specs.now }
    ensures { IfOk result (λ v. AreOpeningWords (length specs.now) specs.now v.items) }
{
    let mut words = Vec::new(alloc);
    resize(&mut words, words_of(specs.len()), 0)?;
    for (m, spec) in specs.iter().enumerate() {
        words[word_of_message(m)] = rest(spec.origin.cpu, spec.round).make();
    }
    Ok(words)
}

// The slots of a table of so many messages.
pub(crate) fn blank_records(alloc: Global, messages: usize) -> Result<Vec<Rec>, OutOfMemory>
    requires { messages ≤ MESSAGE_LIMIT }
    ensures { IfOk result (λ v. v.items ≡ replicate (4 * messages) no_rec) }
{
    let mut records = Vec::new(alloc);
    resize(&mut records, slots_of(messages), Rec::default())?;
    Ok(records)
}

// Hands the records of a processor's own messages out to its seat.
fn hand_out(top: &Top, place: &mut Place, cpu: CpuId, specs: &[MsgSpec])
    requires table { place.old.table_id ≡ top.now.table_id }
    requires specs { place.old.me.0.specs ≡ specs.now }
    requires fresh { IsHanding cpu 0 place.old }
    ensures seat { IsSameSeat place.old place.new }
    ensures view { (place.new.me.0.cpus ≡ place.old.me.0.cpus) × (place.new.me.0.specs ≡ place.old.me.0.specs) }
    ensures handed { IsHanding cpu (length specs.now) place.new }
{
    for (m, spec) in specs.iter().enumerate() {
        if spec.origin.cpu == cpu {
            top.load::<HandOut>(place, word_of_message(m));
        }
    }
}

// Makes the seat of the next processor.
fn seat_for(top: &Top, clerk: &mut Place, cpu: CpuId, cpus: usize, specs: &[MsgSpec]) -> MsgSeat
    requires table { clerk.old.table_id ≡ top.now.table_id }
    requires clerk { IsClerk cpu.0 cpus specs.now clerk.old }
    requires room { cpu.0 < cpus }
    ensures table { (clerk.new.table_id ≡ clerk.old.table_id) × (clerk.new.me.1 ≡ clerk.old.me.1) }
    ensures clerk { IsClerk (cpu.0 + 1) cpus specs.now clerk.new }
    ensures seat { IsOpened cpu.0 (record { table = clerk.old.table_id; cpus = cpus; specs = specs.now }) result }
{
    let mut place = top.split_seat::<MakeSeat>(clerk);
    hand_out(top, &mut place, cpu, specs);
    MsgSeat::new(place, cpu, cpus, specs.len())
}

// Makes the seats of all processors.
pub(crate) fn seat_all(
    top: &Top,
    clerk: &mut Place,
    cpus: usize,
    specs: &[MsgSpec],
    seats: &mut Vec<MsgSeat>,
) -> Result<(), OutOfMemory>
    requires table { clerk.old.table_id ≡ top.now.table_id }
    requires clerk { IsClerk 0 cpus specs.now clerk.old }
    requires none { seats.old.items ≡ [] }
    ensures table { (clerk.new.table_id ≡ clerk.old.table_id) × (clerk.new.me.1 ≡ clerk.old.me.1) }
    ensures ok { IfOk result (λ _. IsClerk cpus cpus specs.now clerk.new × AreSeats cpus (record { table = clerk.old.table_id; cpus = cpus; specs = specs.now }) seats.new.items) }
{
    for cpu in 0..cpus {
        let seat = seat_for(top, clerk, CpuId(cpu as u8), cpus, specs);
        push(seats, seat)?;
    }
    Ok(())
}
