//! Processors put at their seats.
ghost use Rattle.std.specs.Prelude.{◌≡◌, ◌+◌, ◌<◌, ◌≤◌, IfOk, length, map};
ghost use Rattle.lwkt_base.specs.declared.opening_specs.MsgSpec.{MsgSpec};
ghost use Rattle.lwkt_bank.specs.Seats.{id_of};
ghost use Rattle.lwkt_msg.specs.Desks.{desk_cpu, IsOpened};
ghost use Rattle.lwkt_port.specs.OpenedPorts.{new_mail, AreNewPorts, ArePaired, KeepLimits};
ghost use Rattle.lwkt_cpu.specs.Wiring.{HasLines};
ghost use Rattle.lwkt_machine.specs.Opened.{IsSeat, IsOpenedCpu};

use lwkt_bank::{Bank, CpuSeat};
use lwkt_base::limits::THREAD_LIMIT;
use lwkt_base::memory::{push, with_capacity_for};
use lwkt_base::{Fault, MsgSpec, OutOfMemory, ThreadId};
use lwkt_cpu::Cpu;
use lwkt_lane::{LaneIn, LaneOut};
use lwkt_msg::{MsgBook, MsgSeat};
use lwkt_port::Ports;
use std::alloc::Global;

/// What processors are made of that weren't made yet, by their numbers: their seats, and the ends of their lanes.
#[derive(Drop)]
pub struct Rest {
    /// Their seats at the bank.
    pub seats: Vec<CpuSeat>,
    /// Their seats at the book.
    pub mails: Vec<MsgSeat>,
    /// The sending ends, by the processor that the lane leads to.
    pub outs: Vec<Vec<LaneOut>>,
    /// The receiving ends, by the processor that the lane comes from.
    pub ins: Vec<Vec<LaneIn>>,
}

/// The threads that messages belong to. Refused only if memory is.
pub fn origins_of(alloc: Global, specs: &[MsgSpec]) -> Result<Vec<ThreadId>, OutOfMemory>
    ensures { IfOk result (λ v. v.items ≡ map (λ (spec : MsgSpec). spec.origin) specs.now) }
{
    let mut origins = with_capacity_for(alloc, specs)?;
    for spec in specs {
        push(&mut origins, spec.origin)?;
    }
    Ok(origins)
}

// The ports of a processor, over its seat at the book.
fn open_ports(
    alloc: Global,
    book: &MsgBook,
    mail: MsgSeat,
    outs: Vec<LaneOut>,
    ins: Vec<LaneIn>,
    origins: &[ThreadId],
    threads: usize,
    number: usize,
) -> Result<Ports, OutOfMemory>
    requires mail { IsOpened number book.now mail }
    requires origins { origins.now ≡ map (λ (spec : MsgSpec). spec.origin) book.now.specs }
    requires within { KeepLimits mail outs.items ins.items origins.now threads }
    ensures desk { IfOk result (λ ports. IsOpened number book.now ports.seat) }
    ensures new { IfOk result (λ ports. AreNewPorts threads ports.ports) }
    ensures mails { IfOk result (λ ports. ports.mails ≡ map (new_mail (desk_cpu ports.seat)) (map (λ (spec : MsgSpec). spec.origin) book.now.specs)) }
    ensures lines { IfOk result (λ ports. ArePaired outs.items ins.items ports.lanes) }
    ensures threads { IfOk result (λ ports. ports.threads ≡ threads) }
{
    let id = mail.cpu();
    match Ports::new(alloc, id, mail, outs, ins, origins, threads) {
        Ok(ports) => Ok(ports),
        Err(Fault::Memory(refused)) => Err(refused),
        Err(_) => unreachable!(),
    }
}

// The processor of this number, over its seat and its ports, with a thread for each of these bodies.
fn seat_one<B: Drop>(
    alloc: Global,
    bank: &Bank,
    book: &MsgBook,
    seat: CpuSeat,
    ports: Ports,
    bodies: Vec<B>,
    number: usize,
) -> Result<Cpu<B>, OutOfMemory>
    requires seat { IsSeat (id_of bank.now) number seat }
    requires desk { IsOpened number book.now ports.seat }
    requires new { AreNewPorts (length bodies.items) ports.ports }
    requires mails { ports.mails ≡ map (new_mail (desk_cpu ports.seat)) (map (λ (spec : MsgSpec). spec.origin) book.now.specs) }
    requires few { length bodies.items ≤ THREAD_LIMIT }
    requires threads { ports.threads ≡ length bodies.items }
    ensures ok { IfOk result (λ cpu. IsOpenedCpu (id_of bank.now) book.now number bodies.items cpu) }
    ensures lines { IfOk result (λ cpu. cpu.post.lanes ≡ ports.lanes) }
{
    match Cpu::new(alloc, seat, ports, bodies) {
        Ok(cpu) => Ok(cpu),
        Err(Fault::Memory(refused)) => Err(refused),
        Err(_) => unreachable!(),
    }
}

impl Rest {
    ghost use Rattle.lwkt_machine.specs.Seating.{AreLeft, IsRest};

    /// The next processor, with a thread for each of these bodies, in order, which was never polled. Its seats and the ends of its
    /// lanes are no longer left, whether it could be made or not. That they are those of this number, over this bank and this book,
    /// and that there are at most 16 bodies are the caller's conditions.
    ///
    /// Refused only if memory is.
    pub fn next<B: Drop>(
        &mut self,
        alloc: Global,
        bank: &Bank,
        book: &MsgBook,
        origins: &[ThreadId],
        bodies: Vec<B>,
        number: usize,
    ) -> Result<Cpu<B>, OutOfMemory>
        requires some { 0 < length self.old.seats.items }
        requires rest { IsRest (id_of bank.now) book.now number self.old }
        requires origins { origins.now ≡ map (λ (spec : MsgSpec). spec.origin) book.now.specs }
        requires few { length bodies.items ≤ THREAD_LIMIT }
        ensures ok { IfOk result (λ cpu. IsOpenedCpu (id_of bank.now) book.now number bodies.items cpu) }
        ensures lines { IfOk result (λ cpu. HasLines self.old.outs.items self.old.ins.items 0 cpu) }
        ensures left { AreLeft 1 self.old self.new }
        ensures rest { IsRest (id_of bank.now) book.now (number + 1) self.new }
        ensures fewer { length self.new.seats.items + 1 ≡ length self.old.seats.items }
    {
        let seat = self.seats.remove(0);
        let mail = self.mails.remove(0);
        let outs = self.outs.remove(0);
        let ins = self.ins.remove(0);
        let ports = open_ports(alloc, book, mail, outs, ins, origins, bodies.len(), number)?;
        seat_one(alloc, bank, book, seat, ports, bodies, number)
    }
}
