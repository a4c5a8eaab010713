//! The ports as they are opened.
ghost use Rattle.std.specs.Prelude.{◌≡◌, ◌⊎◌, ℕ, ◌<◌, ◌≤◌, [], false, IfOk, MatchResult, ◌↔◌, IsTrue, map};
ghost use Rattle.lwkt_base.specs.declared.faults.Fault.TheVariants.{Limits};
ghost use Rattle.lwkt_msg.specs.Desks.{desk_cpu};
ghost use Rattle.lwkt_port.specs.OpenedPorts.{new_mail, AreNewPorts, new_line, ArePaired, KeepLimits, IsFresh, AreOrigins, IsOpenedPost};

use crate::counters::Counters;
use crate::lines::Lane;
use crate::mailrooms::Mailroom;
use crate::mails::Mail;
use crate::offices::Office;
use crate::posts::Ports;
use crate::queues::{Port, empty_port};
use lwkt_base::memory::{collect, push, with_capacity, with_capacity_for};
use lwkt_base::{CpuId, Fault, OutOfMemory, ThreadId};
use lwkt_lane::{LaneIn, LaneOut};
use lwkt_msg::MsgSeat;
use std::alloc::Global;

/// How many ports there are, of which threads have the first ones.
pub const PORTS: usize = 16;

// What is kept of a message at the opening.
fn mail_of(origin: ThreadId, cpu: CpuId) -> Mail
    ensures { result ≡ new_mail cpu origin }
{
    Mail {
        origin,
        round: 0,
        urgent: false,
        done: None,
        owed: None,
        shown: None,
        home: origin.cpu == cpu,
        sync: false,
    }
}

// What is kept of each message at the opening.
fn open_mails(alloc: Global, origins: &[ThreadId], cpu: CpuId) -> Result<Vec<Mail>, OutOfMemory>
    ensures { IfOk result (λ v. v.items ≡ map (new_mail cpu) origins.now) }
{
    let mut mails = with_capacity_for(alloc, origins)?;
    for origin in origins {
        push(&mut mails, mail_of(*origin, cpu))?;
    }
    Ok(mails)
}

// Ports without notes, the first ones open for so many threads.
fn new_ports(alloc: Global, threads: usize) -> Result<Vec<Port>, OutOfMemory>
    ensures { IfOk result (λ v. AreNewPorts threads v.items) }
{
    let mut ports = with_capacity(alloc, PORTS)?;
    for number in 0..PORTS {
        let port = empty_port(alloc, threads <= number)?;
        push(&mut ports, port)?;
    }
    Ok(ports)
}

// The line of two ends.
fn line_of(out: LaneOut, into: LaneIn) -> Lane
    ensures { result ≡ new_line (out, into) }
{
    Lane {
        out,
        into,
        kept: None,
    }
}

// The two lanes that join the processor with each one.
fn pair(alloc: Global, outs: Vec<LaneOut>, ins: Vec<LaneIn>) -> Result<Vec<Lane>, OutOfMemory>
    ensures { IfOk result (λ v. ArePaired outs.items ins.items v.items) }
{
    let ends = outs.into_iter().zip(ins);
    let lanes = collect(alloc, ends.map(|(out, into)| line_of(out, into)))?;
    Ok(lanes)
}

// Whether the limits are kept.
fn are_within(
    seat: &MsgSeat,
    outs: &Vec<LaneOut>,
    ins: &Vec<LaneIn>,
    origins: &[ThreadId],
    threads: usize,
) -> bool
    ensures { IsTrue result ↔ KeepLimits seat.now outs.now.items ins.now.items origins.now threads }
{
    threads <= PORTS
        && outs.len() == seat.cpus()
        && ins.len() == seat.cpus()
        && origins.len() == seat.messages()
}

impl Ports {
    ghost use Rattle.lwkt_base.specs.Fault.{no_memory};

    /// Opens the ports of a processor's threads, each without an item, over the processor's seat at the book, the sending
    /// ends of the lanes to each processor, and the receiving ends of those from each. `origins` are the threads that the
    /// messages belong to. In msgport(9) each thread has a port that lwkt_initport_thread makes; here they are made
    /// together, and the port of a thread that isn't there is closed.
    ///
    /// `Memory`: an allocation was refused. `Limits`: there are more than 16 threads, or not one lane each way for each
    /// processor and one origin for each message. What was handed over is then dropped.
    ///
    /// That the seat is this processor's as the book's opening gave it, and that the origins are those of the book, are
    /// the caller's conditions.
    #[tactic(auto, using(crate::proofs::Begun::opened))]
    pub fn new(
        alloc: Global,
        cpu: CpuId,
        seat: MsgSeat,
        outs: Vec<LaneOut>,
        ins: Vec<LaneIn>,
        origins: &[ThreadId],
        threads: usize,
    ) -> Result<Ports, Fault>
        requires mine { cpu ≡ desk_cpu seat }
        requires fresh { IsFresh seat }
        requires origins { AreOrigins seat origins.now }
        ensures { MatchResult result
            (λ p. KeepLimits seat outs.items ins.items origins.now threads × IsOpenedPost cpu seat outs.items ins.items origins.now threads p)
            (λ fault. (fault ≡ no_memory) ⊎ ((fault ≡ Limits) × (KeepLimits seat outs.items ins.items origins.now threads → ⊥))) }
    {
        let own = seat.cpu();
        let within = are_within(&seat, &outs, &ins, origins, threads);
        let lanes = pair(alloc, outs, ins)?;
        let ports = new_ports(alloc, threads)?;
        let mails = open_mails(alloc, origins, own)?;
        if !within {
            return Err(Fault::Limits);
        }
        let room = Mailroom { seat, mails };
        let counters = Counters {
            room,
            ports,
            uncleared: false,
        };
        let office = Office {
            counters,
            lanes,
            owing: false,
            holding: true,
        };
        Ok(Ports { office, threads })
    }
}
