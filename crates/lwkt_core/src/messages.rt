ghost use Rattle.std.specs.Prelude.{◌≡◌, ◌↔◌, ℕ, ◌+◌, true, ◌<◌, ◌≤◌, IsTrue};

use crate::events::Event;
use lwkt_base::limits::LAST_ROUND;
use lwkt_base::{CpuId, Owner, ThreadId};

/// One message of the model: what is declared of it, its state, and how often each thing was done with it.
#[derive(Clone, Copy, PartialEq, Eq)]
pub struct Message {
    /// The thread that owns the message while it is at rest.
    pub origin: ThreadId,
    /// The opening round.
    pub opening: u64,
    /// The opening round plus the sends: 0 to `LAST_ROUND`.
    pub round: u64,
    /// Who has the message.
    pub owner: Owner,
    /// Whether the origin has asked for the message to be aborted in this round.
    pub asked: bool,
    /// How often it was sent.
    pub sends: u64,
    /// How often its target took it.
    pub takes: u64,
    /// How often its origin dropped it before it was taken.
    pub drops: u64,
    /// How often its target replied.
    pub replies: u64,
    /// How often its origin took it back.
    pub reaps: u64,
}

impl Message {
    ghost use Rattle.lwkt_core.specs.Messages.{IsSafeMessage, MessageNeeds, message_after, IsOutTo, IsOutFrom, IsWith, IsBackTo, MayBeSent, MayBeAborted, origin_of, target_of};

    // Whether the processor may send the message to a processor of so many, in this round.
    fn may_send(&self, cpus: usize, cpu: CpuId, to: CpuId, round: u64) -> bool
        ensures { IsTrue result ↔ MayBeSent cpus self.now cpu to round }
    {
        match self.owner {
            Owner::Rest { origin } => {
                origin == cpu
                    && (to.0 as usize) < cpus
                    && self.round < LAST_ROUND
                    && round == self.round + 1
            }
            _ => false,
        }
    }

    // Whether the message was sent to the processor, and not taken yet.
    pub(crate) fn is_out_to(&self, cpu: CpuId) -> bool
        ensures { IsTrue result ↔ IsOutTo cpu self.now.owner }
    {
        match self.owner {
            Owner::Out { target, .. } => target == cpu,
            _ => false,
        }
    }

    // Whether the message was sent by the processor, and not taken yet.
    fn is_out_from(&self, cpu: CpuId) -> bool
        ensures { IsTrue result ↔ IsOutFrom cpu self.now.owner }
    {
        match self.owner {
            Owner::Out { origin, .. } => origin == cpu,
            _ => false,
        }
    }

    // Whether the message was taken by the processor, and not replied to yet.
    fn is_with(&self, cpu: CpuId) -> bool
        ensures { IsTrue result ↔ IsWith cpu self.now.owner }
    {
        match self.owner {
            Owner::With { target, .. } => target == cpu,
            _ => false,
        }
    }

    // Whether the message was replied to, and not taken back yet by the processor.
    fn is_back_to(&self, cpu: CpuId) -> bool
        ensures { IsTrue result ↔ IsBackTo cpu self.now.owner }
    {
        match self.owner {
            Owner::Back { origin, .. } => origin == cpu,
            _ => false,
        }
    }

    // Whether the message is away from this origin.
    fn is_away_from(&self, cpu: CpuId) -> bool
        ensures { IsTrue result ↔ MayBeAborted cpu self.now.owner }
    {
        match self.owner {
            Owner::Rest { .. } => false,
            Owner::Out { origin, .. } | Owner::With { origin, .. } | Owner::Back { origin, .. } => {
                origin == cpu
            }
        }
    }

    /// Whether the event can happen to the message, in a machine of so many processors.
    pub fn allows(&self, cpus: usize, event: &Event) -> bool
        ensures { IsTrue result ↔ MessageNeeds cpus self.now event.now }
    {
        match *event {
            Event::Send { cpu, to, round, .. } => self.may_send(cpus, cpu, to, round),
            Event::TakeMsg { cpu, round, .. } => self.is_out_to(cpu) && round == self.round,
            Event::DropMsg { cpu, .. } => self.is_out_from(cpu),
            Event::Reply { cpu, .. } => self.is_with(cpu),
            Event::Reap { cpu, .. } => self.is_back_to(cpu),
            Event::Abort { cpu, .. } => self.is_away_from(cpu),
            _ => false,
        }
    }

    // Whom the message belongs to, and where it went.
    fn ends(&self) -> (CpuId, CpuId)
        ensures origin { result.0 ≡ origin_of self.now.owner }
        ensures target { result.1 ≡ target_of self.now.owner }
    {
        match self.owner {
            Owner::Rest { origin } => (origin, origin),
            Owner::Out { origin, target }
            | Owner::With { origin, target }
            | Owner::Back { origin, target } => (origin, target),
        }
    }

    /// Makes the event happen to the message.
    pub fn apply(&mut self, event: &Event)
        requires allowed { (cpus : ℕ) × MessageNeeds cpus self.old event.now }
        requires safe { (cpus : ℕ) × IsSafeMessage cpus self.old }
        ensures { self.new ≡ message_after self.old event.now }
    {
        let (origin, target) = self.ends();
        match *event {
            Event::Send { cpu, to, round, .. } => {
                self.owner = Owner::Out {
                    origin: cpu,
                    target: to,
                };
                self.round = round;
                self.sends += 1;
            }
            Event::TakeMsg { .. } => {
                self.owner = Owner::With { origin, target };
                self.takes += 1;
            }
            Event::DropMsg { cpu, .. } => {
                self.owner = Owner::Rest { origin: cpu };
                self.asked = false;
                self.drops += 1;
            }
            Event::Reply { .. } => {
                self.owner = Owner::Back { origin, target };
                self.replies += 1;
            }
            Event::Reap { cpu, .. } => {
                self.owner = Owner::Rest { origin: cpu };
                self.asked = false;
                self.reaps += 1;
            }
            Event::Abort { .. } => self.asked = true,
            _ => {}
        }
    }
}
