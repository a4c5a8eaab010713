//! The ports of a processor's threads.
ghost use Rattle.std.specs.Prelude.{◌≡◌, ◌≤◌};

use crate::counters::Counters;
use crate::mailrooms::Mailroom;
use crate::offices::Office;
use lwkt_base::limits::{CPU_LIMIT, THREAD_LIMIT};
use lwkt_msg::MsgSeat;
use std::marker::Model;

/// The message ports of a processor's threads, one for each thread, with the processor's seat at the book and its lanes.
#[derive(Drop)]
pub struct Ports {
    pub(crate) office: Office,
    pub(crate) threads: usize,
}

impl Model for Ports {
    ghost use Rattle.std.specs.Prelude.{◌≤◌};
    ghost use Rattle.lwkt_base.specs.declared.limits.TheConstants.{THREAD_LIMIT};
    ghost use Rattle.lwkt_port.specs.Posts.{Post};

    ghost Value = { Post };

    ghost view = { λ p. record { seat = p.office.counters.room.seat; lanes = p.office.lanes.items; ports = p.office.counters.ports.items; mails = p.office.counters.room.mails.items; threads = p.threads } };

    ghost invariant = { λ p. p.threads ≤ THREAD_LIMIT };
}

impl Ports {
    ghost use Rattle.lwkt_msg.specs.Desks.{cpus_of};
    ghost use Rattle.lwkt_port.specs.Posts.{IsPost};

    /// How many threads have a port, 0 to 16.
    pub fn threads(&self) -> usize
        ensures count { result ≡ self.now.threads }
        ensures few { result ≤ THREAD_LIMIT }
        ensures order { IsPost self.now }
    {
        self.threads
    }

    /// How many processors the book has seats for, 1 to 8.
    pub fn cpus(&self) -> usize
        ensures count { result ≡ cpus_of self.now.seat }
        ensures few { result ≤ CPU_LIMIT }
    {
        self.office.counters.room.seat.cpus()
    }

    /// Gives up the ports, and gives the processor's seat at the book back.
    pub fn retire(self) -> MsgSeat
        ensures { result ≡ self.seat }
    {
        let Ports { office, threads: _ } = self;
        let Office { counters, .. } = office;
        let Counters { room, .. } = counters;
        let Mailroom { seat, mails: _ } = room;
        seat
    }
}
