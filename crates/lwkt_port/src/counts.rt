//! How much the ports have left to do.
ghost use Rattle.std.specs.Prelude.{◌≡◌, ◌≤◌, is_some, length};
ghost use Rattle.lwkt_lane.specs.Lane.{in_hand};
ghost use Rattle.lwkt_port.specs.Counts.{owed_count, in_hand_count, kept_count, queued_count};

use crate::lines::{Lane, has_none_in_hand};
use crate::opened_ports::PORTS;
use crate::posts::Ports;
use crate::queues::{Port, count};
use lwkt_base::limits::MESSAGE_LIMIT;

/// How many notes the ports of a processor's threads have, by where these are.
#[derive(Clone, Copy, PartialEq, Eq)]
pub struct Notes {
    /// In hand at sending ends, whose lanes were full.
    pub in_hand: usize,
    /// Kept, since their ports' queues were full.
    pub kept: usize,
    /// In the queues of ports.
    pub queued: usize,
}

// Whether a note is in hand at a line's sending end.
fn has_in_hand(line: &Lane) -> bool
    ensures { result ≡ is_some (in_hand line.now.out) }
{
    !has_none_in_hand(line)
}

// How many notes the queues have.
fn queued(ports: &[Port]) -> usize
    requires few { length ports.now ≤ PORTS }
    ensures { result ≡ queued_count ports.now }
{
    ports.iter().map(count).sum()
}

impl Ports {
    /// How many messages are owed a reply, 0 to 64.
    pub fn owed(&self) -> usize
        ensures count { result ≡ owed_count self.now.mails }
        ensures few { result ≤ MESSAGE_LIMIT }
    {
        let mails = &self.office.counters.room.mails;
        mails.iter().filter(|mail| mail.owed.is_some()).count()
    }

    /// How many notes there are, by where they are. It moves none.
    pub fn notes(&self) -> Notes
        ensures in_hand { result.in_hand ≡ in_hand_count self.now.lanes }
        ensures kept { result.kept ≡ kept_count self.now.lanes }
        ensures queued { result.queued ≡ queued_count self.now.ports }
    {
        let lanes = &self.office.lanes;
        Notes {
            in_hand: lanes.iter().filter(|line| has_in_hand(line)).count(),
            kept: lanes.iter().filter(|line| line.kept.is_some()).count(),
            queued: queued(&self.office.counters.ports),
        }
    }
}
