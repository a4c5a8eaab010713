//! All that the ports of a processor work with: its counters and its lines.
ghost use Rattle.std.specs.Prelude.{◌≡◌, false, All, vec_len};
ghost use Rattle.lwkt_msg.specs.Desks.{cpus_of};
ghost use Rattle.lwkt_port.specs.Hints.{OwesNone, owes_none-prop, holds_none-prop};
ghost use Rattle.lwkt_port.specs.Lines.{HasNoneInHand};
ghost use Rattle.lwkt_port.specs.Posts.{KeepsNamed, have_kept-prop};

use crate::counters::Counters;
use crate::lines::Lane;

/// The counters of a processor and its lines, one to each processor, whose kept notes name a message and a port.
#[derive(Drop)]
pub(crate) struct Office {
    pub(crate) counters: Counters,
    pub(crate) lanes: Vec<Lane>,
    /// Whether a reply may be owed: while this isn't set none is.
    pub(crate) owing: bool,
    /// Whether a note may be in hand at a sending end: while this isn't set none is.
    pub(crate) holding: bool,
    ghost as_many: { vec_len lanes ≡ cpus_of counters.room.seat },
    ghost keep: { All (KeepsNamed (vec_len counters.room.mails)) lanes.items } by { have_kept-prop (vec_len counters.room.mails) lanes.items },
    ghost hint: { owing ≡ false → OwesNone counters.room.mails.items } by { owes_none-prop owing counters.room.mails.items },
    ghost hands: { holding ≡ false → All HasNoneInHand lanes.items } by { holds_none-prop holding lanes.items },
}
