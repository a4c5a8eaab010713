//! The ports of a processor's threads, with the mailroom behind them.
ghost use Rattle.std.specs.Prelude.{◌≡◌, false, All, vec_len};
ghost use Rattle.lwkt_port.specs.declared.opened_ports.TheConstants.{PORTS};
ghost use Rattle.lwkt_port.specs.Hints.{AreClear};
ghost use Rattle.lwkt_port.specs.Queues.{HasNamed, have_named-prop};

use crate::mailrooms::Mailroom;
use crate::queues::Port;

/// The ports of a processor's threads, with the mailroom behind them: each note of a port names a message.
#[derive(Drop)]
pub(crate) struct Counters {
    pub(crate) room: Mailroom,
    pub(crate) ports: Vec<Port>,
    /// Whether a closed port may have a note: while this isn't set none has.
    pub(crate) uncleared: bool,
    ghost as_many: { vec_len ports ≡ PORTS },
    ghost named: { All (HasNamed (vec_len room.mails)) ports.items } by { have_named-prop (vec_len room.mails) ports.items },
    ghost hint: { uncleared ≡ false → AreClear ports.items },
}
