ghost use Rattle.std.specs.Prelude.{◌≡◌, length};
ghost use Rattle.lwkt_base.specs.declared.limits.TheConstants.{TOKEN_LIMIT};
ghost use Rattle.lwkt_bank.specs.Notes.{Keeps};
ghost use Rattle.lwkt_bank.specs.Hands.{AreHands};

use crate::notes::TokenNote;
use crate::views::View;
use atomic_table::Seat;
use lwkt_base::{Blob, CpuId};

/// One processor's seat at a bank.
#[derive(Drop)]
pub struct CpuSeat {
    pub(crate) notes: [TokenNote; 64],
    pub(crate) seat: Seat<Blob, View>,
    pub(crate) cpu: CpuId,
    ghost kept: { Keeps notes cpu seat.me.0 },
    ghost hands: { AreHands seat.me.0 seat.me.1 },
    ghost sized: { length notes ≡ TOKEN_LIMIT },
}
