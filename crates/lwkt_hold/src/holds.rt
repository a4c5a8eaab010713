ghost use Rattle.std.specs.Prelude.{◌≡◌};
ghost use Rattle.lwkt_base.specs.Holding.{holds_nothing};
ghost use Rattle.lwkt_bank.specs.Seats.{holding};

use lwkt_bank::CpuSeat;

/// A processor's seat, over which a thread's list of references is held as a whole or not at all.
#[derive(Drop)]
pub struct Hold {
    pub(crate) seat: CpuSeat,
}

impl Hold {
    ghost use Rattle.lwkt_hold.specs.Holds.{seat_of};

    /// Over this seat.
    pub fn new(seat: CpuSeat) -> Self
        ensures { seat_of result ≡ seat }
    {
        Hold { seat }
    }

    /// The seat. That it holds nothing is the caller's condition.
    pub fn into_seat(self) -> CpuSeat
        requires { holding (seat_of self) ≡ holds_nothing }
        ensures { result ≡ seat_of self }
    {
        let Hold { seat } = self;
        seat
    }
}
