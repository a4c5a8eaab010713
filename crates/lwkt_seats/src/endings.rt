//! What a close takes no memory for: it is made at the opening, and rests at the desk until then.
ghost use Rattle.std.specs.Prelude.{◌≡◌};
ghost use Rattle.std.specs.Arc.{arc_value};
ghost use Rattle.lwkt_seats.specs.Endings.{IsEndingOf};

use crate::raw_boxes::RawBox;
use crate::taken::Taken;
use counted_slot::Fits;
use lwkt_bank::{Bank, CloseRoom, CpuSeat};
use std::alloc::Global;
use std::sync::Arc;

/// A share of a bank, and room for its seats and for all that its close reads and makes.
#[derive(Drop)]
pub struct Ending {
    /// The bank.
    pub bank: Arc<Bank>,
    /// Room for the seats as they are taken out of their slots.
    pub sitters: Vec<Taken>,
    /// Room for the seats without their bank.
    pub seats: Vec<CpuSeat>,
    /// Room for the close.
    pub room: CloseRoom,
}

/// The box of an ending.
pub struct Chest {
    parts: RawBox<Ending, Global>,
}

impl Fits for Chest {
    type Tag = Arc<Bank>;

    ghost fits = { λ bank chest. IsEndingOf (arc_value bank) chest.parts.value };
}

impl Chest {
    /// The box, closed: a pointer to it can be handed out.
    pub fn of(ending: Box<Ending>) -> Chest
        ensures { result.parts.value ≡ ending.value }
    {
        Chest {
            parts: RawBox::of(ending),
        }
    }

    /// The box again.
    pub fn into_ending(self) -> Box<Ending>
        ensures { result.value ≡ self.parts.value }
    {
        let Chest { parts } = self;
        parts.into_box()
    }
}

impl Drop for Chest {
    fn drop(self) {
        drop(self.into_ending());
    }
}
