//! The written gives among events: who gave a token back, and the section that ended then.
ghost use Rattle.std.specs.Prelude.{◌≡◌};
ghost use Rattle.lwkt_drive.specs.Gives.{give_of};

use lwkt_base::{CpuId, Section};
use lwkt_core::Event;

/// A written give: an exclusive holder gave its token back, whose section has changed something.
#[derive(Clone, Copy, PartialEq, Eq)]
pub struct Give {
    /// The processor that gave the token back, 0 to 7.
    pub cpu: CpuId,
    /// The section that ended.
    pub section: Section,
}

/// The written give that an event is; None if it is another event.
#[inline(always)]
pub fn give_of(event: &Event) -> Option<Give>
    ensures { result ≡ give_of event.now }
{
    match *event {
        Event::GiveWritten { cpu, section, .. } => Some(Give { cpu, section }),
        _ => None,
    }
}
