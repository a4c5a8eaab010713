//! What is kept of a run while it is made.
ghost use Rattle.std.specs.Prelude.{◌≡◌, ◌<◌, None, IfSome, OnOk, Option, option_map};
ghost use Rattle.lwkt_verdict.specs.Threads.{slot_of};
ghost use Rattle.lwkt_run.specs.Keeping.{Story, polled_of, story_after};

use crate::polled::PolledRef;
use lwkt_base::OutOfMemory;
use lwkt_base::limits::MACHINE_THREADS;
use lwkt_core::Event;

/// What takes the turns of a run one by one, and keeps them or not.
pub trait Keeper {
    // what is kept, if anything is
    ghost kept: { Self → Option Story };

    /// Takes a turn of a processor, 0 to 7: its events, and what it asked, if it polled a thread. The answer that the thread was given is
    /// that to its poll before.
    ///
    /// Where memory is refused, the turn may be kept in part, so nothing follows from what is kept any more.
    fn note(
        &mut self,
        cpu: u8,
        part: &[Event],
        asks: Option<PolledRef<'_>>,
    ) -> Result<(), OutOfMemory>
        requires { IfSome asks (λ p. slot_of p.thread < MACHINE_THREADS) }
        ensures { OnOk result (kept self.new ≡ option_map (story_after cpu (option_map polled_of asks.entry) part.now) (kept self.old)) };
}

/// Keeps no turn.
#[derive(Clone, Copy)]
pub struct NoKeeper;

impl Keeper for NoKeeper {
    ghost kept = { λ _. None };

    #[inline(always)]
    fn note(
        &mut self,
        _cpu: u8,
        _part: &[Event],
        _asks: Option<PolledRef<'_>>,
    ) -> Result<(), OutOfMemory> {
        Ok(())
    }
}
