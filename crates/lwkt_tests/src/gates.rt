//! Gates that let processors meet, stop one early, or make one slow; and that count how often they are asked.
ghost use Rattle.std.specs.Prelude.{◌≡◌};

use lwkt_base::CpuId;
use lwkt_run::Gate;
use std::hint;
use std::sync::atomic::{AtomicU64, Ordering};

// The most looks of a processor that waits.
const LOOKS: u32 = 100_000_000;

// The hints of a slow processor's wait: so long that the others find nothing to do many times over.
const WAIT: u32 = 200_000;

/// What a gate does.
#[derive(Clone, Copy)]
pub enum Kind {
    /// It says yes.
    Open,
    /// The first turn of each of two processors waits until the other has come to its first turn.
    Meeting,
    /// This processor waits each time.
    Slow(CpuId),
    /// It stops this processor after so many turns.
    Stops(CpuId, u64),
}

/// A gate of this kind.
#[derive(Drop)]
pub struct Watch {
    kind: Kind,
    asked: AtomicU64,
}

impl Watch {
    /// A gate that wasn't asked yet.
    pub fn new(kind: Kind) -> Self {
        Watch {
            kind,
            asked: AtomicU64::new(0),
        }
    }

    /// How often it was asked.
    pub fn asked(&self) -> u64 {
        self.asked.load(Ordering::SeqCst)
    }

    // Whether both processors come, within so many looks.
    fn meets(&self) -> bool {
        for _look in 0..LOOKS {
            if self.asked() >= 2 {
                return true;
            }
        }
        false
    }
}

fn wait() {
    for _hint in 0..WAIT {
        hint::spin_loop();
    }
}

impl Gate for Watch {
    ghost answers = { λ gate cpu turn result. result ≡ result };

    fn pass(&self, cpu: CpuId, turn: u64) -> bool {
        self.asked.fetch_add(1, Ordering::SeqCst);
        match self.kind {
            Kind::Open => true,
            Kind::Meeting => turn > 0 || self.meets(),
            Kind::Slow(slow) => {
                if cpu == slow {
                    wait();
                }
                true
            }
            Kind::Stops(stopped, turns) => cpu != stopped || turn < turns,
        }
    }
}
