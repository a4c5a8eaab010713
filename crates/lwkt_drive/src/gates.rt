//! Who says whether a processor goes on.
ghost use Rattle.std.specs.Prelude.{◌≡◌, ℕ, Bool, true};
ghost use Rattle.lwkt_base.specs.declared.names.CpuId.{CpuId};

use lwkt_base::CpuId;

/// Is asked before each turn of a driven processor whether it goes on. Each implementation returns.
pub trait Gate {
    /// What the gate may answer a processor before the turn of this number.
    ghost answers: { Self → CpuId → ℕ → Bool → Type 0 };

    /// Whether processor `cpu`, 0 to 7, goes on with its turn of this number, counted from 0 in each drive. Its drive ends at the
    /// first no.
    fn pass(&self, cpu: CpuId, turn: u64) -> bool
        ensures { answers self.now cpu turn result };
}

/// Lets every processor go on.
#[derive(Clone, Copy)]
pub struct OpenGate;

impl Gate for OpenGate {
    ghost answers = { λ gate cpu turn result. result ≡ true };

    fn pass(&self, _cpu: CpuId, _turn: u64) -> bool {
        true
    }
}
