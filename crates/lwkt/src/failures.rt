ghost use Rattle.std.specs.Prelude.{◌≡◌};
ghost use Rattle.lwkt_base.specs.declared.faults.Fault.TheVariants.{Memory};
ghost use Rattle.lwkt.specs.declared.failures.Failure.TheVariants as failures;

use lwkt_base::{Fault, OutOfMemory};

/// Why a task writes nothing, or not all.
#[derive(Clone, Copy)]
pub enum Failure {
    /// The input, its opening or its order is refused, or memory is, or a run along an order isn't lawful.
    Fault(Fault),
    /// The run ended before the range that is shown.
    Past,
    /// The script has too many bytes in the form that is asked for.
    Long,
    /// A stream failed.
    Stream,
}

impl From<Fault> for Failure {
    ghost from_gives = { λ fault failure. failure ≡ failures.Fault fault };

    fn from(fault: Fault) -> Failure {
        Failure::Fault(fault)
    }
}

impl From<OutOfMemory> for Failure {
    ghost from_gives = { λ refused failure. failure ≡ failures.Fault (Memory refused) };

    fn from(refused: OutOfMemory) -> Failure {
        Failure::Fault(Fault::Memory(refused))
    }
}
