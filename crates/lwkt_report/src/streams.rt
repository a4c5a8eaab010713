ghost use Rattle.std.specs.Prelude.{◌≡◌};
ghost use Rattle.lwkt_base.specs.declared.faults.Fault.TheVariants.{Memory};
ghost use Rattle.lwkt_report.specs.declared.streams.RunFault.TheVariants.{Fault as AtFault, Stream};

use lwkt_base::{Fault, OutOfMemory};
use thiserror::Error;

/// A reader or a writer failed.
#[derive(Clone, Copy, Debug, PartialEq, Eq, Error)]
#[error("stream failed")]
pub struct StreamError;

/// Why a run ended without a whole report.
#[derive(Clone, Copy, Debug, PartialEq, Eq, Error)]
pub enum RunFault {
    /// The script or memory is at fault.
    #[error("{0}")]
    Fault(Fault),
    /// The reader or the writer failed.
    #[error("stream failed")]
    Stream,
}

impl From<StreamError> for RunFault {
    ghost from_gives = { λ _ fault. fault ≡ Stream };

    fn from(_error: StreamError) -> RunFault {
        RunFault::Stream
    }
}

impl From<OutOfMemory> for RunFault {
    ghost from_gives = { λ refused fault. fault ≡ AtFault (Memory refused) };

    fn from(refused: OutOfMemory) -> RunFault {
        RunFault::Fault(Fault::Memory(refused))
    }
}
