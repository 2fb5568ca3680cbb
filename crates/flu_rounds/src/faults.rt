//! Why a round was not run.

use flu_outside::Failed;
use flu_streams::{GatherFault, SourceFault};
use std::alloc::AllocError;
use thiserror::Error;

/// Why a round was not run, or not all of its report was written.
#[derive(Clone, Copy, Debug, PartialEq, Eq, Error)]
pub enum RoundsFault {
    /// The round meets a defect: the defect of the first source, as declared, that has one. Nothing was written.
    #[error("a source has a defect")]
    Source(SourceFault),
    /// Bytes of a source's file could not be taken. Nothing was written.
    #[error("a read failed")]
    ReadFault,
    /// The sink failed: it has taken fewer than all bytes of the round's report.
    #[error("a write failed")]
    WriteFault,
    /// There was no memory. Nothing was written.
    #[error("out of memory")]
    NoMemory,
}

impl From<GatherFault> for RoundsFault {
    ghost use Rattle.std.specs.Prelude.{◌≡◌};
    ghost use Rattle.flu_rounds.specs.Faults.{fault_of_refill};

    ghost from_gives = { λ fault e. e ≡ fault_of_refill fault };

    fn from(fault: GatherFault) -> RoundsFault {
        match fault {
            GatherFault::Source(f) => RoundsFault::Source(f),
            GatherFault::ReadFault => RoundsFault::ReadFault,
            GatherFault::NoMemory => RoundsFault::NoMemory,
        }
    }
}

impl From<AllocError> for RoundsFault {
    ghost use Rattle.std.specs.Prelude.{◌≡◌};
    ghost use Rattle.flu_rounds.specs.declared.faults.RoundsFault.{RoundsFault};

    ghost from_gives = { λ _ e. e ≡ RoundsFault.NoMemory };

    fn from(_e: AllocError) -> RoundsFault {
        RoundsFault::NoMemory
    }
}

impl From<Failed> for RoundsFault {
    ghost use Rattle.std.specs.Prelude.{◌≡◌};
    ghost use Rattle.flu_rounds.specs.declared.faults.RoundsFault.{RoundsFault};

    ghost from_gives = { λ _ e. e ≡ RoundsFault.WriteFault };

    fn from(_e: Failed) -> RoundsFault {
        RoundsFault::WriteFault
    }
}
