//! Why the partial of a node was not written.

use flu_outside::Failed;
use flu_streams::{GatherFault, SourceFault};
use thiserror::Error;

/// Why the partial of a node was not written, or not to its end.
#[derive(Clone, Copy, Debug, PartialEq, Eq, Error)]
pub enum PartFault {
    /// A source that the node reads has a defect: the first defect of the first of these sources, as declared, that has one. Nothing was
    /// written.
    #[error("a source has a defect")]
    Source(SourceFault),
    /// Bytes of a source's file could not be taken. Nothing was written.
    #[error("a read failed")]
    ReadFault,
    /// The sink failed: it has taken fewer than all bytes of the partial.
    #[error("a write failed")]
    WriteFault,
    /// There was no memory. Nothing was written.
    #[error("out of memory")]
    NoMemory,
}

impl From<GatherFault> for PartFault {
    ghost use Rattle.std.specs.Prelude.{◌≡◌};
    ghost use Rattle.flu_node_run.specs.Faults.{fault_of_reading};

    ghost from_gives = { λ fault e. e ≡ fault_of_reading fault };

    fn from(fault: GatherFault) -> PartFault {
        match fault {
            GatherFault::Source(f) => PartFault::Source(f),
            GatherFault::ReadFault => PartFault::ReadFault,
            GatherFault::NoMemory => PartFault::NoMemory,
        }
    }
}

impl From<Failed> for PartFault {
    ghost use Rattle.std.specs.Prelude.{◌≡◌};
    ghost use Rattle.flu_node_run.specs.declared.faults.PartFault.{PartFault};

    ghost from_gives = { λ _ e. e ≡ PartFault.WriteFault };

    fn from(_e: Failed) -> PartFault {
        PartFault::WriteFault
    }
}
