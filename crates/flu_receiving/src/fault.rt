//! Why bytes are no partial of a job.

ghost use Rattle.std.specs.Prelude.{◌≡◌};
ghost use Rattle.flu_receiving.specs.declared.fault.PartialFault.TheVariants.{NoMemory};
ghost use Rattle.flu_receiving.specs.Faults.{fault_at};

use flu_partial::LineFault;
use std::alloc::{AllocError, AllocFailed};
use thiserror::Error;

/// Why bytes are not read as a partial of a job: of the first line that is not right the first of these, in this order, that applies. A
/// line is told by its number, from 1.
#[derive(Clone, Copy, Debug, PartialEq, Eq, Error)]
pub enum PartialFault {
    /// The line has more than 536,870,912 bytes.
    #[error("over limit in line {0}")]
    OverLimit(u64),
    /// It is not UTF-8 or no JSON text that `serde_json` takes.
    #[error("not json in line {0}")]
    NotJson(u64),
    /// It is JSON, and not the text of a head or of a contribution, whichever is to come, or that of a contribution that no node of the
    /// job can have sent.
    #[error("wrong form in line {0}")]
    WrongForm(u64),
    /// It is a contribution that may not come there: after the end, not after the one before it, or up to an event with nothing in it.
    #[error("out of order in line {0}")]
    OutOfOrder(u64),
    /// The bytes end before the line up to the end, or within a line.
    #[error("incomplete")]
    Incomplete,
    /// Out of memory.
    #[error("out of memory")]
    NoMemory,
}

impl From<AllocError> for PartialFault {
    ghost from_gives = { λ _ e. e ≡ NoMemory };

    fn from(_e: AllocError) -> PartialFault {
        PartialFault::NoMemory
    }
}

impl<T: Drop> From<AllocFailed<T>> for PartialFault {
    ghost from_gives = { λ _ e. e ≡ NoMemory };

    fn from(_e: AllocFailed<T>) -> PartialFault {
        PartialFault::NoMemory
    }
}

// The fault of a line, with its number.
pub(crate) fn fault_at(number: u64, fault: LineFault) -> PartialFault
    ensures { result ≡ fault_at number fault }
{
    match fault {
        LineFault::OverLimit { .. } => PartialFault::OverLimit(number),
        LineFault::NotJson => PartialFault::NotJson(number),
        LineFault::WrongForm => PartialFault::WrongForm(number),
        LineFault::NoMemory => PartialFault::NoMemory,
    }
}
