//! Why bytes are no line of a partial.

ghost use Rattle.std.specs.Prelude.{◌≡◌};
ghost use Rattle.flu_partial.specs.declared.fault.LineFault.TheVariants.{NoMemory};

use std::alloc::{AllocError, AllocFailed};
use thiserror::Error;

/// Why bytes are not read as a head or as a contribution: the first of these, in this order, that applies.
#[derive(Clone, Copy, Debug, PartialEq, Eq, Error)]
pub enum LineFault {
    /// There are more than 536,870,912 bytes; the count is one more than that.
    #[error("over limit bytes {count}")]
    OverLimit { count: u64 },
    /// The bytes are not UTF-8 or no JSON text that `serde_json` takes.
    #[error("not json")]
    NotJson,
    /// The bytes are JSON, and not the text of any head, or of any contribution.
    #[error("wrong form")]
    WrongForm,
    /// Out of memory.
    #[error("out of memory")]
    NoMemory,
}

impl From<AllocError> for LineFault {
    ghost from_gives = { λ _ e. e ≡ NoMemory };

    fn from(_e: AllocError) -> LineFault {
        LineFault::NoMemory
    }
}

impl<T: Drop> From<AllocFailed<T>> for LineFault {
    ghost from_gives = { λ _ e. e ≡ NoMemory };

    fn from(_e: AllocFailed<T>) -> LineFault {
        LineFault::NoMemory
    }
}
