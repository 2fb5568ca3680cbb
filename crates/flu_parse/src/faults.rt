//! What may be wrong with a job text.

ghost use Rattle.std.specs.Prelude.{◌≡◌};
ghost use Rattle.flu_parse.specs.declared.faults.JobFault.TheVariants.{NoMemory};

use flu_model::What;
use std::alloc::{AllocError, AllocFailed};
use thiserror::Error;

/// Why a text is no job. Places are byte offsets from 0 (`docs/LANGUAGE.md`).
#[derive(Debug, Drop, Error)]
pub enum JobFault {
    /// The first sequence of bytes that is not UTF-8 begins here.
    #[error("not UTF-8")]
    BadUtf8 { at: usize },
    /// No token begins here.
    #[error("no token begins here")]
    BadToken { at: usize },
    /// This token cannot follow, or the text ends too early.
    #[error("unexpected")]
    Unexpected { at: usize },
    /// This name is not declared as what is needed.
    #[error("an unknown name")]
    UnknownName { at: usize },
    /// This was named before.
    #[error("named twice")]
    TwiceNamed { at: usize },
    /// A rule of shape is broken here.
    #[error("a wrong shape")]
    WrongShape { at: usize },
    /// There is more of this than the language allows: one more, or the key, the rate or the slack itself.
    #[error("over a limit")]
    OverLimit { what: What, count: u64 },
    /// Out of memory.
    #[error("out of memory")]
    NoMemory,
}

impl From<AllocError> for JobFault {
    ghost from_gives = { λ _ e. e ≡ NoMemory };

    fn from(_e: AllocError) -> JobFault {
        JobFault::NoMemory
    }
}

impl<T: Drop> From<AllocFailed<T>> for JobFault {
    ghost from_gives = { λ _ e. e ≡ NoMemory };

    fn from(_e: AllocFailed<T>) -> JobFault {
        JobFault::NoMemory
    }
}
