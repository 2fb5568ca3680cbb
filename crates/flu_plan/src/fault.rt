//! What may be wrong with a plan text.

ghost use Rattle.std.specs.Prelude.{◌≡◌};
ghost use Rattle.flu_plan.specs.declared.fault.PlanFault.TheVariants.{NoMemory};

use flu_model::{Name, What};
use std::alloc::{AllocError, AllocFailed};
use std::fmt;
use thiserror::Error;

/// Why a text is no plan of a job. Places are byte offsets from 0 (`docs/LANGUAGE.md`).
#[derive(Drop, Error)]
pub enum PlanFault {
    /// No token begins here, or the first sequence of bytes that is not UTF-8 does.
    #[error("no token begins here")]
    BadToken { at: usize },
    /// This token cannot follow, or the text ends too early.
    #[error("unexpected")]
    Unexpected { at: usize },
    /// The name here is no kind or source of the job, or no node of the plan.
    #[error("an unknown name")]
    UnknownName { at: usize },
    /// The nodes are not one tree: this one is declared twice, or is the child of two nodes or of none.
    #[error("not a tree")]
    NotATree { name: Name },
    /// There is more of this than the language allows: one more, or the key itself.
    #[error("over a limit")]
    OverLimit { what: What, count: u64 },
    /// Out of memory.
    #[error("out of memory")]
    NoMemory,
}

impl From<AllocError> for PlanFault {
    ghost from_gives = { λ _ e. e ≡ NoMemory };

    fn from(_e: AllocError) -> PlanFault {
        PlanFault::NoMemory
    }
}

impl<T: Drop> From<AllocFailed<T>> for PlanFault {
    ghost from_gives = { λ _ e. e ≡ NoMemory };

    fn from(_e: AllocFailed<T>) -> PlanFault {
        PlanFault::NoMemory
    }
}

// An error needs it. The name in it has none, so that the text is that of `Display`.
impl fmt::Debug for PlanFault {
    fn fmt<W: fmt::Write>(&self, f: &mut fmt::Formatter<W>) -> fmt::Result {
        fmt::Display::fmt(self, f)
    }
}
