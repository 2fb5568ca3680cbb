//! Why bytes are no checkpoint.

ghost use Rattle.std.specs.Prelude.{◌≡◌};
ghost use Rattle.flu_save.specs.declared.fault.SaveFault.TheVariants.{NoMemory};

use std::alloc::{AllocError, AllocFailed};
use thiserror::Error;

/// Why bytes are not read as a checkpoint of a job: the first of these, in this order, that applies.
#[derive(Clone, Copy, Debug, PartialEq, Eq, Error)]
pub enum SaveFault {
    /// There are more than 536,870,912 bytes; the count is one more than that.
    #[error("over limit bytes {count}")]
    OverLimit { count: u64 },
    /// The bytes are not UTF-8 or no JSON text that `serde_json` takes.
    #[error("not json")]
    NotJson,
    /// The value is not an object with just a border, a list and a text; or, if the text is the job's, the list is not
    /// the list of cells of any state of the job's sorts.
    #[error("wrong form")]
    WrongForm,
    /// The text is not the normal form of the job.
    #[error("other job")]
    OtherJob,
    /// Out of memory.
    #[error("out of memory")]
    NoMemory,
}

impl From<AllocError> for SaveFault {
    ghost from_gives = { λ _ e. e ≡ NoMemory };

    fn from(_e: AllocError) -> SaveFault {
        SaveFault::NoMemory
    }
}

impl<T: Drop> From<AllocFailed<T>> for SaveFault {
    ghost from_gives = { λ _ e. e ≡ NoMemory };

    fn from(_e: AllocFailed<T>) -> SaveFault {
        SaveFault::NoMemory
    }
}
