//! Why what nodes apart sent gives nothing.

ghost use Rattle.std.specs.Prelude.{◌≡◌};
ghost use Rattle.flu_joining.specs.declared.fault.JoinFault.TheVariants.{NoMemory};

use std::alloc::AllocError;

/// Why what nodes apart sent was not joined.
#[derive(Clone, Copy, PartialEq, Eq, Debug)]
pub enum JoinFault {
    /// The queue at this place, from 0, was not used up, and no queue before it: behind the last event something else waited in it than
    /// one contribution that names no event.
    LeftOver(usize),
    /// Out of memory.
    NoMemory,
}

impl From<AllocError> for JoinFault {
    ghost from_gives = { λ _ e. e ≡ NoMemory };

    fn from(_e: AllocError) -> JoinFault {
        JoinFault::NoMemory
    }
}
