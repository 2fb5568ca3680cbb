//! Why no report is written of partials and sources.

ghost use Rattle.std.specs.Prelude.{◌≡◌};
ghost use Rattle.flu_combine.specs.declared.fault.CombineFault.{CombineFault};

use flu_apart::Reason;
use flu_receiving::PartialFault;
use flu_streams::SourceFault;
use std::alloc::AllocError;

/// What is wrong with a partial: the first of these, in this order, that applies. A number is that of a node of the plan.
#[derive(Clone, Copy, Debug, PartialEq, Eq)]
pub enum PartialDefect {
    /// It has more than 536,870,912 bytes.
    TooLong,
    /// Its bytes are no partial of the job; that memory ran out is never the reason.
    Text(PartialFault),
    /// It is of another job.
    OtherJob,
    /// It is of another plan.
    OtherPlan,
    /// Its node is none of the plan.
    UnknownNode,
    /// Its node, which is this one, may not be apart, for this reason.
    NotApart(u32, Reason),
    /// Its node, which is this one, is that of an earlier partial: the first whose node is this one, or within it or above it.
    Twice(u32),
    /// The first node is within the second. One of them is its node, and the other that of an earlier partial: the first whose node is within
    /// its own or above it.
    Within(u32, u32),
    /// The times of the first and the last row that it is of do not fit: one is missing, they are not in order, or the last one is not below the end of
    /// times. Only in a job with a clock, where ticks depend on them.
    WrongTimes,
    /// Something that it has is to be joined before an event that did not come, or in another order than the events.
    LeftOver,
}

/// Why a partial is not accepted.
#[derive(Clone, Copy, Debug, PartialEq, Eq)]
pub(crate) enum Refused {
    /// It has a defect.
    Defect(PartialDefect),
    /// It could not be read.
    ReadFault,
    /// Out of memory.
    NoMemory,
}

/// Why no report is written, or not all of it.
#[derive(Clone, Copy, Debug, PartialEq, Eq)]
pub enum CombineFault {
    /// The partial at this place of the list, from 0, has a defect, and no partial before it.
    Partial(usize, PartialDefect),
    /// A source that is read has a defect: the first defect of all sources that are read.
    Source(SourceFault),
    /// A file could not be read.
    ReadFault,
    /// The report could not be written to its end.
    WriteFault,
    /// Out of memory.
    NoMemory,
}

impl From<AllocError> for CombineFault {
    ghost from_gives = { λ _ e. e ≡ CombineFault.NoMemory };

    fn from(_e: AllocError) -> CombineFault {
        CombineFault::NoMemory
    }
}
