//! Why a replay was not completed.

/// Why a trace was not replayed to its end. Lines count from 1.
#[derive(Clone, Copy, Debug, PartialEq, Eq)]
pub enum ReplayFault {
    /// The line is not a line of a trace.
    Bad { line: u64 },
    /// The line's step is not enabled in the net that the lines before it lead to.
    NotEnabled { line: u64 },
    /// The lines end before the net is final. This is the number of the line that would have come next.
    Incomplete { line: u64 },
    /// Bytes could not be read.
    ReadFault,
    /// Memory ran out, or there was no number for a line: one more than a `u64` counts.
    NoMemory,
}
