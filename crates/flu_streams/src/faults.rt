//! The faults of sources.

use thiserror::Error;

/// Which rule a row of a source breaks.
#[derive(Clone, Copy, Debug, PartialEq, Eq)]
pub enum Why {
    /// The line is no row, or it has behind its tag other fields than its kind has, or one of no form.
    BadRow,
    /// The source does not list the tag.
    UnknownTag,
    /// The row names an item that its kind's list does not have.
    UnknownItem,
    /// An earlier row has the same time, or the time is not above the greatest one so far, `last`, less the source's slack. In version 3 the time is
    /// below that one less the slack.
    Disordered { last: u64, got: u64 },
    /// The file stops without `end`: the row is the one after its last line.
    Unclosed,
    /// There is a row after `end`.
    AfterEnd,
    /// The sources have more items than may be held, a file has more lines than it may have, or in version 3 a source has more rows at one time than
    /// it may have: the first count past the limit.
    TooMany { count: u64 },
}

/// The first defect of a source.
#[derive(Clone, Copy, Debug, PartialEq, Eq)]
pub struct SourceFault {
    /// The source's number, from 0, as declared.
    pub source: u32,
    /// The line's number, from 1.
    pub row: u64,
    pub why: Why,
}

/// Why there are no streams.
#[derive(Clone, Copy, Debug, PartialEq, Eq, Error)]
pub enum GatherFault {
    /// A source has a defect.
    #[error("a source has a defect")]
    Source(SourceFault),
    /// Bytes of a source's file could not be taken.
    #[error("a read failed")]
    ReadFault,
    /// There was no memory.
    #[error("out of memory")]
    NoMemory,
}
