//! How a tag uses a cell.

/// A tag's mode on a cell, read from the text of its kind's actions and the version of the job's language.
#[derive(Clone, Copy, PartialEq, Eq, Debug)]
pub enum Mode {
    /// The actions do not use the cell.
    None,
    /// They only add to it.
    Add,
    /// They only raise it.
    Raise,
    /// They only read it, in version 2.
    Read,
    /// They set, clear or flush it; or they read it, in version 2 beside adding to it or raising it.
    Own,
}
