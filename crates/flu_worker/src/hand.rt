//! The shape of what a worker has in its hand.

/// A child of a node.
#[derive(Clone, Copy, PartialEq, Eq, Debug)]
pub enum Side {
    Left,
    Right,
}

/// The shape of what a worker has in its hand (`docs/TREE.md`).
#[derive(Clone, Copy, PartialEq, Eq, Debug)]
pub enum Hand {
    /// Nothing: its lot is with the worker above.
    Empty,
    /// Its lot.
    Whole,
    /// Parts of its forked lot: true if the part is still to be lent. At least one is.
    Lending { left: bool, right: bool },
    /// Nothing: both parts of its lot are lent.
    Down,
    /// Parts that came back: true if the part was taken, one of the two. Both are true only after memory ran out: such a
    /// worker must be discarded.
    Taking { left: bool, right: bool },
}
