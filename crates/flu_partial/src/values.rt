//! What the lines of a partial say.

use flu_model::{Cell, Itag, List, Name, Text};

/// The first line of a partial: whose it is, and from when on.
#[derive(Drop)]
pub struct PartialHead {
    /// The first time that the partial is of, from 0 to 2^63 - 1; none where it is of all times from the first.
    pub first: Option<u64>,
    /// The job in normal form.
    pub job: Text,
    /// The node of the plan whose subtree contributed.
    pub node: Name,
    /// The plan in normal form.
    pub plan: Text,
}

/// What was contributed to a cell.
#[derive(Clone, Copy, PartialEq, Eq, Debug)]
pub struct Amount {
    pub cell: Cell,
    /// What was added to its sum, or the value that its maximum was raised to.
    pub value: i128,
}

/// A text that was emitted.
#[derive(Drop)]
pub struct Emitted {
    /// The time of the event, from 0 to 2^63 - 1.
    pub time: u64,
    /// Its tag, as the report names it.
    pub tag: Text,
    pub text: Text,
}

/// Up to where a contribution goes.
#[derive(Clone, Copy, PartialEq, Eq, Debug)]
pub enum Place {
    /// Before an event: its time, from 0 to 2^63 - 1, and its itag, of a number below 256.
    Before { time: u64, itag: Itag },
    /// Up to the end: the last time that the partial is of, from 0 to 2^63 - 1; none where it is of all times from the first on.
    End { last: Option<u64> },
}

/// What a subtree contributed from one place to the next.
#[derive(Drop)]
pub struct Contribution {
    /// Up to where it goes.
    pub place: Place,
    /// What it contributed to cells, by rising family and key, each cell once.
    pub cells: List<Amount>,
    /// How many events it had.
    pub events: u64,
    /// What it emitted, in order.
    pub outs: List<Emitted>,
}
