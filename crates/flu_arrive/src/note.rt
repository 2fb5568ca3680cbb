//! The table of the arrival words. Word 0 stays 0, and word i + 1 counts the items of itag i.

use atomic_table::{Seat, Table, TableRule};
use std::alloc::Global;

/// What an end knows. No value of it is made.
pub struct Note {
    /// It is the feeder's.
    pub feeds: bool,
    /// How many items each itag has. A clause reads an array as a list, of any length.
    pub limits: [u64; 0],
    /// The words, at the feeder; the numbers found last, at a watch.
    pub counts: [u64; 0],
    /// How many looks it took.
    pub looks: u64,
}

/// The rule of the table. Its key has the limits.
pub struct Counted;

impl TableRule<(), Note, Vec<u64>> for Counted {
    ghost use Rattle.flu_arrive.specs.Notes.{feeding};
    ghost use Rattle.flu_arrive.specs.Rule.{Kept};

    ghost holds = { λ limits. Kept limits.items };

    ghost first = { λ limits. feeding limits.items };
}

pub type Words = Table<(), Note, Vec<u64>, Counted, Global>;

pub type Place = Seat<(), Note>;
