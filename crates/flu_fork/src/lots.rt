//! What moves in the tree of workers.

use crate::counts::Counts;
use flu_cells::State;
use flu_model::Itag;

/// What moves in the tree of workers: a state, and the events whose effects it holds: from `since` to below `upto`, by itag.
#[derive(Drop)]
pub struct Lot {
    /// What each cell holds.
    pub state: State,
    /// How many events of each itag came before those whose effects the state holds.
    pub since: Counts,
    /// How many events of each itag came before those that are still to be done.
    pub upto: Counts,
}

/// An event that is asked for, by its itag and its place among the events of that itag, from 0.
#[derive(Clone, Copy, PartialEq, Eq, Debug)]
pub struct Ask {
    /// The event's itag.
    pub itag: Itag,
    /// Its place among the events of that itag.
    pub index: u64,
}
