//! What a subtree's thread hands on.

use crate::ends::End;
use flu_fork::Lot;
use flu_model::Outs;
use std::snapshot::Snapshot;
use std::thread::Promise;

/// A subtree that has no event left: its end, its lot, and its outputs.
#[derive(Drop)]
pub struct Done {
    pub end: End,
    pub lot: Lot,
    pub outs: Outs,
}

/// Why a subtree stopped.
#[derive(Clone, Copy, PartialEq, Eq, Debug)]
pub enum Why {
    /// Memory ran out.
    NoMemory,
    /// A thread was refused.
    Refused,
    /// Another worker stopped.
    Stopped,
}

/// How a subtree's thread ended.
#[derive(Drop)]
pub enum Ended {
    Done(Done),
    Cut(Why),
}

/// The end that the thread was given.
#[derive(Drop)]
pub struct FromEnd(pub Snapshot<End>);

impl Promise<Ended> for FromEnd {
    ghost use Rattle.flu_run.specs.EndNotes.{end_note};
    ghost use Rattle.flu_run.specs.Ended.{Keeps};

    ghost kept_by = { λ p r. Keeps (end_note p.0.value) r };
}
