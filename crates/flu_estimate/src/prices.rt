//! What the steps of a run cost, in nanoseconds.
//!
//! `bench/measure.py prices PROGRAM` measures them, and `docs/PERFORMANCE.md`, "Rounds without a plan", shows what it found on four
//! processors beside other work, next to these. Most prices of the tree are set above what was measured with few workers, so that a round
//! is folded if it is close: what a worker waits grows if there are more workers than processors, or other programs. Only the ratios
//! of the prices count.

/// An event in the fold, without its actions: it is merged with the others, and its kind is looked up.
pub(crate) const EVENT: u64 = 70;

/// An action, without its expressions and texts.
pub(crate) const ACTION: u64 = 20;

/// A node of an expression.
pub(crate) const TERM: u64 = 3;

/// A piece of a text that is emitted.
pub(crate) const PIECE: u64 = 30;

/// An event at a worker instead of the fold, without its actions: the worker's turn, in which it looks for its next event.
pub(crate) const TURN: u64 = 120;

/// An itag that a worker owns, at each of its events, which the worker compares with the next event of each itag.
pub(crate) const LOOK: u64 = 16;

/// How long a worker waits until both children have its ask and give their lots, and until they continue with what it lends them.
pub(crate) const TRIP: u64 = 3000;

/// What one worker does for a lot that it gives up and gets back.
pub(crate) const HANDOVER: u64 = 2000;

/// A cell that goes up or down with a lot.
pub(crate) const CELL: u64 = 100;

/// A worker's start and end: its thread, its links and its mailbox.
pub(crate) const WORKER: u64 = 25_000;

/// A check whether two itags depend on each other, for each `depends`; making a tree takes one for each pair.
pub(crate) const QUESTION: u64 = 2;

/// A step of the planner, which takes about as many of them as the cube of the number of itags.
pub(crate) const STEP: u64 = 2;
