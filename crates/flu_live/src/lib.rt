//! Runs of the net: which step may be made, how many steps a run may have at most, and the run that a seed draws, with its steps (`docs/TREE.md`).
#![tactic(auto)]

mod bounding;
mod counts;
mod drawing;
mod engines;
pub mod laws;
mod possible;
mod simulating;

pub use bounding::bound;
pub use counts::StepCounts;
pub use engines::NetEngine;
pub use possible::some_enabled;
pub use simulating::{Run, TracedRun, simulate, trace};
