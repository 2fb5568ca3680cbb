//! The report of a job from the partials of nodes apart and the events of all others (`docs/SCALE.md`).
#![tactic(auto)]

mod accepting;
mod combining;
mod fault;
mod gathering;
pub mod laws;
mod reading;
mod spans;

pub use combining::combine;
pub use fault::{CombineFault, PartialDefect};
