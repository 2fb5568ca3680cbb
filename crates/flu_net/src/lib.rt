//! The whole tree of workers as one value: every list of its steps keeps the rule of the net (`docs/TREE.md`).
#![tactic(auto)]

mod edges;
mod finishing;
mod joining;
pub mod laws;
mod net;
mod showing;
mod starting;
mod steps;
mod workers;

pub use edges::Edge;
pub use net::Net;
pub use steps::{Step, StepFault};
