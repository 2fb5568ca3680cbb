//! Runs a node apart: reads the sources that the node needs, and writes its partial (`docs/SCALE.md`).
#![tactic(auto)]

mod faults;
mod gathering;
pub mod laws;
mod texts;
mod writing;

pub use faults::PartFault;
pub use writing::{partial_of, write_partial};
