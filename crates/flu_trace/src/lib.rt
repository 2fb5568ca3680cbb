//! Traces of the net as text, and their replay (`docs/TREE.md`, "Traces").
#![tactic(auto)]

mod faults;
pub mod laws;
mod numbers;
mod reading;
mod replaying;
mod writing;

pub use faults::ReplayFault;
pub use reading::read_step;
pub use replaying::replay;
pub use writing::step_line;
