//! Arrival words: how many items of each itag have arrived. One feeder raises them, and watches look at them, in any threads
//! (`docs/TREE.md`).
#![tactic(auto)]

mod ends;
mod note;
mod steps;

pub use ends::{Feeder, Watch, arrivals};
