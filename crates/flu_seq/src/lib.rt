//! The sequential meaning of a job: the merged list of all events, and the fold of the update over it.
#![tactic(auto)]

mod coming;
pub mod engines;
pub mod folding;
pub mod gates;
pub mod merging;

pub use engines::{Engine, FoldEngine};
pub use folding::fold;
pub use gates::{Gate, OpenGate};
pub use merging::merge;
