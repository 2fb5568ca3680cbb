//! An engine whose plan can follow the counts of the events that it has run (`docs/TREE.md`, "A plan that follows the counts").
#![tactic(auto)]

mod adaptive;
mod beside;
mod choosing;
mod counting;
mod crossing;
mod observing;
mod ways;

pub use adaptive::Adaptive;
pub use crossing::programs_are_shared;
