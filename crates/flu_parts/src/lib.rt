//! The part commands: `partial` writes what a node apart sends, and `combine` the report of what nodes sent (`docs/SCALE.md`).
#![tactic(auto)]

pub mod laws;
mod naming;
mod running;
mod stops;
mod top;
mod working;

pub use top::answer_part_words;
