//! The bytes of a partial, read as what a node apart sent (`docs/SCALE.md`).
#![tactic(auto)]

mod cutting;
mod fault;
pub mod laws;
mod receiving;

pub use fault::PartialFault;
pub use receiving::{Received, read_partial};
