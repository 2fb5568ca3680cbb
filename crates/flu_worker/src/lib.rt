//! One worker of the tree: what it has seen and counted, what it holds and lends, and what it does next (`docs/TREE.md`).
#![tactic(auto)]

mod choosing;
mod counting;
mod done;
mod finishing;
mod hand;
mod holding;
pub mod laws;
mod moving;
mod worker;

pub use hand::{Hand, Side};
pub use worker::Worker;
