//! The fold that joins what nodes apart sent (`docs/SCALE.md`), over queues in memory, and the laws of its report.
#![tactic(auto)]

mod fault;
mod folding;
mod joining;
pub mod laws;
mod queue;
mod table;

pub use fault::JoinFault;
pub use joining::join_sent;
pub use queue::Queue;
