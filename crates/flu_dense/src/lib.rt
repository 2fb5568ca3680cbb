//! Tables with a place for each of 4,096 slots, of which those that are in use alone take memory, and maps from any numbers
//! that are made of such tables.
#![tactic(auto)]

mod mask;
mod row;
pub mod sparse;
pub mod table;

pub use sparse::Sparse;
pub use table::Dense;
