//! The states of a job: what each cell holds, as a finite map, with the join of two states and the cells of a set taken out.
#![tactic(auto)]

pub mod sets;
pub mod state;

pub use flu_model::{Cell, Worth};
pub use sets::CellSet;
pub use state::State;
