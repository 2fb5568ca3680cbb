//! Lots, which move in the tree of workers: a state with two lists of counts, how it is parted and joined (`docs/TREE.md`).
#![tactic(auto)]

mod case;
mod content;
mod counts;
mod gathering;
pub mod laws;
mod lots;
mod note;
mod parting;
mod rights;
mod tree_tables;

pub use case::Case;
pub use content::Content;
pub use counts::Counts;
pub use lots::{Ask, Lot};
pub use note::CaseNote;
pub use parting::{fork, join, opening_lot};
pub use tree_tables::TreeTables;
