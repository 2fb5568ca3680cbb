//! Which tags depend on each other, how a tag uses a cell, on which cell two tags conflict, accepted jobs (`docs/MODEL.md`), and valid
//! plans (`docs/TREE.md`).
#![tactic(auto)]

mod checked;
mod clashes;
mod conflicts;
mod dependency;
pub mod laws;
mod modes;
pub mod nodes;
mod valid;
mod visits;

pub use checked::Checked;
pub use clashes::Clashes;
pub use conflicts::conflict;
pub use dependency::dep;
pub use flu_model::Mode;
pub use modes::mode;
pub use valid::Valid;
