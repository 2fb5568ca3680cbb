//! What the readers and the printers of jobs and of plans share: which bytes a written name or text takes, and how printed words
//! are laid out, so that they are read as they were printed.
#![tactic(auto)]

mod keys;
pub mod laws;
mod spelling;

pub use keys::add_keys;
pub use spelling::{inside, name_of, spelled, written_value};
