//! Reading a job text (`docs/LANGUAGE.md`): from what is written to a job, or to the first fault with its place.
#![tactic(auto)]

mod actions;
mod cells;
mod drafts;
mod faults;
mod fields;
pub mod laws;
mod list_names;
mod listings;
mod lists;
mod names;
mod naming;
mod pieces;
mod printing;
mod printing_actions;
mod printing_terms;
mod reading;
mod resolving;
mod scanning;
mod templates;
mod terms;

pub use faults::JobFault;
pub use printing::print_job;
pub use reading::read_job;
