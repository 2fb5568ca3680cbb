//! Plan texts (`docs/LANGUAGE.md`): from a text to a plan of a job, or to the first fault with its place, and back to the text.
#![tactic(auto)]

mod drafts;
mod fault;
mod grammar;
pub mod laws;
mod limits;
mod numbering;
mod printing;
mod reading;
mod resolving;
mod shape;
mod terminals;
mod written;

pub use fault::PlanFault;
pub use printing::print_plan;
pub use reading::read_plan;
