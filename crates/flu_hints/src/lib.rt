//! What is written after the line of an answer if hints are wanted. Nothing is claimed of it.
#![tactic(auto)]

mod conflicts;
mod endings;
mod hints;
mod jobs;
mod limits;
mod missing;
mod parts;
mod places;
mod plans;
mod reasons;
mod row_reasons;
mod rows;
mod sizes;
mod spans;
mod texts;
mod traces;
mod unused;
mod words;

pub use hints::hint;
pub use limits::limit_place;
pub use parts::part_hint;
pub use reasons::Failure;
pub use sizes::bytes_to_read;
