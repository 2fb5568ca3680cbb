//! What an event does to a state: the values of expressions, the texts that are emitted, and the update.
#![tactic(auto)]

pub mod expressions;
mod texts;
pub mod updates;

pub use expressions::value_of;
pub use updates::update;
