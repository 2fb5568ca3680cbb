//! What a node apart sends of the streams that it has read, as the lines of a partial (`docs/SCALE.md`).
#![tactic(auto)]

pub mod laws;
mod sending;
mod times;

pub use sending::push_sent;
pub use times::{first_time, last_time};
