//! Moments: the order of rows that share a time, as one number for each row, and the ticks of clocks.
#![tactic(auto)]

pub mod laws;
mod moments;
mod ticks;

pub use moments::Moments;
pub use ticks::Ticks;
