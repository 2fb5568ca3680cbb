//! The top call: what the program does with its words, its files and its streams.
#![tactic(auto)]

mod ahead;
mod backup;
mod checking;
mod commands;
mod demo;
mod folding;
pub mod headline;
pub mod laws;
mod openings;
mod planned;
mod planning;
mod plans;
mod products;
mod programs;
mod replaying;
pub mod resuming;
mod running;
mod saves;
mod simulating;
mod sources;
mod tally;
mod top;
mod traces;
mod validating;

pub use planned::{Planned, planned_by};
pub use top::{answer_words, flumina};
