//! The words of a command line: the commands, and which words are no command (`docs/LANGUAGE.md`, "Words").
#![tactic(auto)]

mod laws;
mod numbers;
mod parts;
mod words;

pub use laws::{languages_are_apart, rounds_have_rows};
pub use numbers::{Depth, Draws, Rows, Seed, USUAL_DEPTH, USUAL_ROWS};
pub use parts::{PartCommand, is_part_call, read_part_words};
pub use words::{BadWords, Command, RunOptions, read_words};
