//! What the program does when it is called: its words, over the files and the streams of the system.
#![tactic(auto)]

mod asking;
mod calling;
mod help;
mod progress;
mod watched;
mod words;

pub use calling::{answer, answer_call};
pub use help::{HELP, VERSION};
