//! The tokens of the job and plan languages: names, reserved words, numbers, texts and marks, with blanks and comments
//! between them.
#![tactic(auto)]

pub mod laws;
mod lexeme;
mod reading;
mod words;
mod written;

pub use flu_names::Reserved;
pub use reading::{TextFault, tokens};
pub use words::{Contextual, Mark, Token, Word, contextual_of};
pub use written::{WrittenKeys, WrittenNumber, WrittenSpan};
