//! The one call that the program makes: the eight commands of `flu_top`, and the part commands of `flu_parts`.
#![tactic(auto)]

mod answers;
mod calls;
pub mod laws;

pub use answers::Answer;
pub use calls::answer_words;
