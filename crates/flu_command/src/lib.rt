//! What a command means: the files that it reads, what it asks of them, what it writes, what refuses it and what it leaves; and the laws of
//! that, by which the call that runs commands is proved.
#![tactic(auto)]

pub mod calling;
pub mod demos;
pub mod determining;
pub mod mending;
pub mod one_text;
mod rates;
pub mod resuming;

pub use rates::source_rates;
