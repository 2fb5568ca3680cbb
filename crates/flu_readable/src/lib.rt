//! What is read of sources can be handed over.
#![tactic(auto)]

mod laws;

pub use laws::what_is_read_is_readable;
