//! Partials: what the subtree of a node contributes, as lines of JSON, and back.
#![tactic(auto)]

mod contributions;
mod fault;
mod heads;
mod laws;
mod lines;
mod members;
mod order;
mod printing;
mod values;

pub use contributions::read_contribution;
pub use fault::LineFault;
pub use heads::read_head;
pub use laws::{
    contributions_have_one_text, heads_have_one_text, printed_contributions_are_lines,
    printed_heads_are_lines,
};
pub use order::{OrderFault, PartialLines, Reached};
pub use printing::{push_contribution, push_head};
pub use values::{Amount, Contribution, Emitted, PartialHead, Place};
