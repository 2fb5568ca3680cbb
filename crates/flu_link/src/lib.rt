//! The link between a worker of the tree and the worker above it: a lot goes down and comes back. No call waits
//! (`docs/TREE.md`).
#![tactic(auto)]

mod ends;
mod notes;
mod steps;

pub use ends::{Lower, Upper, close, link};
