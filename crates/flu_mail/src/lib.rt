//! What a worker of the tree has seen and counted of each itag, and which events it may take (`docs/TREE.md`).
#![tactic(auto)]

mod entries;
mod keys;
pub mod laws;
mod mailbox;
mod order;
mod owners;
mod passing;
mod places;
mod waiting;

pub use mailbox::Mailbox;
