//! What the workers of a tree ask again and again of their job and plan, computed once: which itags a node and its ancestors
//! own, and which itags depend on each other (`docs/TREE.md`).
#![tactic(auto)]

mod dependence;
mod shares;
mod tables;

pub use tables::Tables;
