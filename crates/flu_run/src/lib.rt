//! A tree of threads, one for each worker of a plan, which together run the events of a case (`docs/TREE.md`).
#![tactic(auto)]

mod backup;
mod down;
mod ends;
mod engine;
mod feeding;
mod handed;
mod holder;
mod inner;
mod laws;
mod leaf;
mod root;
mod shapes;
mod sharing;
mod sight;
mod tree;
mod up;
mod waiting;

pub use backup::fall_back;
pub use engine::TreeEngine;
pub use holder::HasCase;
pub use root::run_tree;
