//! What a round costs by the fold and on the tree of threads, as far as its counts show, so that it is run where it costs less
//! (`docs/TREE.md`, "Which rounds run on the tree"). The result of a round is the same either way, and nothing is claimed but that the
//! estimates are safe and terminate.
#![tactic(auto)]

mod costs;
mod lengths;
mod loads;
mod prices;

pub use costs::{Costs, is_worth_it};
