//! The greedy plan of a job for the rates of its itags (`docs/TREE.md`).
#![tactic(auto)]

ghost use Rattle.std.specs.Prelude.{◌≡◌, ◌≤◌, ◌^◌, Ok, IfOk, length, slice_index, EachIndex};
ghost use Rattle.flu_model.specs.Itags.{count_of_itags};
ghost use Rattle.flu_deps.specs.Checking.{program_of};
ghost use Rattle.flu_deps.specs.Validated.{plan_of, IsValidFor};
ghost use Rattle.flu_plan.specs.Reading.{plan_in};
ghost use Rattle.flu_plan.specs.Printing.{printed};
ghost use Rattle.flu_planner.specs.Plans.{IsGreedyPlan};

mod components;
mod dependencies;
mod groups;
pub mod laws;
mod nodes;
mod removal;

pub use flu_deps::{Checked, Valid};
use flu_model::{List, Plan};
use std::alloc::{AllocError, Global};

/// The greedy plan of all itags of an accepted job, for rates listed by the itags' numbers, of a depth of at most 6.
///
/// The graph on some itags joins those that depend on each other. Itags are removed, one by one, by rising rate and for equal rates
/// by number, until the rest has at least two components; none is removed if this holds at once. A node is a leaf that owns all its
/// itags if the depth is 0, if it has at most one itag, or if no such removal leaves two components. Otherwise the removed itags are
/// its own. The components are taken by falling total rate, for equal totals the one with the least itag first, and each goes to the
/// group with the smaller total so far, for equal totals to the one with fewer itags, and for equal numbers to the left one. The left
/// group is planned for the left child and the right group for the right child, with a depth that is one less.
///
/// The nodes are named `n0`, `n1` and so on in preorder. Each itag has a predicate of its own, by rising number. The text of the
/// plan is parsed as this plan again.
///
/// # Errors
///
/// Only if memory runs out.
pub fn plan(alloc: Global, c: &Checked, rates: &[u64], depth: u32) -> Result<Valid, AllocError>
    requires one_each { length rates.now ≡ count_of_itags (program_of c.now) }
    requires small { EachIndex rates.now (λ k. slice_index rates.now k ≤ 2 ^ 40) }
    requires depth { depth ≤ 6 }
    ensures of { IfOk result (λ v. IsValidFor (program_of c.now) v) }
    ensures greedy { IfOk result (λ v. IsGreedyPlan (program_of c.now) rates.now depth (plan_of v).nodes) }
    ensures read_again { IfOk result (λ v. plan_in (program_of c.now) (printed (program_of c.now) (plan_of v).nodes) ≡ Ok (plan_of v).nodes) }
{
    laws::greedy_plans_keep_rules();
    laws::greedy_plans_are_valid();
    laws::greedy_plans_are_read_again();
    let p = c.program();
    let nodes = nodes::greedy(alloc, p, rates, depth)?;
    let plan = Plan {
        nodes: List::of(nodes),
    };
    Ok(Valid::of(c, plan))
}
