//! The plan that is chosen from counts of events.

ghost use Rattle.std.specs.Prelude.{◌≡◌, ◌≤◌, length, IfOk};
ghost use Rattle.flu_model.specs.Itags.{count_of_itags};
ghost use Rattle.flu_deps.specs.Checking.{program_of};
ghost use Rattle.flu_deps.specs.Validated.{plan_of, IsValidFor};
ghost use Rattle.flu_planner.specs.Plans.{IsGreedyPlan};
ghost use Rattle.flu_adaptive.specs.Observed as Observed;
ghost use Rattle.flu_adaptive.specs.Observed.{IsObservedPlan};

use flu_deps::{Checked, Valid};
use flu_planner::plan;
use std::alloc::{AllocError, Global};

// The greatest rate that a job may declare.
const GREATEST_RATE: u64 = 1 << 40;

// How deep an observed plan is at most.
const DEPTH: u32 = 3;

/// The observed plan of these counts of the events of a job's itags.
pub(crate) fn observed_plan(
    alloc: Global,
    checked: &Checked,
    counts: &[u64],
) -> Result<Valid, AllocError>
    requires { length counts.now ≡ count_of_itags (program_of checked.now) }
    ensures of { IfOk result (λ v. IsValidFor (program_of checked.now) v) }
    ensures observed { IfOk result (λ v. IsObservedPlan (program_of checked.now) counts.now (plan_of v).nodes) }
{
    greedy_plan(alloc, checked, counts, DEPTH)
}

/// The greedy plan of this depth for the rates observed from these counts.
pub(crate) fn greedy_plan(
    alloc: Global,
    checked: &Checked,
    counts: &[u64],
    depth: u32,
) -> Result<Valid, AllocError>
    requires counts { length counts.now ≡ count_of_itags (program_of checked.now) }
    requires depth { depth ≤ 6 }
    ensures of { IfOk result (λ v. IsValidFor (program_of checked.now) v) }
    ensures greedy { IfOk result (λ v. IsGreedyPlan (program_of checked.now) (Observed.observed_rates counts.now) depth (plan_of v).nodes) }
{
    let rates = observed_rates(alloc, counts)?;
    plan(alloc, checked, rates.as_slice(), depth)
}

// The rates observed from these counts.
fn observed_rates(alloc: Global, counts: &[u64]) -> Result<Vec<u64>, AllocError>
    ensures { IfOk result (λ rates. rates.items ≡ Observed.observed_rates counts.now) }
{
    let mut rates = Vec::new(alloc);
    for count in counts {
        rates.push((*count).min(GREATEST_RATE))?;
    }
    Ok(rates)
}
