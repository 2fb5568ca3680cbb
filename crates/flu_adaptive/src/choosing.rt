//! How a batch is run: on the tree of threads if that pays off, and otherwise by the backup alone.

ghost use Rattle.std.specs.Prelude.{◌≡◌, ◌≤◌, length, IfOk, IfSome};
ghost use Rattle.flu_model.specs.Itags.{count_of_itags};
ghost use Rattle.flu_deps.specs.Checking.{program_of};
ghost use Rattle.flu_adaptive.specs.Ways.{IsPlannedFor};

use crate::observing::greedy_plan;
use crate::ways::Planned;
use flu_deps::Checked;
use flu_estimate::{Costs, is_worth_it};
use std::alloc::{AllocError, Global};
use std::thread::{Threads, available_parallelism};

// A new plan is made once the batches since the last one cost this many times what the planning does.
const PLANNINGS: u64 = 64;

/// Chooses for each batch of a job, by the batch's own counts, whether it is run on the tree of threads, and by which plan.
#[derive(Drop)]
pub(crate) struct Chooser {
    costs: Costs,
    // How deep a plan is at most.
    depth: u32,
    // What the batches since the last plan was made cost by the fold, in nanoseconds.
    since: u64,
    // The plan that was made last, if it is not lent.
    pub(crate) last: Option<Planned>,
    ghost shallow: { depth ≤ 6 },
}

impl Chooser {
    /// Chooses for a job among plans of at most this depth, for the available processors.
    pub(crate) fn new<R: Threads>(
        rt: &R,
        alloc: Global,
        checked: &Checked,
        depth: u32,
    ) -> Result<Chooser, AllocError>
        requires { depth ≤ 6 }
        ensures { IfOk result (λ chooser. IfSome chooser.last (IsPlannedFor (program_of checked.now))) }
    {
        Ok(Chooser {
            costs: Costs::new(alloc, checked, processors(rt))?,
            depth,
            since: 0,
            last: None,
        })
    }

    /// The plan by which a batch with these counts is to run on the tree of threads; none if the tree does not pay off.
    pub(crate) fn choose(
        &mut self,
        alloc: Global,
        checked: &Checked,
        counts: &[u64],
    ) -> Result<Option<Planned>, AllocError>
        requires counts { length counts.now ≡ count_of_itags (program_of checked.now) }
        requires last { IfSome self.old.last (IsPlannedFor (program_of checked.now)) }
        ensures plan { IfOk result (λ plan. IfSome plan (IsPlannedFor (program_of checked.now))) }
        ensures last { IfSome self.new.last (IsPlannedFor (program_of checked.now)) }
    {
        let fold = self.costs.fold(counts);
        self.renew(alloc, checked, counts, fold)?;
        let Some(plan) = self.last.take() else {
            return Ok(None);
        };
        let tree = self.costs.tree(alloc, &plan.valid, counts)?;
        if is_worth_it(tree, fold) {
            return Ok(Some(plan));
        }
        self.last = Some(plan);
        Ok(None)
    }

    // Makes the plan anew by the counts of a batch that costs this much by the fold, if the batches since the last time cost enough.
    fn renew(
        &mut self,
        alloc: Global,
        checked: &Checked,
        counts: &[u64],
        fold: u64,
    ) -> Result<(), AllocError>
        requires counts { length counts.now ≡ count_of_itags (program_of checked.now) }
        requires last { IfSome self.old.last (IsPlannedFor (program_of checked.now)) }
        ensures { IfSome self.new.last (IsPlannedFor (program_of checked.now)) }
    {
        self.since = self.since.saturating_add(fold);
        if self.since >= self.costs.planning().saturating_mul(PLANNINGS) {
            self.since = 0;
            let anew = self.best(alloc, checked, counts)?;
            self.last = anew;
        }
        Ok(())
    }

    // The one of the greedy plans of these counts by which the tree costs least.
    fn best(
        &self,
        alloc: Global,
        checked: &Checked,
        counts: &[u64],
    ) -> Result<Option<Planned>, AllocError>
        requires { length counts.now ≡ count_of_itags (program_of checked.now) }
        ensures { IfOk result (λ plan. IfSome plan (IsPlannedFor (program_of checked.now))) }
    {
        let mut best = None;
        let mut least = u64::MAX;
        for depth in 1..self.depth + 1 {
            let plan = greedy_plan(alloc, checked, counts, depth)?;
            let cost = self.costs.tree(alloc, &plan, counts)?;
            if cost < least {
                least = cost;
                best = Some(Planned {
                    valid: plan,
                    tables: None,
                });
            }
        }
        Ok(best)
    }
}

// How many processors the run may use; one if that is not known.
fn processors<R: Threads>(rt: &R) -> u64 {
    match available_parallelism(rt) {
        Ok(count) => count.get() as u64,
        Err(_) => 1,
    }
}
