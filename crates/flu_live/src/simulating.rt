//! The run that a seed draws.

ghost use Rattle.std.specs.Prelude.{◌≡◌, ◌^◌, ◌<◌, [], ◌∷◌, ◌++◌, length, IfOk, OnOk, IfSome, is_some, option_map};
ghost use Rattle.std.specs.List.{AllByRecursion};
ghost use Rattle.std.specs.List.Sorted.{IsPermutation};
ghost use Rattle.flu_model.specs.Folding.{final_state, final_outputs};
ghost use Rattle.flu_model.specs.Listed.{listed};
ghost use Rattle.flu_model.specs.Sorts.{IsStateOf};
ghost use Rattle.flu_cells.specs.Holding.{held};
ghost use Rattle.flu_fork.specs.Lots.{job};
ghost use Rattle.flu_net.specs.Final.{IsFinal};
ghost use Rattle.flu_net.specs.Measure.{steps_left};
ghost use Rattle.flu_live.specs.Drawing.{IsOnItsWay, kept_in};
ghost use Rattle.flu_live.specs.Possible.{IsPossible, enabled_steps};
ghost use Rattle.flu_live.specs.Seeded.{IsSeeded, IsWholeRun};

use crate::bounding::bound;
use crate::counts::StepCounts;
use crate::drawing::{marked, place_of};
use crate::possible::{all_steps, put_enabled};
use flu_cells::State;
use flu_draw::next_draw;
use flu_fork::Case;
use flu_model::Outs;
use flu_net::{Net, Step, StepFault};
use std::alloc::{AllocError, Global};

/// What a run of the net led to: the state and the outputs emitted, how many steps of each kind were made, and the mark, which is
/// made from the places of the drawn steps.
#[derive(Drop)]
pub struct Run {
    pub state: State,
    pub outs: Outs,
    pub steps: StepCounts,
    pub mark: u32,
}

// A run in progress: the net, the number that was drawn last, and the steps that were made, if they are kept.
#[derive(Drop)]
struct Drawing {
    seed: u32,
    last: u32,
    net: Net,
    kept: Option<Vec<Step>>,
    steps: StepCounts,
    mark: u32,
}

/// Runs a case on the net by the steps that a seed draws (`docs/TREE.md`). The state is the fold's, which holds values of the job's
/// sorts, and the outputs are the fold's in some order; the steps and the mark are those of the drawn run.
///
/// # Errors
///
/// Only if memory runs out.
pub fn simulate(alloc: Global, case: &Case, seed: u32) -> Result<Run, AllocError>
    requires { seed < 2 ^ 31 }
    ensures state { IfOk result (λ r. held r.state ≡ final_state (job case.now) (held case.now.opening) (listed case.now.streams)) }
    ensures sorts { IfOk result (λ r. IsStateOf (job case.now).families (held r.state)) }
    ensures outputs { IfOk result (λ r. IsPermutation (final_outputs (job case.now) (held case.now.opening) (listed case.now.streams)) r.outs) }
    ensures drawn { IfOk result (λ r. IsSeeded case.now seed r.steps r.mark) }
{
    let run = drawn_run(alloc, case, seed, None)?;
    run.end(alloc, case)
}

/// The steps of a run, in their order, with how many of each kind there are and the mark of their places.
#[derive(Drop)]
pub struct TracedRun {
    pub steps: Vec<Step>,
    pub counts: StepCounts,
    pub mark: u32,
}

/// The run that a seed draws, step by step (`docs/TREE.md`). Each of its steps names an itag or a worker that exists.
///
/// # Errors
///
/// Only if memory runs out.
pub fn trace(alloc: Global, case: &Case, seed: u32) -> Result<TracedRun, AllocError>
    requires { seed < 2 ^ 31 }
    ensures drawn { IfOk result (λ t. IsWholeRun case.now seed t.steps.items t.counts t.mark) }
    ensures possible { IfOk result (λ t. AllByRecursion (IsPossible case.now) t.steps.items) }
{
    let run = drawn_run(alloc, case, seed, Some(Vec::new(alloc)))?;
    let Drawing {
        kept,
        steps: counts,
        mark,
        ..
    } = run;
    let Some(steps) = kept else {
        unreachable!();
    };
    Ok(TracedRun {
        steps,
        counts,
        mark,
    })
}

// The whole run that a seed draws; it appends its steps to a list, if one is passed in.
fn drawn_run(
    alloc: Global,
    case: &Case,
    seed: u32,
    kept: Option<Vec<Step>>,
) -> Result<Drawing, AllocError>
    requires seed { seed < 2 ^ 31 }
    requires empty { IfSome (kept_in kept) (λ steps. steps ≡ []) }
    ensures way { IfOk result (IsOnItsWay case.now) }
    ensures seed { IfOk result (λ d. d.seed ≡ seed) }
    ensures kept { IfOk result (λ d. is_some (kept_in d.kept) ≡ is_some (kept_in kept)) }
    ensures ended { IfOk result (λ d. enabled_steps d.net ≡ []) }
    ensures is_final { IfOk result (λ d. IsFinal d.net) }
{
    let steps = all_steps(alloc, case)?;
    let mut run = Drawing::begin(alloc, case, seed, kept)?;
    let mut enabled = Vec::new(alloc);
    put_enabled(&mut enabled, &run.net, case, steps.as_slice())?;
    'steps: while !enabled.is_empty() {
        run.turn(alloc, case, enabled.as_slice())?;
        put_enabled(&mut enabled, &run.net, case, steps.as_slice())?;
    }
    run.net.never_blocks();
    run.net.rule();
    Ok(run)
}

// Appends a step to a list, if there is one.
fn keep(kept: &mut Option<Vec<Step>>, s: Step) -> Result<(), AllocError>
    ensures { OnOk result (kept_in kept.new ≡ option_map (λ steps. steps ++ s ∷ []) (kept_in kept.old)) }
{
    let Some(steps) = kept else {
        return Ok(());
    };
    steps.push(s)?;
    Ok(())
}

impl Drawing {
    // The run before its first step.
    fn begin(
        alloc: Global,
        case: &Case,
        seed: u32,
        kept: Option<Vec<Step>>,
    ) -> Result<Drawing, AllocError>
        requires seed { seed < 2 ^ 31 }
        requires empty { IfSome (kept_in kept) (λ steps. steps ≡ []) }
        ensures way { IfOk result (IsOnItsWay case.now) }
        ensures seed { IfOk result (λ d. d.seed ≡ seed) }
        ensures kept { IfOk result (λ d. d.kept ≡ kept) }
    {
        // The bound fits its type, and so do the counts of steps.
        let _most = bound(case);
        let net = Net::new(alloc, case)?;
        Ok(Drawing {
            seed,
            last: seed,
            net,
            kept,
            steps: StepCounts::none(),
            mark: 0,
        })
    }

    // Makes a step drawn from these.
    fn turn(&mut self, alloc: Global, case: &Case, enabled: &[Step]) -> Result<(), AllocError>
        requires way { IsOnItsWay case.now self.old }
        requires enabled { enabled.now ≡ enabled_steps self.old.net }
        requires some { 0 < length enabled.now }
        ensures way { OnOk result (IsOnItsWay case.now self.new) }
        ensures left { OnOk result (steps_left self.new.net < steps_left self.old.net) }
        ensures seed { self.new.seed ≡ self.old.seed }
        ensures kept { OnOk result (is_some (kept_in self.new.kept) ≡ is_some (kept_in self.old.kept)) }
    {
        self.last = next_draw(self.last);
        let place = place_of(self.last, enabled.len());
        let drawn = enabled[place];
        match self.net.step(alloc, case, drawn) {
            Ok(()) => {}
            Err(StepFault::NotEnabled) => unreachable!(),
            Err(StepFault::NoMemory) => return Err(AllocError),
        }
        keep(&mut self.kept, drawn)?;
        self.steps.count(drawn);
        self.mark = marked(self.mark, place);
        Ok(())
    }

    // What the run led to, once no step is enabled.
    fn end(self, alloc: Global, case: &Case) -> Result<Run, AllocError>
        requires way { IsOnItsWay case.now self }
        requires ended { enabled_steps self.net ≡ [] }
        requires is_final { IsFinal self.net }
        ensures state { IfOk result (λ r. held r.state ≡ final_state (job case.now) (held case.now.opening) (listed case.now.streams)) }
        ensures sorts { IfOk result (λ r. IsStateOf (job case.now).families (held r.state)) }
        ensures outputs { IfOk result (λ r. IsPermutation (final_outputs (job case.now) (held case.now.opening) (listed case.now.streams)) r.outs) }
        ensures drawn { IfOk result (λ r. IsSeeded case.now self.seed r.steps r.mark) }
    {
        let Drawing {
            net,
            steps,
            mark,
            ..
        } = self;
        let (state, outs) = net.joined(alloc, case)?;
        Ok(Run {
            state,
            outs,
            steps,
            mark,
        })
    }
}
