//! A job with a plan for it.

ghost use Rattle.std.specs.Prelude.{◌≡◌, ◌≢◌, ◌≤◌, ℕ, List, Ok, Err, IfOk, IfErr};
ghost use Rattle.flu_outside.specs.Outside.{WhereTold, SameCounts};
ghost use Rattle.flu_model.specs.Modes.{IsAccepted};
ghost use Rattle.flu_deps.specs.Checking.{program_of};
ghost use Rattle.flu_deps.specs.Validated.{plan_of, IsValidFor};
ghost use Rattle.flu_outside.specs.Taking.{TookFronts};
ghost use Rattle.flu_planner.specs.Plans.{IsGreedyPlan};
ghost use Rattle.flu_words.specs.Words.{Valid as ValidCommand};
ghost use Rattle.flu_command.specs.Taking.{TookOnly};
ghost use Rattle.flu_command.specs.Rates.{source_rates};
ghost use Rattle.flu_command.specs.Done.{IsReadName};
ghost use Rattle.flu_command.specs.Ready.{IsReady, HasNodes};
ghost use Rattle.flu_top.specs.Checking.{IsCheckRefusal};
ghost use Rattle.flu_top.specs.Refusing.{IsRefusal};

use crate::checking::accepted;
use crate::plans::plan_of;
use crate::programs::program_of;
use flu_command::source_rates;
use flu_deps::{Checked, Valid};
use flu_lines::{PlanDefect, Refusal};
use flu_model::Program;
use flu_outside::Files;
use flu_planner::plan;
use flu_valid::validate;
use flu_words::Depth;
use std::alloc::Global;

/// An accepted job, and a plan that is valid for it.
#[derive(Drop)]
pub struct Planned {
    /// The job, which is accepted.
    pub checked: Checked,
    /// The plan, which is valid for the job.
    pub valid: Valid,
}

/// The job under one name and the plan under another, which `valid JOB PLAN` would accept. The job is read first, and the plan only if the job
/// is accepted; no other name is read, and none is written.
///
/// # Errors
///
/// The refusal of `valid JOB PLAN`: the job's text has a fault, the job is not accepted, the plan's text has a fault, the plan is not valid for
/// the job, a file failed, or memory ran out.
pub fn planned_by<F: Files>(
    alloc: Global,
    files: &mut F,
    job: &str,
    plan: &str,
) -> Result<Planned, Refusal>
    ensures accepted { IfOk result (λ planned. IsAccepted (program_of planned.checked)) }
    ensures valid { IfOk result (λ planned. IsValidFor (program_of planned.checked) planned.valid) }
    ensures ready { IfOk result (λ planned. WhereTold (F.left files.old) (F.left files.new)
        (IsReady (ValidCommand job.now plan.now) (program_of planned.checked))) }
    ensures nodes { IfOk result (λ planned. WhereTold (F.left files.old) (F.left files.new)
        (HasNodes job.now plan.now (program_of planned.checked) (plan_of planned.valid).nodes)) }
    ensures refused { IfErr result (IsRefusal (ValidCommand job.now plan.now) (F.left files.old) (F.left files.new) (F.faults files.old) (F.faults files.new)) }
    ensures fronts { WhereTold (F.left files.old) (F.left files.new) TookFronts }
    ensures only { WhereTold (F.left files.old) (F.left files.new) (TookOnly (IsReadName (F.left files.old) (ValidCommand job.now plan.now))) }
    ensures counts { (n : List ℕ) → F.faults files.old n ≤ F.faults files.new n }
    ensures quiet { result ≢ Err Refusal.ReadFault → SameCounts (F.faults files.old) (F.faults files.new) }
    ensures puts { SameCounts (F.put_faults files.old) (F.put_faults files.new) }
{
    let program = match program_of(alloc, files, job) {
        Ok(program) => program,
        Err(refusal) => return Err(refusal),
    };
    let checked = match accepted(program) {
        Ok(checked) => checked,
        Err(refusal) => return Err(refusal),
    };
    let found = match plan_of(alloc, files, checked.program(), plan) {
        Ok(found) => found,
        Err(refusal) => return Err(refusal),
    };
    match validate(&checked, found) {
        Ok(valid) => Ok(Planned { checked, valid }),
        Err(fault) => Err(Refusal::PlanDefect(PlanDefect::Invalid(checked, fault))),
    }
}

/// A job, if it is accepted, with its greedy plan, by the rates of its sources.
pub fn planned_greedily(alloc: Global, program: Program, depth: Depth) -> Result<Planned, Refusal>
    ensures same { IfOk result (λ planned. program_of planned.checked ≡ program) }
    ensures accepted { IfOk result (λ planned. IsAccepted (program_of planned.checked)) }
    ensures valid { IfOk result (λ planned. IsValidFor (program_of planned.checked) planned.valid) }
    ensures greedy { IfOk result (λ planned. IsGreedyPlan (program_of planned.checked) (source_rates (program_of planned.checked)) depth.levels
        (plan_of planned.valid).nodes) }
    ensures refused { IfErr result (IsCheckRefusal program) }
{
    let checked = match accepted(program) {
        Ok(checked) => checked,
        Err(refusal) => return Err(refusal),
    };
    let rates = source_rates(alloc, checked.program())?;
    let valid = plan(alloc, &checked, &rates, depth.levels)?;
    Ok(Planned { checked, valid })
}
