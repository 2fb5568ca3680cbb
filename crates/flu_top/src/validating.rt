//! `valid JOB PLAN`: the normal form of a plan that is valid for a job.

ghost use Rattle.std.specs.Prelude.{◌≡◌, ◌≢◌, [], Err, IfOk, IfErr};
ghost use Rattle.flu_outside.specs.Outside.{WhereTold, SameCounts};
ghost use Rattle.flu_deps.specs.Checking.{program_of};
ghost use Rattle.flu_deps.specs.Validated.{plan_of};
ghost use Rattle.flu_plan.specs.Printing.{printed};
ghost use Rattle.flu_outside.specs.Taking.{TookFronts};
ghost use Rattle.flu_words.specs.Words.{Valid};
ghost use Rattle.flu_command.specs.Taking.{TookOnly};
ghost use Rattle.flu_command.specs.Done.{IsReadName, IsWritten};
ghost use Rattle.flu_lines.specs.declared.refusals.Refusal.{Refusal};
ghost use Rattle.flu_top.specs.Refusing.{IsRefusal};

use crate::planned::{Planned, planned_by};
use flu_lines::Refusal;
use flu_model::Text;
use flu_outside::Files;
use flu_plan::print_plan;
use std::alloc::Global;

/// The normal form of the plan that a file holds, for the job that another file holds.
pub fn valid_plan<F: Files>(
    alloc: Global,
    files: &mut F,
    job: &str,
    plan: &str,
) -> Result<Text, Refusal>
    ensures written { IfOk result (λ text. WhereTold (F.left files.old) (F.left files.new) (IsWritten (Valid job.now plan.now) text [])) }
    ensures refused { IfErr result (IsRefusal (Valid job.now plan.now) (F.left files.old) (F.left files.new) (F.faults files.old) (F.faults files.new)) }
    ensures fronts { WhereTold (F.left files.old) (F.left files.new) TookFronts }
    ensures only { WhereTold (F.left files.old) (F.left files.new) (TookOnly (IsReadName (F.left files.old) (Valid job.now plan.now))) }
    ensures quiet { result ≢ Err Refusal.ReadFault → SameCounts (F.faults files.old) (F.faults files.new) }
    ensures puts { SameCounts (F.put_faults files.old) (F.put_faults files.new) }
{
    match planned_by(alloc, files, job, plan) {
        Ok(planned) => normal_form_of(alloc, planned),
        Err(refusal) => Err(refusal),
    }
}

// The normal form of a plan that is valid for a job.
fn normal_form_of(alloc: Global, planned: Planned) -> Result<Text, Refusal>
    ensures is { IfOk result (λ text. text ≡ printed (program_of planned.checked) (plan_of planned.valid).nodes) }
    ensures refused { IfErr result (λ refusal. refusal ≡ Refusal.NoMemory) }
{
    let text = print_plan(alloc, planned.checked.program(), planned.valid.plan())?;
    Ok(text)
}
