//! `plan JOB`: the greedy plan of a job.

ghost use Rattle.std.specs.Prelude.{◌≢◌, [], Err, IfOk, IfErr};
ghost use Rattle.flu_outside.specs.Outside.{WhereTold, SameCounts};
ghost use Rattle.flu_outside.specs.Taking.{TookFronts};
ghost use Rattle.flu_words.specs.Words.{Plan};
ghost use Rattle.flu_command.specs.Taking.{TookOnly};
ghost use Rattle.flu_command.specs.Done.{IsReadName, IsWritten};
ghost use Rattle.flu_top.specs.Checking.{IsCheckRefusal};
ghost use Rattle.flu_top.specs.Planning.{IsPlanned};
ghost use Rattle.flu_top.specs.Refusing.{IsRefusal};

use crate::planned::planned_greedily;
use crate::programs::program_of;
use flu_lines::Refusal;
use flu_model::{Program, Text};
use flu_outside::Files;
use flu_plan::print_plan;
use flu_words::Depth;
use std::alloc::Global;

/// The text of the greedy plan of the job that a file holds.
pub fn plan_job<F: Files>(
    alloc: Global,
    files: &mut F,
    job: &str,
    depth: Depth,
) -> Result<Text, Refusal>
    ensures written { IfOk result (λ text. WhereTold (F.left files.old) (F.left files.new) (IsWritten (Plan job.now depth.levels) text [])) }
    ensures refused { IfErr result (IsRefusal (Plan job.now depth.levels) (F.left files.old) (F.left files.new) (F.faults files.old) (F.faults files.new)) }
    ensures fronts { WhereTold (F.left files.old) (F.left files.new) TookFronts }
    ensures only { WhereTold (F.left files.old) (F.left files.new) (TookOnly (IsReadName (F.left files.old) (Plan job.now depth.levels))) }
    ensures quiet { result ≢ Err Refusal.ReadFault → SameCounts (F.faults files.old) (F.faults files.new) }
    ensures puts { SameCounts (F.put_faults files.old) (F.put_faults files.new) }
{
    match program_of(alloc, files, job) {
        Ok(program) => plan_text(alloc, program, depth),
        Err(refusal) => Err(refusal),
    }
}

// The text of the greedy plan of a job that is accepted, by the rates of its sources.
fn plan_text(alloc: Global, program: Program, depth: Depth) -> Result<Text, Refusal>
    ensures planned { IfOk result (IsPlanned program depth.levels) }
    ensures refused { IfErr result (IsCheckRefusal program) }
{
    let planned = match planned_greedily(alloc, program, depth) {
        Ok(planned) => planned,
        Err(refusal) => return Err(refusal),
    };
    let text = print_plan(alloc, planned.checked.program(), planned.valid.plan())?;
    Ok(text)
}
