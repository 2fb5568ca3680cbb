//! `simulate JOB PLAN SEED [--trace]`: the report, or the trace, and the steps of the run that a seed draws on the net of a plan.

ghost use Rattle.std.specs.Prelude.{◌≡◌, ◌≢◌, length, Err, IfOk, OnOk, IfErr};
ghost use Rattle.flu_outside.specs.Outside.{WhereTold, SameCounts};
ghost use Rattle.flu_outside.specs.Taking.{TookFronts};
ghost use Rattle.flu_model.specs.Itags.{count_of_itags};
ghost use Rattle.flu_model.specs.Listed.{listed};
ghost use Rattle.flu_deps.specs.Checking.{program_of};
ghost use Rattle.flu_deps.specs.Validated.{plan_of, IsValidFor};
ghost use Rattle.flu_streams.specs.Files.{files_of, LeavesOthers};
ghost use Rattle.flu_streams.specs.Good.{lists_of};
ghost use Rattle.flu_words.specs.Words.{Simulate};
ghost use Rattle.flu_command.specs.Taking.{TookOnly};
ghost use Rattle.flu_command.specs.Wants.{want};
ghost use Rattle.flu_command.specs.Done.{IsReadName, IsWritten};
ghost use Rattle.flu_top.specs.Folding.{AreSourcesRead, IsReportRefusal};
ghost use Rattle.flu_lines.specs.Products.{line_said};
ghost use Rattle.flu_top.specs.Products.{MaySay};
ghost use Rattle.flu_top.specs.Refusing.{IsRefusal};
ghost use Rattle.flu_command.specs.Simulating.{AreDrawn, IsTextOn};

use crate::planned::{Planned, planned_by};
use crate::products::Product;
use crate::sources::streams_of;
use crate::traces::trace_text;
use flu_cells::State;
use flu_fork::Case;
use flu_lines::{Done, DrawnSteps, JobRead, Refusal, Said};
use flu_live::{Run, simulate};
use flu_model::{Streams, Text};
use flu_outside::Files;
use flu_report::report_text;
use flu_streams::GatherFault;
use flu_words::Seed;
use std::alloc::{AllocError, Global};

/// The report, or the trace if it is asked for, and the steps of the job that a file holds, which is run on the net of the plan
/// that another file holds, by the steps that a seed draws.
pub fn simulate_planned<F: Files>(
    alloc: Global,
    files: &mut F,
    job: &str,
    plan: &str,
    seed: Seed,
    traced: bool,
) -> Result<Product, Refusal>
    ensures written { IfOk result (λ product. WhereTold (F.left files.old) (F.left files.new)
        (IsWritten (Simulate job.now plan.now seed.number traced) product.text (line_said product.says))) }
    ensures says { IfOk result (λ product. MaySay (want (Simulate job.now plan.now seed.number traced)).says product.says) }
    ensures refused { IfErr result (IsRefusal (Simulate job.now plan.now seed.number traced) (F.left files.old) (F.left files.new) (F.faults files.old)
        (F.faults files.new)) }
    ensures fronts { WhereTold (F.left files.old) (F.left files.new) TookFronts }
    ensures only { WhereTold (F.left files.old) (F.left files.new) (TookOnly (IsReadName (F.left files.old) (Simulate job.now plan.now seed.number traced))) }
    ensures quiet { result ≢ Err Refusal.ReadFault → SameCounts (F.faults files.old) (F.faults files.new) }
    ensures puts { SameCounts (F.put_faults files.old) (F.put_faults files.new) }
{
    let planned = match planned_by(alloc, files, job, plan) {
        Ok(planned) => planned,
        Err(refusal) => return Err(refusal),
    };
    match text_of(alloc, files, planned, seed, traced) {
        Ok((text, steps)) => Ok(Product {
            text,
            says: Done::saying(Some(Said::Steps(steps))),
        }),
        Err(refusal) => Err(refusal),
    }
}

// The report or the trace, and the steps, of a job by a plan over its sources' files.
fn text_of<F: Files>(
    alloc: Global,
    files: &mut F,
    planned: Planned,
    seed: Seed,
    traced: bool,
) -> Result<(Text, DrawnSteps), Refusal>
    requires { IsValidFor (program_of planned.checked) planned.valid }
    ensures read { OnOk result (WhereTold (F.left files.old) (F.left files.new) (AreSourcesRead (program_of planned.checked))) }
    ensures text { IfOk result (λ both. WhereTold (F.left files.old) (F.left files.new) (λ old new. IsTextOn traced (program_of planned.checked)
        (plan_of planned.valid).nodes (lists_of (program_of planned.checked) old) seed.number both.0)) }
    ensures drawn { IfOk result (λ both. WhereTold (F.left files.old) (F.left files.new)
        (λ old new. AreDrawn (program_of planned.checked) (plan_of planned.valid).nodes (lists_of (program_of planned.checked) old) seed.number both.1)) }
    ensures refused { IfErr result (IsReportRefusal (program_of planned.checked) (F.left files.old) (F.left files.new) (F.faults files.old)
        (F.faults files.new)) }
    ensures fronts { WhereTold (F.left files.old) (F.left files.new) TookFronts }
    ensures others { WhereTold (F.left files.old) (F.left files.new) (LeavesOthers (files_of (program_of planned.checked).sources)) }
    ensures quiet { result ≢ Err Refusal.ReadFault → SameCounts (F.faults files.old) (F.faults files.new) }
    ensures puts { SameCounts (F.put_faults files.old) (F.put_faults files.new) }
{
    let streams = match streams_of(alloc, files, &planned.checked) {
        Ok(streams) => streams,
        Err(GatherFault::Source(fault)) => {
            return Err(Refusal::SourceFault(JobRead::Accepted(planned.checked), fault));
        }
        Err(GatherFault::ReadFault) => return Err(Refusal::ReadFault),
        Err(GatherFault::NoMemory) => return Err(Refusal::NoMemory),
    };
    let (text, steps) = net_text(alloc, &planned, &streams, seed, traced)?;
    Ok((text, steps))
}

// The report or the trace, and the steps, of the run of some streams from the empty state that a seed draws on the net. The steps are
// kept only for a trace.
fn net_text(
    alloc: Global,
    planned: &Planned,
    streams: &Streams,
    seed: Seed,
    traced: bool,
) -> Result<(Text, DrawnSteps), AllocError>
    requires valid { IsValidFor (program_of planned.now.checked) planned.now.valid }
    requires lists { length (listed streams.now) ≡ count_of_itags (program_of planned.now.checked) }
    ensures text { IfOk result (λ both. IsTextOn traced (program_of planned.now.checked) (plan_of planned.now.valid).nodes
        (listed streams.now) seed.number both.0) }
    ensures drawn { IfOk result (λ both. AreDrawn (program_of planned.now.checked) (plan_of planned.now.valid).nodes (listed streams.now) seed.number both.1) }
{
    let program = planned.checked.program();
    let case = Case::new(
        alloc,
        &planned.checked,
        &planned.valid,
        streams,
        State::new(alloc),
    )?;
    if traced {
        let (lines, steps) = trace_text(alloc, &case, seed.number)?;
        return Ok((lines, steps));
    }
    let run = simulate(alloc, &case, seed.number)?;
    let Run {
        outs,
        steps: counts,
        mark,
        ..
    } = run;
    let text = report_text(alloc, program, outs)?;
    Ok((text, DrawnSteps { counts, mark }))
}
