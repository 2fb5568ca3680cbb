//! `replay JOB PLAN TRACE`: the report of the run of a trace's steps on the net of a plan.

ghost use Rattle.std.specs.Prelude.{◌≡◌, ◌≢◌, [], length, Err, IfOk, OnOk, IfErr};
ghost use Rattle.flu_outside.specs.Outside.{WhereTold, SameCounts};
ghost use Rattle.flu_outside.specs.Taking.{bytes_left, TakesFrom, TookFronts, IsReadOut};
ghost use Rattle.flu_model.specs.Contents.{nothing_held};
ghost use Rattle.flu_model.specs.Folding.{final_outputs};
ghost use Rattle.flu_model.specs.Itags.{count_of_itags};
ghost use Rattle.flu_model.specs.Listed.{listed};
ghost use Rattle.flu_model.specs.Reports.{report};
ghost use Rattle.flu_deps.specs.Checking.{program_of};
ghost use Rattle.flu_deps.specs.Validated.{plan_of, IsValidFor};
ghost use Rattle.flu_trace.specs.Replaying.{Complete};
ghost use Rattle.flu_words.specs.Words.{Replay};
ghost use Rattle.flu_command.specs.Taking.{TookOnly};
ghost use Rattle.flu_command.specs.Done.{IsReadName, IsWritten};
ghost use Rattle.flu_top.specs.Refusing.{IsRefusal};
ghost use Rattle.flu_command.specs.Replaying.{EndsOnNet};
ghost use Rattle.flu_top.specs.Replays.{IsNetRefusal, IsReplayDone, IsReplayRefusal, IsReadIn, StaysEnded};

use crate::planned::{Planned, planned_by};
use crate::sources::streams_of;
use flu_cells::State;
use flu_fork::Case;
use flu_lines::{JobRead, Refusal};
use flu_model::{Streams, Text};
use flu_outside::Files;
use flu_report::report_text;
use flu_streams::GatherFault;
use flu_trace::replay;
use std::alloc::Global;

/// The report of the job that a file holds, which is run on the net of the plan that another file holds, by the steps of the trace
/// that a third one holds.
pub fn replay_planned<F: Files>(
    alloc: Global,
    files: &mut F,
    job: &str,
    plan: &str,
    trace: &str,
) -> Result<Text, Refusal>
    ensures written { IfOk result (λ text. WhereTold (F.left files.old) (F.left files.new) (IsWritten (Replay job.now plan.now trace.now) text [])) }
    ensures refused { IfErr result (IsRefusal (Replay job.now plan.now trace.now) (F.left files.old) (F.left files.new) (F.faults files.old)
        (F.faults files.new)) }
    ensures fronts { WhereTold (F.left files.old) (F.left files.new) TookFronts }
    ensures only { WhereTold (F.left files.old) (F.left files.new) (TookOnly (IsReadName (F.left files.old) (Replay job.now plan.now trace.now))) }
    ensures quiet { result ≢ Err Refusal.ReadFault → SameCounts (F.faults files.old) (F.faults files.new) }
    ensures puts { SameCounts (F.put_faults files.old) (F.put_faults files.new) }
{
    let planned = match planned_by(alloc, files, job, plan) {
        Ok(planned) => planned,
        Err(refusal) => return Err(refusal),
    };
    report_of(alloc, files, planned, trace)
}

// The report of a job by a plan and a trace over its sources' files.
fn report_of<F: Files>(
    alloc: Global,
    files: &mut F,
    planned: Planned,
    trace: &str,
) -> Result<Text, Refusal>
    requires { IsValidFor (program_of planned.checked) planned.valid }
    ensures replayed { IfOk result (λ text. WhereTold (F.left files.old) (F.left files.new)
        (IsReplayDone (program_of planned.checked) (plan_of planned.valid).nodes trace.now text)) }
    ensures stays { OnOk result (WhereTold (F.left files.old) (F.left files.new) StaysEnded) }
    ensures refused { IfErr result (IsReplayRefusal (program_of planned.checked) (plan_of planned.valid).nodes trace.now (F.left files.old) (F.left files.new)
        (F.faults files.old) (F.faults files.new)) }
    ensures fronts { WhereTold (F.left files.old) (F.left files.new) TookFronts }
    ensures only { WhereTold (F.left files.old) (F.left files.new) (λ old new. TookOnly (IsReadIn (program_of planned.checked) trace.now old) old new) }
    ensures quiet { result ≢ Err Refusal.ReadFault → SameCounts (F.faults files.old) (F.faults files.new) }
    ensures puts { SameCounts (F.put_faults files.old) (F.put_faults files.new) }
{
    let streams = match streams_of(alloc, files, &planned.checked) {
        Ok(streams) => streams,
        Err(GatherFault::Source(fault)) => {
            return Err(Refusal::SourceFault(JobRead::Accepted(planned.checked), fault));
        }
        Err(GatherFault::ReadFault) => return Err(Refusal::ReadFault),
        Err(GatherFault::NoMemory) => return Err(Refusal::NoMemory),
    };
    net_report(alloc, files, &planned, &streams, trace)
}

// The report of the run of some streams from the empty state by the steps of a trace on the net.
fn net_report<F: Files>(
    alloc: Global,
    files: &mut F,
    planned: &Planned,
    streams: &Streams,
    trace: &str,
) -> Result<Text, Refusal>
    requires valid { IsValidFor (program_of planned.now.checked) planned.now.valid }
    requires lists { length (listed streams.now) ≡ count_of_itags (program_of planned.now.checked) }
    ensures report { IfOk result (λ text. text ≡ report (program_of planned.now.checked)
        (final_outputs (program_of planned.now.checked) nothing_held (listed streams.now))) }
    ensures complete { OnOk result (WhereTold (F.left files.old) (F.left files.new)
        (λ old new. EndsOnNet (program_of planned.now.checked) (plan_of planned.now.valid).nodes (listed streams.now) (bytes_left old trace.now) Complete)) }
    ensures end { OnOk result (IsReadOut trace.now (F.left files.new)) }
    ensures refused { IfErr result (IsNetRefusal (program_of planned.now.checked) (plan_of planned.now.valid).nodes (listed streams.now) trace.now
        (F.left files.old) (F.left files.new) (F.faults files.old) (F.faults files.new)) }
    ensures taken { WhereTold (F.left files.old) (F.left files.new) (TakesFrom trace.now) }
    ensures quiet { result ≢ Err Refusal.ReadFault → SameCounts (F.faults files.old) (F.faults files.new) }
    ensures puts { SameCounts (F.put_faults files.old) (F.put_faults files.new) }
{
    let program = planned.checked.program();
    let case = Case::new(
        alloc,
        &planned.checked,
        &planned.valid,
        streams,
        State::new(alloc),
    )?;
    let (_, outs) = replay(alloc, &case, trace, files)?;
    let text = report_text(alloc, program, outs)?;
    Ok(text)
}
