//! `fold JOB`: the report of the sequential fold of a job's events.

ghost use Rattle.std.specs.Prelude.{◌≡◌, ◌≢◌, [], length, Err, IfOk, IfErr};
ghost use Rattle.flu_outside.specs.Outside.{WhereTold, SameCounts};
ghost use Rattle.flu_model.specs.Contents.{nothing_held};
ghost use Rattle.flu_model.specs.Folding.{final_outputs};
ghost use Rattle.flu_model.specs.Itags.{count_of_itags};
ghost use Rattle.flu_model.specs.Listed.{listed};
ghost use Rattle.flu_model.specs.Reports.{report};
ghost use Rattle.flu_outside.specs.Taking.{TookFronts};
ghost use Rattle.flu_streams.specs.Files.{files_of, LeavesOthers};
ghost use Rattle.flu_words.specs.Words.{Fold};
ghost use Rattle.flu_command.specs.Taking.{TookOnly};
ghost use Rattle.flu_command.specs.Done.{IsReadName, IsWritten};
ghost use Rattle.flu_top.specs.Folding.{IsReported, IsReportRefusal};
ghost use Rattle.flu_top.specs.Refusing.{IsRefusal};

use crate::products::Printed;
use crate::programs::program_of;
use crate::tally::Tally;
use flu_cells::State;
use flu_lines::{Counts, JobRead, ReadIn, Refusal};
use flu_model::{Outs, Program, Streams, Text};
use flu_outside::Files;
use flu_report::report_text;
use flu_seq::fold;
use flu_streams::{GatherFault, gather};
use std::alloc::{AllocError, Global};

/// The report of the job that a file holds.
pub fn fold_job<F: Files>(alloc: Global, files: &mut F, job: &str) -> Result<Printed, Refusal>
    ensures written { IfOk result (λ text. WhereTold (F.left files.old) (F.left files.new) (IsWritten (Fold job.now) text [])) }
    ensures refused { IfErr result (IsRefusal (Fold job.now) (F.left files.old) (F.left files.new) (F.faults files.old) (F.faults files.new)) }
    ensures fronts { WhereTold (F.left files.old) (F.left files.new) TookFronts }
    ensures only { WhereTold (F.left files.old) (F.left files.new) (TookOnly (IsReadName (F.left files.old) (Fold job.now))) }
    ensures quiet { result ≢ Err Refusal.ReadFault → SameCounts (F.faults files.old) (F.faults files.new) }
    ensures puts { SameCounts (F.put_faults files.old) (F.put_faults files.new) }
{
    match program_of(alloc, files, job) {
        Ok(program) => report_of(alloc, files, program),
        Err(refusal) => Err(refusal),
    }
}

// The report of a job over its sources' files.
fn report_of<F: Files>(alloc: Global, files: &mut F, program: Program) -> Result<Printed, Refusal>
    ensures reported { IfOk result (λ report. WhereTold (F.left files.old) (F.left files.new) (IsReported program report)) }
    ensures refused { IfErr result (IsReportRefusal program (F.left files.old) (F.left files.new) (F.faults files.old) (F.faults files.new)) }
    ensures fronts { WhereTold (F.left files.old) (F.left files.new) TookFronts }
    ensures others { WhereTold (F.left files.old) (F.left files.new) (LeavesOthers (files_of program.sources)) }
    ensures quiet { result ≢ Err Refusal.ReadFault → SameCounts (F.faults files.old) (F.faults files.new) }
    ensures puts { SameCounts (F.put_faults files.old) (F.put_faults files.new) }
{
    let streams = match gather(alloc, &program, files) {
        Ok(streams) => streams,
        Err(GatherFault::Source(fault)) => {
            return Err(Refusal::SourceFault(JobRead::Unchecked(program), fault));
        }
        Err(GatherFault::ReadFault) => return Err(Refusal::ReadFault),
        Err(GatherFault::NoMemory) => return Err(Refusal::NoMemory),
    };
    let (report, counts) = fold_report(alloc, &program, &streams)?;
    let job = JobRead::Unchecked(program);
    Ok(Printed {
        text: report,
        read: ReadIn { job, counts },
    })
}

// The report of the fold of all events of some streams from the empty state, and what was counted of them.
fn fold_report(
    alloc: Global,
    program: &Program,
    streams: &Streams,
) -> Result<(Text, Option<Counts>), AllocError>
    requires { length (listed streams.now) ≡ count_of_itags program.now }
    ensures { IfOk result (λ both. both.0 ≡ report program.now (final_outputs program.now nothing_held (listed streams.now))) }
{
    let (state, outs) = fold(alloc, program, State::new(alloc), streams)?;
    let counts = counts_of(alloc, program, streams, state, &outs);
    let report = report_text(alloc, program, outs)?;
    Ok((report, counts))
}

// What is counted of all events of some streams, which left this state and emitted these outputs.
fn counts_of(
    alloc: Global,
    program: &Program,
    streams: &Streams,
    state: State,
    outs: &Outs,
) -> Option<Counts>
    requires { length (listed streams.now) ≡ count_of_itags program.now }
{
    let mut tally = Tally::new(alloc);
    tally.count(program, streams, outs);
    tally.end(alloc, program, &state)
}
