//! Runs that are resumed: what their checkpoints stand for, and what they write together. Each law is the contract of a function that
//! does nothing.

ghost use Rattle.flu_top.specs.Resuming.{RunsLeaveCheckpoints, ResumedRunsWriteTheRest, ResumedRunsCompleteReports, ResumedRunsTakeCheckpoints};

use flu_command::one_text::{programs_of_a_job_agree, texts_have_one_job};
use flu_command::resuming::{of_checkpoints, of_resumed_sources};
use flu_save::{checkpoints_are_of_jobs, checkpoints_have_one_meaning, faults_are_no_checkpoints};

/// A run that saves leaves the name that it saves to as it was; or a checkpoint there, and what was written when that was put is in
/// out, maybe with a part of the next round's report after it. This holds at the statuses 0 and 6 to 9. A run that is resumed, and ends
/// with status 0, writes what its checkpoint opens.
pub fn of_resumed_runs()
    ensures leaves { RunsLeaveCheckpoints }
    ensures writes { ResumedRunsWriteTheRest }
{
    checkpoints_have_one_meaning();
}

/// A run that saves left the name that it saves to as it was; or a run that is resumed from what it left there, and ends with status 0,
/// writes the rest of its report: what the first one had written when it put that checkpoint, and what the second one wrote, are together
/// the report of the first one. For this the second run has the same job and the same sources, in which there is no defect.
pub fn of_two_runs()
    ensures { ResumedRunsCompleteReports }
{
    checkpoints_are_of_jobs();
    checkpoints_have_one_meaning();
    of_checkpoints();
    of_resumed_sources();
    programs_of_a_job_agree();
    texts_have_one_job();
}

/// A run that saves left the name that it saves to as it was; or a run of the same job that is resumed from what it left there is refused
/// with status 11 only for a name, that of a source's file which it saves to or is resumed from, and for no fault of the checkpoint. For
/// this the sources of the first run have no defect.
pub fn of_taken_checkpoints()
    ensures { ResumedRunsTakeCheckpoints }
{
    checkpoints_are_of_jobs();
    checkpoints_have_one_meaning();
    faults_are_no_checkpoints();
    of_checkpoints();
    texts_have_one_job();
}
