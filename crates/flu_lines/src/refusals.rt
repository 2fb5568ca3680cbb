//! Why a command was not done.

ghost use Rattle.std.specs.Prelude.{◌≡◌};
ghost use Rattle.flu_lines.specs.Answer.{refusal_of_job, refusal_of_plan};

use flu_check::CheckFault;
use flu_deps::Checked;
use flu_model::Program;
use flu_outside::{PutFault, TakeFault};
use flu_parse::JobFault;
use flu_plan::PlanFault;
use flu_save::SaveFault;
use flu_streams::SourceFault;
use flu_trace::ReplayFault;
use flu_valid::ValidFault;
use flu_words::BadWords;
use std::alloc::AllocError;

/// A job that was read.
#[derive(Drop)]
pub enum JobRead {
    /// Whether it is accepted was not checked.
    Unchecked(Program),
    /// It is accepted.
    Accepted(Checked),
}

impl JobRead {
    ghost use Rattle.flu_lines.specs.Jobs.{program_read};

    /// The job.
    pub fn program(&self) -> &Program
        ensures { result.now ≡ program_read self.now }
    {
        match self {
            JobRead::Unchecked(program) => program,
            JobRead::Accepted(checked) => checked.program(),
        }
    }
}

/// What is wrong with a plan.
#[derive(Drop)]
pub enum PlanDefect {
    /// These bytes, which are under the plan's name, are not the text of a plan of the job.
    Text(PlanFault, Vec<u8>),
    /// The plan is not valid for this job.
    Invalid(Checked, ValidFault),
}

/// What keeps a run from starting.
#[derive(Drop)]
pub enum SaveDefect {
    /// A name that the run saves to, or is resumed from, is the name of the file of this source of the job.
    SameName(Checked, u32),
    /// The bytes under the name that it is resumed from are not a checkpoint of the job.
    Checkpoint(SaveFault),
}

/// Why a command was not done.
#[derive(Drop)]
pub enum Refusal {
    /// The words are not a command.
    BadWords(BadWords),
    /// These bytes, which are under the job's name, are not a job text.
    JobFault(JobFault, Vec<u8>),
    /// The job is not accepted.
    Conflict(CheckFault),
    /// The plan has a defect.
    PlanDefect(PlanDefect),
    /// A source of this job has a defect.
    SourceFault(JobRead, SourceFault),
    /// A file that the command reads failed.
    ReadFault,
    /// Out failed.
    WriteFault,
    /// Memory ran out.
    NoMemory,
    /// The run can't start.
    SaveDefect(SaveDefect),
    /// A checkpoint could not be put.
    PutFault,
    /// The trace has a fault, or stops before the net is final.
    TraceFault(ReplayFault),
}

/// The refusal for a fault in a job text.
pub fn job_refusal(fault: JobFault, text: Vec<u8>) -> Refusal
    ensures { result ≡ refusal_of_job fault text }
{
    match fault {
        JobFault::NoMemory => Refusal::NoMemory,
        fault => Refusal::JobFault(fault, text),
    }
}

/// The refusal for a fault in a plan text.
pub fn plan_refusal(fault: PlanFault, text: Vec<u8>) -> Refusal
    ensures { result ≡ refusal_of_plan fault text }
{
    match fault {
        PlanFault::NoMemory => Refusal::NoMemory,
        fault => Refusal::PlanDefect(PlanDefect::Text(fault, text)),
    }
}

impl From<TakeFault> for Refusal {
    ghost use Rattle.std.specs.Prelude.{◌≡◌};
    ghost use Rattle.flu_lines.specs.Answer.{refusal_of_take};

    ghost from_gives = { λ fault refusal. refusal ≡ refusal_of_take fault };

    fn from(fault: TakeFault) -> Refusal {
        match fault {
            TakeFault::Failed => Refusal::ReadFault,
            TakeFault::NoMemory => Refusal::NoMemory,
        }
    }
}

impl From<PutFault> for Refusal {
    ghost use Rattle.std.specs.Prelude.{◌≡◌};
    ghost use Rattle.flu_lines.specs.Answer.{refusal_of_put};

    ghost from_gives = { λ fault refusal. refusal ≡ refusal_of_put fault };

    fn from(fault: PutFault) -> Refusal {
        match fault {
            PutFault::Failed => Refusal::PutFault,
            PutFault::NoMemory => Refusal::NoMemory,
        }
    }
}

impl From<SaveFault> for Refusal {
    ghost use Rattle.std.specs.Prelude.{◌≡◌};
    ghost use Rattle.flu_lines.specs.Answer.{refusal_of_save};

    ghost from_gives = { λ fault refusal. refusal ≡ refusal_of_save fault };

    fn from(fault: SaveFault) -> Refusal {
        match fault {
            SaveFault::NoMemory => Refusal::NoMemory,
            fault => Refusal::SaveDefect(SaveDefect::Checkpoint(fault)),
        }
    }
}

impl From<ReplayFault> for Refusal {
    ghost use Rattle.std.specs.Prelude.{◌≡◌};
    ghost use Rattle.flu_lines.specs.Answer.{refusal_of_replay};

    ghost from_gives = { λ fault refusal. refusal ≡ refusal_of_replay fault };

    fn from(fault: ReplayFault) -> Refusal {
        match fault {
            ReplayFault::ReadFault => Refusal::ReadFault,
            ReplayFault::NoMemory => Refusal::NoMemory,
            fault => Refusal::TraceFault(fault),
        }
    }
}

impl From<AllocError> for Refusal {
    ghost use Rattle.std.specs.Prelude.{◌≡◌};
    ghost use Rattle.flu_lines.specs.declared.refusals.Refusal.{Refusal};

    ghost from_gives = { λ _ refusal. refusal ≡ Refusal.NoMemory };

    fn from(_e: AllocError) -> Refusal {
        Refusal::NoMemory
    }
}
