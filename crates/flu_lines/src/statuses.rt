//! The status of a call, by which the program says how it ended.

ghost use Rattle.std.specs.Prelude.{◌≡◌};
ghost use Rattle.flu_lines.specs.Statuses.{code};
ghost use Rattle.flu_lines.specs.Answer.{status_of, status_after};

use crate::products::Done;
use crate::refusals::Refusal;

/// The status of a call.
#[derive(Clone, Copy, Debug)]
pub enum Status {
    /// All was done.
    Done,
    /// The words are not a command.
    BadWords,
    /// The job's text has a fault.
    JobFault,
    /// The job is not accepted.
    Conflict,
    /// The plan's text has a fault, or the plan is not valid for the job.
    PlanDefect,
    /// A source has a defect.
    SourceFault,
    /// A file that was read failed.
    ReadFault,
    /// Out failed.
    WriteFault,
    /// Memory ran out.
    NoMemory,
    /// A run can't start.
    SaveDefect,
    /// A checkpoint could not be put.
    PutFault,
    /// A trace has a fault, or stops too early.
    TraceFault,
    /// A partial has a defect.
    PartialDefect,
}

impl Status {
    /// The number of the status, with which the program exits.
    pub fn code(self) -> u8
        ensures { result ≡ code self }
    {
        match self {
            Status::Done => 0,
            Status::BadWords => 2,
            Status::JobFault => 3,
            Status::Conflict => 4,
            Status::PlanDefect => 5,
            Status::SourceFault => 6,
            Status::ReadFault => 7,
            Status::WriteFault => 8,
            Status::NoMemory => 9,
            Status::SaveDefect => 11,
            Status::PutFault => 12,
            Status::TraceFault => 13,
            Status::PartialDefect => 14,
        }
    }
}

/// The status of a call that was done or refused.
pub fn status_after(ended: &Result<Done, Refusal>) -> Status
    ensures { result ≡ status_after ended.now }
{
    match ended {
        Ok(_) => Status::Done,
        Err(refusal) => status_of(refusal),
    }
}

/// The status of a call that was refused.
pub(crate) fn status_of(refusal: &Refusal) -> Status
    ensures { result ≡ status_of refusal.now }
{
    match refusal {
        Refusal::BadWords(_) => Status::BadWords,
        Refusal::JobFault(_, _) => Status::JobFault,
        Refusal::Conflict(_) => Status::Conflict,
        Refusal::PlanDefect(_) => Status::PlanDefect,
        Refusal::SourceFault(_, _) => Status::SourceFault,
        Refusal::ReadFault => Status::ReadFault,
        Refusal::WriteFault => Status::WriteFault,
        Refusal::NoMemory => Status::NoMemory,
        Refusal::SaveDefect(_) => Status::SaveDefect,
        Refusal::PutFault => Status::PutFault,
        Refusal::TraceFault(_) => Status::TraceFault,
    }
}
