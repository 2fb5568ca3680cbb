//! Why a part command, `partial` or `combine`, was not done.

ghost use Rattle.std.specs.Prelude.{◌≡◌};
ghost use Rattle.flu_lines.specs.PartAnswer.{status_of_part};

use crate::refusals::Refusal;
use crate::statuses::{Status, status_of};
use flu_apart::Reason;
use flu_combine::PartialDefect;
use flu_deps::{Checked, Valid};

/// What is wrong with the node that a part command names.
#[derive(Clone, Copy, Debug, PartialEq, Eq)]
pub enum NodeDefect {
    /// The plan has no node of that name.
    Unknown,
    /// The node, which has this number in the plan, may not be apart, for this reason.
    NotApart(u32, Reason),
}

/// What is wrong with a file that a part command names as a partial.
#[derive(Clone, Copy, Debug, PartialEq, Eq)]
pub enum FileDefect {
    /// It is also the file of the source with this number, from 0.
    SameName(u32),
    /// What it has is not a partial that can be combined with the others.
    Partial(PartialDefect),
}

/// Why a part command was not done.
#[derive(Drop)]
pub enum PartRefusal<'a> {
    /// For a reason that other commands have too.
    Command(Refusal),
    /// The node of this name has a defect in this plan, which is valid for this job.
    Node(Checked, Valid, &'a str, NodeDefect),
    /// The file of this name has a defect as a partial for this job and this plan, which is valid for the job.
    File(Checked, Valid, &'a str, FileDefect),
}

/// The status of a part command that was refused: 5 for a node with a defect, as for a plan with one, and 14 for a file.
pub fn status_of_part(refusal: &PartRefusal<'_>) -> Status
    ensures { result ≡ status_of_part refusal.now }
{
    match refusal {
        PartRefusal::Command(refusal) => status_of(refusal),
        PartRefusal::Node(_, _, _, _) => Status::PlanDefect,
        PartRefusal::File(_, _, _, _) => Status::PartialDefect,
    }
}
