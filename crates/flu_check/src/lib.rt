//! Whether a job is accepted, and the laws that hold for an accepted one (`docs/MODEL.md`).
#![tactic(auto)]

ghost use Rattle.std.specs.Prelude.{◌≡◌, ◌↔◌, IsOk, IfOk, IfErr, IsTrue};
ghost use Rattle.flu_model.specs.Modes.{IsAccepted};
ghost use Rattle.flu_deps.specs.Checking.{program_of};
ghost use Rattle.flu_model.specs.Sorts.{is_cell_of};
ghost use Rattle.flu_check.specs.Faults.{IsFirstCheckFault};

pub mod laws;
mod search;

pub use flu_deps::Checked;
use flu_model::{Cell, Program, Tag};
use search::first_fault;

/// Two independent tags of a job's sources that conflict on a cell, and the job.
#[derive(Drop)]
pub struct CheckFault {
    pub program: Program,
    pub a: Tag,
    pub b: Tag,
    pub cell: Cell,
}

/// Whether a job is accepted: any two tags that its sources list, equal ones included, that conflict on a cell are dependent.
///
/// The fault is the first conflict of independent tags: by the first tag, then the second, then the cell, where the second
/// is not before the first; tags are in order of their kinds as declared and then their keys, cells of their families and
/// then their keys. In both cases the same job is returned. It takes no memory, and its time is the number of pairs of itags times
/// the time of `dep` and `conflict` of `flu_deps`.
pub fn check(p: Program) -> Result<Checked, CheckFault>
    ensures accepted { IsOk result ↔ IsAccepted p }
    ensures same { IfOk result (λ c. program_of c ≡ p) }
    ensures fault { IfErr result (λ f. IsFirstCheckFault p f.a f.b f.cell) }
    ensures declared { IfErr result (λ f. IsTrue (is_cell_of p.families f.cell)) }
    ensures back { IfErr result (λ f. f.program ≡ p) }
{
    match first_fault(&p) {
        Some(fault) => Err(CheckFault {
            program: p,
            a: fault.a,
            b: fault.b,
            cell: fault.cell,
        }),
        None => Ok(Checked::of(p)),
    }
}
