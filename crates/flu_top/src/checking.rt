//! `check JOB`: the normal form of a job that is accepted.

ghost use Rattle.std.specs.Prelude.{◌≡◌, ◌≢◌, [], Err, IfOk, IfErr};
ghost use Rattle.flu_outside.specs.Outside.{WhereTold, SameCounts};
ghost use Rattle.flu_model.specs.Modes.{IsAccepted};
ghost use Rattle.flu_deps.specs.Checking.{program_of};
ghost use Rattle.flu_outside.specs.Taking.{TookFronts};
ghost use Rattle.flu_words.specs.Words.{Check};
ghost use Rattle.flu_command.specs.Taking.{TookOnly};
ghost use Rattle.flu_command.specs.Done.{IsReadName, IsWritten};
ghost use Rattle.flu_top.specs.Checking.{IsChecked, IsCheckRefusal};
ghost use Rattle.flu_top.specs.Refusing.{IsRefusal};

use crate::products::Printed;
use crate::programs::program_of;
use flu_check::check;
use flu_deps::Checked;
use flu_lines::{JobRead, ReadIn, Refusal};
use flu_model::Program;
use flu_outside::Files;
use flu_parse::print_job;
use std::alloc::Global;

/// The normal form of the job that a file holds.
pub fn check_job<F: Files>(alloc: Global, files: &mut F, job: &str) -> Result<Printed, Refusal>
    ensures written { IfOk result (λ text. WhereTold (F.left files.old) (F.left files.new) (IsWritten (Check job.now) text [])) }
    ensures refused { IfErr result (IsRefusal (Check job.now) (F.left files.old) (F.left files.new) (F.faults files.old) (F.faults files.new)) }
    ensures fronts { WhereTold (F.left files.old) (F.left files.new) TookFronts }
    ensures only { WhereTold (F.left files.old) (F.left files.new) (TookOnly (IsReadName (F.left files.old) (Check job.now))) }
    ensures quiet { result ≢ Err Refusal.ReadFault → SameCounts (F.faults files.old) (F.faults files.new) }
    ensures puts { SameCounts (F.put_faults files.old) (F.put_faults files.new) }
{
    match program_of(alloc, files, job) {
        Ok(program) => normal_form_of(alloc, program),
        Err(refusal) => Err(refusal),
    }
}

// The normal form of a job that is accepted.
fn normal_form_of(alloc: Global, program: Program) -> Result<Printed, Refusal>
    ensures checked { IfOk result (IsChecked program) }
    ensures refused { IfErr result (IsCheckRefusal program) }
{
    let checked = match accepted(program) {
        Ok(checked) => checked,
        Err(refusal) => return Err(refusal),
    };
    let text = print_job(alloc, checked.program())?;
    let job = JobRead::Accepted(checked);
    Ok(Printed {
        text,
        read: ReadIn { job, counts: None },
    })
}

/// A job, if it is accepted.
pub fn accepted(program: Program) -> Result<Checked, Refusal>
    ensures same { IfOk result (λ checked. program_of checked ≡ program) }
    ensures accepted { IfOk result (λ checked. IsAccepted (program_of checked)) }
    ensures refused { IfErr result (IsCheckRefusal program) }
{
    match check(program) {
        Ok(checked) => Ok(checked),
        Err(fault) => Err(Refusal::Conflict(fault)),
    }
}
