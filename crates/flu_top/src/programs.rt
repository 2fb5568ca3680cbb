//! The job that a file holds.

ghost use Rattle.std.specs.Prelude.{◌≢◌, ◌≤◌, List, ℕ, Err, IfOk, IfErr};
ghost use Rattle.flu_outside.specs.Outside.{WhereTold, SameCounts};
ghost use Rattle.flu_outside.specs.Taking.{TakesFrom};
ghost use Rattle.flu_top.specs.Jobs.{IsJobRefusal};
ghost use Rattle.flu_command.specs.Causes.{IsJobRead};

use flu_grammar::laws::jobs_are_grammar;
use flu_lines::{Refusal, job_refusal};
use flu_model::Program;
use flu_outside::{Files, read_whole};
use flu_parse::read_job;
use std::alloc::Global;

// The most bytes that a job text has.
const MOST_BYTES: usize = 1_048_576;

/// The job that a file holds.
pub fn program_of<F: Files>(alloc: Global, files: &mut F, job: &str) -> Result<Program, Refusal>
    ensures read { IfOk result (λ program. WhereTold (F.left files.old) (F.left files.new) (IsJobRead job.now program)) }
    ensures refused { IfErr result (IsJobRefusal job.now (F.left files.old) (F.left files.new) (F.faults files.old) (F.faults files.new)) }
    ensures taken { WhereTold (F.left files.old) (F.left files.new) (TakesFrom job.now) }
    ensures counts { (n : List ℕ) → F.faults files.old n ≤ F.faults files.new n }
    ensures quiet { result ≢ Err Refusal.ReadFault → SameCounts (F.faults files.old) (F.faults files.new) }
    ensures puts { SameCounts (F.put_faults files.old) (F.put_faults files.new) }
{
    jobs_are_grammar();
    let bytes = read_whole(alloc, files, job, MOST_BYTES)?;
    match read_job(alloc, &bytes) {
        Ok(program) => Ok(program),
        Err(fault) => Err(job_refusal(fault, bytes)),
    }
}
