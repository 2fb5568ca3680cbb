//! The plan that a file holds.

ghost use Rattle.std.specs.Prelude.{◌≢◌, ◌≤◌, List, ℕ, Err, IfOk, IfErr};
ghost use Rattle.flu_outside.specs.Outside.{WhereTold, SameCounts};
ghost use Rattle.flu_outside.specs.Taking.{TakesFrom};
ghost use Rattle.flu_top.specs.Plans.{IsPlanRead, IsTextRefusal};

use flu_grammar::laws::plans_are_grammar;
use flu_lines::{Refusal, plan_refusal};
use flu_model::{Plan, Program};
use flu_outside::{Files, read_whole};
use flu_plan::read_plan;
use std::alloc::Global;

// The most bytes that a plan text has.
const MOST_BYTES: usize = 1_048_576;

/// The plan of a job that a file holds.
pub fn plan_of<F: Files>(
    alloc: Global,
    files: &mut F,
    program: &Program,
    plan: &str,
) -> Result<Plan, Refusal>
    ensures read { IfOk result (λ found. WhereTold (F.left files.old) (F.left files.new) (IsPlanRead program.now plan.now found.nodes)) }
    ensures refused { IfErr result (IsTextRefusal program.now plan.now (F.left files.old) (F.left files.new) (F.faults files.old) (F.faults files.new)) }
    ensures taken { WhereTold (F.left files.old) (F.left files.new) (TakesFrom plan.now) }
    ensures counts { (n : List ℕ) → F.faults files.old n ≤ F.faults files.new n }
    ensures quiet { result ≢ Err Refusal.ReadFault → SameCounts (F.faults files.old) (F.faults files.new) }
    ensures puts { SameCounts (F.put_faults files.old) (F.put_faults files.new) }
{
    plans_are_grammar();
    let bytes = read_whole(alloc, files, plan, MOST_BYTES)?;
    match read_plan(alloc, program, &bytes) {
        Ok(found) => Ok(found),
        Err(fault) => Err(plan_refusal(fault, bytes)),
    }
}
