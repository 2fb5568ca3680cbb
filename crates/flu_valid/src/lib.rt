//! Whether a plan is valid for a job (`docs/TREE.md`).
#![tactic(auto)]

ghost use Rattle.std.specs.Prelude.{◌≡◌, ◌↔◌, IsOk, IfOk, IfErr, IfSome, IfNone};
ghost use Rattle.flu_model.specs.Validity.{IsValid};
ghost use Rattle.flu_deps.specs.Checking.{program_of};
ghost use Rattle.flu_deps.specs.Validated.{plan_of, IsValidFor};
ghost use Rattle.flu_valid.specs.Faults.{IsFirstPlanFault};

mod clashes;
mod faults;
mod owners;

use clashes::first_clash;
pub use faults::{Invalid, ValidFault};
pub use flu_deps::{Checked, Valid};
use flu_model::{Plan, Program};
use owners::sole_owners;

/// Whether a plan is valid for a job: each itag has exactly one owner, and the itags of nodes that are not related are
/// independent.
///
/// The fault is the first itag, by number, that has no owner or more than one; if there is none it is the first clash, by
/// its first node, its second node, its first itag and its second itag. In both cases the same plan comes back. It takes no
/// memory.
pub fn validate(c: &Checked, plan: Plan) -> Result<Valid, ValidFault>
    ensures valid { IsOk result ↔ IsValid (program_of c.now) plan.nodes }
    ensures of { IfOk result (λ v. IsValidFor (program_of c.now) v) }
    ensures plan { IfOk result (λ v. plan_of v ≡ plan) }
    ensures fault { IfErr result (λ f. IsFirstPlanFault (program_of c.now) plan.nodes f.why) }
    ensures back { IfErr result (λ f. f.plan ≡ plan) }
{
    match first_fault(c.program(), &plan) {
        Some(why) => Err(ValidFault { plan, why }),
        None => Ok(Valid::of(c, plan)),
    }
}

// The first fault of a plan; none if it is valid.
fn first_fault(p: &Program, plan: &Plan) -> Option<Invalid>
    ensures first { IfSome result (IsFirstPlanFault p.now plan.now.nodes) }
    ensures none { IfNone result (IsValid p.now plan.now.nodes) }
{
    flu_laws::dependency_turns();
    match sole_owners(p, plan) {
        Ok(owners) => first_clash(p, plan, &owners),
        Err(why) => Some(why),
    }
}
