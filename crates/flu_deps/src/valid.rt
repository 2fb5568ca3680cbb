//! Plans that are valid for a job.

ghost use Rattle.std.specs.Prelude.{◌≡◌, ◌<◌, IfSome, length, slice_index, EachIndex};
ghost use Rattle.flu_model.specs.declared.jobs.Program.{Program};
ghost use Rattle.flu_model.specs.Itags.{count_of_itags};
ghost use Rattle.flu_model.specs.Owners.{owner_of, parent_of, are_related};
ghost use Rattle.flu_model.specs.Validity.{IsValid};
ghost use Rattle.flu_deps.specs.Owned.{HasOwners, kids_at};

use crate::checked::Checked;
use crate::nodes;
use crate::nodes::MAX_ITAGS;
use flu_model::{Itag, Plan};

/// A plan that is valid for a job, with the owner of each of the job's itags. No caller makes another.
///
/// Nodes are numbered from 0 in preorder, and itags as the job numbers them.
#[derive(Drop)]
pub struct Valid {
    plan: Plan,
    owners: [u8; MAX_ITAGS],
    pub ghost nodes: { EachIndex owners (λ k. slice_index owners k < length plan.nodes) },
    pub ghost valid: { ∥ ((p : Program) × HasOwners p plan.nodes owners) ∥₁ },
}

impl Valid {
    ghost use Rattle.flu_deps.specs.Checking.{program_of};
    ghost use Rattle.flu_deps.specs.Trees.{AreKids};
    ghost use Rattle.flu_deps.specs.Validated.{plan_of, owner_in, IsValidFor};

    /// The valid plan with its owners. It takes no memory; `validate` of `flu_valid` decides whether a plan is valid.
    pub fn of(c: &Checked, plan: Plan) -> Valid
        requires { IsValid (program_of c.now) plan.nodes }
        ensures valid { IsValidFor (program_of c.now) result }
        ensures plan { plan_of result ≡ plan }
    {
        let owners = nodes::owners(c.program(), &plan);
        Valid { plan, owners }
    }

    /// The node that owns an itag of the job.
    pub fn owner(&self, i: Itag) -> u32
        requires { i.0 < 256 }
        ensures entry { result ≡ owner_in self.now i }
        ensures owner { (p : Program) → IsValidFor p self.now → i.0 < count_of_itags p → owner_of p (plan_of self.now).nodes i ≡ Some result }
        ensures node { result < length (plan_of self.now).nodes }
    {
        u32::from(self.owners[i.0 as usize])
    }

    /// How many nodes the plan has.
    pub fn count(&self) -> u32
        ensures { result ≡ length (plan_of self.now).nodes }
    {
        self.plan.nodes.items().len() as u32
    }

    /// The children of a node, the left one first; none if it is a leaf.
    pub fn kids(&self, w: u32) -> Option<(u32, u32)>
        requires { w < length (plan_of self.now).nodes }
        ensures kids { result ≡ kids_at (plan_of self.now).nodes w }
        ensures nodes { IfSome result (λ kids. (kids.0 < length (plan_of self.now).nodes) × (kids.1 < length (plan_of self.now).nodes)) }
        ensures in_order { IfSome result (λ kids. AreKids (plan_of self.now).nodes w kids.0 kids.1) }
    {
        nodes::kids(&self.plan, w)
    }

    /// The parent of a node; none if it is the root.
    pub fn parent(&self, w: u32) -> Option<u32>
        requires { w < length (plan_of self.now).nodes }
        ensures parent { result ≡ parent_of (plan_of self.now).nodes w }
        ensures node { IfSome result (λ u. u < length (plan_of self.now).nodes) }
    {
        nodes::parent(&self.plan, w)
    }

    /// Whether two nodes are equal or one is an ancestor of the other.
    pub fn related(&self, a: u32, b: u32) -> bool
        requires a { a < length (plan_of self.now).nodes }
        requires b { b < length (plan_of self.now).nodes }
        ensures { result ≡ are_related (plan_of self.now).nodes a b }
    {
        nodes::related(&self.plan, a, b)
    }

    /// The plan.
    pub fn plan(&self) -> &Plan
        ensures { result.now ≡ plan_of self.now }
    {
        &self.plan
    }
}
