//! The only owner of each itag, or the first itag that has none or several.

ghost use Rattle.std.specs.Prelude.{◌≡◌, ◌<◌, IfOk, IfErr, IfSome, IfNone, length, ℕ, true, false};
ghost use Rattle.flu_model.specs.Itags.{count_of_itags};
ghost use Rattle.flu_model.specs.Owners.{owns};
ghost use Rattle.flu_valid.specs.Faults.{HasOneOwner, IsFirstPlanFault};
ghost use Rattle.flu_valid.specs.LoopSearch.{IsSoleOwner, IsFaultOf, AreSoleOwners};

use crate::faults::Invalid;
use flu_deps::nodes::{MAX_ITAGS, first_owner, owns};
use flu_model::{Itag, Plan, Program, itag_count};

/// The only owner of each itag, in a table by the itags' numbers, or the first itag that has none or several.
pub fn sole_owners(p: &Program, plan: &Plan) -> Result<[u8; MAX_ITAGS], Invalid>
    ensures owners { IfOk result (λ table. AreSoleOwners p.now plan.now.nodes table (count_of_itags p.now)) }
    ensures counted { IfOk result (λ table. (k : Itag) → k.0 < count_of_itags p.now → HasOneOwner p.now plan.now.nodes k) }
    ensures fault { IfErr result (IsFirstPlanFault p.now plan.now.nodes) }
{
    let mut owners = [0; MAX_ITAGS];
    for i in 0..itag_count(p) {
        match sole_owner(p, plan, Itag(i)) {
            Ok(w) => owners[i as usize] = w,
            Err(why) => return Err(why),
        }
    }
    Ok(owners)
}

// The only owner of an itag.
fn sole_owner(p: &Program, plan: &Plan, i: Itag) -> Result<u8, Invalid>
    requires { i.0 < count_of_itags p.now }
    ensures owner { IfOk result (IsSoleOwner p.now plan.now.nodes i) }
    ensures fault { IfErr result (IsFaultOf p.now plan.now.nodes i) }
{
    match first_owner(p, plan, i) {
        Some(a) => match next_owner(p, plan, i, a) {
            Some(b) => Err(Invalid::OwnedTwice { itag: i, a, b }),
            None => Ok(a as u8),
        },
        None => Err(Invalid::Unowned { itag: i }),
    }
}

// The first node after a that owns an itag.
fn next_owner(p: &Program, plan: &Plan, i: Itag, a: u32) -> Option<u32>
    requires in_range { i.0 < count_of_itags p.now }
    requires node { a < length plan.now.nodes }
    ensures found { IfSome result (λ b. (a < b) × (owns p.now plan.now.nodes b i ≡ true) × ((w : ℕ) → a < w → w < b → owns p.now plan.now.nodes w i ≡ false)) }
    ensures none { IfNone result ((w : ℕ) → a < w → owns p.now plan.now.nodes w i ≡ false) }
{
    for b in a + 1..plan.nodes.items().len() as u32 {
        if owns(p, plan, b, i) {
            return Some(b);
        }
    }
    None
}
