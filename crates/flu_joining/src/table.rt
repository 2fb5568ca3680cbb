//! Which itags are inside none of some nodes.

ghost use Rattle.std.specs.Prelude.{◌≡◌, ◌<◌, ℕ, false, length, slice_index_or};
ghost use Rattle.std.specs.List.{list_any};
ghost use Rattle.flu_model.specs.Itags.{count_of_itags};
ghost use Rattle.flu_model.specs.Owners as owners;
ghost use Rattle.flu_deps.specs.Validated.{plan_of, IsValidFor};
ghost use Rattle.flu_contribution.specs.Sharing.{is_itag_of_none};

use flu_deps::Valid;
use flu_deps::nodes::{MAX_ITAGS, is_within};
use flu_model::{Itag, Plan, Program, itag_count};

// For each itag whether it is inside none of the nodes, by the itags' numbers.
pub(crate) fn of_none(p: &Program, v: &Valid, nodes_apart: &[u32]) -> [bool; MAX_ITAGS]
    requires { IsValidFor p.now v.now }
    ensures { (i : ℕ) → i < count_of_itags p.now
        → slice_index_or result i false ≡ is_itag_of_none p.now (plan_of v.now).nodes nodes_apart.now i }
{
    let mut table = [false; MAX_ITAGS];
    for i in 0..itag_count(p) {
        let none = is_of_none(p, v, nodes_apart, Itag(i));
        table[i as usize] = none;
    }
    table
}

// Whether an itag is inside none of the nodes.
fn is_of_none(p: &Program, v: &Valid, nodes_apart: &[u32], i: Itag) -> bool
    requires valid { IsValidFor p.now v.now }
    requires in_range { i.0 < count_of_itags p.now }
    ensures { result ≡ is_itag_of_none p.now (plan_of v.now).nodes nodes_apart.now i.0 }
{
    !is_within_one(v.plan(), nodes_apart, v.owner(i))
}

// Whether a node is one of some nodes or below one.
fn is_within_one(plan: &Plan, nodes_apart: &[u32], v: u32) -> bool
    ensures { result ≡ list_any (λ w. owners.is_within plan.now.nodes w v) nodes_apart.now }
{
    nodes_apart.iter().any(|w| is_within(plan, *w, v))
}
