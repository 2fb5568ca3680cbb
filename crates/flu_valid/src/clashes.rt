//! The first clash of two nodes that are not related.

ghost use Rattle.std.specs.Prelude.{◌≡◌, ◌<◌, IfSome, IfNone, ◌==◌, ◌&&◌, length, slice_index, ℕ, true, false};
ghost use Rattle.flu_model.specs.Itags.{count_of_itags, tag_of_itag, is_dependent};
ghost use Rattle.flu_model.specs.Owners.{owns, are_related};
ghost use Rattle.flu_valid.specs.Faults.{HasOneOwner, IsFirstPlanFault, IsClash};
ghost use Rattle.flu_valid.specs.LoopSearch.{AreSoleOwners, NoneOfItag, NoneOfNodes, NoneOfNode, AreFirstItags, IsFirstOfNode};

use crate::faults::Invalid;
use flu_deps::dep;
use flu_deps::nodes::{MAX_ITAGS, related};
use flu_model::{Itag, Plan, Program, Tag, itag_count, tag_of};

/// The first clash of a plan in which each itag has the owner that the table says.
pub fn first_clash(p: &Program, plan: &Plan, owners: &[u8; MAX_ITAGS]) -> Option<Invalid>
    requires owners { AreSoleOwners p.now plan.now.nodes owners.now (count_of_itags p.now) }
    requires counted { (k : Itag) → k.0 < count_of_itags p.now → HasOneOwner p.now plan.now.nodes k }
    ensures first { IfSome result (IsFirstPlanFault p.now plan.now.nodes) }
    ensures none { IfNone result ((a : ℕ) → NoneOfNode p.now plan.now.nodes a) }
{
    for a in 0..plan.nodes.items().len() as u32 {
        match first_of_node(p, plan, owners, a) {
            Some(clash) => return Some(clash),
            None => {}
        }
    }
    None
}

// The first clash of a node with a later one.
fn first_of_node(p: &Program, plan: &Plan, owners: &[u8; MAX_ITAGS], a: u32) -> Option<Invalid>
    requires owners { AreSoleOwners p.now plan.now.nodes owners.now (count_of_itags p.now) }
    requires node { a < length plan.now.nodes }
    ensures first { IfSome result (IsFirstOfNode p.now plan.now.nodes a) }
    ensures none { IfNone result (NoneOfNode p.now plan.now.nodes a) }
{
    for b in a + 1..plan.nodes.items().len() as u32 {
        if !related(plan, a, b) {
            match first_of_nodes(p, plan, owners, a, b) {
                Some((i, j)) => return Some(Invalid::Clash { a, i, b, j }),
                None => {}
            }
        }
    }
    None
}

// The first itags of two nodes, which are not related, that are dependent.
fn first_of_nodes(
    p: &Program,
    plan: &Plan,
    owners: &[u8; MAX_ITAGS],
    a: u32,
    b: u32,
) -> Option<(Itag, Itag)>
    requires owners { AreSoleOwners p.now plan.now.nodes owners.now (count_of_itags p.now) }
    requires in_order { a < b }
    requires unrelated { are_related plan.now.nodes a b ≡ false }
    ensures first { IfSome result (λ f. AreFirstItags p.now plan.now.nodes a b f.0 f.1) }
    ensures none { IfNone result (NoneOfNodes p.now plan.now.nodes a b) }
{
    for i in 0..itag_count(p) {
        if u32::from(owners[i as usize]) == a {
            match first_of_itag(p, plan, owners, a, Itag(i), b) {
                Some(j) => return Some((Itag(i), j)),
                None => {}
            }
        }
    }
    None
}

// The first itag of node b that depends on itag i of node a.
fn first_of_itag(
    p: &Program,
    plan: &Plan,
    owners: &[u8; MAX_ITAGS],
    a: u32,
    i: Itag,
    b: u32,
) -> Option<Itag>
    requires owners { AreSoleOwners p.now plan.now.nodes owners.now (count_of_itags p.now) }
    requires in_range { i.0 < count_of_itags p.now }
    requires owner { owns p.now plan.now.nodes a i ≡ true }
    requires in_order { a < b }
    requires unrelated { are_related plan.now.nodes a b ≡ false }
    ensures first { IfSome result (λ j. IsClash p.now plan.now.nodes a i b j × ((l : Itag) → l.0 < j.0 → IsClash p.now plan.now.nodes a i b l → ⊥)) }
    ensures none { IfNone result (NoneOfItag p.now plan.now.nodes a i b) }
{
    let tag = tag_of(p, i);
    for j in 0..itag_count(p) {
        if is_dependent_of(p, owners, tag, b, Itag(j)) {
            return Some(Itag(j));
        }
    }
    None
}

// Whether node b owns itag j, and its tag depends on this one.
fn is_dependent_of(p: &Program, owners: &[u8; MAX_ITAGS], tag: Tag, b: u32, j: Itag) -> bool
    requires { j.0 < count_of_itags p.now }
    ensures { result ≡ ((b == slice_index owners.now j.0) && is_dependent p.now tag (tag_of_itag p.now j)) }
{
    u32::from(owners[j.0 as usize]) == b && dep(p, tag, tag_of(p, j))
}
