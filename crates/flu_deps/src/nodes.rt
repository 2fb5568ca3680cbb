//! Which itags the nodes of a plan own, and how nodes relate to each other.

ghost use Rattle.std.specs.Prelude.{◌≡◌, ◌<◌, ◌^◌, IfSome, length, slice_index, EachIndex};
ghost use Rattle.flu_model.specs.Itags.{count_of_itags};
ghost use Rattle.flu_model.specs.Owners.{node_owns, owns, owner_of, is_kid, parent_of, is_within, are_related};
ghost use Rattle.flu_model.specs.Validity.{IsValid};
ghost use Rattle.flu_deps.specs.Owned.{HasOwners, kids_at};
ghost use Rattle.flu_deps.specs.Trees.{AreKids};

use flu_model::{Itag, Node, Plan, Program, itag_count, matches};

/// How many itags a job has at most.
pub const MAX_ITAGS: usize = 256;

/// Whether a node owns an itag: the node exists, and one of its predicates matches the itag. It takes no memory.
pub fn owns(p: &Program, plan: &Plan, w: u32, i: Itag) -> bool
    requires { i.0 < count_of_itags p.now }
    ensures { result ≡ owns p.now plan.now.nodes w i }
{
    match plan.nodes.items().get(w as usize) {
        Some(node) => node_owns(p, node, i),
        None => false,
    }
}

fn node_owns(p: &Program, node: &Node, i: Itag) -> bool
    requires { i.0 < count_of_itags p.now }
    ensures { result ≡ node_owns p.now i node.now }
{
    node.preds.items().iter().any(|pred| matches(p, pred, i))
}

/// The number of the first node that owns an itag; none if no node does. It takes no memory.
pub fn first_owner(p: &Program, plan: &Plan, i: Itag) -> Option<u32>
    requires { i.0 < count_of_itags p.now }
    ensures owner { result ≡ owner_of p.now plan.now.nodes i }
    ensures node { IfSome result (λ w. w < length plan.now.nodes) }
{
    numbered(place_of_owner(p, plan.nodes.items(), i))
}

fn place_of_owner(p: &Program, nodes: &[Node], i: Itag) -> Option<usize>
    requires { i.0 < count_of_itags p.now }
    ensures { result ≡ owner_of p.now nodes.now i }
{
    nodes.iter().position(|node| node_owns(p, node, i))
}

// A place as the number of a node.
fn numbered(place: Option<usize>) -> Option<u32>
    requires { IfSome place (λ w. w < 2 ^ 32) }
    ensures { result ≡ place }
{
    match place {
        Some(w) => Some(w as u32),
        None => None,
    }
}

/// The children of a node, the left one first; none if it is a leaf.
pub fn kids(plan: &Plan, w: u32) -> Option<(u32, u32)>
    requires { w < length plan.now.nodes }
    ensures kids { result ≡ kids_at plan.now.nodes w }
    ensures nodes { IfSome result (λ kids. (kids.0 < length plan.now.nodes) × (kids.1 < length plan.now.nodes)) }
    ensures in_order { IfSome result (λ kids. AreKids plan.now.nodes w kids.0 kids.1) }
{
    kids_at(plan.nodes.items(), w)
}

fn kids_at(nodes: &[Node], w: u32) -> Option<(u32, u32)>
    requires { w < length nodes.now }
    ensures { result ≡ kids_at nodes.now w }
{
    nodes[w as usize].kids
}

/// The parent of a node; none if it is the root.
pub fn parent(plan: &Plan, w: u32) -> Option<u32>
    ensures parent { result ≡ parent_of plan.now.nodes w }
    ensures node { IfSome result (λ u. u < length plan.now.nodes) }
{
    numbered(place_of_parent(plan.nodes.items(), w))
}

fn place_of_parent(nodes: &[Node], w: u32) -> Option<usize>
    ensures { result ≡ parent_of nodes.now w }
{
    nodes.iter().position(|node| is_kid(w, &node.kids))
}

fn is_kid(w: u32, kids: &Option<(u32, u32)>) -> bool
    ensures { result ≡ is_kid w kids.now }
{
    match kids {
        Some((left, right)) => *left == w || *right == w,
        None => false,
    }
}

/// Whether two nodes are equal or one is an ancestor of the other. It climbs from each, and takes no memory.
pub fn related(plan: &Plan, a: u32, b: u32) -> bool
    ensures { result ≡ are_related plan.now.nodes a b }
{
    is_within(plan, a, b) || is_within(plan, b, a)
}

/// Whether v is w or below it. It climbs, and takes no memory.
pub fn is_within(plan: &Plan, w: u32, v: u32) -> bool
    ensures { result ≡ is_within plan.now.nodes w v }
{
    let mut at = Some(v);
    'climb: for _climbed in 0..plan.nodes.items().len() {
        match at {
            Some(u) => {
                if u == w {
                    return true;
                }
                at = parent(plan, u);
            }
            None => return false,
        }
    }
    false
}

/// The owner of each itag, in a table by the itags' numbers.
pub(crate) fn owners(p: &Program, plan: &Plan) -> [u8; MAX_ITAGS]
    requires { IsValid p.now plan.now.nodes }
    ensures owners { HasOwners p.now plan.now.nodes result }
    ensures nodes { EachIndex result (λ k. slice_index result k < length plan.now.nodes) }
{
    let mut owners = [0; MAX_ITAGS];
    for i in 0..itag_count(p) {
        owners[i as usize] = owner(p, plan, Itag(i));
    }
    owners
}

// The owner of an itag.
fn owner(p: &Program, plan: &Plan, i: Itag) -> u8
    requires valid { IsValid p.now plan.now.nodes }
    requires in_range { i.0 < count_of_itags p.now }
    ensures owner { owner_of p.now plan.now.nodes i ≡ Some result }
    ensures node { result < length plan.now.nodes }
{
    match first_owner(p, plan, i) {
        Some(w) => w as u8,
        None => unreachable!(),
    }
}
