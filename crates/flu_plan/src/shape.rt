//! Whether the nodes of a written plan are one tree.

ghost use Rattle.std.specs.Prelude.{◌≡◌, ℕ, ◌==◌, ◌+◌, ◌++◌, ◌∷◌, [], ◌<◌, ◌≤◌, ◌^◌, IfOk, OnOk, OnErr, length, reverse, slice_get, false, MatchOption};
ghost use Rattle.std.specs.List.{list_any, list_all};
ghost use Rattle.flu_plan.specs.Faults.{Gives};
ghost use Rattle.flu_plan.specs.Shape.{name_at, with_child, with_kids, with_kids_of, children_of, kids_at, visit, with_visits, walk, preorder, is_met, below};
ghost use Rattle.flu_plan.specs.Shape.{all_below};

use crate::drafts::{DraftNode, Visit};
use crate::fault::PlanFault;
use crate::resolving::tree_at;
use flu_layout::name_of;
use indexmap::IndexSet;
use std::alloc::{AllocError, Global};

/// The node at a place.
pub fn node_at(nodes: &[DraftNode], v: usize) -> Option<&DraftNode>
    ensures { MatchOption result (slice_get nodes.now v ≡ None) (λ node. slice_get nodes.now v ≡ Some node.now) }
{
    nodes.get(v)
}

// The name of the node at a place.
fn name_at<'t>(text: &'t str, nodes: &[DraftNode], v: usize) -> &'t str
    ensures { result.now ≡ name_at text.now nodes.now v }
{
    match node_at(nodes, v) {
        Some(node) => name_of(text, node.name),
        None => "",
    }
}

fn is_child(children: &IndexSet<usize>, v: usize) -> bool
    ensures { result ≡ list_any (λ u. v == u) children.now.keys }
{
    children.contains(&v)
}

fn add_child(children: &mut IndexSet<usize>, v: usize) -> Result<(), PlanFault>
    requires { list_any (λ u. v == u) children.old.keys ≡ false }
    ensures ok { OnOk result (children.new.keys ≡ children.old.keys ++ v ∷ []) }
    ensures err { OnErr result (result ≡ Err PlanFault.NoMemory) }
{
    match children.insert(v) {
        Ok(_) => Ok(()),
        Err(_) => Err(PlanFault::NoMemory),
    }
}

#[tactic(auto, unfolding(crate::specs::Shape::with_child))]
fn note_child(
    alloc: Global,
    text: &str,
    nodes: &[DraftNode],
    children: &mut IndexSet<usize>,
    v: usize,
) -> Result<(), PlanFault>
    ensures { Gives (λ done. children.new.keys) result (with_child text.now nodes.now children.old.keys v) }
{
    tree_at(alloc, !is_child(children, v), name_at(text, nodes, v))?;
    add_child(children, v)
}

#[tactic(auto, unfolding(crate::specs::Shape::with_kids))]
fn note_kids(
    alloc: Global,
    text: &str,
    nodes: &[DraftNode],
    children: &mut IndexSet<usize>,
    node: &DraftNode,
) -> Result<(), PlanFault>
    ensures { Gives (λ done. children.new.keys) result (with_kids text.now nodes.now children.old.keys node.now) }
{
    let Some((left, right)) = node.kids else {
        return Ok(());
    };
    note_child(alloc, text, nodes, children, left)?;
    note_child(alloc, text, nodes, children, right)
}

// The root alone, which is no child.
fn root_alone(alloc: Global) -> Result<IndexSet<usize>, PlanFault>
    ensures ok { IfOk result (λ children. children.keys ≡ 0 ∷ []) }
    ensures err { OnErr result (result ≡ Err PlanFault.NoMemory) }
{
    let mut children = IndexSet::new(alloc);
    add_child(&mut children, 0)?;
    Ok(children)
}

/// The root and all children, or the first child, in the order of the text, that was one before or is the root.
pub fn children_of(
    alloc: Global,
    text: &str,
    nodes: &[DraftNode],
) -> Result<IndexSet<usize>, PlanFault>
    ensures { Gives (λ children. children.keys) result (children_of text.now nodes.now) }
{
    let mut children = root_alone(alloc)?;
    for node in nodes {
        match note_kids(alloc, text, nodes, &mut children, node) {
            Ok(()) => {}
            Err(fault) => return Err(fault),
        }
    }
    Ok(children)
}

fn kids_at(nodes: &[DraftNode], v: usize) -> Option<(usize, usize)>
    ensures { result ≡ kids_at nodes.now v }
{
    let node = node_at(nodes, v)?;
    node.kids
}

// The children of a node at a depth are to be visited next, the left one first.
fn want(
    stack: &mut Vec<Visit>,
    kids: Option<(usize, usize)>,
    depth: usize,
) -> Result<(), AllocError>
    requires { depth + 1 < 2 ^ 64 }
    ensures { OnOk result (reverse stack.new.items ≡ with_visits depth kids (reverse stack.old.items)) }
{
    if let Some((left, right)) = kids {
        stack.push(Visit {
            node: right,
            depth: depth + 1,
        })?;
        stack.push(Visit {
            node: left,
            depth: depth + 1,
        })?;
    }
    Ok(())
}

/// The nodes below the root, in preorder, with their depths.
pub fn preorder(alloc: Global, nodes: &[DraftNode]) -> Result<Vec<Visit>, AllocError>
    ensures order { IfOk result (λ order. order.items ≡ preorder nodes.now) }
    ensures few { IfOk result (λ order. length order.items ≤ length nodes.now) }
{
    let mut order = Vec::new(alloc);
    let mut stack = Vec::new(alloc);
    stack.push(Visit { node: 0, depth: 0 })?;
    'walk: while order.len() < nodes.len() {
        let Some(visit) = stack.pop() else {
            return Ok(order);
        };
        order.push(visit)?;
        want(&mut stack, kids_at(nodes, visit.node), visit.depth)?;
    }
    Ok(order)
}

// The nodes that are met.
fn met(alloc: Global, order: &[Visit]) -> Result<IndexSet<usize>, PlanFault>
    ensures ok { IfOk result (λ found. (v : ℕ) → list_any (λ u. v == u) found.keys ≡ is_met order.now v) }
    ensures err { OnErr result (result ≡ Err PlanFault.NoMemory) }
{
    let mut found = IndexSet::new(alloc);
    for visit in order {
        match found.insert(visit.node) {
            Ok(_) => {}
            Err(_) => return Err(PlanFault::NoMemory),
        }
    }
    Ok(found)
}

/// All nodes are below the root, or else the first that is not.
pub fn all_below(
    alloc: Global,
    text: &str,
    order: &[Visit],
    nodes: &[DraftNode],
) -> Result<(), PlanFault>
    ensures { Gives (λ done. length nodes.now) result (all_below text.now order.now nodes.now) }
{
    let found = met(alloc, order)?;
    for (v, node) in nodes.iter().enumerate() {
        match tree_at(alloc, is_child(&found, v), name_of(text, node.name)) {
            Ok(()) => {}
            Err(fault) => return Err(fault),
        }
    }
    Ok(())
}
