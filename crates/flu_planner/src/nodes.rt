//! The nodes of the greedy plan, in preorder.

ghost use Rattle.std.specs.Prelude.{◌≡◌, ◌≤◌, ◌<◌, ◌+◌, ◌^◌, ℕ, [], ◌∷◌, map, IfOk, IsTrue, Contains};
ghost use Rattle.flu_model.specs.Itags.{count_of_itags};
ghost use Rattle.flu_model.specs.Owners.{is_keyed};
ghost use Rattle.flu_planner.specs.Graphs.{is_rising};
ghost use Rattle.flu_planner.specs.Plans.{all_itags, pred_of, node_of, IsGreedyPlan};
ghost use Rattle.flu_planner.specs.LoopSearch.{IsSubtree};
ghost use Rattle.flu_planner.specs.LoopTables.{graph_of};

use crate::dependencies::table;
use crate::groups::part;
use flu_laws::dependency_turns;
use flu_model::{Itag, Keys, List, Name, Node, Pred, Program, itag_count, source_of, tag_of};
use std::alloc::{AllocError, Global};

fn is_keyed(p: &Program, kind: u32) -> bool
    ensures { result ≡ is_keyed p.now.kinds kind }
{
    p.kinds
        .items()
        .get(kind as usize)
        .is_some_and(|kind| kind.keyed)
}

// The predicate of an itag alone.
fn pred_of(p: &Program, i: u32) -> Pred
    requires { i < count_of_itags p.now }
    ensures { result ≡ pred_of p.now i }
{
    let tag = tag_of(p, Itag(i));
    let keys = if is_keyed(p, tag.kind) {
        Keys::One(tag.key)
    } else {
        Keys::Alone
    };
    Pred {
        kind: Some(tag.kind),
        keys,
        source: Some(source_of(p, Itag(i))),
    }
}

fn preds_of(alloc: Global, p: &Program, itags: &[u32]) -> Result<List<Pred>, AllocError>
    requires { (i : ℕ) → Contains itags.now i → i < count_of_itags p.now }
    ensures { IfOk result (λ preds. preds ≡ map (pred_of p.now) itags.now) }
{
    let mut preds = Vec::new(alloc);
    for i in itags {
        preds.push(pred_of(p, *i))?;
    }
    Ok(List::of(preds))
}

fn node_of(
    alloc: Global,
    p: &Program,
    number: u32,
    own: &[u32],
    kids: Option<(u32, u32)>,
) -> Result<Node, AllocError>
    requires { (i : ℕ) → Contains own.now i → i < count_of_itags p.now }
    ensures { IfOk result (λ node. node ≡ node_of p.now number own.now kids) }
{
    let name = Name::of(format!(in alloc; "n{number}")?);
    let preds = preds_of(alloc, p, own)?;
    Ok(Node { name, preds, kids })
}

// The nodes of the greedy plan of some itags, by rising number, at a depth, with this number for the first node.
fn subtree(
    alloc: Global,
    p: &Program,
    table: &[List<bool>],
    rates: &[u64],
    depth: u32,
    number: u32,
    itags: &[u32],
) -> Result<Vec<Node>, AllocError>
    requires rising { IsTrue (is_rising itags.now) }
    requires declared { (i : ℕ) → Contains itags.now i → i < count_of_itags p.now }
    requires room { number + 2 ^ (depth + 1) ≤ 128 }
    ensures { IfOk result (λ nodes. IsSubtree p.now (graph_of table.now) rates.now depth number itags.now nodes.items) }
{
    if depth == 0 {
        return leaf(alloc, p, number, itags);
    }
    let Some(parting) = part(alloc, table, rates, itags)? else {
        return leaf(alloc, p, number, itags);
    };
    let left = number + 1;
    let mut lefts = subtree(alloc, p, table, rates, depth - 1, left, &parting.left)?;
    let right = left + lefts.len() as u32;
    let mut rights = subtree(alloc, p, table, rates, depth - 1, right, &parting.right)?;
    let mut nodes = Vec::new(alloc);
    nodes.push(node_of(alloc, p, number, &parting.own, Some((left, right)))?)?;
    nodes.append(&mut lefts)?;
    nodes.append(&mut rights)?;
    Ok(nodes)
}

// A node that owns all the itags.
fn leaf(alloc: Global, p: &Program, number: u32, itags: &[u32]) -> Result<Vec<Node>, AllocError>
    requires { (i : ℕ) → Contains itags.now i → i < count_of_itags p.now }
    ensures { IfOk result (λ nodes. nodes.items ≡ node_of p.now number itags.now None ∷ []) }
{
    let mut nodes = Vec::new(alloc);
    nodes.push(node_of(alloc, p, number, itags, None)?)?;
    Ok(nodes)
}

fn all_itags(alloc: Global, p: &Program) -> Result<Vec<u32>, AllocError>
    ensures { IfOk result (λ itags. itags.items ≡ all_itags p.now) }
{
    (0..itag_count(p)).collect(alloc)
}

/// The nodes of the greedy plan of all itags of a job.
pub fn greedy(
    alloc: Global,
    p: &Program,
    rates: &[u64],
    depth: u32,
) -> Result<Vec<Node>, AllocError>
    requires { depth ≤ 6 }
    ensures { IfOk result (λ nodes. IsGreedyPlan p.now rates.now depth nodes.items) }
{
    dependency_turns();
    let table = table(alloc, p)?;
    let itags = all_itags(alloc, p)?;
    subtree(alloc, p, &table, rates, depth, 0, &itags)
}
