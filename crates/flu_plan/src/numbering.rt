//! The plan that the nodes of a text are, in preorder.

ghost use Rattle.std.specs.Prelude.{◌≡◌, ◌<◌, ◌^◌, ◌++◌, map, length, IfOk, OnOk};
ghost use Rattle.flu_plan.specs.Faults.{each};
ghost use Rattle.flu_layout.specs.Spelling.{written_value};
ghost use Rattle.flu_plan.specs.Limits.{small_keys, keys_of_pred, keys_of_node, keys_of_nodes};
ghost use Rattle.flu_plan.specs.Numbering.{planned_keys, planned_pred, number_of, planned_kids, planned_node, planned_at, planned};

use crate::drafts::{DraftNode, DraftPred, Visit};
use crate::shape::node_at;
use flu_layout::{name_of, written_value};
use flu_model::{Keys, List, Name, Node, Pred};
use flu_text::{WrittenKeys, WrittenNumber};
use std::alloc::{AllocError, Global};

fn planned_key(number: WrittenNumber) -> u32
    requires { written_value number.value < 2 ^ 32 }
    ensures { result ≡ written_value number.value }
{
    written_value(number.value) as u32
}

fn planned_keys(keys: &WrittenKeys) -> Keys
    requires { small_keys keys.now ≡ Ok tt }
    ensures { result ≡ planned_keys keys.now }
{
    match keys {
        WrittenKeys::Alone => Keys::Alone,
        WrittenKeys::One(key) => Keys::One(planned_key(*key)),
        WrittenKeys::Range(low, high) => Keys::Range(planned_key(*low), planned_key(*high)),
    }
}

fn planned_pred(pred: &DraftPred) -> Pred
    requires { small_keys pred.now.keys ≡ Ok tt }
    ensures { result ≡ planned_pred pred.now }
{
    Pred {
        kind: pred.kind,
        keys: planned_keys(&pred.keys),
        source: pred.source,
    }
}

fn planned_preds(alloc: Global, preds: &[DraftPred]) -> Result<List<Pred>, AllocError>
    requires { each keys_of_pred tt preds.now ≡ Ok tt }
    ensures { IfOk result (λ planned. planned ≡ map planned_pred preds.now) }
{
    let mut planned = Vec::new(alloc);
    for pred in preds {
        planned.push(planned_pred(pred))?;
    }
    Ok(List::of(planned))
}

// The number of a node in preorder.
fn number_of(order: &[Visit], v: usize) -> u32
    requires { length order.now < 2 ^ 32 }
    ensures { result ≡ number_of order.now v }
{
    let mut number = 0;
    for visit in order {
        if v == visit.node {
            return number;
        }
        number += 1;
    }
    number
}

fn planned_kids(order: &[Visit], kids: Option<(usize, usize)>) -> Option<(u32, u32)>
    requires { length order.now < 2 ^ 32 }
    ensures { result ≡ planned_kids order.now kids }
{
    match kids {
        Some((left, right)) => Some((number_of(order, left), number_of(order, right))),
        None => None,
    }
}

fn planned_node(
    alloc: Global,
    text: &str,
    order: &[Visit],
    node: &DraftNode,
) -> Result<Node, AllocError>
    requires keys { keys_of_node tt node.now ≡ Ok tt }
    requires few { length order.now < 2 ^ 32 }
    ensures { IfOk result (λ planned. planned ≡ planned_node text.now order.now node.now) }
{
    let name = String::from_str(alloc, name_of(text, node.name))?;
    let preds = planned_preds(alloc, node.preds.items())?;
    Ok(Node {
        name: Name::of(name),
        preds,
        kids: planned_kids(order, node.kids),
    })
}

// The node that is met, if it is one of the nodes, after those before it.
fn add_planned(
    alloc: Global,
    plan: &mut Vec<Node>,
    text: &str,
    order: &[Visit],
    nodes: &[DraftNode],
    visit: Visit,
) -> Result<(), AllocError>
    requires keys { keys_of_nodes nodes.now ≡ Ok tt }
    requires few { length order.now < 2 ^ 32 }
    ensures { OnOk result (plan.new.items ≡ plan.old.items ++ planned_at text.now order.now nodes.now visit) }
{
    if let Some(node) = node_at(nodes, visit.node) {
        let node = planned_node(alloc, text, order, node)?;
        plan.push(node)?;
    }
    Ok(())
}

/// The nodes of the plan, in preorder.
pub fn planned(
    alloc: Global,
    text: &str,
    order: &[Visit],
    nodes: &[DraftNode],
) -> Result<Vec<Node>, AllocError>
    requires keys { keys_of_nodes nodes.now ≡ Ok tt }
    requires few { length order.now < 2 ^ 32 }
    ensures { IfOk result (λ plan. plan.items ≡ planned text.now order.now nodes.now) }
{
    let mut plan = Vec::new(alloc);
    for visit in order {
        add_planned(alloc, &mut plan, text, order, nodes, *visit)?;
    }
    Ok(plan)
}
