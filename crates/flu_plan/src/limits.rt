//! The limits of plans.

ghost use Rattle.std.specs.Prelude.{◌≡◌, nat_le, length};
ghost use Rattle.flu_plan.specs.declared.fault.PlanFault.TheVariants as f;
ghost use Rattle.flu_plan.specs.Faults.{Gives, unless, each};
ghost use Rattle.flu_plan.specs.Limits.{small_key, small_keys, keys_of_pred, keys_of_node, keys_of_nodes, predicates, are_shallow, within_limits};

use crate::drafts::{DraftNode, DraftPred, Visit};
use crate::fault::PlanFault;
use flu_layout::written_value;
use flu_model::{KEY_COUNT, What};
use flu_text::{WrittenKeys, WrittenNumber};

/// The most nodes of a plan.
const MOST_NODES: usize = 127;

/// The most predicates of a plan.
const MOST_PREDICATES: usize = 4096;

/// The greatest depth of a node, the root's being 0.
const GREATEST_DEPTH: usize = 6;

// The fault of what is over a limit, unless it is not.
fn within(passes: bool, what: What, count: u64) -> Result<(), PlanFault>
    ensures { Gives (λ done. tt) result (unless passes (f.OverLimit what count)) }
{
    if passes {
        Ok(())
    } else {
        Err(PlanFault::OverLimit { what, count })
    }
}

fn small_key(number: WrittenNumber) -> Result<(), PlanFault>
    ensures { Gives (λ done. tt) result (small_key number) }
{
    let key = written_value(number.value);
    within(key < u64::from(KEY_COUNT), What::Key, key)
}

fn small_keys(keys: &WrittenKeys) -> Result<(), PlanFault>
    ensures { Gives (λ done. tt) result (small_keys keys.now) }
{
    match keys {
        WrittenKeys::Alone => Ok(()),
        WrittenKeys::One(number) => small_key(*number),
        WrittenKeys::Range(low, high) => {
            small_key(*low)?;
            small_key(*high)
        }
    }
}

fn keys_of_preds(preds: &[DraftPred]) -> Result<(), PlanFault>
    ensures { Gives (λ done. tt) result (each keys_of_pred tt preds.now) }
{
    for pred in preds {
        match small_keys(&pred.keys) {
            Ok(()) => {}
            Err(fault) => return Err(fault),
        }
    }
    Ok(())
}

fn keys_of_node(node: &DraftNode) -> Result<(), PlanFault>
    ensures { Gives (λ done. tt) result (keys_of_node tt node.now) }
{
    keys_of_preds(node.preds.items())
}

fn keys_of_nodes(nodes: &[DraftNode]) -> Result<(), PlanFault>
    ensures { Gives (λ done. tt) result (keys_of_nodes nodes.now) }
{
    for node in nodes {
        match keys_of_node(node) {
            Ok(()) => {}
            Err(fault) => return Err(fault),
        }
    }
    Ok(())
}

fn are_few(nodes: &[DraftNode]) -> bool
    ensures { result ≡ nat_le (predicates nodes.now) 4096 }
{
    let mut left = MOST_PREDICATES;
    for node in nodes {
        let count = node.preds.items().len();
        if left < count {
            return false;
        }
        left -= count;
    }
    true
}

fn are_shallow(order: &[Visit]) -> bool
    ensures { result ≡ are_shallow order.now }
{
    order.iter().all(|visit| visit.depth <= GREATEST_DEPTH)
}

/// The nodes are within the limits, or else the first limit that they are over: that of nodes, predicates, depth or keys.
#[tactic(auto, unfolding(crate::specs::Limits::within_limits))]
pub fn within_limits(order: &[Visit], nodes: &[DraftNode]) -> Result<(), PlanFault>
    ensures { Gives (λ done. tt) result (within_limits order.now nodes.now) }
{
    within(nodes.len() <= MOST_NODES, What::Nodes, 128)?;
    within(are_few(nodes), What::Predicates, 4097)?;
    within(are_shallow(order), What::Depth, 7)?;
    keys_of_nodes(nodes)
}
