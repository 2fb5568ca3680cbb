//! From the bytes of a plan text to the nodes of the plan.

ghost use Rattle.std.specs.Prelude.{◌≡◌};
ghost use Rattle.flu_plan.specs.Faults.{Gives};
ghost use Rattle.flu_plan.specs.Reading.{text_in, tokens_in, tree_in, resolved, plan_in};
ghost use Rattle.flu_plan.specs.Kept.{KeepsRules};

use crate::drafts::DraftNode;
use crate::fault::PlanFault;
use crate::grammar::written_in;
use crate::limits::within_limits;
use crate::numbering::planned;
use crate::resolving::{names_of, nodes_of};
use crate::shape::{all_below, children_of, preorder};
use crate::written::WrittenNode;
use flu_model::{List, Node, Plan, Program, What};
use flu_text::{TextFault, Token, tokens};
use std::alloc::Global;
use std::str;

/// The most bytes of a plan text.
const MOST_BYTES: usize = 1_048_576;

fn text_in(bytes: &[u8]) -> Result<&str, PlanFault>
    ensures { Gives (λ text. text.now) result (text_in bytes.now) }
{
    match str::from_utf8(bytes) {
        Ok(text) => Ok(text),
        Err(error) => Err(PlanFault::BadToken {
            at: error.valid_up_to(),
        }),
    }
}

fn tokens_in(alloc: Global, text: &str) -> Result<Vec<Token>, PlanFault>
    ensures { Gives (λ found. found.items) result (tokens_in text.now) }
{
    match tokens(alloc, text) {
        Ok(found) => Ok(found),
        Err(TextFault::BadToken { at }) => Err(PlanFault::BadToken { at }),
        Err(TextFault::NoMemory) => Err(PlanFault::NoMemory),
    }
}

// The nodes of the plan that nodes are, if they are one tree within the limits.
#[tactic(auto, unfolding(crate::specs::Reading::tree_in))]
fn tree_in(alloc: Global, text: &str, nodes: &[DraftNode]) -> Result<Vec<Node>, PlanFault>
    ensures { Gives (λ plan. plan.items) result (tree_in text.now nodes.now) }
{
    children_of(alloc, text, nodes)?;
    let order = preorder(alloc, nodes)?;
    all_below(alloc, text, order.as_slice(), nodes)?;
    within_limits(order.as_slice(), nodes)?;
    let plan = planned(alloc, text, order.as_slice(), nodes)?;
    Ok(plan)
}

#[tactic(auto, unfolding(crate::specs::Reading::resolved))]
fn resolved(
    alloc: Global,
    p: &Program,
    text: &str,
    written: &[WrittenNode],
) -> Result<Vec<Node>, PlanFault>
    ensures { Gives (λ plan. plan.items) result (resolved p.now text.now written.now) }
{
    let names = names_of(alloc, text, written)?;
    let nodes = nodes_of(alloc, p, text, &names, written)?;
    tree_in(alloc, text, nodes.as_slice())
}

// The nodes of the plan that a text is, or the first fault in it.
#[tactic(auto, unfolding(crate::specs::Reading::plan_in))]
fn nodes_in(alloc: Global, p: &Program, bytes: &[u8]) -> Result<Vec<Node>, PlanFault>
    ensures { Gives (λ nodes. nodes.items) result (plan_in p.now bytes.now) }
{
    if bytes.len() > MOST_BYTES {
        return Err(PlanFault::OverLimit {
            what: What::Bytes,
            count: 1_048_577,
        });
    }
    let text = text_in(bytes)?;
    let found = tokens_in(alloc, text)?;
    let written = written_in(alloc, found.as_slice(), text.len())?;
    resolved(alloc, p, text, written.as_slice())
}

fn plan_with(nodes: Vec<Node>) -> Plan
    requires { KeepsRules nodes.items }
    ensures { result.nodes ≡ nodes.items }
{
    Plan {
        nodes: List::of(nodes),
    }
}

/// The plan of a job that a text is, or the first fault in it (`docs/LANGUAGE.md`).
///
/// # Errors
///
/// The looks come in this order, and the first fault found is the answer: [`PlanFault::OverLimit`] for more than 1,048,576 bytes;
/// [`PlanFault::BadToken`] at the first byte of the first sequence that is not UTF-8, and then at the first place where no token
/// begins; [`PlanFault::Unexpected`] at the first token that cannot follow, or at the text's length; [`PlanFault::NotATree`] with
/// the first name of a node that was declared before; [`PlanFault::UnknownName`] at the first kind, source or child that is
/// unknown; [`PlanFault::NotATree`] with the first child that was one before or is the root, and then with the first node that is
/// not below the root; [`PlanFault::OverLimit`] for 128 nodes, for 4,097 predicates, for depth 7, and for the first key above
/// 65,535. [`PlanFault::NoMemory`] if memory runs out.
pub fn read_plan(alloc: Global, p: &Program, bytes: &[u8]) -> Result<Plan, PlanFault>
    ensures { Gives (λ plan. plan.nodes) result (plan_in p.now bytes.now) }
{
    let nodes = nodes_in(alloc, p, bytes)?;
    Ok(plan_with(nodes))
}
