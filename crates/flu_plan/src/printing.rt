//! The text of a plan.

ghost use Rattle.std.specs.Prelude.{◌≡◌, ℕ, List, ◌++◌, OnOk, IfOk, IsTrue, slice_get, codes};
ghost use Rattle.std.specs.List.{flat_map};
ghost use Rattle.std.specs.String.{string_bytes};
ghost use Rattle.flu_layout.specs.Lists.{separated};
ghost use Rattle.flu_plan.specs.Printing.{name_of_kind, name_of_source, name_of_child, kind_text, source_text, pred_text, preds_text, kids_text, node_line};
ghost use Rattle.flu_plan.specs.Printing.{printed, has_text};
ghost use Rattle.flu_plan.specs.Reading.{plan_in};

use crate::laws::{plans_have_text, printed_is_read};
use flu_layout::add_keys;
use flu_model::{Keys, Kind, Node, Plan, Pred, Program, Source, Text};
use std::alloc::{AllocError, Global};

fn name_of_kind(kinds: &[Kind], kind: u32) -> &str
    ensures { result.now ≡ name_of_kind (slice_get kinds.now kind) }
{
    match kinds.get(kind as usize) {
        Some(kind) => kind.name.as_str(),
        None => "",
    }
}

fn name_of_source(sources: &[Source], source: u32) -> &str
    ensures { result.now ≡ name_of_source (slice_get sources.now source) }
{
    match sources.get(source as usize) {
        Some(source) => source.name.as_str(),
        None => "",
    }
}

fn name_of_child(nodes: &[Node], child: u32) -> &str
    ensures { result.now ≡ name_of_child (slice_get nodes.now child) }
{
    match nodes.get(child as usize) {
        Some(node) => node.name.as_str(),
        None => "",
    }
}

fn add_kind(text: &mut String, p: &Program, kind: Option<u32>, keys: Keys) -> Result<(), AllocError>
    ensures { OnOk result (string_bytes text.new ≡ string_bytes text.old ++ kind_text p.now kind keys) }
{
    let Some(kind) = kind else {
        return Ok(());
    };
    text.push_str(name_of_kind(p.kinds.items(), kind))?;
    add_keys(text, keys)
}

fn add_source(text: &mut String, p: &Program, source: Option<u32>) -> Result<(), AllocError>
    ensures { OnOk result (string_bytes text.new ≡ string_bytes text.old ++ source_text p.now source) }
{
    let Some(source) = source else {
        return Ok(());
    };
    let name = name_of_source(p.sources.items(), source);
    write!(text, "@{name}")
}

fn add_pred(text: &mut String, p: &Program, pred: Pred) -> Result<(), AllocError>
    ensures { OnOk result (string_bytes text.new ≡ string_bytes text.old ++ pred_text p.now pred) }
{
    add_kind(text, p, pred.kind, pred.keys)?;
    add_source(text, p, pred.source)
}

fn add_preds(text: &mut String, p: &Program, preds: &[Pred]) -> Result<(), AllocError>
    ensures { OnOk result (string_bytes text.new ≡ string_bytes text.old ++ preds_text p.now preds.now) }
{
    let [first, others @ ..] = preds else {
        return Ok(());
    };
    text.push_str(" ")?;
    add_pred(text, p, *first)?;
    for pred in others {
        text.push_str(", ")?;
        add_pred(text, p, *pred)?;
    }
    Ok(())
}

fn add_kids(text: &mut String, nodes: &[Node], kids: Option<(u32, u32)>) -> Result<(), AllocError>
    ensures { OnOk result (string_bytes text.new ≡ string_bytes text.old ++ kids_text nodes.now kids) }
{
    let Some((left, right)) = kids else {
        return Ok(());
    };
    let left = name_of_child(nodes, left);
    let right = name_of_child(nodes, right);
    write!(text, " -> {left} {right}")
}

fn add_node(text: &mut String, p: &Program, nodes: &[Node], node: &Node) -> Result<(), AllocError>
    ensures { OnOk result (string_bytes text.new ≡ string_bytes text.old ++ node_line p.now nodes.now node.now) }
{
    let name = node.name.as_str();
    write!(text, "node {name}:")?;
    add_preds(text, p, node.preds.items())?;
    add_kids(text, nodes, node.kids)?;
    text.push_str("\n")
}

fn printed(alloc: Global, p: &Program, nodes: &[Node]) -> Result<String, AllocError>
    ensures { IfOk result (λ text. string_bytes text ≡ printed p.now nodes.now) }
{
    let mut text = String::new(alloc);
    for node in nodes {
        add_node(&mut text, p, nodes, node)?;
    }
    Ok(text)
}

/// A plan of a job as a text (`docs/LANGUAGE.md`): its nodes in preorder, each on a line of its own.
///
/// The text is read as this plan again, for each plan of the job that was read, and for any other whose nodes have names of the
/// language and whose predicates name kinds and sources of the job.
///
/// # Errors
///
/// Only if memory runs out.
pub fn print_plan(alloc: Global, p: &Program, plan: &Plan) -> Result<Text, AllocError>
    ensures text { IfOk result (λ text. text ≡ printed p.now plan.now.nodes) }
    ensures read_again { IfOk result (λ text. IsTrue (has_text p.now plan.now.nodes) → plan_in p.now text ≡ Ok plan.now.nodes) }
    ensures round_trip { IfOk result (λ text. (bytes : List ℕ) → plan_in p.now bytes ≡ Ok plan.now.nodes → plan_in p.now text ≡ Ok plan.now.nodes) }
{
    printed_is_read();
    plans_have_text();
    let text = printed(alloc, p, plan.nodes.items())?;
    Ok(Text::of(text))
}
