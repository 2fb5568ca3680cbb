//! What the names of a written plan stand for.

ghost use Rattle.std.specs.Prelude.{◌≡◌, ◌<◌, ◌++◌, ◌∷◌, [], map, length, true, false, OnOk, OnErr, IfSome};
ghost use Rattle.std.specs.List.{list_any, position};
ghost use Rattle.std.specs.Str.{bytes_eq};
ghost use Rattle.flu_plan.specs.declared.fault.PlanFault.TheVariants as f;
ghost use Rattle.flu_plan.specs.Faults.{Gives, unless, found_of_each};
ghost use Rattle.flu_plan.specs.Resolving.{with_name, names_of, kind_named, source_named, kind_of, source_of, pred_of, kid_of, kids_of, node_of, nodes_of};

use crate::drafts::{DraftNode, DraftPred};
use crate::fault::PlanFault;
use crate::written::{WrittenNode, WrittenPred};
use flu_layout::name_of;
use flu_model::{Kind, List, Name, Program, Source};
use flu_text::WrittenSpan;
use indexmap::IndexSet;
use std::alloc::Global;

/// The fault of a node at which the nodes are no tree, unless they are one there.
pub fn tree_at(alloc: Global, passes: bool, name: &str) -> Result<(), PlanFault>
    ensures found { Gives (λ done. tt) result (unless passes (f.NotATree name.now)) }
    ensures passed { OnOk result (passes ≡ true) }
{
    if passes {
        return Ok(());
    }
    match String::from_str(alloc, name) {
        Ok(name) => Err(PlanFault::NotATree {
            name: Name::of(name),
        }),
        Err(_) => Err(PlanFault::NoMemory),
    }
}

fn is_named(names: &IndexSet<&str>, name: &str) -> bool
    ensures { result ≡ list_any (bytes_eq name.now) (map (λ k. k.now) names.now.keys) }
{
    names.contains(name)
}

fn add_name<'t>(names: &mut IndexSet<&'t str>, name: &'t str) -> Result<(), PlanFault>
    requires { list_any (bytes_eq name.now) (map (λ k. k.now) names.old.keys) ≡ false }
    ensures ok { OnOk result (map (λ k. k.now) names.new.keys ≡ map (λ k. k.now) names.old.keys ++ name.now ∷ []) }
    ensures err { OnErr result (result ≡ Err PlanFault.NoMemory) }
{
    match names.insert(name) {
        Ok(_) => Ok(()),
        Err(_) => Err(PlanFault::NoMemory),
    }
}

// One name more.
#[tactic(auto, unfolding(crate::specs::Resolving::with_name))]
fn declare<'t>(
    alloc: Global,
    names: &mut IndexSet<&'t str>,
    text: &'t str,
    node: &WrittenNode,
) -> Result<(), PlanFault>
    ensures { Gives (λ done. map (λ k. k.now) names.new.keys) result (with_name text.now (map (λ k. k.now) names.old.keys) node.now) }
{
    let name = name_of(text, node.name);
    tree_at(alloc, !is_named(names, name), name)?;
    add_name(names, name)
}

/// The names of the nodes, or the first that was declared before.
pub fn names_of<'t>(
    alloc: Global,
    text: &'t str,
    written: &[WrittenNode],
) -> Result<IndexSet<&'t str>, PlanFault>
    ensures { Gives (λ names. map (λ k. k.now) names.keys) result (names_of text.now written.now) }
{
    let mut names = IndexSet::new(alloc);
    for node in written {
        match declare(alloc, &mut names, text, node) {
            Ok(()) => {}
            Err(fault) => return Err(fault),
        }
    }
    Ok(names)
}

fn kind_named(kinds: &[Kind], name: &str) -> Option<usize>
    ensures value { result ≡ kind_named kinds.now name.now }
    ensures declared { IfSome result (λ number. number < length kinds.now) }
{
    kinds.iter().position(|kind| name == kind.name.as_str())
}

fn source_named(sources: &[Source], name: &str) -> Option<usize>
    ensures value { result ≡ source_named sources.now name.now }
    ensures declared { IfSome result (λ number. number < length sources.now) }
{
    sources
        .iter()
        .position(|source| name == source.name.as_str())
}

fn kind_of(p: &Program, text: &str, span: Option<WrittenSpan>) -> Result<Option<u32>, PlanFault>
    ensures { Gives (λ kind. kind) result (kind_of p.now text.now span) }
{
    let Some(span) = span else {
        return Ok(None);
    };
    match kind_named(p.kinds.items(), name_of(text, span)) {
        Some(number) => Ok(Some(number as u32)),
        None => Err(PlanFault::UnknownName { at: span.from }),
    }
}

fn source_of(p: &Program, text: &str, span: Option<WrittenSpan>) -> Result<Option<u32>, PlanFault>
    ensures { Gives (λ source. source) result (source_of p.now text.now span) }
{
    let Some(span) = span else {
        return Ok(None);
    };
    match source_named(p.sources.items(), name_of(text, span)) {
        Some(number) => Ok(Some(number as u32)),
        None => Err(PlanFault::UnknownName { at: span.from }),
    }
}

#[tactic(auto, unfolding(crate::specs::Resolving::pred_of))]
fn pred_of(p: &Program, text: &str, written: WrittenPred) -> Result<DraftPred, PlanFault>
    ensures { Gives (λ q. q) result (pred_of p.now text.now written) }
{
    let kind = kind_of(p, text, written.kind)?;
    let source = source_of(p, text, written.source)?;
    Ok(DraftPred {
        kind,
        keys: written.keys,
        source,
    })
}

fn preds_of(
    alloc: Global,
    p: &Program,
    text: &str,
    written: &[WrittenPred],
) -> Result<List<DraftPred>, PlanFault>
    ensures { Gives (λ preds. preds) result (found_of_each (pred_of p.now text.now) written.now) }
{
    let mut found = Vec::new(alloc);
    for pred in written {
        match pred_of(p, text, *pred) {
            Ok(pred) => found.push(pred)?,
            Err(fault) => return Err(fault),
        }
    }
    Ok(List::of(found))
}

// The place of a name among those of the nodes.
fn place_named(names: &IndexSet<&str>, name: &str) -> Option<usize>
    ensures { result ≡ position (bytes_eq name.now) (map (λ k. k.now) names.now.keys) }
{
    names.get_index_of(name)
}

fn kid_of(names: &IndexSet<&str>, text: &str, span: WrittenSpan) -> Result<usize, PlanFault>
    ensures { Gives (λ kid. kid) result (kid_of text.now (map (λ k. k.now) names.now.keys) span) }
{
    match place_named(names, name_of(text, span)) {
        Some(kid) => Ok(kid),
        None => Err(PlanFault::UnknownName { at: span.from }),
    }
}

fn kids_of(
    names: &IndexSet<&str>,
    text: &str,
    kids: Option<(WrittenSpan, WrittenSpan)>,
) -> Result<Option<(usize, usize)>, PlanFault>
    ensures { Gives (λ kids. kids) result (kids_of text.now (map (λ k. k.now) names.now.keys) kids) }
{
    let Some((left, right)) = kids else {
        return Ok(None);
    };
    let left = kid_of(names, text, left)?;
    let right = kid_of(names, text, right)?;
    Ok(Some((left, right)))
}

#[tactic(auto, unfolding(crate::specs::Resolving::node_of))]
fn node_of(
    alloc: Global,
    p: &Program,
    text: &str,
    names: &IndexSet<&str>,
    written: &WrittenNode,
) -> Result<DraftNode, PlanFault>
    ensures { Gives (λ node. node) result (node_of p.now text.now (map (λ k. k.now) names.now.keys) written.now) }
{
    let preds = preds_of(alloc, p, text, written.preds.items())?;
    let kids = kids_of(names, text, written.kids)?;
    Ok(DraftNode {
        name: written.name,
        preds,
        kids,
    })
}

/// The nodes with what their names stand for, or the first name that is unknown.
pub fn nodes_of(
    alloc: Global,
    p: &Program,
    text: &str,
    names: &IndexSet<&str>,
    written: &[WrittenNode],
) -> Result<Vec<DraftNode>, PlanFault>
    ensures { Gives (λ nodes. nodes.items) result (nodes_of p.now text.now (map (λ k. k.now) names.now.keys) written.now) }
{
    let mut found = Vec::new(alloc);
    for node in written {
        match node_of(alloc, p, text, names, node) {
            Ok(node) => found.push(node)?,
            Err(fault) => return Err(fault),
        }
    }
    Ok(found)
}
