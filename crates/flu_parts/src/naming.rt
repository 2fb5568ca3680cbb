//! The node and the files that a part command names.

ghost use Rattle.std.specs.Prelude.{◌≡◌, ◌<◌, ◌≤◌, None, Some, IfOk, IfErr, IfSome, length, map, position, string_bytes};
ghost use Rattle.flu_deps.specs.Checking.{program_of};
ghost use Rattle.flu_deps.specs.Validated.{plan_of, IsValidFor};
ghost use Rattle.flu_combine.specs.Partials.{node_named};
ghost use Rattle.flu_parts.specs.Planned.{IsNodeApart};
ghost use Rattle.flu_parts.specs.Written.{AreNoSources};
ghost use Rattle.flu_parts.specs.Causes.{IsNodeDefect, IsSameName, has_file, is_file_of};

use flu_apart::apart;
use flu_deps::{Checked, Valid};
use flu_lines::NodeDefect;
use flu_model::{Node, Plan, Program, Source, Text};
use std::alloc::{AllocError, Global};

/// The number of the node with a name, if the plan has it and it may be apart.
pub fn node_apart(checked: &Checked, valid: &Valid, name: &str) -> Result<u32, NodeDefect>
    requires { IsValidFor (program_of checked.now) valid.now }
    ensures node { IfOk result (IsNodeApart (program_of checked.now) (plan_of valid.now).nodes name.now) }
    ensures there { IfOk result (λ w. w < length (plan_of valid.now).nodes) }
    ensures defect { IfErr result (IsNodeDefect (program_of checked.now) (plan_of valid.now).nodes name.now) }
{
    let Some(w) = node_named(valid.plan(), name) else {
        return Err(NodeDefect::Unknown);
    };
    match apart(checked, valid, w) {
        Ok(()) => Ok(w),
        Err(reason) => Err(NodeDefect::NotApart(w, reason)),
    }
}

// The number of the node with a name.
fn node_named(plan: &Plan, name: &str) -> Option<u32>
    ensures value { result ≡ node_named plan.now.nodes name.now }
    ensures there { IfSome result (λ w. w < length plan.now.nodes) }
{
    match place_of_node(plan.nodes.items(), name) {
        Some(w) => Some(w as u32),
        None => None,
    }
}

// The place of the node with a name.
fn place_of_node(nodes: &[Node], name: &str) -> Option<usize>
    ensures value { result ≡ node_named nodes.now name.now }
    ensures there { IfSome result (λ w. w < length nodes.now) }
{
    nodes.iter().position(|node| node.name.as_str() == name)
}

/// The place of the first of some names that is the file of a source, and the first source that has this file.
pub fn same_name(program: &Program, names: &[String]) -> Option<(usize, u32)>
    ensures same { IfSome result (λ found. IsSameName program.now (map string_bytes names.now) found.0 found.1) }
    ensures there { IfSome result (λ found. found.0 < length names.now) }
    ensures none { result ≡ None → AreNoSources (map string_bytes names.now) program.now }
{
    let Some(place) = place_of_file(program, names) else {
        return None;
    };
    match source_with(program, names[place].as_str()) {
        Some(number) => Some((place, number)),
        None => None,
    }
}

// The place of the first of some names that is the file of a source.
fn place_of_file(program: &Program, names: &[String]) -> Option<usize>
    ensures value { result ≡ position (λ name. is_file_of program.now.sources (string_bytes name)) names.now }
    ensures there { IfSome result (λ place. place < length names.now) }
{
    names
        .iter()
        .position(|name| is_file_of(program.sources.items(), name.as_str()))
}

// Whether a name is the file of one of some sources.
fn is_file_of(sources: &[Source], name: &str) -> bool
    ensures { result ≡ is_file_of sources.now name.now }
{
    sources.iter().any(|source| has_file(source, name))
}

// Whether a source has the file of a name. A clock has none.
fn has_file(source: &Source, name: &str) -> bool
    ensures { result ≡ has_file name.now source.now }
{
    source.every.is_none() && name == source.file.as_str()
}

// The number of the first source with a file.
fn source_with(program: &Program, name: &str) -> Option<u32>
    ensures { result ≡ position (has_file name.now) program.now.sources }
{
    match place_of_source(program.sources.items(), name) {
        Some(number) => Some(number as u32),
        None => None,
    }
}

// The place of the first source with a file.
fn place_of_source(sources: &[Source], name: &str) -> Option<usize>
    ensures value { result ≡ position (has_file name.now) sources.now }
    ensures there { IfSome result (λ place. place < length sources.now) }
{
    sources.iter().position(|source| has_file(source, name))
}

/// Names as texts.
pub fn texts_of(alloc: Global, names: &[String]) -> Result<Vec<Text>, AllocError>
    ensures { IfOk result (λ texts. texts.items ≡ map string_bytes names.now) }
{
    let mut texts = Vec::new(alloc);
    for name in names {
        let text = String::from_str(alloc, name.as_str())?;
        texts.push(Text::of(text))?;
    }
    Ok(texts)
}
