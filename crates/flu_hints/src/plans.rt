//! The places at which a plan exceeds its limits.

use crate::limits::spelled;
use flu_text::{Contextual, Mark, Reserved, Token, Word};
use std::alloc::{AllocFailed, Global};

/// The greatest depth of a node; the root has depth 0.
const GREATEST_DEPTH: usize = 6;

/// The most nodes of a plan.
const MOST_NODES: usize = 127;

/// A child of a node, both by their names.
#[derive(Clone, Copy)]
struct Child<'t> {
    name: &'t str,
    parent: &'t str,
}

/// The n-th predicate.
pub fn predicates_place(found: &[Token], count: u64) -> Option<usize> {
    let mut met = 0u64;
    let mut may_begin = false;
    for token in found {
        if may_begin
            && (matches!(token.word, Word::Name(_)) || token.word == Word::Mark(Mark::At))
        {
            met = met.saturating_add(1);
            if met == count {
                return Some(token.from);
            }
        }
        may_begin = token.word == Word::Mark(Mark::Colon) || token.word == Word::Mark(Mark::Comma);
    }
    None
}

/// The first node as declared that is too deep.
pub fn depth_place(alloc: Global, text: &str, found: &[Token]) -> Option<usize> {
    let children = children_of(alloc, text, found).ok()?;
    let mut is_behind = false;
    for token in found {
        if is_behind && depth_of(children.as_slice(), spelled(text, token)?) > GREATEST_DEPTH {
            return Some(token.from);
        }
        is_behind = token.word == Word::Reserved(Reserved::Node);
    }
    None
}

// The children of all nodes.
fn children_of<'t>(
    alloc: Global,
    text: &'t str,
    found: &[Token],
) -> Result<Vec<Child<'t>>, AllocFailed<Child<'t>>> {
    let mut children = Vec::new(alloc);
    let mut parent = "";
    let mut before = Word::Name(Contextual::Other);
    let mut left = 0u32;
    for token in found {
        let name = spelled(text, token).unwrap_or("");
        if before == Word::Reserved(Reserved::Node) {
            parent = name;
        }
        if before == Word::Mark(Mark::Arrow) {
            left = 2;
        }
        if left > 0 {
            children.push(Child { name, parent })?;
            left -= 1;
        }
        before = token.word;
    }
    Ok(children)
}

// How many nodes are above a node, or more than any plan has.
fn depth_of(children: &[Child], name: &str) -> usize {
    let mut name = name;
    for depth in 0..MOST_NODES {
        match children.iter().find(|child| child.name == name) {
            Some(child) => name = child.parent,
            None => return depth,
        }
    }
    MOST_NODES
}
