//! A plan whose names are looked up, as far as its shape and its limits are not yet looked at.

use flu_model::List;
use flu_text::{WrittenKeys, WrittenSpan};

/// A predicate, with its kind and its source by their numbers and its keys as they are written.
#[derive(Clone, Copy)]
pub struct DraftPred {
    pub kind: Option<u32>,
    pub keys: WrittenKeys,
    pub source: Option<u32>,
}

/// A node; its children are named by their places among the nodes of the text.
#[derive(Drop)]
pub struct DraftNode {
    pub name: WrittenSpan,
    pub preds: List<DraftPred>,
    pub kids: Option<(usize, usize)>,
}

/// A node that is met below the root, by its place among the nodes of the text, and its depth there.
#[derive(Clone, Copy)]
pub struct Visit {
    pub node: usize,
    pub depth: usize,
}
