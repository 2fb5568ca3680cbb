//! A plan as it is written: nodes whose names are spans of bytes of the plan text.

use flu_model::List;
use flu_text::{WrittenKeys, WrittenSpan};

/// A predicate: a kind and perhaps keys of it, or `@`, or both.
#[derive(Clone, Copy)]
pub struct WrittenPred {
    pub kind: Option<WrittenSpan>,
    pub keys: WrittenKeys,
    pub source: Option<WrittenSpan>,
}

/// A node: its name, its predicates, and the names of its left and right child, if it has some.
#[derive(Drop)]
pub struct WrittenNode {
    pub name: WrittenSpan,
    pub preds: List<WrittenPred>,
    pub kids: Option<(WrittenSpan, WrittenSpan)>,
}
