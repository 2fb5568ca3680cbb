//! The names of a job, in the order of their declarations.

use crate::list_names::ListNames;
use flu_model::Sort;
use indexmap::{IndexMap, IndexSet};

/// What a family's declaration says besides its name, and its number, from 0 in the order of declarations.
#[derive(Clone, Copy)]
pub struct FamilyHead {
    pub number: u32,
    pub keyed: bool,
    pub sort: Sort,
}

/// What a kind's declaration says besides its name, and its number, from 0 in the order of declarations.
#[derive(Clone, Copy)]
pub struct KindHead {
    pub number: u32,
    pub keyed: bool,
    pub has_item: bool,
    pub has_value: bool,
}

/// The declared names, how many `depends` there are, and the version of the language, which is 1 until it is known.
#[derive(Drop)]
pub struct Names<'t> {
    pub families: IndexMap<&'t str, FamilyHead>,
    pub kinds: IndexMap<&'t str, KindHead>,
    pub sources: IndexSet<&'t str>,
    pub lists: ListNames<'t>,
    pub depends: usize,
    pub version: u32,
}
