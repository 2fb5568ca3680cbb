//! Plans: binary trees of nodes, each responsible for the itags that its predicates match.

ghost use Rattle.std.specs.Prelude.{◌≡◌, ◌<◌, ◌≤◌, length, IsTrue};
ghost use Rattle.flu_model.specs.Itags.{count_of_itags};
ghost use Rattle.flu_model.specs.PlanRules.{is_tree, is_shallow, count_of_predicates, have_small_keys, nodes_have_own_names};
ghost use Rattle.flu_model.specs.Owners.{is_keyed, key_matches, kind_matches, source_matches, matches};

use crate::events::{Itag, Tag};
use crate::itags::{source_of, tag_of};
use crate::jobs::{Keys, Program};
use crate::lists::List;
use crate::words::Name;

/// Which itags are meant: those of a kind, of all its keys or of some, and of a source, or of any source if none is named.
///
/// Kinds and sources are named by their numbers. Where no kind is named the keys are alone and a source is named.
#[derive(Clone, Copy, PartialEq, Eq, Debug)]
pub struct Pred {
    pub kind: Option<u32>,
    pub keys: Keys,
    pub source: Option<u32>,
}

/// A node of a plan: what it is responsible for, and the numbers of its left and right child, if it has some.
#[derive(Drop)]
pub struct Node {
    pub name: Name,
    pub preds: List<Pred>,
    pub kids: Option<(u32, u32)>,
}

/// A plan: a binary tree of nodes in preorder, with node 0 as the root. It keeps the rules and limits of plan texts
/// (`docs/LANGUAGE.md`), so no caller can make another.
#[derive(Drop)]
pub struct Plan {
    pub nodes: List<Node>,
    pub ghost one_tree: { IsTrue (is_tree nodes) },
    pub ghost own_names: { IsTrue (nodes_have_own_names nodes) },
    pub ghost few_nodes: { length nodes ≤ 127 },
    pub ghost few_predicates: { count_of_predicates nodes ≤ 4096 },
    pub ghost shallow: { IsTrue (is_shallow nodes) },
    pub ghost small_keys: { IsTrue (have_small_keys nodes) },
}

/// Whether a predicate matches an itag.
///
/// A kind without keys matches all its tags; with a key or a range of keys it matches the tags with such keys of a keyed kind, and
/// nothing of another. A range whose first number is greater than its second matches nothing. A source matches what is of that
/// source.
pub fn matches(p: &Program, pred: &Pred, i: Itag) -> bool
    requires { i.0 < count_of_itags p.now }
    ensures { result ≡ matches p.now pred.now i }
{
    kind_matches(p, pred, tag_of(p, i)) && source_matches(pred.source, source_of(p, i))
}

fn kind_matches(p: &Program, pred: &Pred, tag: Tag) -> bool
    ensures { result ≡ kind_matches p.now.kinds pred.now.kind pred.now.keys tag }
{
    match pred.kind {
        None => true,
        Some(kind) => tag.kind == kind && key_matches(is_keyed(p, kind), &pred.keys, tag.key),
    }
}

fn is_keyed(p: &Program, kind: u32) -> bool
    ensures { result ≡ is_keyed p.now.kinds kind }
{
    p.kinds
        .items()
        .get(kind as usize)
        .is_some_and(|kind| kind.keyed)
}

fn key_matches(keyed: bool, keys: &Keys, key: u32) -> bool
    ensures { result ≡ key_matches keyed keys.now key }
{
    match keys {
        Keys::Alone => true,
        Keys::One(one) => keyed && key == *one,
        Keys::Range(lo, hi) => keyed && *lo <= key && key <= *hi,
    }
}

fn source_matches(wanted: Option<u32>, source: u32) -> bool
    ensures { result ≡ source_matches wanted source }
{
    match wanted {
        None => true,
        Some(wanted) => source == wanted,
    }
}
