//! What is on the edge between a node and the one above it.

ghost use Rattle.std.specs.Prelude.{◌≡◌, ◌<◌, true, Some, length, slice_get, slice_set};
ghost use Rattle.flu_net.specs.Enabled.{is_given, is_held, is_lent};
ghost use Rattle.flu_net.specs.Notes as notes;
ghost use Rattle.flu_net.specs.Notes.{asked_over, edge_at};
ghost use Rattle.flu_net.specs.declared.edges.Edge.TheVariants.{Given, Lent};
ghost use Rattle.flu_worker.specs.Hands as hands;

use flu_fork::{Ask, Case, Lot};
use flu_worker::{Hand, Side};

/// An edge of the tree, by the phase of the loan over it, with the lot or the ask that is on it.
#[derive(Drop)]
pub enum Edge {
    /// Nothing is on it: what the lower worker gave was taken, or nothing was lent yet.
    Home,
    /// A lot is on its way down.
    Lent(Lot),
    /// The lower worker, or what is below it, has the lot.
    Held,
    /// The same, and the lot is asked back for an event.
    Asked(Ask),
    /// A lot is on its way up.
    Given(Lot),
}

/// The child of a node at a side, if there is one.
pub fn kid_of(case: &Case, w: u32, side: Side) -> Option<u32>
    ensures { result ≡ notes.kid_of case.now w side }
{
    if w >= case.valid().count() {
        return None;
    }
    match case.valid().kids(w) {
        Some((left, right)) => Some(at_side(side, left, right)),
        None => None,
    }
}

fn at_side(side: Side, left: u32, right: u32) -> u32
    ensures { result ≡ hands.at_side side left right }
{
    match side {
        Side::Left => left,
        Side::Right => right,
    }
}

/// Whether the part for this side is still to be lent.
pub fn may_lend(side: Side, hand: Hand) -> bool
    ensures { result ≡ hands.may_lend side hand }
{
    match hand {
        Hand::Lending { left, right } => part(side, left, right),
        Hand::Empty | Hand::Whole | Hand::Down | Hand::Taking { .. } => false,
    }
}

/// Whether the part of this side is to be taken.
pub fn may_take(side: Side, hand: Hand) -> bool
    ensures { result ≡ hands.may_take side hand }
{
    match hand {
        Hand::Down => true,
        Hand::Taking { left, right } => !part(side, left, right),
        Hand::Empty | Hand::Whole | Hand::Lending { .. } => false,
    }
}

fn part(side: Side, left: bool, right: bool) -> bool
    ensures { result ≡ hands.at_side side left right }
{
    match side {
        Side::Left => left,
        Side::Right => right,
    }
}

/// Whether a lot is on its way down over the edge above a node.
pub fn lent_at(edges: &[Edge], v: u32) -> bool
    ensures { result ≡ is_lent (slice_get edges.now v) }
{
    match edges.get(v as usize) {
        Some(Edge::Lent(_)) => true,
        Some(Edge::Home | Edge::Held | Edge::Asked(_) | Edge::Given(_)) | None => false,
    }
}

/// Whether the edge above a node, if there is one, is Held.
pub fn held_at(edges: &[Edge], v: Option<u32>) -> bool
    ensures { result ≡ is_held (edge_at edges.now v) }
{
    let Some(v) = v else {
        return false;
    };
    match edges.get(v as usize) {
        Some(Edge::Held) => true,
        Some(Edge::Home | Edge::Lent(_) | Edge::Asked(_) | Edge::Given(_)) | None => false,
    }
}

/// Whether a lot is on its way up over the edge above a node, if there is one.
pub fn given_at(edges: &[Edge], v: Option<u32>) -> bool
    ensures { result ≡ is_given (edge_at edges.now v) }
{
    let Some(v) = v else {
        return false;
    };
    match edges.get(v as usize) {
        Some(Edge::Given(_)) => true,
        Some(Edge::Home | Edge::Lent(_) | Edge::Held | Edge::Asked(_)) | None => false,
    }
}

/// What is asked over the edge above a node.
pub fn ask_at(edges: &[Edge], v: u32) -> Option<Ask>
    ensures { result ≡ asked_over (slice_get edges.now v) }
{
    match edges.get(v as usize) {
        Some(Edge::Asked(y)) => Some(*y),
        Some(Edge::Home | Edge::Lent(_) | Edge::Held | Edge::Given(_)) | None => None,
    }
}

/// Puts something on the edge above a node, and returns what was on it.
pub fn put(edges: &mut Vec<Edge>, v: u32, edge: Edge) -> Edge
    requires { v < length edges.old.items }
    ensures was { slice_get edges.old.items v ≡ Some result }
    ensures is { edges.new.items ≡ slice_set edges.old.items v edge }
{
    std::mem::replace(&mut edges[v as usize], edge)
}

/// The lot that is on its way down.
pub fn lent_lot(edge: Edge) -> Lot
    requires { is_lent (Some edge) ≡ true }
    ensures { edge ≡ Lent result }
{
    match edge {
        Edge::Lent(lot) => lot,
        Edge::Home | Edge::Held | Edge::Asked(_) | Edge::Given(_) => unreachable!(),
    }
}

/// The lot that is on its way up.
pub fn given_lot(edge: Edge) -> Lot
    requires { is_given (Some edge) ≡ true }
    ensures { edge ≡ Given result }
{
    match edge {
        Edge::Given(lot) => lot,
        Edge::Home | Edge::Lent(_) | Edge::Held | Edge::Asked(_) => unreachable!(),
    }
}
