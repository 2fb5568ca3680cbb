//! Joining the lots of a net in which nothing is left to do.

ghost use Rattle.std.specs.Prelude.{◌≡◌, ◌<◌, ℕ, None, Some, length, slice_get, slice_set, IfOk, IsSome, OnOk};
ghost use Rattle.flu_model.specs.Owners.{parent_of};
ghost use Rattle.flu_fork.specs.Completing.{BringsAll};
ghost use Rattle.flu_fork.specs.Lots.{nodes, kids};
ghost use Rattle.flu_fork.specs.Serving.{none_counted};
ghost use Rattle.flu_worker.specs.declared.hand.Side.{Side as SideNote};
ghost use Rattle.flu_worker.specs.Hands.{at_side};
ghost use Rattle.flu_worker.specs.Notes.{lent_to};
ghost use Rattle.flu_net.specs.declared.edges.Edge.TheVariants.{Given};
ghost use Rattle.flu_net.specs.Ending.{AreAtEnd, IsAtEnd, IsBrought};

use crate::edges::{Edge, given_lot, put};
use crate::laws::laws_below;
use flu_fork::{Case, Lot, join};
use flu_worker::Worker;
use std::alloc::{AllocError, Global};

/// The lot of the whole tree. From the last node to the root each node's lot goes up: the lot of a leaf is its worker's, and the lot
/// of a node with children is what their lots join to.
pub fn whole_lot(
    alloc: Global,
    case: &Case,
    workers: Vec<Worker>,
    edges: Vec<Edge>,
) -> Result<Lot, AllocError>
    requires end { AreAtEnd case.now workers.items }
    requires edges { length edges.items ≡ length (nodes case.now) }
    ensures { IfOk result (BringsAll case.now 0 (none_counted case.now)) }
{
    laws_below();
    let mut workers = workers;
    let mut edges = edges;
    for w in (1..case.valid().count()).rev() {
        let Some(worker) = workers.pop() else {
            unreachable!();
        };
        let lot = lot_at(alloc, case, w, worker, &mut edges)?;
        put_up(&mut edges, w, lot);
    }
    let Some(root) = workers.pop() else {
        unreachable!();
    };
    lot_at(alloc, case, 0, root, &mut edges)
}

// Sends a lot up from a node.
fn put_up(edges: &mut Vec<Edge>, w: u32, lot: Lot)
    requires { w < length edges.old.items }
    ensures { edges.new.items ≡ slice_set edges.old.items w (Given lot) }
{
    put(edges, w, Edge::Given(lot));
}

// The lot of a node, from those of its children, which came up.
fn lot_at(
    alloc: Global,
    case: &Case,
    w: u32,
    worker: Worker,
    edges: &mut Vec<Edge>,
) -> Result<Lot, AllocError>
    requires there { w < length (nodes case.now) }
    requires end { IsAtEnd case.now w worker }
    requires edges { length edges.old.items ≡ length (nodes case.now) }
    requires parts { (s : SideNote) (l r : ℕ) → kids case.now w ≡ Some (l, r) → IsBrought case.now (at_side s l r) (lent_to s worker) edges.old.items }
    ensures lot { IfOk result (BringsAll case.now w worker.held) }
    ensures each { OnOk result (length edges.new.items ≡ length edges.old.items) }
    ensures others { OnOk result ((v : ℕ) → (parent_of (nodes case.now) v ≡ Some w → ⊥) → slice_get edges.new.items v ≡ slice_get edges.old.items v) }
{
    laws_below();
    let Some(both) = case.valid().kids(w) else {
        return Ok(leaf_lot(worker));
    };
    let at_left = given_lot(put(edges, both.0, Edge::Home));
    let at_right = given_lot(put(edges, both.1, Edge::Home));
    inner_lot(alloc, case, w, &worker, at_left, at_right)
}

// The lot of a leaf.
fn leaf_lot(worker: Worker) -> Lot
    requires there { worker.node < length (nodes worker.case) }
    requires end { IsAtEnd worker.case worker.node worker }
    requires leaf { kids worker.case worker.node ≡ None }
    ensures { BringsAll worker.case worker.node worker.held result }
{
    laws_below();
    worker.rule();
    let Some(lot) = worker.into_lot() else {
        unreachable!();
    };
    lot
}

// The lot of a node with children: the parts that its worker lent last came from one fork.
fn inner_lot(
    alloc: Global,
    case: &Case,
    w: u32,
    worker: &Worker,
    left: Lot,
    right: Lot,
) -> Result<Lot, AllocError>
    requires there { w < length (nodes case.now) }
    requires end { IsAtEnd case.now w worker.now }
    requires inner { IsSome (kids case.now w) }
    requires left { (l r : ℕ) → kids case.now w ≡ Some (l, r) → BringsAll case.now l worker.now.lent_left left }
    requires right { (l r : ℕ) → kids case.now w ≡ Some (l, r) → BringsAll case.now r worker.now.lent_right right }
    ensures { IfOk result (BringsAll case.now w worker.now.held) }
{
    laws_below();
    worker.rule();
    let finished = worker.finished(case);
    prove!(finished);
    join(alloc, case, w, left, right)
}
