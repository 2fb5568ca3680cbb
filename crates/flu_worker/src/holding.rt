//! What a worker has in its hand.

ghost use Rattle.std.specs.Prelude.{◌≡◌, ◌<◌, length, IfOk};
ghost use Rattle.flu_fork.specs.Lots.{nodes, LotFits};
ghost use Rattle.flu_worker.specs.Holding.{hand_of, IsHeldAs};
ghost use Rattle.flu_worker.specs.declared.hand.Hand.TheVariants.{Lending, Taking};
ghost use Rattle.flu_worker.specs.declared.holding.Holding.TheVariants.{Gone};

use crate::hand::Hand;
use flu_fork::{Case, Lot, fork};
use std::alloc::{AllocError, Global};

/// What a worker has: its lot, or the parts of it that are still to be lent or that came back.
#[derive(Drop)]
pub enum Holding {
    Empty,
    Whole(Lot),
    LendingBoth(Lot, Lot),
    LendingLeft(Lot),
    LendingRight(Lot),
    Down,
    TakingLeft(Lot),
    TakingRight(Lot),
    /// What is left if memory ran out: the lot is lost, and the worker must be discarded.
    Gone,
}

/// The shape of what a worker has.
pub fn hand_of(holding: &Holding) -> Hand
    ensures { result ≡ hand_of holding.now }
{
    match holding {
        Holding::Empty => Hand::Empty,
        Holding::Whole(_) => Hand::Whole,
        Holding::LendingBoth(_, _) => lending(true, true),
        Holding::LendingLeft(_) => lending(true, false),
        Holding::LendingRight(_) => lending(false, true),
        Holding::Down => Hand::Down,
        Holding::TakingLeft(_) => taking(true, false),
        Holding::TakingRight(_) => taking(false, true),
        Holding::Gone => taking(true, true),
    }
}

fn lending(left: bool, right: bool) -> Hand
    ensures { result ≡ Lending left right }
{
    Hand::Lending { left, right }
}

fn taking(left: bool, right: bool) -> Hand
    ensures { result ≡ Taking left right }
{
    Hand::Taking { left, right }
}

/// What a worker has once its lot is whole again: an inner worker forks it.
pub fn held_as(alloc: Global, case: &Case, node: u32, lot: Lot) -> Result<Holding, AllocError>
    requires node { node < length (nodes case.now) }
    requires fits { LotFits case.now node lot }
    ensures { IfOk result (IsHeldAs case.now node lot) }
{
    if case.valid().kids(node).is_none() {
        return Ok(Holding::Whole(lot));
    }
    let (left, right) = fork(alloc, case, node, lot)?;
    Ok(Holding::LendingBoth(left, right))
}

/// Takes what the worker has; it has nothing afterwards.
pub fn taken(holding: &mut Holding) -> Holding
    ensures was { result ≡ holding.old }
    ensures gone { holding.new ≡ Gone }
{
    std::mem::replace(holding, Holding::Gone)
}
