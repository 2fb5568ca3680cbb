//! Parts that leave the hand and enter it.

ghost use Rattle.std.specs.Prelude.{◌≡◌, ◌<◌, ℕ, true, false, Some, length, IsSome, IfOk};
ghost use Rattle.flu_fork.specs.Lots.{nodes, kids, LotFits};
ghost use Rattle.flu_worker.specs.declared.hand.Side.TheVariants.{Left, Right};
ghost use Rattle.flu_worker.specs.Hands.{is_whole, may_lend, may_take};
ghost use Rattle.flu_worker.specs.Holding.{hand_of};
ghost use Rattle.flu_worker.specs.Moving.{LeftLeaves, RightLeaves, AwaitsLeft, AwaitsRight, LeftComes, RightComes, IsWholeOf};

use crate::holding::Holding;
use flu_fork::{Case, Lot, join};
use std::alloc::{AllocError, Global};

/// The lot of a whole hand.
pub fn whole_of(holding: Holding) -> Lot
    requires { is_whole (hand_of holding) ≡ true }
    ensures { IsWholeOf holding result }
{
    match holding {
        Holding::Whole(lot) => lot,
        _ => unreachable!(),
    }
}

/// The part for the left side, and what is left in the hand.
pub fn split_left(holding: Holding) -> (Lot, Holding)
    requires { may_lend Left (hand_of holding) ≡ true }
    ensures { LeftLeaves holding result.0 result.1 }
{
    match holding {
        Holding::LendingBoth(left, right) => (left, Holding::LendingRight(right)),
        Holding::LendingLeft(left) => (left, Holding::Down),
        _ => unreachable!(),
    }
}

/// The part for the right side, and what is left in the hand.
pub fn split_right(holding: Holding) -> (Lot, Holding)
    requires { may_lend Right (hand_of holding) ≡ true }
    ensures { RightLeaves holding result.0 result.1 }
{
    match holding {
        Holding::LendingBoth(left, right) => (right, Holding::LendingLeft(left)),
        Holding::LendingRight(right) => (right, Holding::Down),
        _ => unreachable!(),
    }
}

/// What is in the hand once the left part came back.
pub fn come_left(
    alloc: Global,
    case: &Case,
    node: u32,
    holding: Holding,
    lot: Lot,
) -> Result<Holding, AllocError>
    requires may { may_take Left (hand_of holding) ≡ true }
    requires node { node < length (nodes case.now) }
    requires inner { IsSome (kids case.now node) }
    requires fits { (l r : ℕ) → kids case.now node ≡ Some (l, r) → LotFits case.now l lot }
    requires awaits { AwaitsLeft case.now node holding lot }
    ensures { IfOk result (LeftComes case.now node holding lot) }
{
    match holding {
        Holding::Down => Ok(Holding::TakingLeft(lot)),
        Holding::TakingRight(right) => { Ok(Holding::Whole(join(alloc, case, node, lot, right)?)) }
        _ => unreachable!(),
    }
}

/// What is in the hand once the right part came back.
pub fn come_right(
    alloc: Global,
    case: &Case,
    node: u32,
    holding: Holding,
    lot: Lot,
) -> Result<Holding, AllocError>
    requires may { may_take Right (hand_of holding) ≡ true }
    requires node { node < length (nodes case.now) }
    requires inner { IsSome (kids case.now node) }
    requires fits { (l r : ℕ) → kids case.now node ≡ Some (l, r) → LotFits case.now r lot }
    requires awaits { AwaitsRight case.now node holding lot }
    ensures { IfOk result (RightComes case.now node holding lot) }
{
    match holding {
        Holding::Down => Ok(Holding::TakingRight(lot)),
        Holding::TakingLeft(left) => { Ok(Holding::Whole(join(alloc, case, node, left, lot)?)) }
        _ => unreachable!(),
    }
}
