//! What a worker does with the ends below it.

ghost use Rattle.std.specs.Prelude.{◌≡◌, true, OnOk, IsSome, Some};
ghost use Rattle.flu_fork.specs.Lots.{kids};
ghost use Rattle.flu_worker.specs.Calls.{IsAskable};
ghost use Rattle.flu_run.specs.Stays.{StaysThere, IsSameUpper};
ghost use Rattle.flu_run.specs.Ties.{Lets};

use crate::shapes::{may_lend, may_take};
use flu_fork::{Ask, Case};
use flu_link::Upper;
use flu_worker::laws::hands_turn;
use flu_worker::{Side, Worker};
use std::alloc::{AllocError, Global};

/// Lends the part for a side, if it is still to be lent, and returns whether it did.
pub fn lend(worker: &mut Worker, upper: &mut Upper, side: Side) -> bool
    requires inner { IsSome (kids worker.old.case worker.old.node) }
    requires lets { Lets side worker.old upper.old }
    ensures lets { Lets side worker.new upper.new }
    ensures there { StaysThere side worker.old worker.new }
    ensures same { IsSameUpper upper.old upper.new }
{
    hands_turn();
    if !may_lend(side, worker.hand()) {
        return false;
    }
    let part = worker.lend(side);
    let Ok(()) = upper.try_lend(part) else {
        unreachable!();
    };
    true
}

/// Asks for the part of a side, if it is out, and returns whether it did.
pub fn ask(worker: &Worker, upper: &mut Upper, side: Side, target: Ask) -> bool
    requires kept { worker.now.kept ≡ Some target }
    requires askable { IsAskable worker.now target }
    requires inner { IsSome (kids worker.now.case worker.now.node) }
    requires lets { Lets side worker.now upper.old }
    ensures lets { Lets side worker.now upper.new }
    ensures same { IsSameUpper upper.old upper.new }
{
    if !may_take(side, worker.hand()) {
        return false;
    }
    upper.try_ask(target)
}

/// Takes the part of a side, if it is there, and returns whether it did.
pub fn take(
    alloc: Global,
    case: &Case,
    worker: &mut Worker,
    upper: &mut Upper,
    side: Side,
) -> Result<bool, AllocError>
    requires case { case.now ≡ worker.old.case }
    requires inner { IsSome (kids worker.old.case worker.old.node) }
    requires lets { Lets side worker.old upper.old }
    ensures lets { OnOk result (Lets side worker.new upper.new) }
    ensures there { OnOk result (StaysThere side worker.old worker.new) }
    ensures same { OnOk result (IsSameUpper upper.old upper.new) }
{
    hands_turn();
    if !may_take(side, worker.hand()) {
        return Ok(false);
    }
    let Some(lot) = upper.try_take() else {
        return Ok(false);
    };
    worker.take_reply(alloc, case, side, lot)?;
    Ok(true)
}
