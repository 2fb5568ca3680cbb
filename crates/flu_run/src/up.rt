//! What a worker does with the end above it, and with its own events.

ghost use Rattle.std.specs.Prelude.{◌≡◌, true, Some, OnOk, IfSome, IfNone, slice_index};
ghost use Rattle.flu_fork.specs.Serving.{AsksAbove};
ghost use Rattle.flu_worker.specs.Hands as hands;
ghost use Rattle.flu_link.specs.Notes.{phase_held};
ghost use Rattle.flu_run.specs.EndNotes.{end_note, IsSameEnd};
ghost use Rattle.flu_run.specs.Starts.{IsAskedNow};
ghost use Rattle.flu_run.specs.Stays.{StaysHome};
ghost use Rattle.flu_run.specs.Ties.{Hangs, Tells};

use crate::ends::End;
use crate::laws::laws_below;
use crate::shapes::is_open;
use flu_fork::{Ask, Case};
use flu_model::Outs;
use flu_seq::Gate;
use flu_worker::Worker;
use std::alloc::{AllocError, Global};

/// Takes the lot that was lent, if the hand is empty; returns whether it did.
pub fn receive(
    alloc: Global,
    case: &Case,
    worker: &mut Worker,
    end: &mut End,
    outs: &Outs,
) -> Result<bool, AllocError>
    requires case { case.now ≡ worker.old.case }
    requires hangs { Hangs worker.old (end_note end.old) }
    requires tells { Tells worker.old outs.now }
    ensures hangs { OnOk result (Hangs worker.new (end_note end.new)) }
    ensures tells { OnOk result (Tells worker.new outs.now) }
    ensures home { OnOk result (StaysHome worker.old worker.new) }
    ensures same { OnOk result (IsSameEnd (end_note end.old) (end_note end.new)) }
{
    laws_below();
    let _outs = outs;
    if is_open(worker.hand()) {
        return Ok(false);
    }
    let Some(lot) = end.try_hold() else {
        return Ok(false);
    };
    worker.hold(alloc, case, lot)?;
    Ok(true)
}

/// The event that is asked for, if the worker is open. `None` if it is not open, or nothing is asked: then its lot is held.
pub fn look(worker: &Worker, end: &mut End) -> Option<Ask>
    requires { Hangs worker.now (end_note end.old) }
    ensures hangs { Hangs worker.now (end_note end.new) }
    ensures same { IsSameEnd (end_note end.old) (end_note end.new) }
    ensures asked { IfSome result (IsAskedNow worker.now (end_note end.new)) }
    ensures none { IfNone result (hands.is_open worker.now.hand ≡ true → (end_note end.new).phase ≡ phase_held) }
{
    if !is_open(worker.hand()) {
        return None;
    }
    end.asked()
}

/// Gives the lot for the event that is asked for, if the worker may; returns whether it did.
pub fn reply(
    case: &Case,
    worker: &mut Worker,
    end: &mut End,
    asked: Option<Ask>,
    outs: &Outs,
) -> bool
    requires case { case.now ≡ worker.old.case }
    requires hangs { Hangs worker.old (end_note end.old) }
    requires tells { Tells worker.old outs.now }
    requires asked { IfSome asked (IsAskedNow worker.old (end_note end.old)) }
    ensures hangs { Hangs worker.new (end_note end.new) }
    ensures tells { Tells worker.new outs.now }
    ensures home { StaysHome worker.old worker.new }
    ensures same { IsSameEnd (end_note end.old) (end_note end.new) }
{
    let _outs = outs;
    let Some(y) = asked else {
        return false;
    };
    if !worker.can_give(case, y) {
        return false;
    }
    let lot = worker.give(case, y);
    end.give(lot);
    true
}

/// Handles the worker's next event, if there is one, and passes the gate before and after it. Returns whether there was one.
pub fn act<G: Gate>(
    alloc: Global,
    case: &Case,
    gate: &G,
    node: u32,
    worker: &mut Worker,
    end: &End,
    outs: &mut Outs,
) -> Result<bool, AllocError>
    requires case { case.now ≡ worker.old.case }
    requires hangs { Hangs worker.old (end_note end.now) }
    requires tells { Tells worker.old outs.old }
    ensures hangs { OnOk result (Hangs worker.new (end_note end.now)) }
    ensures tells { OnOk result (Tells worker.new outs.new) }
    ensures home { OnOk result (StaysHome worker.old worker.new) }
{
    laws_below();
    let _end = end;
    let Some(x) = worker.can_handle(case) else {
        return Ok(false);
    };
    gate.pass(node, 1, x.itag, x.index, worker.held());
    worker.handle(alloc, case, x, outs)?;
    gate.pass(node, 2, x.itag, x.index, worker.held());
    Ok(true)
}
