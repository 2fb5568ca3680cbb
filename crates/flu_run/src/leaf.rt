//! The thread of a leaf.

ghost use Rattle.std.specs.Prelude.{◌≡◌, ◌<◌, [], None, length, IfOk, IfErr, OnOk, IfSome};
ghost use Rattle.flu_fork.specs.Lots.{nodes, kids};
ghost use Rattle.flu_worker.specs.Calls.{IsNew, IsFinished};
ghost use Rattle.flu_link.specs.Notes.{phase_held};
ghost use Rattle.flu_run.specs.EndNotes.{end_note, IsSameEnd};
ghost use Rattle.flu_run.specs.declared.handed.Ended.TheVariants.{Cut};
ghost use Rattle.flu_run.specs.Ended.{Keeps};
ghost use Rattle.flu_run.specs.Seeing.{Sees, WatchesFrom};
ghost use Rattle.flu_run.specs.Starts.{StartsAt, IsAskedNow};
ghost use Rattle.flu_run.specs.Stays.{StaysHome};
ghost use Rattle.flu_run.specs.Ties.{Hangs, Tells};

use crate::ends::End;
use crate::handed::{Done, Ended, Why};
use crate::holder::HasCase;
use crate::laws::laws_below;
use crate::shapes::any;
use crate::sight::observe_idle;
use crate::up::{act, look, receive, reply};
use crate::waiting::{Parkers, Pause};
use flu_arrive::Watch;
use flu_fork::{Ask, Case};
use flu_model::Outs;
use flu_seq::Gate;
use flu_worker::Worker;
use flu_worker::laws::hands_turn;
use std::alloc::{AllocError, Global};
use std::sync::Wait;

/// One turn: gives the lot for the event that is asked for, takes one, and handles an event. Returns whether anything moved.
pub fn turn<G: Gate>(
    alloc: Global,
    case: &Case,
    gate: &G,
    parkers: &Parkers,
    node: u32,
    worker: &mut Worker,
    end: &mut End,
    outs: &mut Outs,
    asked: Option<Ask>,
) -> Result<bool, AllocError>
    requires case { case.now ≡ worker.old.case }
    requires hangs { Hangs worker.old (end_note end.old) }
    requires tells { Tells worker.old outs.old }
    requires asked { IfSome asked (IsAskedNow worker.old (end_note end.old)) }
    ensures hangs { OnOk result (Hangs worker.new (end_note end.new)) }
    ensures tells { OnOk result (Tells worker.new outs.new) }
    ensures same { OnOk result (IsSameEnd (end_note end.old) (end_note end.new)) }
    ensures home { OnOk result (StaysHome worker.old worker.new) }
{
    let gave = reply(case, worker, end, asked, outs);
    let received = receive(alloc, case, worker, end, outs)?;
    parkers.wake_above(node, any(gave, received, false));
    let acted = act(alloc, case, gate, node, worker, end, outs)?;
    Ok(any(gave, received, acted))
}

/// The worker of a node, from what has the case.
pub fn new_worker<H: HasCase>(alloc: Global, holder: &H, node: u32) -> Result<Worker, AllocError>
    requires { node < length (nodes (H.content holder.now)) }
    ensures { IfOk result (IsNew (H.content holder.now) node) }
{
    Worker::new(alloc, holder.case(), node)
}

// What the leaf hands on.
fn finish(worker: Worker, end: End, outs: Outs) -> Ended
    requires hangs { Hangs worker (end_note end) }
    requires tells { Tells worker outs }
    requires finished { IsFinished worker }
    requires leaf { kids worker.case worker.node ≡ None }
    requires phase { (end_note end).phase ≡ phase_held }
    ensures { Keeps (end_note end) result }
{
    laws_below();
    let Some(lot) = worker.into_lot() else {
        unreachable!();
    };
    Ended::Done(Done { end, lot, outs })
}

// Takes turns until the worker has no event left, or is stopped. It owns none of what it works on, so there is nothing to drop on
// its ways out.
fn take_turns<G: Gate, R: Wait>(
    rt: &R,
    alloc: Global,
    case: &Case,
    gate: &G,
    parkers: &Parkers,
    node: u32,
    worker: &mut Worker,
    end: &mut End,
    watch: &mut Watch,
    outs: &mut Outs,
) -> Result<(), Why>
    requires case { case.now ≡ worker.old.case }
    requires hangs { Hangs worker.old (end_note end.old) }
    requires tells { Tells worker.old outs.old }
    requires sees { Sees worker.old watch.old }
    ensures case { OnOk result (worker.new.case ≡ worker.old.case) }
    ensures node { OnOk result (worker.new.node ≡ worker.old.node) }
    ensures same { OnOk result (IsSameEnd (end_note end.old) (end_note end.new)) }
    ensures hangs { OnOk result (Hangs worker.new (end_note end.new)) }
    ensures phase { OnOk result ((end_note end.new).phase ≡ phase_held) }
    ensures tells { OnOk result (Tells worker.new outs.new) }
    ensures finished { OnOk result (IsFinished worker.new) }
{
    let mut pause = Pause::new();
    let mut idle = true;
    let mut all = false;
    for _ in rt.forever() {
        if end.stopped() {
            return Err(Why::Stopped);
        }
        all = observe_idle(idle, all, case, node, worker, watch);
        let asked = look(worker, end);
        if idle && asked.is_none() && worker.finished(case) {
            return Ok(());
        }
        let Ok(moved) = turn(alloc, case, gate, parkers, node, worker, end, outs, asked) else {
            end.stop();
            parkers.wake_all();
            return Err(Why::NoMemory);
        };
        parkers.wait(rt, node, &mut pause, moved);
        idle = !moved;
    }
    unreachable!()
}

// What the leaf hands on after its turns.
fn settle(turned: Result<(), Why>, worker: Worker, end: End, outs: Outs) -> Ended
    requires hangs { OnOk turned (Hangs worker (end_note end)) }
    requires tells { OnOk turned (Tells worker outs) }
    requires finished { OnOk turned (IsFinished worker) }
    requires leaf { OnOk turned (kids worker.case worker.node ≡ None) }
    requires phase { OnOk turned ((end_note end).phase ≡ phase_held) }
    ensures kept { Keeps (end_note end) result }
    ensures cut { IfErr turned (λ why. result ≡ Cut why) }
{
    match turned {
        Ok(()) => finish(worker, end, outs),
        Err(why) => Ended::Cut(why),
    }
}

// Does a leaf's work with its worker.
fn work<G: Gate, R: Wait>(
    rt: &R,
    alloc: Global,
    case: &Case,
    gate: &G,
    parkers: &Parkers,
    node: u32,
    worker: Worker,
    end: End,
    watch: Watch,
) -> Ended
    requires case { case.now ≡ worker.case }
    requires leaf { kids worker.case worker.node ≡ None }
    requires hangs { Hangs worker (end_note end) }
    requires fresh { Tells worker [] }
    requires sees { Sees worker watch }
    ensures { Keeps (end_note end) result }
{
    let mut worker = worker;
    let mut end = end;
    let mut watch = watch;
    let mut outs = Outs::of(Vec::new(alloc));
    let turned = take_turns(
        rt,
        alloc,
        case,
        gate,
        parkers,
        node,
        &mut worker,
        &mut end,
        &mut watch,
        &mut outs,
    );
    settle(turned, worker, end, outs)
}

// Gives up because memory ran out.
fn give_up(parkers: &Parkers, end: End, watch: Watch) -> Ended
    ensures { Keeps (end_note end) result }
{
    let _watch = watch;
    let mut end = end;
    end.stop();
    parkers.wake_all();
    Ended::Cut(Why::NoMemory)
}

/// Does a leaf's work until it has no event left, or is stopped.
pub fn leaf<H: HasCase, G: Gate, R: Wait>(
    rt: &R,
    alloc: Global,
    holder: &H,
    gate: &G,
    parkers: &Parkers,
    node: u32,
    end: End,
    watch: Watch,
) -> Ended
    requires starts { StartsAt (H.content holder.now) node (end_note end) }
    requires watches { WatchesFrom (H.content holder.now) watch }
    requires leaf { kids (H.content holder.now) node ≡ None }
    ensures { Keeps (end_note end) result }
{
    laws_below();
    hands_turn();
    match new_worker(alloc, holder, node) {
        Ok(worker) => work(
            rt,
            alloc,
            holder.case(),
            gate,
            parkers,
            node,
            worker,
            end,
            watch,
        ),
        Err(_) => give_up(parkers, end, watch),
    }
}
