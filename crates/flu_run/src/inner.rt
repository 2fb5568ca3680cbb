//! The thread of a worker with children, whose subtrees run in threads of their own.

ghost use Rattle.std.specs.Prelude.{◌≡◌, ◌<◌, ◌≤◌, ◌++◌, [], length, IsSome, IsOk, OnOk, IfOk, IfSome};
ghost use Rattle.flu_fork.specs.Lots.{nodes, kids};
ghost use Rattle.flu_worker.specs.declared.hand.Side.TheVariants.{Left, Right};
ghost use Rattle.flu_link.specs.Notes.{LowerNote, phase_held};
ghost use Rattle.flu_run.specs.EndNotes.{end_note, IsSameEnd};
ghost use Rattle.flu_run.specs.Ended.{Keeps};
ghost use Rattle.flu_run.specs.Final.{IsDone};
ghost use Rattle.flu_run.specs.Rests.{Rests};
ghost use Rattle.flu_run.specs.Seeing.{Sees};
ghost use Rattle.flu_run.specs.Starts.{IsAskedNow, EndStarts};
ghost use Rattle.flu_run.specs.Stays.{StaysUnder, IsSameUpper};
ghost use Rattle.flu_run.specs.Ties.{Hangs, Lets, Tells};

use crate::down::{ask, lend, take};
use crate::ends::End;
use crate::handed::{Done, Ended, Why};
use crate::holder::HasCase;
use crate::laws::laws_below;
use crate::leaf::turn;
use crate::shapes::any;
use crate::sight::observe_idle;
use crate::up::look;
use crate::waiting::{Parkers, Pause};
use flu_arrive::Watch;
use flu_fork::{Ask, Case, Lot, join};
use flu_link::{Upper, close};
use flu_model::Outs;
use flu_seq::Gate;
use flu_worker::{Side, Worker};
use std::alloc::{AllocError, Global};
use std::sync::Wait;

// Asks for the parts that are out, if there is a target, and takes those that are there. Returns whether anything moved.
fn reach(
    alloc: Global,
    case: &Case,
    parkers: &Parkers,
    node: u32,
    worker: &mut Worker,
    left: &mut Upper,
    right: &mut Upper,
    end: &End,
    asked: Option<Ask>,
) -> Result<bool, AllocError>
    requires case { case.now ≡ worker.old.case }
    requires inner { IsSome (kids worker.old.case worker.old.node) }
    requires asked { IfSome asked (IsAskedNow worker.old (end_note end.now)) }
    requires left { Lets Left worker.old left.old }
    requires right { Lets Right worker.old right.old }
    ensures left { OnOk result (Lets Left worker.new left.new) }
    ensures right { OnOk result (Lets Right worker.new right.new) }
    ensures under { OnOk result (StaysUnder worker.old worker.new) }
    ensures left_end { OnOk result (IsSameUpper left.old left.new) }
    ensures right_end { OnOk result (IsSameUpper right.old right.new) }
{
    let sent = request(case, parkers, node, worker, left, right, end, asked);
    let from_left = take(alloc, case, worker, left, Side::Left)?;
    let from_right = take(alloc, case, worker, right, Side::Right)?;
    Ok(any(sent, from_left, from_right))
}

// Asks for the parts that are out, if there is a target; returns whether it did.
fn request(
    case: &Case,
    parkers: &Parkers,
    node: u32,
    worker: &mut Worker,
    left: &mut Upper,
    right: &mut Upper,
    end: &End,
    asked: Option<Ask>,
) -> bool
    requires case { case.now ≡ worker.old.case }
    requires inner { IsSome (kids worker.old.case worker.old.node) }
    requires asked { IfSome asked (IsAskedNow worker.old (end_note end.now)) }
    requires left { Lets Left worker.old left.old }
    requires right { Lets Right worker.old right.old }
    ensures left { Lets Left worker.new left.new }
    ensures right { Lets Right worker.new right.new }
    ensures under { StaysUnder worker.old worker.new }
    ensures left_end { IsSameUpper left.old left.new }
    ensures right_end { IsSameUpper right.old right.new }
{
    let _end = end;
    let Some(target) = worker.ask_of(case, asked) else {
        return false;
    };
    let to_left = ask(worker, left, Side::Left, target);
    parkers.wake_below(node, Side::Left, to_left);
    let to_right = ask(worker, right, Side::Right, target);
    parkers.wake_below(node, Side::Right, to_right);
    any(to_left, to_right, false)
}

// Lends the parts that are still to be lent, and returns whether there were any.
fn hand_down(
    parkers: &Parkers,
    node: u32,
    worker: &mut Worker,
    left: &mut Upper,
    right: &mut Upper,
) -> bool
    requires inner { IsSome (kids worker.old.case worker.old.node) }
    requires left { Lets Left worker.old left.old }
    requires right { Lets Right worker.old right.old }
    ensures left { Lets Left worker.new left.new }
    ensures right { Lets Right worker.new right.new }
    ensures under { StaysUnder worker.old worker.new }
    ensures left_end { IsSameUpper left.old left.new }
    ensures right_end { IsSameUpper right.old right.new }
{
    let to_left = lend(worker, left, Side::Left);
    parkers.wake_below(node, Side::Left, to_left);
    let to_right = lend(worker, right, Side::Right);
    parkers.wake_below(node, Side::Right, to_right);
    any(to_left, to_right, false)
}

// One turn: what goes down and comes up, and the worker's own event. Returns whether anything moved.
fn turn_inner<G: Gate>(
    alloc: Global,
    case: &Case,
    gate: &G,
    parkers: &Parkers,
    node: u32,
    worker: &mut Worker,
    end: &mut End,
    left: &mut Upper,
    right: &mut Upper,
    outs: &mut Outs,
    asked: Option<Ask>,
) -> Result<bool, AllocError>
    requires case { case.now ≡ worker.old.case }
    requires inner { IsSome (kids worker.old.case worker.old.node) }
    requires hangs { Hangs worker.old (end_note end.old) }
    requires tells { Tells worker.old outs.old }
    requires asked { IfSome asked (IsAskedNow worker.old (end_note end.old)) }
    requires left { Lets Left worker.old left.old }
    requires right { Lets Right worker.old right.old }
    ensures hangs { OnOk result (Hangs worker.new (end_note end.new)) }
    ensures tells { OnOk result (Tells worker.new outs.new) }
    ensures same { OnOk result (IsSameEnd (end_note end.old) (end_note end.new)) }
    ensures case { OnOk result (worker.new.case ≡ worker.old.case) }
    ensures node { OnOk result (worker.new.node ≡ worker.old.node) }
    ensures seen { OnOk result (worker.new.seen ≡ worker.old.seen) }
    ensures left { OnOk result (Lets Left worker.new left.new) }
    ensures right { OnOk result (Lets Right worker.new right.new) }
    ensures left_end { OnOk result (IsSameUpper left.old left.new) }
    ensures right_end { OnOk result (IsSameUpper right.old right.new) }
{
    let reached = reach(alloc, case, parkers, node, worker, left, right, end, asked)?;
    let turned = turn(alloc, case, gate, parkers, node, worker, end, outs, asked)?;
    let lent = hand_down(parkers, node, worker, left, right);
    Ok(any(reached, turned, lent))
}

// Whether the worker is to stop, by any of its ends.
fn are_stopped(worker: &Worker, end: &mut End, left: &mut Upper, right: &mut Upper) -> bool
    requires hangs { Hangs worker.now (end_note end.old) }
    requires left { Lets Left worker.now left.old }
    requires right { Lets Right worker.now right.old }
    ensures hangs { Hangs worker.now (end_note end.new) }
    ensures same { IsSameEnd (end_note end.old) (end_note end.new) }
    ensures left { Lets Left worker.now left.new }
    ensures right { Lets Right worker.now right.new }
    ensures left_end { IsSameUpper left.old left.new }
    ensures right_end { IsSameUpper right.old right.new }
{
    let _worker = worker;
    let above = end.stopped();
    let at_left = left.stopped();
    let at_right = right.stopped();
    any(above, at_left, at_right)
}

// Tells all the workers around it to stop.
fn stop_all(parkers: &Parkers, end: &mut End, left: &mut Upper, right: &mut Upper) {
    end.stop();
    left.stop();
    right.stop();
    parkers.wake_all();
}

/// What a worker with children has, once it has no event left.
#[derive(Drop)]
pub struct Rest {
    pub worker: Worker,
    pub end: End,
    pub left: Upper,
    pub right: Upper,
    pub outs: Outs,
}

// Takes turns until the worker has no event left, or is stopped. It owns none of what it works on, so there is nothing to drop on
// its ways out.
fn take_turns<G: Gate, R: Wait>(
    rt: &R,
    alloc: Global,
    case: &Case,
    gate: &G,
    parkers: &Parkers,
    node: u32,
    worker: &mut Worker,
    watch: &mut Watch,
    end: &mut End,
    left: &mut Upper,
    right: &mut Upper,
    outs: &mut Outs,
) -> Result<(), Why>
    requires case { case.now ≡ worker.old.case }
    requires inner { IsSome (kids worker.old.case worker.old.node) }
    requires hangs { Hangs worker.old (end_note end.old) }
    requires tells { Tells worker.old outs.old }
    requires sees { Sees worker.old watch.old }
    requires left { Lets Left worker.old left.old }
    requires right { Lets Right worker.old right.old }
    ensures { OnOk result (Rests worker.old (end_note end.old) left.old right.old worker.new (end_note end.new) left.new right.new outs.new) }
{
    let mut pause = Pause::new();
    let mut idle = true;
    let mut all = false;
    for _ in rt.forever() {
        if are_stopped(worker, end, left, right) {
            stop_all(parkers, end, left, right);
            return Err(Why::Stopped);
        }
        all = observe_idle(idle, all, case, node, worker, watch);
        let asked = look(worker, end);
        if idle && asked.is_none() && worker.finished(case) {
            return Ok(());
        }
        let Ok(moved) = turn_inner(
            alloc, case, gate, parkers, node, worker, end, left, right, outs, asked,
        ) else {
            stop_all(parkers, end, left, right);
            return Err(Why::NoMemory);
        };
        parkers.wait(rt, node, &mut pause, moved);
        idle = !moved;
    }
    unreachable!()
}

// What is left after the turns, unless they ended early.
fn rest_of(turned: Result<(), Why>, rest: Rest) -> Result<Rest, Why>
    ensures { IfOk result (λ r. (r ≡ rest) × IsOk turned) }
{
    match turned {
        Ok(()) => Ok(rest),
        Err(why) => Err(why),
    }
}

/// Does the worker's own work until it has no event left, or is stopped.
pub fn work<G: Gate, R: Wait>(
    rt: &R,
    alloc: Global,
    case: &Case,
    gate: &G,
    parkers: &Parkers,
    worker: Worker,
    watch: Watch,
    end: End,
    left: Upper,
    right: Upper,
    node: u32,
) -> Result<Rest, Why>
    requires case { case.now ≡ worker.case }
    requires inner { IsSome (kids worker.case worker.node) }
    requires hangs { Hangs worker (end_note end) }
    requires fresh { Tells worker [] }
    requires sees { Sees worker watch }
    requires left { Lets Left worker left }
    requires right { Lets Right worker right }
    ensures { IfOk result (λ r. Rests worker (end_note end) left right r.worker (end_note r.end) r.left r.right r.outs) }
{
    let mut worker = worker;
    let mut watch = watch;
    let mut end = end;
    let mut left = left;
    let mut right = right;
    let mut outs = Outs::of(Vec::new(alloc));
    let turned = take_turns(
        rt,
        alloc,
        case,
        gate,
        parkers,
        node,
        &mut worker,
        &mut watch,
        &mut end,
        &mut left,
        &mut right,
        &mut outs,
    );
    let rest = Rest {
        worker,
        end,
        left,
        right,
        outs,
    };
    rest_of(turned, rest)
}

// Closes the link to a child that noted Held last: no lot is in it, and the child held what was lent last.
fn close_link(upper: Upper, end: End)
    requires linked { 0 < (end_note end).lower }
    requires link { (end_note end).link ≡ upper.link }
    requires free { upper.phase ≤ phase_held }
    requires held { (end_note end).phase ≡ phase_held }
    ensures { (end_note end).held ≡ upper.lent }
{
    let None = close(upper, end.into_lower()) else {
        unreachable!();
    };
}

// Ends with a lot and outputs at an end, if there was memory for both. Otherwise the end is told to stop.
fn ended(end: End, lot: Result<Lot, AllocError>, outs: Result<Outs, AllocError>) -> Ended
    requires { IfOk lot (λ l. IfOk outs (λ o. IsDone (end_note end) (end_note end) l o)) }
    ensures { Keeps (end_note end) result }
{
    let Ok(lot) = lot else {
        return give_up(end);
    };
    let Ok(outs) = outs else {
        return give_up(end);
    };
    Ended::Done(Done { end, lot, outs })
}

// Gives up because memory ran out.
fn give_up(end: End) -> Ended
    ensures { Keeps (end_note end) result }
{
    let mut end = end;
    end.stop();
    Ended::Cut(Why::NoMemory)
}

/// What the worker and the subtrees of its children hand on together.
pub fn gather<H: HasCase>(
    alloc: Global,
    holder: &H,
    node: u32,
    rest: Rest,
    left: Done,
    right: Done,
) -> Ended
    requires case { rest.worker.case ≡ H.content holder.now }
    requires node { (rest.worker.node ≡ node) × (node < length (nodes (H.content holder.now))) }
    requires inner { IsSome (kids (H.content holder.now) node) }
    requires rests { Rests rest.worker (end_note rest.end) rest.left rest.right rest.worker (end_note rest.end) rest.left rest.right rest.outs }
    requires left { (l : LowerNote) × EndStarts rest.left l × IsDone l (end_note left.end) left.lot left.outs }
    requires right { (l : LowerNote) × EndStarts rest.right l × IsDone l (end_note right.end) right.lot right.outs }
    ensures { Keeps (end_note rest.end) result }
{
    laws_below();
    let Rest {
        worker: _worker,
        end,
        left: left_upper,
        right: right_upper,
        outs,
    } = rest;
    let Done {
        end: left_end,
        lot: left_lot,
        outs: left_outs,
    } = left;
    let Done {
        end: right_end,
        lot: right_lot,
        outs: right_outs,
    } = right;
    close_link(left_upper, left_end);
    close_link(right_upper, right_end);
    let lot = join(alloc, holder.case(), node, left_lot, right_lot);
    ended(end, lot, in_turn(outs, left_outs, right_outs))
}

// The outputs, with those of the left and then of the right subtree appended.
fn in_turn(outs: Outs, left: Outs, right: Outs) -> Result<Outs, AllocError>
    ensures { IfOk result (λ all. all ≡ (outs ++ left) ++ right) }
{
    let mut outs = outs;
    outs.append(left)?;
    outs.append(right)?;
    Ok(outs)
}
