//! The recursion over the plan's tree: a thread for each worker.

ghost use Rattle.std.specs.Prelude.{◌≡◌, ◌<◌, [], Some, length, IsSome, IfOk, IfSome};
ghost use Rattle.std.specs.Thread.{IsSync};
ghost use Rattle.flu_fork.specs.Laws.{no_counts};
ghost use Rattle.flu_fork.specs.Lots.{job, nodes, kids};
ghost use Rattle.flu_worker.specs.declared.hand.Side.TheVariants.{Left, Right};
ghost use Rattle.flu_run.specs.EndNotes.{end_note};
ghost use Rattle.flu_run.specs.Ended.{Keeps};
ghost use Rattle.flu_run.specs.Final.{IsDone};
ghost use Rattle.flu_run.specs.Rests.{Settles, MadeLink, IsReady};
ghost use Rattle.flu_run.specs.Seeing.{WatchesFrom};
ghost use Rattle.flu_run.specs.Starts.{StartsAt, EndStarts};
ghost use Rattle.flu_run.specs.Ties.{Hangs, Lets, Tells};

use crate::ends::End;
use crate::handed::{Done, Ended, FromEnd, Why};
use crate::holder::HasCase;
use crate::inner::{Rest, gather, work};
use crate::laws::laws_below;
use crate::leaf::{leaf, new_worker};
use crate::waiting::Parkers;
use flu_arrive::Watch;
use flu_link::{Upper, link};
use flu_seq::Gate;
use flu_worker::Worker;
use flu_worker::laws::hands_turn;
use std::alloc::{AllocError, Global};
use std::snapshot::Snapshot;
use std::sync::Wait;
use std::thread;
use std::thread::{PromisedHandle, Threads};

// Which of two reasons is reported.
fn told(a: Why, b: Why) -> Why {
    match a {
        Why::Stopped => b,
        Why::NoMemory | Why::Refused => a,
    }
}

fn why(ended: &Ended) -> Why {
    match ended {
        Ended::Done(_) => Why::Stopped,
        Ended::Cut(why) => *why,
    }
}

fn is_cut(ended: &Ended) -> bool {
    matches!(ended, Ended::Cut(_))
}

// What a worker with children and their subtrees hand on, if all came to their ends.
fn settle<H: HasCase>(
    alloc: Global,
    holder: &H,
    node: u32,
    given: (Snapshot<End>, Snapshot<End>, Snapshot<End>),
    rest: Result<Rest, Why>,
    left: Ended,
    right: Ended,
) -> Ended
    requires there { node < length (nodes (H.content holder.now)) }
    requires inner { IsSome (kids (H.content holder.now) node) }
    requires rest { IfOk rest (λ r. Settles (H.content holder.now) node (end_note given.0.value) (end_note given.1.value) (end_note given.2.value) r.worker
        (end_note r.end) r.left r.right r.outs) }
    requires left { Keeps (end_note given.1.value) left }
    requires right { Keeps (end_note given.2.value) right }
    ensures { Keeps (end_note given.0.value) result }
{
    let told_by_kids = told(why(&left), why(&right));
    match rest {
        Err(why) => Ended::Cut(told(why, told_by_kids)),
        Ok(rest) => settle_left(alloc, holder, node, given, rest, left, right, told_by_kids),
    }
}

// The same, once the worker has come to its end.
fn settle_left<H: HasCase>(
    alloc: Global,
    holder: &H,
    node: u32,
    given: (Snapshot<End>, Snapshot<End>, Snapshot<End>),
    rest: Rest,
    left: Ended,
    right: Ended,
    told_by_kids: Why,
) -> Ended
    requires there { node < length (nodes (H.content holder.now)) }
    requires inner { IsSome (kids (H.content holder.now) node) }
    requires rest { Settles (H.content holder.now) node (end_note given.0.value) (end_note given.1.value) (end_note given.2.value) rest.worker
        (end_note rest.end) rest.left rest.right rest.outs }
    requires left { Keeps (end_note given.1.value) left }
    requires right { Keeps (end_note given.2.value) right }
    ensures { Keeps (end_note given.0.value) result }
{
    match left {
        Ended::Cut(_) => Ended::Cut(told_by_kids),
        Ended::Done(left) => {
            settle_right(alloc, holder, node, given, rest, left, right, told_by_kids)
        }
    }
}

// The same, once the worker and the left subtree have come to their ends.
fn settle_right<H: HasCase>(
    alloc: Global,
    holder: &H,
    node: u32,
    given: (Snapshot<End>, Snapshot<End>, Snapshot<End>),
    rest: Rest,
    left: Done,
    right: Ended,
    told_by_kids: Why,
) -> Ended
    requires there { node < length (nodes (H.content holder.now)) }
    requires inner { IsSome (kids (H.content holder.now) node) }
    requires rest { Settles (H.content holder.now) node (end_note given.0.value) (end_note given.1.value) (end_note given.2.value) rest.worker
        (end_note rest.end) rest.left rest.right rest.outs }
    requires left { IsDone (end_note given.1.value) (end_note left.end) left.lot left.outs }
    requires right { Keeps (end_note given.2.value) right }
    ensures { Keeps (end_note given.0.value) result }
{
    match right {
        Ended::Cut(_) => Ended::Cut(told_by_kids),
        Ended::Done(right) => gather(alloc, holder, node, rest, left, right),
    }
}

// The worker's own work, while the subtrees of its children run in their threads, and what they all hand on.
fn manage<H: HasCase + Sync, G: Gate, R: Threads + Wait + Sync>(
    rt: &R,
    alloc: Global,
    holder: &H,
    gate: &G,
    parkers: &Parkers,
    node: u32,
    given: (Snapshot<End>, Snapshot<End>, Snapshot<End>),
    mine: (Worker, Watch, End, Upper, Upper),
    started: (
        PromisedHandle<Ended, FromEnd>,
        PromisedHandle<Ended, FromEnd>,
    ),
) -> Ended
    requires there { node < length (nodes (H.content holder.now)) }
    requires inner { IsSome (kids (H.content holder.now) node) }
    requires case { mine.0.case ≡ H.content holder.now }
    requires node { mine.0.node ≡ node }
    requires given { end_note given.0.value ≡ end_note mine.2 }
    requires left_given { end_note started.0.promise.0.value ≡ end_note given.1.value }
    requires right_given { end_note started.1.promise.0.value ≡ end_note given.2.value }
    requires hangs { Hangs mine.0 (end_note mine.2) }
    requires tells { Tells mine.0 [] }
    requires seen { mine.0.seen ≡ no_counts (job (H.content holder.now)) }
    requires watches { WatchesFrom (H.content holder.now) mine.1 }
    requires left { Lets Left mine.0 mine.3 }
    requires right { Lets Right mine.0 mine.4 }
    requires left_end { EndStarts mine.3 (end_note given.1.value) }
    requires right_end { EndStarts mine.4 (end_note given.2.value) }
    ensures { Keeps (end_note given.0.value) result }
{
    let (worker, watch, end, left_upper, right_upper) = mine;
    let (first, second) = started;
    let rest = work(
        rt,
        alloc,
        holder.case(),
        gate,
        parkers,
        worker,
        watch,
        end,
        left_upper,
        right_upper,
        node,
    );
    let left_ended = first.join(rt);
    let right_ended = second.join(rt);
    let ended = settle(alloc, holder, node, given, rest, left_ended, right_ended);
    if is_cut(&ended) {
        parkers.wake_all();
    }
    ended
}

// A worker with its ends and those of its children, and the watches, before any thread is started.
#[derive(Drop)]
struct Prepared {
    given: (Snapshot<End>, Snapshot<End>, Snapshot<End>),
    worker: Worker,
    watch: Watch,
    end: End,
    left_upper: Upper,
    right_upper: Upper,
    left_end: End,
    right_end: End,
    left_watch: Watch,
    right_watch: Watch,
    left_from: FromEnd,
    right_from: FromEnd,
}

// The link to a child, and the watch that the child is to have.
fn reach_out<H: HasCase>(
    alloc: Global,
    holder: &H,
    child: u32,
    watch: &mut Watch,
) -> Result<(Upper, End, Watch), AllocError>
    requires { WatchesFrom (H.content holder.now) watch.old }
    ensures same { watch.new ≡ watch.old }
    ensures link { IfOk result (λ r. MadeLink (H.content holder.now) child r.0 (end_note r.1)) }
    ensures watch { IfOk result (λ r. WatchesFrom (H.content holder.now) r.2) }
{
    let (upper, lower) = link(alloc, holder.case(), child)?;
    let theirs = watch.another()?;
    Ok((upper, End::Linked(lower), theirs))
}

// Makes the worker of a node with children, and the links to them. None if memory runs out: then its end is told to stop.
fn prepare<H: HasCase>(
    alloc: Global,
    holder: &H,
    at: (u32, u32, u32),
    end: End,
    watch: Watch,
) -> Option<Prepared>
    requires starts { StartsAt (H.content holder.now) at.0 (end_note end) }
    requires watches { WatchesFrom (H.content holder.now) watch }
    requires kids { kids (H.content holder.now) at.0 ≡ Some (at.1, at.2) }
    ensures given { IfSome result (λ r. r.given.0.value ≡ end) }
    ensures ready { IfSome result (λ r. IsReady (H.content holder.now) at (end_note r.given.0.value) (end_note r.given.1.value)
        (end_note r.given.2.value) r.worker (end_note r.end) r.left_upper r.right_upper (end_note r.left_end) (end_note r.right_end)) }
    ensures watch { IfSome result (λ r. WatchesFrom (H.content holder.now) r.watch) }
    ensures left_watch { IfSome result (λ r. WatchesFrom (H.content holder.now) r.left_watch) }
    ensures right_watch { IfSome result (λ r. WatchesFrom (H.content holder.now) r.right_watch) }
    ensures left_from { IfSome result (λ r. r.left_from.0.value ≡ r.left_end) }
    ensures right_from { IfSome result (λ r. r.right_from.0.value ≡ r.right_end) }
{
    laws_below();
    hands_turn();
    let mut end = end;
    let mut watch = watch;
    let (node, left, right) = at;
    let Ok((left_upper, left_end, left_watch)) = reach_out(alloc, holder, left, &mut watch) else {
        end.stop();
        return None;
    };
    let Ok((right_upper, right_end, right_watch)) = reach_out(alloc, holder, right, &mut watch)
    else {
        end.stop();
        return None;
    };
    let Ok(worker) = new_worker(alloc, holder, node) else {
        end.stop();
        return None;
    };
    Some(Prepared {
        given: (
            Snapshot::of(&end),
            Snapshot::of(&left_end),
            Snapshot::of(&right_end),
        ),
        worker,
        watch,
        left_from: FromEnd(Snapshot::of(&left_end)),
        right_from: FromEnd(Snapshot::of(&right_end)),
        end,
        left_upper,
        right_upper,
        left_end,
        right_end,
        left_watch,
        right_watch,
    })
}

/// Runs the subtree of a node, with a thread for each node below it.
pub fn subtree<H: HasCase + Sync, G: Gate, R: Threads + Wait + Sync>(
    rt: &R,
    alloc: Global,
    holder: &H,
    gate: &G,
    parkers: &Parkers,
    node: u32,
    end: End,
    watch: Watch,
) -> Ended
    requires starts { StartsAt (H.content holder.now) node (end_note end) }
    requires watches { WatchesFrom (H.content holder.now) watch }
    ensures { Keeps (end_note end) result }
{
    let Some((left, right)) = holder.case().valid().kids(node) else {
        return leaf(rt, alloc, holder, gate, parkers, node, end, watch);
    };
    let Some(prepared) = prepare(alloc, holder, (node, left, right), end, watch) else {
        parkers.wake_all();
        return Ended::Cut(Why::NoMemory);
    };
    let Prepared {
        given,
        worker,
        watch,
        mut end,
        mut left_upper,
        right_upper,
        left_end,
        right_end,
        left_watch,
        right_watch,
        left_from,
        right_from,
    } = prepared;
    thread::scope(
        thread::scope_env(),
        rt,
        move |scope| -> Ended
            requires { IsSync R.row × IsSync H.row × IsSync G.row
                × IsReady (H.content holder.now) (node, left, right) (end_note given.0.value) (end_note given.1.value) (end_note given.2.value) worker
                (end_note end) left_upper right_upper (end_note left_end) (end_note right_end) × WatchesFrom (H.content holder.now) watch
                × WatchesFrom (H.content holder.now) left_watch × WatchesFrom (H.content holder.now) right_watch × (left_from.0.value ≡ left_end)
                × (right_from.0.value ≡ right_end) }
            ensures { Keeps (end_note given.0.value) result }
        {
            let Ok(first) = scope.spawn_with(
                left_from,
                move || -> Ended
                    requires { IsSync R.row × IsSync H.row × IsSync G.row × StartsAt (H.content holder.now) left (end_note left_end)
                        × WatchesFrom (H.content holder.now) left_watch }
                    ensures { Keeps (end_note left_end) result }
                { subtree(rt, alloc, holder, gate, parkers, left, left_end, left_watch) },
            ) else {
                end.stop();
                parkers.wake_all();
                return Ended::Cut(Why::Refused);
            };
            let Ok(second) = scope.spawn_with(
                right_from,
                move || -> Ended
                    requires { IsSync R.row × IsSync H.row × IsSync G.row × StartsAt (H.content holder.now) right (end_note right_end)
                        × WatchesFrom (H.content holder.now) right_watch }
                    ensures { Keeps (end_note right_end) result }
                {
                    subtree(
                        rt,
                        alloc,
                        holder,
                        gate,
                        parkers,
                        right,
                        right_end,
                        right_watch,
                    )
                },
            ) else {
                left_upper.stop();
                end.stop();
                parkers.wake_all();
                return Ended::Cut(Why::Refused);
            };
            manage(
                rt,
                alloc,
                holder,
                gate,
                parkers,
                node,
                given,
                (worker, watch, end, left_upper, right_upper),
                (first, second),
            )
        },
    )
}
