//! Laws about the choices of a worker, and the laws on which its rule rests. Each law is the contract of a function that does
//! nothing.

ghost use Rattle.flu_worker.specs.Keeping.{SeeingKeepsTheRule};
ghost use Rattle.flu_worker.specs.Laws.{TargetsAreOne, NewTargets, AskedGoOn, OwnGoOn, NothingIsNext};
ghost use Rattle.flu_worker.specs.LawsBelow.{LawsBelow};
ghost use Rattle.flu_worker.specs.Next.{LeastIsOne, LeavesTakeTheLeast, LeavesTakeNothing, OthersTakeTheTarget, TargetsAreFirst};
ghost use Rattle.flu_worker.specs.Next.{NothingWithoutTheLot, NextIsExact};
ghost use Rattle.flu_worker.specs.Turning.{LendTurns, TakeTurns, FirstIsHere, StartIsHere, StartIsShut};

/// Of an inner worker's two possible targets at most one exists: if it may take its least next event, it may not serve the next
/// event of an itag above it, since its own event is before that one and blocks it.
pub fn targets_are_one()
    ensures { TargetsAreOne }
{
    laws_below();
}

/// A new target of an inner worker is the worker's own, or it is what is asked of it.
pub fn targets_are_own_or_asked()
    ensures { NewTargets }
{
    laws_below();
}

/// When all is seen, a worker waits only for those above it and below it. If no event of an itag above is before what is asked, it
/// may take its least next event or serve what is asked; if nothing is left above, it may take its least next event; and if all
/// events of its own itags are counted, it has none.
pub fn waiting_ends()
    ensures asked { AskedGoOn }
    ensures own { OwnGoOn }
    ensures nothing { NothingIsNext }
{
    laws_below();
}

/// Which event a worker takes next (`next_of`). A leaf that has its lot takes the least own event that is ready, of which there is at
/// most one, and nothing if no own event is ready. An inner worker takes its target if that is its own, and no uncounted event of its
/// own itags or of the itags above is before it. Without its whole lot a worker takes nothing.
pub fn next_events_are_least()
    ensures leaf { LeavesTakeTheLeast }
    ensures none { LeavesTakeNothing }
    ensures one { LeastIsOne }
    ensures inner { OthersTakeTheTarget }
    ensures first { TargetsAreFirst }
    ensures whole { NothingWithoutTheLot }
{
    laws_below();
}

/// For each event that a worker takes next, the counts of the lot in its hand are exact: of each itag on which the event depends,
/// exactly the events before it are counted.
pub fn next_events_are_exact()
    ensures { NextIsExact }
{
    laws_below();
}

/// What a worker's rule says does not depend on how many items it has seen.
pub fn seeing_keeps_the_rule()
    ensures { SeeingKeepsTheRule }
{}

/// What a step does to the shape of a hand: a part that is lent was here and is then out, one that is taken was out and is then here,
/// and the other side stays as it was. At the start no part is out, and only the root has a lot.
pub fn hands_turn()
    ensures lend { LendTurns }
    ensures take { TakeTurns }
    ensures first { FirstIsHere }
    ensures start { StartIsHere }
    ensures shut { StartIsShut }
{}

/// The laws of lots, of who owns which itags, and of waiting.
pub(crate) fn laws_below()
    ensures { LawsBelow }
{
    flu_fork::laws::clear_events_are_served();
    flu_fork::laws::contents_are_settings();
    flu_fork::laws::events_have_moments();
    flu_fork::laws::itags_are_of_nodes();
    flu_fork::laws::loans_are_paired();
    flu_fork::laws::served_lots_join();
    flu_fork::laws::subtrees_count_just_before();
    flu_fork::laws::updates_fit();
    flu_laws::moments_are_in_order();
    flu_mail::laws::ready_clears();
    flu_mail::laws::ready_when_clear();
    flu_mail::laws::seen_events_stand();
}
