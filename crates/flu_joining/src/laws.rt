//! Laws of the fold that joins what nodes apart sent, each the contract of a function that does nothing.

ghost use Rattle.flu_joining.specs.Laws.{EmptyOpeningsStartEmpty, WhatIsSentIsUsedUp, PartsAreUsedUp, AlikeQueuesJoinAlike, WhatWasSentGivesTheReport};

/// From an empty opening state the combined fold begins with no cells and no outputs, whichever nodes are apart, as `join_sent` does.
pub fn empty_openings_start_empty()
    ensures { EmptyOpeningsStartEmpty }
{}

/// What nodes apart send is used up behind the events that are inside none of them: each queue has come to its last contribution, which
/// is joined at the end. So `join_sent` has no `LeftOver` for it. The events are of itags of the job; they need not be in order.
pub fn what_is_sent_is_used_up()
    ensures { WhatIsSentIsUsedUp }
{
    flu_deps::laws::plans_are_trees();
    flu_deps::laws::itags_are_owned();
    flu_contribution::contributions_have_places();
}

/// So it is where each node has read streams of which it sends what it would send of the whole, and the one that combines has read streams with
/// all events of the itags that are inside none of the nodes.
pub fn parts_are_used_up()
    ensures { PartsAreUsedUp }
{
    what_is_sent_is_used_up();
    flu_contribution::laws::merged_lists_agree();
}

/// Queues whose contributions are alike for a report, one by one, joined in folds over the same events that begin alike, leave folds that
/// are alike: the same cells, and outputs of the same lines, so one report. The queues of the one are used up where those of the other are.
pub fn alike_queues_join_alike()
    ensures { AlikeQueuesJoinAlike }
{
    flu_handover::alike_contributions_join_alike();
    flu_handover::alike_outputs_have_one_report();
}

/// Where each node has read what it needs, the one that combines has read the rest, and each queue is alike for a report to what a node
/// sent, the fold that joins the queues has the final state of all events and their report, and uses the queues up.
pub fn what_was_sent_gives_the_report()
    ensures { WhatWasSentGivesTheReport }
{
    parts_are_used_up();
    alike_queues_join_alike();
    flu_contribution::laws::parts_give_the_report();
}
