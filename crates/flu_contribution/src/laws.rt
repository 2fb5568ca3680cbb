//! Laws of nodes apart whose events are handled by processes of their own, which read only some of the streams and send what their events
//! contributed (`docs/SCALE.md`). Each law is the contract of a function that does nothing.

ghost use Rattle.flu_contribution.specs.OneJob.{JobsMayBeApartAlike, JobsContributeTheSame};
ghost use Rattle.flu_contribution.specs.Sharing.{OnlyNeededEventsMatter, IdleEventsDontMatter, MergedEventsRiseStrictly, MergedListsAgree, MergedListsPassAlike};
ghost use Rattle.flu_contribution.specs.Sharing.{WhatIsSentIsJoined, PartsGiveTheReport};

use crate::contributions_give_the_fold;

/// The contributions of a node depend on the events alone that it needs: those inside it and those above it, in their order.
pub fn only_needed_events_matter()
    ensures { OnlyNeededEventsMatter }
{}

/// An event is idle for a node if nothing has been contributed since the last event above the node when it comes. Without such events the node sends
/// the same: contributions of no event are not sent. The events rise strictly.
pub fn idle_events_dont_matter()
    ensures { IdleEventsDontMatter }
{}

/// Where two lists of streams have the same events that pass a test, itag by itag, these are the same in both merged lists, in the same order. So it is
/// with a test of itags.
pub fn merged_lists_agree()
    ensures events { MergedListsPassAlike }
    ensures itags { MergedListsAgree }
{}

/// The merged events of streams rise strictly: each is before all later ones.
pub fn merged_events_rise_strictly()
    ensures { MergedEventsRiseStrictly }
{}

/// A node sends its contributions in order, without those of no event, but always the last one. The fold over the events that are inside none of
/// the nodes, which joins what each node sent before the events that it names, and the last one at the end, gives what the combined fold gives:
/// the same state, and the same outputs in the same order. The events rise strictly, so no two have the same time and itag.
pub fn what_is_sent_is_joined()
    ensures { WhatIsSentIsJoined }
{
    flu_laws::accepted_is_lawful();
    flu_laws::update_of_a_part();
    flu_deps::laws::plans_are_trees();
    flu_deps::laws::itags_are_owned();
}

/// Where each node has read streams of which it sends what it would send of the whole, and the one that combines has read streams with all events of
/// the itags that are inside none of the nodes, what the nodes send and the rest of the events give the fold's final state and its report.
/// What else each of them has read changes nothing.
pub fn parts_give_the_report()
    ensures { PartsGiveTheReport }
{
    contributions_give_the_fold();
    merged_lists_agree();
    what_is_sent_is_joined();
}

/// For programs of one job, which differ only in where the boxes of their expressions lie in memory, the same nodes of a plan may be apart,
/// each contributes the same, and what the nodes sent is joined to the same.
pub fn programs_of_a_job_contribute_the_same()
    ensures apart { JobsMayBeApartAlike }
    ensures contributions { JobsContributeTheSame }
{
    flu_laws::programs_of_a_job_are_alike();
}
