//! The laws of steps, and those on which the rule of the net rests.

ghost use Rattle.flu_net.specs.Alike.{StartsAreAlike, AlikeAreEnabled, AlikeAreFinal, StepsKeepAlike};
ghost use Rattle.flu_net.specs.Facts.{EventsAreExact, PartsArePaired, OwnersCountPrefixes};
ghost use Rattle.flu_net.specs.LawsBelow.{LawsBelow};
ghost use Rattle.flu_net.specs.Runs.{StepsLower, StartsAreBounded, RunsAreBounded, RunsKeepTheRule, RunsTellTheFold};

/// Each step lowers the number of steps that are left, and this number is bounded at the start. So no more steps can be made than
/// items + events + 8 · nodes · (events + 1), however they are ordered.
pub fn steps_are_bounded()
    ensures step { StepsLower }
    ensures start { StartsAreBounded }
    ensures runs { RunsAreBounded }
{
    laws_below();
    flu_deps::laws::plans_are_trees();
}

/// The rule of the net holds after every list of steps from the start, each enabled when it is made. So each partial state, on an edge or
/// in a hand, is the one that its counts describe; the outputs emitted are those that the fold has for the events counted by their
/// owners, each event's once; and if the net is final, they are all outputs of the fold in some order.
pub fn runs_tell_the_fold()
    ensures rule { RunsKeepTheRule }
    ensures fold { RunsTellTheFold }
{
    laws_below();
}

/// What holds after every list of steps from the start, fact by fact. When a worker handles an event, the counts of the lot in its hand
/// are exact for it: of each itag on which the event depends, exactly the events before it are counted. The two parts of a worker's
/// lot, wherever they are, are paired. And what the owners of the itags counted is a prefix for dependent events: with an event, each
/// earlier one on which it depends.
pub fn facts_of_runs()
    ensures exact { EventsAreExact }
    ensures paired { PartsArePaired }
    ensures prefix { OwnersCountPrefixes }
{
    laws_below();
}

/// Steps determine what may follow them: two nets of one case that the same steps led to have the same steps enabled, and one is
/// final exactly if the other is.
pub fn steps_determine()
    ensures start { StartsAreAlike }
    ensures step { StepsKeepAlike }
    ensures enabled { AlikeAreEnabled }
    ensures end { AlikeAreFinal }
{
    laws_below();
}

/// The laws of plans, of lots, of texts, of hands and of targets.
pub(crate) fn laws_below()
    ensures { LawsBelow }
{
    flu_deps::laws::itags_are_owned();
    flu_deps::laws::plans_are_trees();
    flu_fork::laws::contents_are_settings();
    flu_fork::laws::events_have_moments();
    flu_fork::laws::fitting_states_have_sorts();
    flu_fork::laws::itags_are_of_nodes();
    flu_fork::laws::last_lots_join();
    flu_fork::laws::loans_are_paired();
    flu_fork::laws::prefixes_are_of_streams();
    flu_fork::laws::texts_are_counted();
    flu_fork::laws::texts_end();
    flu_worker::laws::hands_turn();
    flu_worker::laws::next_events_are_exact();
    flu_worker::laws::seeing_keeps_the_rule();
    flu_worker::laws::targets_are_own_or_asked();
    flu_worker::laws::waiting_ends();
}
