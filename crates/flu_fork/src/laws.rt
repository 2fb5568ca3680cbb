//! What holds of every lot that fits a node of a valid plan of an accepted job. Each law is the contract of a function that does
//! nothing, and speaks of states as contracts see them, as what each cell holds.

ghost use Rattle.flu_fork.specs.LawsBelow.{LawsBelow};
ghost use Rattle.flu_fork.specs.Completing.{LeavesBringAll, LastOnesArePaired, JoinsBringAll};
ghost use Rattle.flu_fork.specs.Laws.{NothingIsCopied, NeededIsBase, BaseIsNotAway, CopiesAreOnlyRead, FittingHasSorts, OpeningFits, ForksFit, JoinsFit};
ghost use Rattle.flu_fork.specs.Laws.{CentralLaw};
ghost use Rattle.flu_fork.specs.Kin.{ItagsAreOfNodes, ItagsAreOfKids, ItagsAreOfTheRoot};
ghost use Rattle.flu_fork.specs.Places.{EventsHaveMoments, MomentsAreEvents, EventsAreKnown};
ghost use Rattle.flu_fork.specs.Serving.{LentIsOnLoan, LoansArePaired, JoinsServe, JoinsGrow, ClearIsJustBefore, JustBeforeAtLeaf, JustBeforeAtInner};
ghost use Rattle.flu_fork.specs.Serving.{JustBeforeIsExact, LeavesServe, ContentsAreSettings};
ghost use Rattle.flu_fork.specs.Streams.{PrefixesAgree, ExactnessAgrees};
ghost use Rattle.flu_fork.specs.Walks.{WalksFit, WalksCount, LeftIsServed, OthersAreNotServed};
ghost use Rattle.flu_fork.specs.Texts.{NoTexts, TextsAreOfTheSet, TextsGrow, TextsOfThree, TextsEnd, StatesEnd, OutputsAreOfMoments};

use flu_deps::laws::{itags_are_owned, plans_are_trees};

/// In version 1 of the language an itag that needs a cell may write it too. So a fork moves cells, and copies none.
pub fn nothing_is_copied()
    ensures { NothingIsCopied }
{
    flu_laws::version_1_reads_are_owned();
}

/// A cell that an itag of a node's subtree needs is base at the node.
pub fn needed_cells_are_base()
    ensures { NeededIsBase }
{
    laws_below();
}

/// No cell is both base and away at a node.
pub fn base_cells_are_not_away()
    ensures { BaseIsNotAway }
{}

/// A cell that is copied at a node is not written below it, in neither child's subtree.
pub fn copies_are_only_read()
    ensures { CopiesAreOnlyRead }
{
    laws_below();
}

/// What fits a node holds values of the job's sorts.
pub fn fitting_states_have_sorts()
    ensures { FittingHasSorts }
{
    laws_below();
}

/// The opening state, with no event counted, fits the root.
pub fn openings_fit()
    ensures { OpeningFits }
{
    laws_below();
}

/// The two parts of what fits a node fit its children, and their counts are paired.
pub fn forks_fit()
    ensures { ForksFit }
{
    laws_below();
}

/// What fits the two children of a node, with paired counts, comes together to what fits the node.
pub fn joins_fit()
    ensures { JoinsFit }
{
    laws_below();
}

/// The central law: what fits a node, updated with an event of this node that is exact for its counts, fits it again with this
/// event counted, and the texts are those of the fold.
pub fn updates_fit()
    ensures { CentralLaw }
{
    laws_below();
}

/// Whose itags are whose in a valid plan: what a node owns, what is below it and what is above it, by its owner and by its
/// children.
pub fn itags_are_of_nodes()
    ensures nodes { ItagsAreOfNodes }
    ensures kids { ItagsAreOfKids }
    ensures root { ItagsAreOfTheRoot }
{
    laws_below();
}

/// Each event of the streams has one moment of the fold, with the earlier events before it and the later ones after it,
/// and each moment is that of an event of the streams. An itag with an event is one of the job.
pub fn events_have_moments()
    ensures moments { EventsHaveMoments }
    ensures events { MomentsAreEvents }
    ensures known { EventsAreKnown }
{
    laws_below();
}

/// That counts are a prefix, and that they are exact for an event, is so by the events of the streams and their order, without
/// the fold.
pub fn prefixes_are_of_streams()
    ensures prefix { PrefixesAgree }
    ensures exact { ExactnessAgrees }
{
    laws_below();
}

/// A case is a setting, so each law of settings holds of it.
pub fn contents_are_settings()
    ensures { ContentsAreSettings }
{}

/// A lot is on the loan that it was lent with, and two parts of one fork that are each on its loan are paired, whatever the other
/// one did in between.
pub fn loans_are_paired()
    ensures lent { LentIsOnLoan }
    ensures paired { LoansArePaired }
{}

/// An event that is before all that are not counted, of the itags of a set on which it depends, has of that set just the events
/// before it counted. So a leaf may give up its lot for an event from above where it is clear for the leaf's own itags.
pub fn clear_events_are_served()
    ensures clear { ClearIsJustBefore }
    ensures leaf { LeavesServe }
{
    laws_below();
}

/// What is counted just before an event in a whole subtree is so by the node's own itags and by the subtrees of its children. Where
/// it is so below a node and above it, the counts are exact for an event of the node.
pub fn subtrees_count_just_before()
    ensures leaf { JustBeforeAtLeaf }
    ensures inner { JustBeforeAtInner }
    ensures exact { JustBeforeIsExact }
{
    laws_below();
}

/// Two parts that were served for an event join to a lot that is served for it. The next parts begin, in each child's subtree,
/// where the taken ones ended.
pub fn served_lots_join()
    ensures serves { JoinsServe }
    ensures grows { JoinsGrow }
{
    laws_below();
}

/// At the end, when all events of a node's subtree are counted: so it is at a leaf by its own events, and two lots of which each has
/// all events of a child's subtree, from the last fork of the node, are paired and join to one that has all of the node's subtree.
pub fn last_lots_join()
    ensures leaf { LeavesBringAll }
    ensures paired { LastOnesArePaired }
    ensures joined { JoinsBringAll }
{
    laws_below();
}

/// The texts of a set of itags: none where nothing is counted, the same where the counts of the set are the same, more by an
/// event's outputs where it is counted, and those of three sets together where each itag is in one of the three.
pub fn texts_are_counted()
    ensures nothing { NoTexts }
    ensures same { TextsAreOfTheSet }
    ensures grow { TextsGrow }
    ensures three { TextsOfThree }
{
    laws_below();
}

/// At the end: the texts of the root's subtree are the outputs of the fold, its state is the final state, and the outputs of the
/// fold are those of its moments.
pub fn texts_end()
    ensures texts { TextsEnd }
    ensures states { StatesEnd }
    ensures outputs { OutputsAreOfMoments }
{
    laws_below();
}

/// A walk through the laws, the first table of `docs/TREE.md`: the opening, a fork, an event at each child, the join, an event at the
/// root, a second fork and an event at the left child. Each row fits by the row before it, with the counts of the table, and the
/// texts at the root are those of the fold. A cell to which the events add 5, 7 and 2 holds what the table says.
pub fn walks_fit()
    ensures rows { WalksFit }
    ensures values { WalksCount }
{
    laws_below();
}

/// What the left child of the walk gives up for the root's event: the lot with its first event counted is served, and neither the
/// one without it, which would come too early, nor the one with the second event too.
pub fn walks_are_served()
    ensures served { LeftIsServed }
    ensures others { OthersAreNotServed }
{
    laws_below();
}

// The laws of jobs and of trees that those of lots rest on.
fn laws_below()
    ensures { LawsBelow }
{
    flu_laws::accepted_is_lawful();
    flu_laws::changes_keep_to_modes();
    flu_laws::dependency_turns();
    flu_laws::fits_again();
    flu_laws::moments_are_in_order();
    flu_laws::updates_are_changes();
    itags_are_owned();
    plans_are_trees();
}
