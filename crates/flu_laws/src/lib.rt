//! The laws of jobs, on which keeping a state in parts rests. Each is the contract of a function that does nothing, and speaks
//! of states as contracts see them, as what each cell holds.
#![tactic(auto)]

ghost use Rattle.flu_laws.specs.Consistency.{UpdatesLeft, UpdatesRight, Commutes, JoinsSplits};
ghost use Rattle.flu_laws.specs.Lawful.{AcceptanceByUses, AcceptedIsLawful, DependencyTurns};
ghost use Rattle.flu_laws.specs.Lots.{CentralLaw};
ghost use Rattle.flu_laws.specs.OneJob.{JobsHaveTheSameItags, JobsDoTheSame, JobsAreAcceptedAlike, JobsHaveTheSameOwners, JobsReportTheSame};
ghost use Rattle.flu_laws.specs.Spans.{MomentsAreOfEvents, PlacesRise, SpansAddUp, UpdatesInPlace};
ghost use Rattle.flu_laws.specs.Updating.{TextsAreLocal, CellsAreLocal, ChangesAreLocal, UpdatesAreChanges, KeepsSorts, FoldKeepsSorts, UnwrittenKeeps};
ghost use Rattle.flu_laws.specs.Updating.{ChangesKeepSorts, ChangesMix};
ghost use Rattle.flu_laws.specs.Versions.{NothingIsShared, OwnsWhatItReads, ConflictsWithoutRead};
ghost use Rattle.flu_laws.specs.Uses.{NeedsByActions, WritesByActions};
ghost use Rattle.flu_model.specs.Modes.{IsAccepted};
ghost use Rattle.flu_model.specs.declared.jobs.Program.{Program};

/// Update of a part: an update of one part of a state before the parts are joined is the update after it, where the other part
/// is neutral at the cells that the event's tag needs.
pub fn update_of_a_part()
    ensures left { (p : Program) → UpdatesLeft p }
    ensures right { (p : Program) → UpdatesRight p }
{}

/// Independent updates commute: two events of independent tags of an accepted job give in both orders the same state, and
/// each the same texts.
pub fn independent_updates_commute()
    ensures { (p : Program) → IsAccepted p → Commutes p }
{}

/// Join undoes split: where some cells of a state are moved to another part and others are copied to it, the parts join to the
/// state once the copies are dropped.
pub fn join_undoes_split()
    ensures { JoinsSplits }
{}

/// Locality: the texts, cells and amounts of an update depend on the cells alone that the event's tag needs.
pub fn updates_are_local()
    ensures texts { TextsAreLocal }
    ensures cells { CellsAreLocal }
    ensures changes { ChangesAreLocal }
{}

/// Change: an update changes each cell as its tag's mode there says, and keeps to the sorts of the families, as a fold does.
pub fn updates_are_changes()
    ensures changes { UpdatesAreChanges }
    ensures sorts { KeepsSorts }
    ensures fold { FoldKeepsSorts }
{}

/// The change of a cell, by the mode of the event's tag there: none where the tag does not write it, and a value to be joined to what
/// it holds where the tag does not need it. It keeps to the cell's sort.
pub fn changes_keep_to_modes()
    ensures idle { UnwrittenKeeps }
    ensures sorts { ChangesKeepSorts }
    ensures mixing { ChangesMix }
{}

/// Dependency of tags goes both ways.
pub fn dependency_turns()
    ensures { DependencyTurns }
{}

/// The moments of a fold are its events, in order, and their places rise.
pub fn moments_are_in_order()
    ensures events { MomentsAreOfEvents }
    ensures places { PlacesRise }
{}

/// An accepted job is one in which a cell that one tag needs and another writes makes them dependent; and it has all that the
/// worker tree asks of a job.
pub fn accepted_is_lawful()
    ensures uses { AcceptanceByUses }
    ensures lawful { AcceptedIsLawful }
{}

/// The effects of two parts of the events on a cell that these only add to, or only raise, join to those of both.
pub fn spans_add_up()
    ensures { SpansAddUp }
{}

/// An event that is put into its place among the counted ones updates a cell to their effects with its own.
pub fn updates_in_place()
    ensures { UpdatesInPlace }
{}

/// The central law: a part whose cells fit its counts, updated with an event that is exact for these, fits again with this event
/// counted, and the texts are those of the fold.
pub fn fits_again()
    ensures { CentralLaw }
{}

/// What a tag needs and writes, by the text of its kind's actions.
pub fn modes_are_of_actions()
    ensures needs { NeedsByActions }
    ensures writes { WritesByActions }
{}

/// Version 1: no tag has the mode Read, a cell that is read is owned, and two modes conflict where both differ from None and they
/// are neither both Add nor both Raise.
pub fn version_1_reads_are_owned()
    ensures nothing_is_shared { NothingIsShared }
    ensures modes { OwnsWhatItReads }
    ensures conflicts { ConflictsWithoutRead }
{}

/// Programs of one job differ only in where the boxes of their expressions lie in memory. So they have the same itags, an event does the
/// same for them, tags use cells in the same modes, the nodes of a plan own the same itags, and outputs have the same report. One is
/// accepted if the other is, and a plan is valid for one if it is for the other.
pub fn programs_of_a_job_are_alike()
    ensures itags { JobsHaveTheSameItags }
    ensures updates { JobsDoTheSame }
    ensures acceptance { JobsAreAcceptedAlike }
    ensures owners { JobsHaveTheSameOwners }
    ensures reports { JobsReportTheSame }
{}
