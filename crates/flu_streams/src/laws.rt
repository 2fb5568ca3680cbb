//! Laws of borders and rounds, each the contract of a function that does nothing.

ghost use Rattle.flu_streams.specs.Borders.{LawOfBorders, ItemsAreCut};
ghost use Rattle.flu_streams.specs.Counts.{OneMoreInTurn, LawOfCounts};
ghost use Rattle.flu_streams.specs.Holding.{LawOfStart, LawOfEnds, LawOfBounds};
ghost use Rattle.flu_streams.specs.Fronts.{LawOfFronts, LawOfFrontsAbove, LawOfMeeting};
ghost use Rattle.flu_streams.specs.OneJob.{JobsReadTheSame};
ghost use Rattle.flu_streams.specs.Rounds.{LawOfRounds, LawOfNoRows, LawOfLastRound, LawOfLastAbove};

/// The law of borders: what is cut at a time can be folded in turn. The fold of the events up to the time, and then, from its state,
/// the fold of the later ones, give the state and the outputs of the whole fold; and its report is the two reports, one after the
/// other. The items up to a time and the later ones are such a cut.
pub fn borders_cut_a_fold()
    ensures fold { LawOfBorders }
    ensures items { ItemsAreCut }
{}

/// The law of rounds: the rounds up to any one, each folded from the state after the one before it, give the state and the
/// outputs of the fold of all rows that were read above the run's start, up to its border; and its report is their reports, one
/// after another. And before the first round there is nothing to fold.
pub fn rounds_are_folded_in_turn()
    ensures rounds { LawOfRounds }
    ensures none { LawOfNoRows }
{}

/// The law of counts: the events of the rounds up to any one, counted by itag round by round, are those of all rows that were read
/// above the run's start, up to its border. And if one more round is counted, its events are counted after those before it.
pub fn rounds_are_counted_in_turn()
    ensures rounds { LawOfCounts }
    ensures one_more { OneMoreInTurn }
{}

/// The last round: after it the rows that were read are all rows of the sources' files, and their lists are those that `gather`
/// gives of good sources.
pub fn last_round_has_all_rows()
    ensures { LawOfLastRound }
{}

/// The last round of a run that starts above a border: the lists of the rows above it have the later events of those that `gather`
/// gives of good sources.
pub fn last_round_has_later_rows()
    ensures { LawOfLastAbove }
{}

/// The law of the start: before the first round nothing has been read, so all lines are still to be read. And after the last round,
/// if all files were read to their ends, nothing is left of any of them.
pub fn rounds_begin_and_end()
    ensures start { LawOfStart }
    ensures ends { LawOfEnds }
{}

/// The law of fronts: if no source has a defect, the fold of all rows is the fold of the rows of the rounds up to a border, and then,
/// from its state, the fold of the later ones; and its report is the two reports, one after the other. The same holds of a run that
/// starts above a border, with the rows above it.
/// And the law of meeting: a defect that a round meets is the first one of its source.
pub fn rounds_meet_what_is_there()
    ensures fronts { LawOfFronts }
    ensures above { LawOfFrontsAbove }
    ensures meeting { LawOfMeeting }
{}

/// The law of what is held: if only as many rows of each source are held as a round needs, and as many as it may have at each time within its
/// margin, these are no more of each than its limit; and the lists of a round have at most 256 times as many events and heartbeats, besides
/// their ends. Before version 3 the limit is 64,096, so the lists have at most 16,408,576.
pub fn rounds_hold_few()
    ensures { LawOfBounds }
{}

/// The law of jobs: programs of one job, which differ only in where the boxes of their expressions lie in memory, read the same of the same
/// files: the same first fault and the same lists of items.
pub fn programs_of_a_job_read_the_same()
    ensures { JobsReadTheSame }
{}
