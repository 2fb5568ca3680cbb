//! Laws of runs in rounds, each the contract of a function that does nothing.

ghost use Rattle.std.specs.Prelude.{ℕ, Option};
ghost use Rattle.flu_model.specs.Contents.{Contents};
ghost use Rattle.flu_rounds.specs.Coming.{LawOfBeginning, LawOfGoingOn, LawOfText, LawOfNextText, LawOfLast, LawOfDefect};
ghost use Rattle.flu_rounds.specs.Coming.{LawOfBeginningFrom, LawOfGoingOnFrom, LawOfTextFrom, LawOfNextTextFrom, LawOfLastFrom, LawOfDefectFrom};
ghost use Rattle.flu_rounds.specs.Coming.{LawOfTextAndState, LawOfNextTextAndState, LawOfNextState, LawOfDefectAndState};
ghost use Rattle.flu_rounds.specs.Coming.{LawOfOtherNames, LawOfReportFronts, LawOfNextReportFronts};
ghost use Rattle.flu_rounds.specs.Counting.{LawOfFirstCounts, LawOfNextCounts, LawOfLastCounts};
ghost use Rattle.flu_rounds.specs.Halves.{LawOfParts, LawOfHalves, LawOfHalf};

use flu_streams::{
    last_round_has_all_rows, last_round_has_later_rows, rounds_are_counted_in_turn,
    rounds_are_folded_in_turn, rounds_begin_and_end, rounds_meet_what_is_there,
};

/// How far a run in rounds has come (`CameTo`): it begins with nothing written, and each round with a border takes it further.
pub fn runs_go_on()
    ensures beginning { LawOfBeginning }
    ensures going_on { LawOfGoingOn }
{
    rounds_begin_and_end();
}

/// What a run in rounds has written: after each border it is the report of the fold of all rows up to it, and with the report of
/// one more round the report of all rows up to that round's end. The last round gives the report and the state of the fold of all rows.
/// If a round meets a defect, it is the one that the run of all the lines meets.
pub fn runs_write_the_fold()
    ensures text { LawOfText }
    ensures next { LawOfNextText }
    ensures last { LawOfLast }
    ensures defect { LawOfDefect }
{
    rounds_are_folded_in_turn();
    last_round_has_all_rows();
    last_round_has_later_rows();
    rounds_begin_and_end();
}

/// How far a run has come that is resumed above a border, from a state (`CameFrom`), as in `runs_go_on`.
pub fn resumed_runs_go_on()
    ensures beginning { (border : Option ℕ) (opening : Contents) → LawOfBeginningFrom border opening }
    ensures going_on { (border : Option ℕ) (opening : Contents) → LawOfGoingOnFrom border opening }
{
    rounds_begin_and_end();
}

/// What a run has written that is resumed above a border, from a state: as in `runs_write_the_fold`, with the fold from that state, of
/// the rows above that border. And the state after the rounds that were run is the state of the same fold.
pub fn resumed_runs_write_the_fold()
    ensures text { (border : Option ℕ) (opening : Contents) → LawOfTextFrom border opening }
    ensures next { (border : Option ℕ) (opening : Contents) → LawOfNextTextFrom border opening }
    ensures last { (border : Option ℕ) (opening : Contents) → LawOfLastFrom border opening }
    ensures defect { (border : Option ℕ) (opening : Contents) → LawOfDefectFrom border opening }
    ensures state { (border : Option ℕ) (opening : Contents) → LawOfTextAndState border opening }
    ensures next_with_state { (border : Option ℕ) (opening : Contents) → LawOfNextTextAndState border opening }
    ensures next_state { (border : Option ℕ) (opening : Contents) → LawOfNextState border opening }
    ensures defect_with_state { (border : Option ℕ) (opening : Contents) → LawOfDefectAndState border opening }
{
    rounds_are_folded_in_turn();
    last_round_has_all_rows();
    last_round_has_later_rows();
    rounds_begin_and_end();
}

/// What a run in rounds has counted (`CountedFrom`), whether it is resumed or not: before its first round nothing; each round with a
/// border increases the counts by its events, and after the last one the events of all rows above the run's start were counted.
pub fn runs_count_their_events()
    ensures first { LawOfFirstCounts }
    ensures next { LawOfNextCounts }
    ensures last { LawOfLastCounts }
{
    rounds_are_counted_in_turn();
    last_round_has_all_rows();
    last_round_has_later_rows();
    rounds_begin_and_end();
}

/// Both halves of a round, with the fold of its rows between them, make a round; and if the second one fails, a prefix of the
/// round's report was written.
pub fn halves_make_a_round()
    ensures round { LawOfHalves }
    ensures part { LawOfHalf }
{}

/// What was filled for a round and then handed out makes the first half of that round, from any standing with what was held before
/// and the state that was handed out.
pub fn parts_make_a_half()
    ensures { LawOfParts }
{}

/// How far a run has come is not affected if, between two rounds, names change that are no source's file.
pub fn other_names_leave_runs_alone()
    ensures { (border : Option ℕ) (opening : Contents) → LawOfOtherNames border opening }
{}

/// If no source has a defect, what a run has written after a border, with or without the report of one more round, is a prefix of the
/// report of the fold of all rows; for a run that is resumed, of those above its border, from its state.
pub fn fronts_of_reports()
    ensures fronts { (border : Option ℕ) (opening : Contents) → LawOfReportFronts border opening }
    ensures next { (border : Option ℕ) (opening : Contents) → LawOfNextReportFronts border opening }
{
    rounds_meet_what_is_there();
    last_round_has_all_rows();
    last_round_has_later_rows();
}
