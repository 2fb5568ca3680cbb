//! Runs that are resumed: what their checkpoints stand for. Each law is the contract of a function that does nothing.

ghost use Rattle.flu_command.specs.Resting.{CheckpointsOpenTheRest, RunsGoOn, CheckpointsOpen, SourcesDecide, CheckpointsLeaveSources};

use flu_grammar::laws::{normal_forms_are_short, normal_forms_are_utf8};
use flu_laws::updates_are_changes;
use flu_model::laws::itags_have_tags;
use flu_rows::times_are_in_range;
use flu_save::save_is_a_checkpoint;
use flu_streams::{
    borders_cut_a_fold, last_round_has_all_rows, last_round_has_later_rows,
    rounds_meet_what_is_there,
};

/// If no source has a defect, a checkpoint that a run has put opens the rest of the run: what was written when it was put, and then
/// the report of a run that is resumed from it, are together the report of the run. The same holds for any number of runs, each of which
/// is resumed from a checkpoint that the one before it put. And such a checkpoint of a text's job is refused for no fault.
pub fn of_checkpoints()
    ensures rest { CheckpointsOpenTheRest }
    ensures together { RunsGoOn }
    ensures opens { CheckpointsOpen }
{
    borders_cut_a_fold();
    itags_have_tags();
    last_round_has_all_rows();
    last_round_has_later_rows();
    normal_forms_are_short();
    normal_forms_are_utf8();
    rounds_meet_what_is_there();
    save_is_a_checkpoint();
    times_are_in_range();
    updates_are_changes();
}

/// What a run is resumed over: sources whose files have the same bytes have the same lines and items, whatever is read before them; and
/// the checkpoint, which is no source's file, leaves what they have.
pub fn of_resumed_sources()
    ensures sources { SourcesDecide }
    ensures checkpoint { CheckpointsLeaveSources }
{}
