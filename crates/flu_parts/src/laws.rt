//! Laws of part commands, each the contract of a function that does nothing.

ghost use Rattle.flu_parts.specs.Laws.{PartDoneIsWritten, PartialsCombinedAreTheFold, CallsGiveTheFold};
ghost use Rattle.flu_parts.specs.Calling.{PartCallsForOneStatus, PartsCompleteByFaults};

/// A part command that is done has written what it writes: of files whose bytes are known before and after the call, status 0 says that they were read
/// as the command reads them, and that the text was appended to what `out` had.
pub fn part_done_is_written()
    ensures { PartDoneIsWritten }
{}

/// A part command and its files call for one status at most, so that what refuses it comes in an order.
pub fn part_commands_call_for_one_status()
    ensures { PartCallsForOneStatus }
{
    flu_command::calling::files_call_for_one_status();
    flu_command::calling::what_ends_a_command_is_called_for();
    flu_apart::laws::reasons_are_one();
    flu_combine::laws::one_of_three_happens();
}

/// That a part command completes follows from its outcome, if the statuses 7 and 8 come only from faults of the outside.
pub fn part_commands_complete_by_faults()
    ensures { PartsCompleteByFaults }
{
    flu_command::calling::files_call_for_one_status();
    flu_command::calling::what_ends_a_command_is_called_for();
    flu_apart::laws::reasons_are_one();
    flu_combine::laws::one_of_three_happens();
}

/// Let processes, each over files of its own, have written partials of nodes of one job and one plan, and let `combine` be given their texts. Where each
/// of them, and the one that combines, had of the sources that it read what some files have, the text that `combine` writes is the report of the fold of
/// all sources of these files. Names may differ from process to process: only the bytes of the job, of the plan and of the sources count.
pub fn partials_combined_are_the_fold()
    ensures { PartialsCombinedAreTheFold }
{
    flu_grammar::laws::texts_have_one_job();
    flu_grammar::laws::programs_of_a_job_have_one_plan();
    flu_grammar::laws::plans_are_grammar();
    flu_grammar::laws::normal_forms_are_utf8();
    flu_plan::laws::plans_have_text();
    flu_selected::selected_sources_are_read();
    flu_selected::closed_sources_have_no_defect();
    flu_selected::programs_of_a_job_select_the_same();
    flu_readers::laws::files_that_are_read_matter();
    flu_readers::laws::good_sources_give_streams();
    flu_readers::laws::programs_of_a_job_read_the_same_parts();
    flu_node_run::laws::programs_of_a_job_have_one_partial();
    flu_readable::what_is_read_is_readable();
    flu_receiving::laws::partials_have_one_text();
    flu_combine::laws::texts_are_whole_partials();
    flu_combine::laws::partials_are_combined();
}

/// So it is of calls, as their outcomes tell: where each file that a call of `combine` reads has what a call of `partial` with status 0 gave to its `out`,
/// which was empty, and `combine` ends with status 0, it has appended the report of the fold to what its `out` had.
pub fn calls_give_the_fold()
    ensures { CallsGiveTheFold }
{
    partials_combined_are_the_fold();
    flu_command::one_text::texts_have_one_job();
    flu_command::one_text::programs_of_a_job_agree();
}
