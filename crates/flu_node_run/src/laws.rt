//! Laws of the partials of nodes apart, each the contract of a function that does nothing.

ghost use Rattle.flu_node_run.specs.Laws.{JobsHaveOnePartial};

/// For programs of one job, which differ only in where the boxes of their expressions lie in memory, the partial of a node over the same
/// sources has one text, or is not written for one fault of a source.
pub fn programs_of_a_job_have_one_partial()
    ensures { JobsHaveOnePartial }
{
    flu_plan::laws::programs_of_a_job_read_plans_alike();
    flu_selected::programs_of_a_job_select_the_same();
    flu_readers::laws::programs_of_a_job_read_the_same_parts();
    flu_sending::laws::programs_of_a_job_send_the_same();
}
