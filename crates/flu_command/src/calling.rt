//! The status that a command and its files call for. Each law is the contract of a function that does nothing.

ghost use Rattle.flu_command.specs.Calling.{CallsForOneStatus, DoneIsCalledFor, JobFaultIsCalledFor, ConflictIsCalledFor, PlanDefectIsCalledFor};
ghost use Rattle.flu_command.specs.Calling.{SaveDefectIsCalledFor, SourceFaultIsCalledFor, TraceFaultIsCalledFor};

use flu_grammar::laws::{jobs_are_grammar, plans_are_grammar, programs_of_a_job_have_one_plan};
use flu_laws::programs_of_a_job_are_alike;
use flu_save::faults_are_no_checkpoints;
use flu_streams::{programs_of_a_job_read_the_same, rounds_meet_what_is_there};
use flu_trace::laws::a_trace_has_one_ending;

/// A command and its files call for one status at most, so that the refusals come in an order.
pub fn files_call_for_one_status()
    ensures { CallsForOneStatus }
{
    a_trace_has_one_ending();
    faults_are_no_checkpoints();
    jobs_are_grammar();
    plans_are_grammar();
    programs_of_a_job_are_alike();
    programs_of_a_job_have_one_plan();
    programs_of_a_job_read_the_same();
    rounds_meet_what_is_there();
}

/// If all that a command asks for was done, its files call for status 0; and if a fault of its job's text, a conflict of its job, a defect
/// of its plan, of its start or of a source, or a fault of its trace refused it, they call for the status of that.
pub fn what_ends_a_command_is_called_for()
    ensures done { DoneIsCalledFor }
    ensures job_fault { JobFaultIsCalledFor }
    ensures conflict { ConflictIsCalledFor }
    ensures plan_defect { PlanDefectIsCalledFor }
    ensures save_defect { SaveDefectIsCalledFor }
    ensures source_fault { SourceFaultIsCalledFor }
    ensures trace_fault { TraceFaultIsCalledFor }
{
    a_trace_has_one_ending();
    faults_are_no_checkpoints();
    jobs_are_grammar();
    plans_are_grammar();
    programs_of_a_job_are_alike();
    programs_of_a_job_have_one_plan();
    programs_of_a_job_read_the_same();
    rounds_meet_what_is_there();
}
