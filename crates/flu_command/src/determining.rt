//! What a seed and a trace determine. Each law is the contract of a function that does nothing.

ghost use Rattle.flu_command.specs.Determining.{OneLineOfARun, OneTraceOfARun, OneEndingOfATrace};

use flu_grammar::laws::{jobs_are_grammar, programs_of_a_job_have_one_plan};
use flu_laws::programs_of_a_job_are_alike;
use flu_live::laws::a_seed_draws_one_run;
use flu_streams::programs_of_a_job_read_the_same;
use flu_trace::laws::a_trace_has_one_ending;

/// The texts of a job and a plan, the sources and a seed have one line of steps, and one trace; and a trace ends in one way.
pub fn runs_are_determined()
    ensures line { OneLineOfARun }
    ensures trace { OneTraceOfARun }
    ensures ending { OneEndingOfATrace }
{
    a_seed_draws_one_run();
    a_trace_has_one_ending();
    jobs_are_grammar();
    programs_of_a_job_are_alike();
    programs_of_a_job_have_one_plan();
    programs_of_a_job_read_the_same();
}
