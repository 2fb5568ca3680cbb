//! What does not depend on which program of a job's text is taken. Each law is the contract of a function that does nothing.

ghost use Rattle.flu_command.specs.OneText.{TextsHaveOneJob, PlansFitEach, JobsHaveOneReport, JobsHaveOneRest, JobsHaveGoodSources};
ghost use Rattle.flu_command.specs.OneText.{JobsHaveMendedSources, GoodSourcesHaveNone, StartsHaveRows};

use flu_grammar::laws::{jobs_are_grammar, programs_of_a_job_have_one_plan};
use flu_laws::programs_of_a_job_are_alike;
use flu_streams::programs_of_a_job_read_the_same;

/// The programs of a text are one job: they differ only in the places of their expressions in memory.
pub fn texts_have_one_job()
    ensures { TextsHaveOneJob }
{
    jobs_are_grammar();
}

/// The text of a plan that is valid for a program of a job's text is that of one that is valid for each.
pub fn plans_fit_each()
    ensures { PlansFitEach }
{
    jobs_are_grammar();
    programs_of_a_job_are_alike();
    programs_of_a_job_have_one_plan();
}

/// Programs that are one job have one report of the rows of the same files, from a state and from an opening; and sources are good for one
/// if they are for the other, as they are mended.
pub fn programs_of_a_job_agree()
    ensures report { JobsHaveOneReport }
    ensures rest { JobsHaveOneRest }
    ensures good { JobsHaveGoodSources }
    ensures mended { JobsHaveMendedSources }
{
    programs_of_a_job_are_alike();
    programs_of_a_job_read_the_same();
}

/// Good sources have no defect.
pub fn good_sources_have_no_defect()
    ensures { GoodSourcesHaveNone }
{}

/// The rounds with which a run starts have a row or more.
pub fn starts_have_rows()
    ensures { StartsHaveRows }
{}
