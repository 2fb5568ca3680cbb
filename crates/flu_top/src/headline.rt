//! The headline: if nothing is wrong, a call writes the report of the fold of the merged events. A law for each command that writes
//! one, in terms of a job's meaning alone. Each law is the contract of a function that does nothing.

ghost use Rattle.flu_top.specs.Headline.{FoldIsTheReport, RunIsTheFold, SimulationIsTheFold, ReplayIsTheFold, OneTextOneReport};

use flu_command::one_text::{programs_of_a_job_agree, texts_have_one_job};
use flu_grammar::laws::jobs_are_grammar;
use flu_words::rounds_have_rows;

/// The text of a job has one report of the same sources, whichever program of it is taken: programs of one text differ only in the
/// places of their expressions in memory.
pub fn one_text_one_report()
    ensures { OneTextOneReport }
{
    jobs_are_grammar();
    programs_of_a_job_agree();
}

/// `fold JOB` of a job's text with good sources, if nothing failed, writes the report of the fold of all their events, merged in
/// order, and has status 0; or memory ran out, and it has status 9.
pub fn fold_is_the_report()
    ensures { FoldIsTheReport }
{
    programs_of_a_job_agree();
    texts_have_one_job();
}

/// So do `run`, `simulate` and `replay` of an accepted job and a valid plan, whichever steps the threads took, the seed draws or the
/// trace has: `run` with or without a plan, `--save` and `--adapt`, in rounds of any number of rows, if it is not resumed; `simulate` if it
/// does not write its trace; and `replay` of a trace that can only be complete.
pub fn runs_are_the_fold()
    ensures run { RunIsTheFold }
    ensures simulation { SimulationIsTheFold }
    ensures replay { ReplayIsTheFold }
{
    programs_of_a_job_agree();
    rounds_have_rows();
    texts_have_one_job();
}
