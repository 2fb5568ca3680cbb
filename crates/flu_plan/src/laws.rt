//! Laws of plan texts, each the contract of a function that does nothing.

ghost use Rattle.flu_plan.specs.Grammar.{FoundIsPlan, PlansAreUnique, UnexpectedIsFirst};
ghost use Rattle.flu_plan.specs.Laws.{PlansKeepRules, PlansHaveText, PrintedIsRead, JobsReadPlansAlike};

use flu_layout::laws::{keys_are_laid, laid_is_read, read_may_be_printed};
use flu_text::laws::signs_stand;

/// What is found is exactly what the tokens are by the grammar, word by word and place by place; and that is one plan at most.
pub fn found_is_plan()
    ensures exactly { FoundIsPlan }
    ensures unique { PlansAreUnique }
{}

/// An unexpected token is the first with which the tokens before it can no longer be continued to a plan; and if that is the
/// end, they can be and are none yet.
pub fn unexpected_is_first()
    ensures { UnexpectedIsFirst }
{}

/// The plan that a text is keeps the rules of plans.
pub fn plans_keep_rules()
    ensures { PlansKeepRules }
{}

/// The nodes of the plan that a text is have names of the language, and their predicates name kinds and sources of the job.
pub fn plans_have_text()
    ensures { PlansHaveText }
{
    read_may_be_printed();
    signs_stand();
}

/// The text of a plan is read as that plan, where its nodes have names of the language and its predicates name kinds and sources
/// of the job.
pub fn printed_is_read()
    ensures { PrintedIsRead }
{
    laid_is_read();
    keys_are_laid();
}

/// Programs of one job, which differ only in where the boxes of their expressions lie in memory, read the same plan from a text, or the
/// same fault, and print the same text of a plan.
pub fn programs_of_a_job_read_plans_alike()
    ensures { JobsReadPlansAlike }
{}
