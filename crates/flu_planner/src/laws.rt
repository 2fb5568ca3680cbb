//! Laws about every greedy plan. Each law is the contract of a function that does nothing.

ghost use Rattle.flu_planner.specs.Laws.{GreedyKeepsRules, GreedyIsValid, GreedyHasText, GreedyIsReadAgain, GreedyIsUnique};

use flu_model::laws::itags_have_tags;
use flu_plan::laws::printed_is_read;

/// The nodes of a greedy plan keep the rules of plans: they are one binary tree in preorder with names of their own, within the
/// limits.
pub fn greedy_plans_keep_rules()
    ensures { GreedyKeepsRules }
{
    itags_have_tags();
}

/// A greedy plan is valid for its job: each itag has exactly one owner, and the itags of unrelated nodes are independent.
pub fn greedy_plans_are_valid()
    ensures { GreedyIsValid }
{}

/// A greedy plan has a text: its predicates name kinds and sources of the job, and its names are names of the language.
pub fn greedy_plans_have_text()
    ensures { GreedyHasText }
{
    itags_have_tags();
}

/// A greedy plan's text is parsed as this plan again.
pub fn greedy_plans_are_read_again()
    ensures { GreedyIsReadAgain }
{
    greedy_plans_keep_rules();
    greedy_plans_have_text();
    printed_is_read();
}

/// A job has one greedy plan for some rates and a depth.
pub fn greedy_plans_are_unique()
    ensures { GreedyIsUnique }
{}
