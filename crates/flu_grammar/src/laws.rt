//! Laws of the meaning of texts, each the contract of a function that does nothing.

ghost use Rattle.flu_grammar.specs.Faults.{BytesAreTooMany, BytesAreNotUtf8, NoTokenBegins, UnexpectedIsNotContinued, TooManyAreOpen, RefusedIsNoJob};
ghost use Rattle.flu_grammar.specs.Faults.{RefusedIsNoPlan};
ghost use Rattle.flu_grammar.specs.Faults.{FamilyIsUnknown, KindIsUnknown, PlanKindIsUnknown, PlanSourceIsUnknown, ChildIsUnknown, TwiceNamedIsDeclaredTwice};
ghost use Rattle.flu_grammar.specs.Faults.{TwiceNamedIsOnTwice, TwiceNamedIsFileTwice, NoTreeIsNodeTwice};
ghost use Rattle.flu_grammar.specs.BrokenJobs.{FaultsAreByRule};
ghost use Rattle.flu_grammar.specs.BrokenPlans.{PlanFaultsAreByRule};
ghost use Rattle.flu_grammar.specs.Laws.{JobsAreGrammar, TextsHaveOneJob, PlansAreGrammar, TextsHaveOnePlan, NormalFormIsText, PrintedIsText};
ghost use Rattle.flu_grammar.specs.Laws.{JobTextsKeepRules, NormalFormIsShort, NormalFormIsUtf8, PlanTextsFitEach, JobsHaveOnePlan};

use flu_parse::laws::{jobs_keep_rules, printed_is_read};
use flu_plan::laws::{found_is_plan, plans_keep_rules, programs_of_a_job_read_plans_alike};
use flu_syntax::laws::{found_is_job, too_deep_is_the_65th, unexpected_is_first};
use flu_text::laws::{reading_is_exact, tokens_stand};

/// The job that is read from some bytes is exactly the one whose text they are, by the grammar and by what each part of it means.
pub fn jobs_are_grammar()
    ensures { JobsAreGrammar }
{
    reading_is_exact();
    found_is_job();
}

/// No bytes are the text of two jobs.
pub fn texts_have_one_job()
    ensures { TextsHaveOneJob }
{
    jobs_are_grammar();
}

/// The plan that is read from some bytes is exactly the one whose text they are, by the grammar and by what each part of it means.
pub fn plans_are_grammar()
    ensures { PlansAreGrammar }
{
    reading_is_exact();
    found_is_plan();
    plans_keep_rules();
}

/// No bytes are the text of two plans.
pub fn texts_have_one_plan()
    ensures { TextsHaveOnePlan }
{
    plans_are_grammar();
}

/// Programs of one job, which differ only in where the boxes of their expressions lie in memory, have the same plan of a text.
pub fn programs_of_a_job_have_one_plan()
    ensures each { PlanTextsFitEach }
    ensures one { JobsHaveOnePlan }
{
    plans_are_grammar();
    texts_have_one_plan();
    programs_of_a_job_read_plans_alike();
}

/// What is printed of a job, or of a plan, is a text of it.
pub fn printed_texts_are_grammar()
    ensures job { NormalFormIsText }
    ensures plan { PrintedIsText }
{
    jobs_are_grammar();
    printed_is_read();
    plans_are_grammar();
    flu_plan::laws::printed_is_read();
}

/// The job that a text means keeps the rules of the language.
pub fn job_texts_keep_rules()
    ensures { JobTextsKeepRules }
{
    jobs_are_grammar();
    jobs_keep_rules();
}

/// The normal form of the job that a text means has at most 26,214,400 bytes: each expression is printed with at most 23 bytes for each of
/// its tokens and 16 more, each list of names with at most 23 for each byte of its texts and 41 more, and all else has the bounds that the
/// rules of a job give.
pub fn normal_forms_are_short()
    ensures { NormalFormIsShort }
{
    tokens_stand();
}

/// The normal form of the job that a text means is UTF-8: names, files, texts of lists and plain pieces of templates are in the text between
/// two of its characters, and all else that is printed is ASCII.
pub fn normal_forms_are_utf8()
    ensures { NormalFormIsUtf8 }
{}

/// Bytes in which a fault is found are the text of no job, and of no plan.
pub fn refused_texts_are_none()
    ensures job { RefusedIsNoJob }
    ensures plan { RefusedIsNoPlan }
{
    jobs_are_grammar();
    plans_are_grammar();
}

/// What the faults of bytes, tokens and grammar say of the bytes in which they are found: each is found exactly if its rule is broken.
pub fn faults_of_texts()
    ensures bytes { BytesAreTooMany }
    ensures utf8 { BytesAreNotUtf8 }
    ensures token { NoTokenBegins }
    ensures grammar { UnexpectedIsNotContinued }
    ensures nesting { TooManyAreOpen }
{
    reading_is_exact();
    unexpected_is_first();
    too_deep_is_the_65th();
}

/// If a name is reported to be unknown, nothing of that name is declared as what is needed there.
pub fn unknown_names_are_not_declared()
    ensures family { FamilyIsUnknown }
    ensures kind { KindIsUnknown }
    ensures plan_kind { PlanKindIsUnknown }
    ensures plan_source { PlanSourceIsUnknown }
    ensures child { ChildIsUnknown }
{}

/// If a name is reported to be declared twice, an earlier declaration gives it, and no name before is declared twice; the same holds for
/// the nodes of a plan, with an `on` of a kind, and with the file of a source.
pub fn twice_named_is_declared_before()
    ensures job { TwiceNamedIsDeclaredTwice }
    ensures on { TwiceNamedIsOnTwice }
    ensures file { TwiceNamedIsFileTwice }
    ensures plan { NoTreeIsNodeTwice }
{}

/// Each fault that is found in the bytes of a job, or of a plan, is by a rule that they break, at its place: an unknown name is needed there
/// and declared nowhere, a wrong shape is one of the listed ones, a limit is exceeded, and what is named twice was named before. An
/// unexpected token is none that opens the 65th parenthesis or unary operator, nor the other way round.
pub fn faults_are_by_rule()
    ensures job { FaultsAreByRule }
    ensures plan { PlanFaultsAreByRule }
{
    reading_is_exact();
    found_is_job();
    unexpected_is_first();
    too_deep_is_the_65th();
    found_is_plan();
    flu_plan::laws::unexpected_is_first();
}
