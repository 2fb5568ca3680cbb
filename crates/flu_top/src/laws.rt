//! What follows from the outcome of a call of `flumina`: what each status says by itself, what was read, and what holds if nothing
//! failed. Each law is the contract of a function that does nothing.

ghost use Rattle.flu_top.specs.Laws.{KnownStatuses, DoneIsDone, DoneIsQuiet, SimulationIsHeard, AdaptedPlanIsHeard, DemoReadsNothing, DemoStatuses, DemoIsDone};
ghost use Rattle.flu_top.specs.Laws.{BadWordsExactly, BadWordsLine, BadWordsTouchNothing, JobFaultIsFirst, ConflictIsFirst, PlanDefectIsFirst};
ghost use Rattle.flu_top.specs.Laws.{SaveDefectIsFirst, SourceFaultIsFirst, TraceFaultIsFirst, ReadFaultRose, ReadFaultLine, WriteFaultRose, WriteFaultIsPart};
ghost use Rattle.flu_top.specs.Laws.{WriteFaultLine, PutFaultRose, PutFaultIsBehindARound, NoMemoryLine, NothingIsWritten, RefusalsWriteNothing, SomeIsWritten};
ghost use Rattle.flu_top.specs.Laws.{SomeIsWrittenForMemory, RunsWriteFronts, FreshRunsReportTheFold, ResumedRunsGoOn, FrontsAreTaken, NoOtherIsRead};
ghost use Rattle.flu_top.specs.Laws.{GoodIsDone, JobFaultIsRefused, ConflictIsRefused, PlanDefectIsRefused, SaveDefectIsRefused, SourceFaultIsRefused};
ghost use Rattle.flu_top.specs.Laws.{TraceFaultIsRefused, CompletesByFaults, NoFailureIsPassedOver};
ghost use Rattle.flu_command.specs.Calling.{CallsForOneStatus};
ghost use Rattle.flu_top.specs.Mended.{RunsWriteFrontsOfMended};
ghost use Rattle.flu_top.specs.Unread.{BadPlansReadNoMore};

use flu_command::calling::{files_call_for_one_status, what_ends_a_command_is_called_for};
use flu_command::mending::mended_rounds_go_on;
use flu_command::one_text::{
    good_sources_have_no_defect, plans_fit_each, programs_of_a_job_agree, starts_have_rows,
    texts_have_one_job,
};
use flu_rounds::fronts_of_reports;
use flu_streams::borders_cut_a_fold;

/// The statuses, and which of them write to out: 0 and 8; and 6, 7, 9 and 12 of a command that reads in rounds, which may leave there
/// what the rounds up to some round wrote.
pub fn of_statuses()
    ensures known { KnownStatuses }
    ensures nothing { NothingIsWritten }
    ensures refused { RefusalsWriteNothing }
    ensures some { SomeIsWritten }
    ensures memory { SomeIsWrittenForMemory }
{}

/// Status 0: all that the command reads was read to its end, what it writes is in out, and err is untouched, except by `simulate`,
/// which says the line of its steps, and by `run .. --adapt`, which writes what it writes without `--adapt`, and says the plan that its
/// events ask for.
pub fn of_done()
    ensures done { DoneIsDone }
    ensures quiet { DoneIsQuiet }
    ensures steps { SimulationIsHeard }
    ensures plan { AdaptedPlanIsHeard }
{}

/// `demo` reads no file, so that no file can refuse it: its status is 0, 8 or 9. At status 0 the summary of the report of what the seed
/// draws is in out, whatever the files hold, known or not.
pub fn of_demos()
    ensures reads { DemoReadsNothing }
    ensures statuses { DemoStatuses }
    ensures done { DemoIsDone }
{}

/// Status 2 comes exactly if the words are not a command, with its line, and then no file is read.
pub fn of_bad_words()
    ensures exactly { BadWordsExactly }
    ensures line { BadWordsLine }
    ensures untouched { BadWordsTouchNothing }
{}

/// The statuses 3 to 6, 11 and 13 come only if a fault of the job's text, a conflict of the job, a defect of the plan, what keeps a
/// run from starting, a defect of a source or a fault of a trace refuses the command, with the line of the first one.
pub fn of_refusals()
    ensures job_fault { JobFaultIsFirst }
    ensures conflict { ConflictIsFirst }
    ensures plan_defect { PlanDefectIsFirst }
    ensures save_defect { SaveDefectIsFirst }
    ensures source_fault { SourceFaultIsFirst }
    ensures trace_fault { TraceFaultIsFirst }
{}

/// Status 7 comes only if the count of a name that the call reads rose, 8 only if out's count rose, and then out has a prefix of
/// what the command writes; and 12 only if the count of puts of the name that it saves to rose, and then out has the report of the
/// round whose checkpoint could not be put. Each of them, and 9, has its line. At each other status, as 0, none of these counts has
/// changed.
pub fn of_faults()
    ensures read_fault { ReadFaultRose }
    ensures read_fault_line { ReadFaultLine }
    ensures write_fault { WriteFaultRose }
    ensures partial { WriteFaultIsPart }
    ensures write_fault_line { WriteFaultLine }
    ensures put_fault { PutFaultRose }
    ensures others { NoFailureIsPassedOver }
    ensures behind_a_round { PutFaultIsBehindARound }
    ensures no_memory_line { NoMemoryLine }
{}

/// If a `run` can start and its sources are good, what it wrote is a prefix of its report, whatever its status. If it is not resumed,
/// that is the report of the fold; and the report up to a border, with the report of the later events from the state that is saved
/// with it, is the report of the whole.
pub fn of_runs()
    ensures fronts { RunsWriteFronts }
    ensures fresh { FreshRunsReportTheFold }
    ensures resumed { ResumedRunsGoOn }
{
    borders_cut_a_fold();
    fronts_of_reports();
    programs_of_a_job_agree();
    starts_have_rows();
    texts_have_one_job();
}

/// If a source of a `run` has a defect, what it wrote is a prefix of the report of any sources that mend the defects: that keep the
/// lines before each, and have others after them, or just an end.
pub fn of_mended_runs()
    ensures { RunsWriteFrontsOfMended }
{
    fronts_of_reports();
    good_sources_have_no_defect();
    mended_rounds_go_on();
    programs_of_a_job_agree();
    starts_have_rows();
    texts_have_one_job();
}

/// Bytes are taken from the front of names, and of no name that the call does not read, except for one that it puts.
pub fn of_reading()
    ensures fronts { FrontsAreTaken }
    ensures only { NoOtherIsRead }
{}

/// If the bytes under the name of a plan are not a plan, or not a valid one, no source, no checkpoint and no trace is read.
pub fn bad_plans_read_no_more()
    ensures { BadPlansReadNoMore }
{
    plans_fit_each();
}

/// If no count rose, the status is the one that the command, its job's text, its plan, its sources and its trace call for, or 9.
pub fn of_completeness()
    ensures completes { GoodIsDone }
    ensures refuses_job { JobFaultIsRefused }
    ensures refuses_conflict { ConflictIsRefused }
    ensures refuses_plan { PlanDefectIsRefused }
    ensures refuses_start { SaveDefectIsRefused }
    ensures refuses_source { SourceFaultIsRefused }
    ensures refuses_trace { TraceFaultIsRefused }
{}

/// That a call completes follows from its outcome, if the statuses 7, 8 and 12 come only from faults of the outside.
pub fn completes_by_faults()
    ensures { CompletesByFaults }
{
    files_call_for_one_status();
    what_ends_a_command_is_called_for();
}

/// A command and its files call for one status at most, so that the refusals come in an order.
pub fn calls_for_one_status()
    ensures { CallsForOneStatus }
{
    files_call_for_one_status();
}
