//! `run JOB [PLAN | --depth D] [--round ROWS] [--adapt] [--save FILE [--unflushed]] [--resume FILE]`: the report of a run of a job's events,
//! in rounds, on the tree of threads if a plan is named or the tree pays.

ghost use Rattle.std.specs.Prelude.{◌≡◌, ◌≢◌, ◌<◌, ◌≤◌, ◌⊎◌, ℕ, Bool, option_map, length, List, ◌∷◌, Option, Some, None, Ok, Err, IfOk, IfErr, OnOk, IsErrOf};
ghost use Rattle.std.specs.Prelude.{IsTrue};
ghost use Rattle.flu_outside.specs.Outside.{Contents, WhereTold, Rose, SameCounts};
ghost use Rattle.flu_outside.specs.Taking.{TakesFrom, TookFronts};
ghost use Rattle.flu_outside.specs.Writing.{AppendsAll, AppendsPart};
ghost use Rattle.flu_model.specs.declared.jobs.Program.{Program};
ghost use Rattle.flu_model.specs.Contents.{nothing_held};
ghost use Rattle.flu_model.specs.Folding.{final_outputs};
ghost use Rattle.flu_model.specs.Itags.{count_of_itags};
ghost use Rattle.flu_model.specs.Listed.{listed};
ghost use Rattle.flu_model.specs.Modes.{IsAccepted};
ghost use Rattle.flu_model.specs.Reports.{report};
ghost use Rattle.flu_adaptive.specs.Observed.{IsObservedPlan};
ghost use Rattle.flu_cells.specs.Holding.{held};
ghost use Rattle.flu_deps.specs.Checking.{program_of};
ghost use Rattle.flu_deps.specs.Validated.{plan_of, IsValidFor};
ghost use Rattle.flu_rows.specs.declared.rows.Next.{Next};
ghost use Rattle.flu_streams.specs.declared.border.Border.{Border};
ghost use Rattle.flu_streams.specs.declared.held.Stage.{Stage};
ghost use Rattle.flu_streams.specs.Counts.{grown, no_counts};
ghost use Rattle.flu_streams.specs.Files.{files_of, LeavesOthers};
ghost use Rattle.flu_streams.specs.Holding.{AreHeldBehind, ClosedAreReadOut, AreClosed, IsNewBorder, HidesNoRoundFault};
ghost use Rattle.flu_rounds.specs.declared.faults.RoundsFault.{RoundsFault};
ghost use Rattle.flu_rounds.specs.Standing.{round_lists, round_report, Runs, IsFirstFrom, IsRoundOf, IsSourceFault, StandsBehind};
ghost use Rattle.flu_words.specs.Words.{Run, RunOptions as PlainOptions, plain_options};
ghost use Rattle.flu_command.specs.Taking.{TookOnly, TookFrontsBut};
ghost use Rattle.flu_lines.specs.Answer.{code_after};
ghost use Rattle.flu_command.specs.Done.{IsReadName, IsPutAt};
ghost use Rattle.flu_top.specs.Ending.{call, IsEnding};
ghost use Rattle.flu_command.specs.Openings.{Opening as PlainOpening};
ghost use Rattle.flu_top.specs.Refusing.{IsRefusal};
ghost use Rattle.flu_top.specs.Running.{EndsRounds, EndsRun, GoesOn, IsBegun, IsOpening, SaysCounts, StaysWithin, Steps, borders_above, plain_opening};
ghost use Rattle.flu_command.specs.Starting.{IsNoSource};
ghost use Rattle.flu_command.specs.Wants.{if_named};

use crate::ahead::{reads_ahead, rounds_ahead};
use crate::backup::Backup;
use crate::openings::{Opening, opening_of, same_name};
use crate::planned::{Planned, planned_by, planned_greedily};
use crate::products::Ran;
use crate::programs::program_of;
use crate::saves::put_checkpoint;
use crate::tally::Tally;
use flu_adaptive::Adaptive;
use flu_cells::State;
use flu_deps::{Checked, Valid};
use flu_lines::{Done, JobRead, Refusal, Said, SaveDefect};
use flu_model::{Program, Streams, Text};
use flu_outside::{Files, PutFault, Sink};
use flu_plan::print_plan;
use flu_report::report_text;
use flu_rounds::{
    Begun, Border, Rounds, RoundsFault, halves_make_a_round, other_names_leave_runs_alone,
    resumed_runs_go_on, resumed_runs_write_the_fold, runs_count_their_events,
};
use flu_run::TreeEngine;
use flu_seq::{Engine, Gate};
use flu_streams::{rounds_are_counted_in_turn, rounds_are_folded_in_turn};
use flu_words::{Depth, RunOptions};
use std::alloc::{AllocError, Global};
use std::sync::Wait;
use std::thread::Threads;

/// Why the rounds of a run ended before the last one.
#[derive(Clone, Copy, Debug)]
pub enum RunFault {
    /// A round was not run, or not all of its report was written.
    Round(RoundsFault),
    /// A round's report was written, and its checkpoint could not be put.
    Unsaved(PutFault),
}

/// Writes the report of the job that a file holds, which is run by the plan that another file holds, or, if none is named, each round
/// by its own counts: from its opening, and with a checkpoint after each round if it saves. If its plan follows the events that were
/// run, it answers the text of the plan in force at the end.
pub fn run_job<F: Files, K: Sink, G: Gate, R: Threads + Wait + Sync>(
    rt: &R,
    alloc: Global,
    files: &mut F,
    out: &mut K,
    job: &str,
    plan: Option<&str>,
    options: RunOptions<'_>,
    gate: &G,
) -> Result<Done, Refusal>
    ensures ends { IsEnding (call (F.left files.old) (F.left files.new) (F.faults files.old) (F.faults files.new) (F.put_faults files.old)
        (F.put_faults files.new) (K.taken out.old) (K.taken out.new) (K.faults out.old) (K.faults out.new))
        (Run job.now (option_map (λ name. name.now) plan.entry) (plain_options options.entry)) result }
    ensures fronts { WhereTold (F.left files.old) (F.left files.new)
        (TookFrontsBut (IsPutAt (Run job.now (option_map (λ name. name.now) plan.entry) (plain_options options.entry)) (code_after result))) }
    ensures only { WhereTold (F.left files.old) (F.left files.new)
        (TookOnly (λ name. IsReadName (F.left files.old) (Run job.now (option_map (λ name. name.now) plan.entry) (plain_options options.entry)) name
        ⊎ IsPutAt (Run job.now (option_map (λ name. name.now) plan.entry) (plain_options options.entry)) (code_after result) name)) }
    ensures quiet { result ≢ Err Refusal.ReadFault → SameCounts (F.faults files.old) (F.faults files.new) }
    ensures puts { result ≢ Err Refusal.PutFault → SameCounts (F.put_faults files.old) (F.put_faults files.new) }
    ensures written_quiet { result ≢ Err Refusal.WriteFault → K.faults out.new ≡ K.faults out.old }
{
    let planned = match planned_for(alloc, files, job, plan) {
        Ok(planned) => planned,
        Err(refusal) => return Err(refusal),
    };
    if let Some(number) = same_name(planned.checked.program(), options) {
        return Err(Refusal::SaveDefect(SaveDefect::SameName(planned.checked, number)));
    }
    let opening = match opening_of(
        alloc,
        files,
        planned.checked.program(),
        options.resume,
        options.rows,
    ) {
        Ok(opening) => opening,
        Err(refusal) => return Err(refusal),
    };
    let chooses = match plan {
        Some(_) => None,
        None => Some(options.depth),
    };
    run_in_rounds(
        rt,
        alloc,
        files,
        out,
        planned,
        opening,
        options.save,
        options.adapt,
        chooses,
        gate,
    )
}

// The job that a file holds with the plan that another file holds, or with one of a single node if none is named.
fn planned_for<F: Files>(
    alloc: Global,
    files: &mut F,
    job: &str,
    plan: Option<&str>,
) -> Result<Planned, Refusal>
    ensures accepted { IfOk result (λ planned. IsAccepted (program_of planned.checked)) }
    ensures valid { IfOk result (λ planned. IsValidFor (program_of planned.checked) planned.valid) }
    ensures begun { IfOk result (λ planned. WhereTold (F.left files.old) (F.left files.new)
        (IsBegun job.now (option_map (λ name. name.now) plan.entry) (program_of planned.checked))) }
    ensures refused { IfErr result (λ refusal. (options : PlainOptions) → IsRefusal (Run job.now (option_map (λ name. name.now) plan.entry) options)
        (F.left files.old) (F.left files.new) (F.faults files.old) (F.faults files.new) refusal) }
    ensures fronts { WhereTold (F.left files.old) (F.left files.new) TookFronts }
    ensures only { (options : PlainOptions) → WhereTold (F.left files.old) (F.left files.new)
        (TookOnly (IsReadName (F.left files.old) (Run job.now (option_map (λ name. name.now) plan.entry) options))) }
    ensures others { WhereTold (F.left files.old) (F.left files.new) (LeavesOthers (job.now ∷ if_named (option_map (λ name. name.now) plan.entry))) }
    ensures counts { (n : List ℕ) → F.faults files.old n ≤ F.faults files.new n }
    ensures quiet { result ≢ Err Refusal.ReadFault → SameCounts (F.faults files.old) (F.faults files.new) }
    ensures puts { SameCounts (F.put_faults files.old) (F.put_faults files.new) }
{
    match plan {
        Some(plan) => planned_by(alloc, files, job, plan),
        None => greedily(alloc, files, job),
    }
}

// The job that a file holds with a plan of a single node, by which no round is run, since each is run by its own counts.
fn greedily<F: Files>(alloc: Global, files: &mut F, job: &str) -> Result<Planned, Refusal>
    ensures accepted { IfOk result (λ planned. IsAccepted (program_of planned.checked)) }
    ensures valid { IfOk result (λ planned. IsValidFor (program_of planned.checked) planned.valid) }
    ensures begun { IfOk result (λ planned. WhereTold (F.left files.old) (F.left files.new) (IsBegun job.now None (program_of planned.checked))) }
    ensures refused { IfErr result (λ refusal. (options : PlainOptions)
        → IsRefusal (Run job.now None options) (F.left files.old) (F.left files.new) (F.faults files.old) (F.faults files.new) refusal) }
    ensures taken { WhereTold (F.left files.old) (F.left files.new) (TakesFrom job.now) }
    ensures counts { (n : List ℕ) → F.faults files.old n ≤ F.faults files.new n }
    ensures quiet { result ≢ Err Refusal.ReadFault → SameCounts (F.faults files.old) (F.faults files.new) }
    ensures puts { SameCounts (F.put_faults files.old) (F.put_faults files.new) }
{
    match program_of(alloc, files, job) {
        Ok(program) => planned_greedily(alloc, program, Depth { levels: 0 }),
        Err(refusal) => Err(refusal),
    }
}

// Writes the report of a job over its sources' files, from an opening, first by a plan, which follows the events that were run if the
// run adapts; or each round by its own counts, if a depth of plans is given.
fn run_in_rounds<F: Files, K: Sink, G: Gate, R: Threads + Wait + Sync>(
    rt: &R,
    alloc: Global,
    files: &mut F,
    out: &mut K,
    planned: Planned,
    opening: Opening,
    save: Option<&str>,
    adapts: bool,
    chooses: Option<Depth>,
    gate: &G,
) -> Result<Done, Refusal>
    requires valid { IsValidFor (program_of planned.checked) planned.valid }
    requires opening { IsOpening (program_of planned.checked) (plain_opening opening) }
    requires apart { IsNoSource (option_map (λ name. name.now) save) (program_of planned.checked) }
    ensures ends { EndsRun adapts (program_of planned.checked) (plain_opening opening) (option_map (λ name. name.now) save.entry)
        (call (F.left files.old) (F.left files.new) (F.faults files.old) (F.faults files.new) (F.put_faults files.old) (F.put_faults files.new)
        (K.taken out.old) (K.taken out.new) (K.faults out.old) (K.faults out.new)) result }
    ensures within { StaysWithin (program_of planned.checked) (option_map (λ name. name.now) save.entry)
        (call (F.left files.old) (F.left files.new) (F.faults files.old) (F.faults files.new) (F.put_faults files.old) (F.put_faults files.new)
        (K.taken out.old) (K.taken out.new) (K.faults out.old) (K.faults out.new)) }
    ensures quiet { result ≢ Err Refusal.ReadFault → SameCounts (F.faults files.old) (F.faults files.new) }
    ensures puts { result ≢ Err Refusal.PutFault → SameCounts (F.put_faults files.old) (F.put_faults files.new) }
    ensures written_quiet { result ≢ Err Refusal.WriteFault → K.faults out.new ≡ K.faults out.old }
{
    let Planned { checked, valid } = planned;
    match all_rounds(
        rt, alloc, files, out, &checked, valid, opening, save, adapts, chooses, gate,
    ) {
        Ok(ran) => Ok(ran.done(JobRead::Accepted(checked))),
        Err(RunFault::Round(RoundsFault::Source(fault))) => {
            Err(Refusal::SourceFault(JobRead::Accepted(checked), fault))
        }
        Err(RunFault::Round(RoundsFault::ReadFault)) => Err(Refusal::ReadFault),
        Err(RunFault::Round(RoundsFault::WriteFault)) => Err(Refusal::WriteFault),
        Err(RunFault::Round(RoundsFault::NoMemory)) => Err(Refusal::NoMemory),
        Err(RunFault::Unsaved(fault)) => Err(Refusal::from(fault)),
    }
}

// Runs all rounds of a job's sources, and answers what is said about them: each round is read while the one before it runs, if the run may
// do so, and otherwise after that.
fn all_rounds<F: Files, K: Sink, G: Gate, R: Threads + Wait + Sync>(
    rt: &R,
    alloc: Global,
    files: &mut F,
    out: &mut K,
    checked: &Checked,
    valid: Valid,
    opening: Opening,
    save: Option<&str>,
    adapts: bool,
    chooses: Option<Depth>,
    gate: &G,
) -> Result<Ran, RunFault>
    requires valid { IsValidFor (program_of checked.now) valid }
    requires opening { IsOpening (program_of checked.now) (plain_opening opening) }
    requires apart { IsNoSource (option_map (λ name. name.now) save) (program_of checked.now) }
    ensures ends { EndsRounds adapts (program_of checked.now) (plain_opening opening) (option_map (λ name. name.now) save.entry)
        (call (F.left files.old) (F.left files.new) (F.faults files.old) (F.faults files.new) (F.put_faults files.old) (F.put_faults files.new)
        (K.taken out.old) (K.taken out.new) (K.faults out.old) (K.faults out.new)) result }
    ensures within { StaysWithin (program_of checked.now) (option_map (λ name. name.now) save.entry)
        (call (F.left files.old) (F.left files.new) (F.faults files.old) (F.faults files.new) (F.put_faults files.old) (F.put_faults files.new)
        (K.taken out.old) (K.taken out.new) (K.faults out.old) (K.faults out.new)) }
    ensures quiet { result ≢ Err (RunFault.Round RoundsFault.ReadFault) → SameCounts (F.faults files.old) (F.faults files.new) }
    ensures puts { result ≢ Err (RunFault.Unsaved PutFault.Failed) → SameCounts (F.put_faults files.old) (F.put_faults files.new) }
    ensures written_quiet { result ≢ Err (RunFault.Round RoundsFault.WriteFault) → K.faults out.new ≡ K.faults out.old }
{
    if let None = save {
        if reads_ahead(rt, opening.rows.count) {
            return rounds_ahead(
                rt, alloc, files, out, checked, valid, opening, adapts, chooses, gate,
            );
        }
    }
    rounds(
        rt, alloc, files, out, checked, valid, opening, save, adapts, chooses, gate,
    )
}

// Runs all rounds of a job's sources, each of which writes its report, and then puts its checkpoint; and answers what is said about them.
fn rounds<F: Files, K: Sink, G: Gate, R: Threads + Wait + Sync>(
    rt: &R,
    alloc: Global,
    files: &mut F,
    out: &mut K,
    checked: &Checked,
    valid: Valid,
    opening: Opening,
    save: Option<&str>,
    adapts: bool,
    chooses: Option<Depth>,
    gate: &G,
) -> Result<Ran, RunFault>
    requires valid { IsValidFor (program_of checked.now) valid }
    requires opening { IsOpening (program_of checked.now) (plain_opening opening) }
    requires apart { IsNoSource (option_map (λ name. name.now) save) (program_of checked.now) }
    ensures ends { EndsRounds adapts (program_of checked.now) (plain_opening opening) (option_map (λ name. name.now) save.entry)
        (call (F.left files.old) (F.left files.new) (F.faults files.old) (F.faults files.new) (F.put_faults files.old) (F.put_faults files.new)
        (K.taken out.old) (K.taken out.new) (K.faults out.old) (K.faults out.new)) result }
    ensures within { StaysWithin (program_of checked.now) (option_map (λ name. name.now) save.entry)
        (call (F.left files.old) (F.left files.new) (F.faults files.old) (F.faults files.new) (F.put_faults files.old) (F.put_faults files.new)
        (K.taken out.old) (K.taken out.new) (K.faults out.old) (K.faults out.new)) }
    ensures quiet { result ≢ Err (RunFault.Round RoundsFault.ReadFault) → SameCounts (F.faults files.old) (F.faults files.new) }
    ensures puts { result ≢ Err (RunFault.Unsaved PutFault.Failed) → SameCounts (F.put_faults files.old) (F.put_faults files.new) }
    ensures written_quiet { result ≢ Err (RunFault.Round RoundsFault.WriteFault) → K.faults out.new ≡ K.faults out.old }
{
    resumed_runs_go_on();
    rounds_are_folded_in_turn();
    let mut engine = adaptive_of(rt, alloc, checked, valid, adapts, chooses, gate)?;
    let mut rounds = first(alloc, checked.program(), opening)?;
    let mut tally = Tally::new(alloc);
    let mut said = None;
    while let Border::At(_) = saved_round(
        rt,
        alloc,
        files,
        out,
        &mut rounds,
        &mut engine,
        save,
        &mut said,
        &mut tally,
    )? {}
    let counts = tally.end(alloc, checked.program(), rounds.state());
    Ok(Ran { said, counts })
}

// The engine of a run in rounds. If a thread is refused, the job is folded.
pub fn adaptive_of<'a, G: Gate, R: Threads + Wait + Sync>(
    rt: &R,
    alloc: Global,
    checked: &'a Checked,
    valid: Valid,
    adapts: bool,
    chooses: Option<Depth>,
    gate: &'a G,
) -> Result<Adaptive<'a, G, R, Backup<'a>>, RunFault>
    requires { IsValidFor (program_of checked.now) valid }
    ensures checked { IfOk result (λ engine. engine.checked ≡ checked.now) }
    ensures adapts { IfOk result (λ engine. engine.adapts ≡ adapts) }
    ensures counts { IfOk result (λ engine. engine.counts ≡ no_counts (program_of checked.now)) }
    ensures no_memory { IfErr result (λ fault. fault ≡ RunFault.Round RoundsFault.NoMemory) }
{
    let backup = Backup {
        program: checked.program(),
    };
    let made = match (
        Adaptive::new(alloc, checked, valid, gate, backup, adapts),
        chooses,
    ) {
        (Ok(engine), Some(depth)) => engine.choosing(rt, alloc, depth.levels),
        (made, _) => made,
    };
    made.map_err(|_| RunFault::Round(RoundsFault::NoMemory))
}

// A run before its first round, from its opening.
pub fn first(alloc: Global, program: &Program, opening: Opening) -> Result<Rounds, RunFault>
    requires { IsOpening program.now (plain_opening opening) }
    ensures first { IfOk result (IsFirstFrom program.now opening.rows.count opening.border (held opening.state)) }
    ensures no_memory { IfErr result (λ fault. fault ≡ RunFault.Round RoundsFault.NoMemory) }
{
    let rows = opening.rows.count;
    let made = match opening.border {
        None => Rounds::new(alloc, program, rows),
        Some(border) => Rounds::resume(alloc, program, rows, border, opening.state),
    };
    made.map_err(|_| RunFault::Round(RoundsFault::NoMemory))
}

// Runs one round, which writes its report, and puts its checkpoint; and finds what is said after it.
fn saved_round<F: Files, K: Sink, G: Gate, R: Threads + Wait + Sync, B: Engine<R> + Drop>(
    rt: &R,
    alloc: Global,
    files: &mut F,
    out: &mut K,
    rounds: &mut Rounds,
    engine: &mut Adaptive<G, R, B>,
    save: Option<&str>,
    said: &mut Option<Said>,
    tally: &mut Tally,
) -> Result<Border, RunFault>
    requires program { program_of engine.old.checked ≡ rounds.old.held.program }
    requires stage { rounds.old.held.stage ≡ Stage.Filling }
    ensures steps { (adapts : Bool) (p : Program) (o : PlainOpening) (a : Option Contents) (k s : List ℕ → ℕ) (had : Option (List ℕ)) (x : ℕ)
        → IsNoSource (option_map (λ name. name.now) save.entry) p
        → GoesOn adapts p engine.old o (option_map (λ name. name.now) save.entry)
        (call a (F.left files.old) k (F.faults files.old) s (F.put_faults files.old) had (K.taken out.old) x (K.faults out.old)) rounds.old
        → Steps adapts p engine.new o (option_map (λ name. name.now) save.entry) (call a (F.left files.new) k (F.faults files.new) s
        (F.put_faults files.new) had (K.taken out.new) x (K.faults out.new)) rounds.new said.new result }
    ensures quiet { result ≢ Err (RunFault.Round RoundsFault.ReadFault) → SameCounts (F.faults files.old) (F.faults files.new) }
    ensures puts { result ≢ Err (RunFault.Unsaved PutFault.Failed) → SameCounts (F.put_faults files.old) (F.put_faults files.new) }
    ensures written_quiet { result ≢ Err (RunFault.Round RoundsFault.WriteFault) → K.faults out.new ≡ K.faults out.old }
    ensures smaller { (t : ℕ) → result ≡ Ok (Border.At t) → borders_above rounds.new.held.border < borders_above rounds.old.held.border }
{
    resumed_runs_go_on();
    resumed_runs_write_the_fold();
    other_names_leave_runs_alone();
    rounds_are_counted_in_turn();
    runs_count_their_events();
    let end = match round(rt, alloc, files, out, rounds, engine, said, tally) {
        Ok(end) => end,
        Err(fault) => return Err(RunFault::Round(fault)),
    };
    let program = engine.checked().program();
    match put_checkpoint(alloc, files, program, save, end, rounds.state()) {
        Ok(()) => Ok(end),
        Err(fault) => Err(RunFault::Unsaved(fault)),
    }
}

// The tree of threads of a job by a plan. If a thread is refused, the job is folded.
fn engine_of<'a, G: Gate, R: Threads + Wait + Sync>(
    planned: &'a Planned,
    gate: &'a G,
) -> TreeEngine<'a, G, R, Backup<'a>>
    requires { IsValidFor (program_of planned.now.checked) planned.now.valid }
    ensures { program_of result.checked.now ≡ program_of planned.now.checked }
{
    let backup = Backup {
        program: planned.checked.program(),
    };
    TreeEngine::new(&planned.checked, &planned.valid, gate, backup)
}

// Runs one round, as `Rounds::round` does on an engine; and finds what is said after it, before the report is
// written, since that may need memory.
fn round<F: Files, K: Sink, G: Gate, R: Threads + Wait + Sync, B: Engine<R> + Drop>(
    rt: &R,
    alloc: Global,
    files: &mut F,
    out: &mut K,
    rounds: &mut Rounds,
    engine: &mut Adaptive<G, R, B>,
    said: &mut Option<Said>,
    tally: &mut Tally,
) -> Result<Border, RoundsFault>
    requires program { program_of engine.old.checked ≡ rounds.old.held.program }
    requires stage { rounds.old.held.stage ≡ Stage.Filling }

    // If the plan follows the counts, they have grown by the events of the round.
    ensures written { IfOk result (λ end. (before : ℕ → List Next) → AreHeldBehind rounds.old.held before
        → (runs : Runs rounds.old rounds.new (F.left files.old) (F.left files.new) end before)
        × WhereTold (K.taken out.old) (K.taken out.new) (AppendsAll (round_report rounds.old end runs.fills.now))
        × (IsTrue engine.old.adapts → engine.new.counts ≡ grown engine.old.counts (round_lists rounds.old end runs.fills.now))) }
    ensures says { IfOk result (λ end. end ≡ Border.Closed → SaysCounts engine.new.adapts (program_of engine.new.checked) engine.new.counts said.new) }
    ensures border { IfOk result (IsNewBorder rounds.old.held.border) }
    ensures stands { IfOk result (StandsBehind rounds.old.held rounds.new.held) }
    ensures read_out { OnOk result (ClosedAreReadOut rounds.old.held (F.left files.old) → ClosedAreReadOut rounds.new.held (F.left files.new)) }
    ensures closed { result ≡ Ok Border.Closed → AreClosed rounds.new.held }
    ensures engine { engine.new.checked ≡ engine.old.checked }
    ensures adapts { engine.new.adapts ≡ engine.old.adapts }

    // A source fault is the defect that the round meets; out got nothing.
    ensures fault { IfErr result (λ f. IsSourceFault rounds.old.held (F.left files.old) (F.left files.new) f) }
    ensures nothing { IfErr result (λ f. f ≢ RoundsFault.WriteFault → K.taken out.new ≡ K.taken out.old) }

    // If out failed, it has a prefix of the round's report.
    ensures part { IsErrOf result RoundsFault.WriteFault → (before : ℕ → List Next) → AreHeldBehind rounds.old.held before
        → (end : Border) × (now : ℕ → List Next) × IsRoundOf rounds.old (F.left files.old) (F.left files.new) end before now
        × WhereTold (K.taken out.old) (K.taken out.new) (AppendsPart (round_report rounds.old end now)) }
    ensures failed { IsErrOf result RoundsFault.WriteFault → Rose (K.faults out.old) (K.faults out.new) }
    ensures written_quiet { result ≢ Err RoundsFault.WriteFault → K.faults out.new ≡ K.faults out.old }

    // Bytes are taken only from the front of the sources' files, and a read fault has its cause there, and hides nothing.
    ensures fronts { WhereTold (F.left files.old) (F.left files.new) TookFronts }
    ensures others { WhereTold (F.left files.old) (F.left files.new) (LeavesOthers (files_of rounds.old.held.program.sources)) }
    ensures rise { (n : List ℕ) → F.faults files.old n ≤ F.faults files.new n }
    ensures quiet { result ≢ Err RoundsFault.ReadFault → SameCounts (F.faults files.old) (F.faults files.new) }
    ensures hides { IsErrOf result RoundsFault.ReadFault → (before : ℕ → List Next) → AreHeldBehind rounds.old.held before
        → HidesNoRoundFault rounds.old.held (F.left files.old) (F.left files.new) (F.faults files.old) (F.faults files.new) before }
    ensures puts { SameCounts (F.put_faults files.old) (F.put_faults files.new) }
{
    halves_make_a_round();
    let program = engine.checked().program();
    let Begun {
        border,
        opening,
        rows,
    } = rounds.begin(alloc, program, files)?;
    let (state, outs) = engine.batch(rt, alloc, opening, &rows)?;
    let says = said_behind(alloc, engine, border)?;
    tally.count(program, &rows, &outs);
    rounds.finish(alloc, program, out, state, outs)?;
    *said = says;
    Ok(border)
}

// What is said after a round: the text of the plan in force, if it is the last round and the plan follows the counts.
pub fn said_behind<G: Gate, R, B: Engine<R> + Drop>(
    alloc: Global,
    engine: &Adaptive<G, R, B>,
    border: Border,
) -> Result<Option<Said>, AllocError>
    requires { IsTrue engine.now.adapts → IsObservedPlan (program_of engine.now.checked) engine.now.counts (plan_of engine.now.valid).nodes }
    ensures { IfOk result (λ said. border ≡ Border.Closed → SaysCounts engine.now.adapts (program_of engine.now.checked) engine.now.counts said) }
{
    if !engine.adapts() {
        return Ok(None);
    }
    match border {
        Border::At(_) => Ok(None),
        Border::Closed => {
            let text = print_plan(alloc, engine.checked().program(), engine.valid().plan())?;
            Ok(Some(Said::Plan(text)))
        }
    }
}

/// The report of a run of some streams from the empty state on the tree of threads.
pub fn tree_report<G: Gate, R: Threads + Wait + Sync>(
    rt: &R,
    alloc: Global,
    planned: &Planned,
    streams: &Streams,
    gate: &G,
) -> Result<Text, AllocError>
    requires valid { IsValidFor (program_of planned.now.checked) planned.now.valid }
    requires lists { length (listed streams.now) ≡ count_of_itags (program_of planned.now.checked) }
    ensures { IfOk result (λ t. t ≡ report (program_of planned.now.checked) (final_outputs (program_of planned.now.checked) nothing_held (listed streams.now))) }
{
    let mut engine = engine_of(planned, gate);
    let (_, outs) = engine.batch(rt, alloc, State::new(alloc), streams)?;
    report_text(alloc, planned.checked.program(), outs)
}
