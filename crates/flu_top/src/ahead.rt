//! Runs in rounds, each of which is read on the calling thread while the round before it runs in another.

ghost use Rattle.std.specs.Prelude.{◌≡◌, ◌≢◌, ℕ, Bool, length, List, Option, None, Ok, Err, IfOk, OnOk, IsTrue, IfErr};
ghost use Rattle.std.specs.List.Sorted.{IsPermutation};
ghost use Rattle.flu_outside.specs.Outside.{Contents, SameCounts};
ghost use Rattle.flu_model.specs.Folding.{final_state, final_outputs};
ghost use Rattle.flu_model.specs.Itags.{count_of_itags};
ghost use Rattle.flu_model.specs.Listed.{listed};
ghost use Rattle.flu_model.specs.Sorts.{IsStateOf};
ghost use Rattle.flu_model.specs.declared.jobs.Program.{Program};
ghost use Rattle.flu_cells.specs.Holding.{held};
ghost use Rattle.flu_deps.specs.Checking.{program_of};
ghost use Rattle.flu_deps.specs.Validated.{IsValidFor};
ghost use Rattle.flu_streams.specs.declared.border.Border.{Border};
ghost use Rattle.flu_streams.specs.declared.held.Stage.{Stage};
ghost use Rattle.flu_streams.specs.Counts.{grown};
ghost use Rattle.flu_rounds.specs.declared.faults.RoundsFault.{RoundsFault};
ghost use Rattle.flu_top.specs.declared.running.RunFault.{RunFault};
ghost use Rattle.flu_top.specs.Ending.{call};
ghost use Rattle.flu_command.specs.Openings.{Opening as PlainOpening};
ghost use Rattle.flu_top.specs.ReadingAhead.{BeginsAhead, HasBegun, IsFilled, StepsAhead};
ghost use Rattle.flu_top.specs.Running.{EndsRounds, GoesOn, IsOpening, StaysWithin, plain_opening};

use crate::backup::Backup;
use crate::openings::Opening;
use crate::products::Ran;
use crate::running::{RunFault, adaptive_of, first, said_behind};
use crate::tally::Tally;
use flu_adaptive::{Adaptive, programs_are_shared};
use flu_cells::State;
use flu_deps::{Checked, Valid};
use flu_model::{Outs, Program, Streams};
use flu_outside::{Files, Sink};
use flu_rounds::{
    Begun, Border, Rounds, RoundsFault, halves_make_a_round, other_names_leave_runs_alone,
    parts_make_a_half, resumed_runs_go_on, resumed_runs_write_the_fold, runs_count_their_events,
};
use flu_seq::Gate;
use flu_streams::{rounds_are_counted_in_turn, rounds_are_folded_in_turn};
use flu_words::Depth;
use std::alloc::{AllocError, Global};
use std::sync::Wait;
use std::thread::{Threads, available_parallelism};

// How many rows of each source make a round of a run that reads ahead.
const ROWS: u32 = 4096;

/// Whether a run with rounds of this many rows reads each round while the one before it runs, if it does not save: smaller rounds are
/// there for reports that do not wait for later rows.
pub fn reads_ahead<R: Threads>(rt: &R, rows: u32) -> bool {
    if rows != ROWS {
        return false;
    }
    match available_parallelism(rt) {
        Ok(count) => count.get() > 1,
        Err(_) => false,
    }
}

/// Runs all rounds of a job's sources, as `rounds` does for a run that does not save, but reads each round while the one before it runs.
/// The report of a round is written once the next one was read, unless the read failed.
pub fn rounds_ahead<F: Files, K: Sink, G: Gate, R: Threads + Wait + Sync>(
    rt: &R,
    alloc: Global,
    files: &mut F,
    out: &mut K,
    checked: &Checked,
    valid: Valid,
    opening: Opening,
    adapts: bool,
    chooses: Option<Depth>,
    gate: &G,
) -> Result<Ran, RunFault>
    requires valid { IsValidFor (program_of checked.now) valid }
    requires opening { IsOpening (program_of checked.now) (plain_opening opening) }
    ensures ends { EndsRounds adapts (program_of checked.now) (plain_opening opening) None
        (call (F.left files.old) (F.left files.new) (F.faults files.old) (F.faults files.new) (F.put_faults files.old) (F.put_faults files.new)
        (K.taken out.old) (K.taken out.new) (K.faults out.old) (K.faults out.new)) result }
    ensures within { StaysWithin (program_of checked.now) None
        (call (F.left files.old) (F.left files.new) (F.faults files.old) (F.faults files.new) (F.put_faults files.old) (F.put_faults files.new)
        (K.taken out.old) (K.taken out.new) (K.faults out.old) (K.faults out.new)) }
    ensures quiet { result ≢ Err (RunFault.Round RoundsFault.ReadFault) → SameCounts (F.faults files.old) (F.faults files.new) }
    ensures puts { SameCounts (F.put_faults files.old) (F.put_faults files.new) }
    ensures written_quiet { result ≢ Err (RunFault.Round RoundsFault.WriteFault) → K.faults out.new ≡ K.faults out.old }
{
    resumed_runs_go_on();
    rounds_are_folded_in_turn();
    let mut engine = adaptive_of(rt, alloc, checked, valid, adapts, chooses, gate)?;
    let mut rounds = first(alloc, checked.program(), opening)?;
    let mut begun = first_round(alloc, files, out, &mut rounds, &engine)?;
    let mut tally = Tally::new(alloc);
    while let Border::At(_) = begun.border {
        begun = next_round(
            rt,
            alloc,
            files,
            out,
            &mut rounds,
            &mut engine,
            begun,
            &mut tally,
        )?;
    }
    last_round(
        rt,
        alloc,
        files,
        out,
        &mut rounds,
        &mut engine,
        begun,
        tally,
    )
}

// Begins the first round.
fn first_round<F: Files, K: Sink, G: Gate, R>(
    alloc: Global,
    files: &mut F,
    out: &K,
    rounds: &mut Rounds,
    engine: &Adaptive<G, R, Backup>,
) -> Result<Begun, RunFault>
    requires program { program_of engine.now.checked ≡ rounds.old.held.program }
    requires stage { rounds.old.held.stage ≡ Stage.Filling }
    ensures steps { (adapts : Bool) (p : Program) (o : PlainOpening) (a : Option Contents) (k s : List ℕ → ℕ) (had : Option (List ℕ)) (x : ℕ)
        → GoesOn adapts p engine.now o None
        (call a (F.left files.old) k (F.faults files.old) s (F.put_faults files.old) had (K.taken out.now) x (K.faults out.now)) rounds.old
        → BeginsAhead adapts p engine.now o
        (call a (F.left files.new) k (F.faults files.new) s (F.put_faults files.new) had (K.taken out.now) x (K.faults out.now)) rounds.new result }
    ensures quiet { result ≢ Err (RunFault.Round RoundsFault.ReadFault) → SameCounts (F.faults files.old) (F.faults files.new) }
    ensures puts { SameCounts (F.put_faults files.old) (F.put_faults files.new) }
{
    resumed_runs_go_on();
    resumed_runs_write_the_fold();
    other_names_leave_runs_alone();
    rounds_are_counted_in_turn();
    runs_count_their_events();
    let _out = out;
    match rounds.begin(alloc, engine.checked().program(), files) {
        Ok(begun) => Ok(begun),
        Err(fault) => Err(RunFault::Round(fault)),
    }
}

// Runs a round that has begun while the next one is read, and writes its report, unless the read failed; and begins the next one.
fn next_round<F: Files, K: Sink, G: Gate, R: Threads + Wait + Sync>(
    rt: &R,
    alloc: Global,
    files: &mut F,
    out: &mut K,
    rounds: &mut Rounds,
    engine: &mut Adaptive<G, R, Backup>,
    begun: Begun,
    tally: &mut Tally,
) -> Result<Begun, RunFault>
    requires program { program_of engine.old.checked ≡ rounds.old.held.program }
    requires stage { rounds.old.held.stage ≡ Stage.Filling }
    requires itags { length (listed begun.rows) ≡ count_of_itags (program_of engine.old.checked) }
    requires sorts { IsStateOf (program_of engine.old.checked).families (held begun.opening) }
    ensures steps { (adapts : Bool) (p : Program) (o : PlainOpening) (a : Option Contents) (k s : List ℕ → ℕ) (had : Option (List ℕ)) (x t : ℕ)
        → begun.border ≡ Border.At t
        → HasBegun adapts p engine.old o
        (call a (F.left files.old) k (F.faults files.old) s (F.put_faults files.old) had (K.taken out.old) x (K.faults out.old)) rounds.old begun
        → StepsAhead adapts p engine.new o
        (call a (F.left files.new) k (F.faults files.new) s (F.put_faults files.new) had (K.taken out.new) x (K.faults out.new)) rounds.new
        begun.border result }
    ensures quiet { result ≢ Err (RunFault.Round RoundsFault.ReadFault) → SameCounts (F.faults files.old) (F.faults files.new) }
    ensures puts { SameCounts (F.put_faults files.old) (F.put_faults files.new) }
    ensures written_quiet { result ≢ Err (RunFault.Round RoundsFault.WriteFault) → K.faults out.new ≡ K.faults out.old }
{
    resumed_runs_go_on();
    resumed_runs_write_the_fold();
    other_names_leave_runs_alone();
    rounds_are_counted_in_turn();
    runs_count_their_events();
    halves_make_a_round();
    parts_make_a_half();
    let program = engine.checked().program();
    let (ran, filled) = both(rt, alloc, files, rounds, engine, begun.opening, &begun.rows);
    if let Err(RoundsFault::ReadFault) = filled {
        return Err(RunFault::Round(RoundsFault::ReadFault));
    }
    let Ok((state, outs)) = ran else {
        return Err(RunFault::Round(RoundsFault::NoMemory));
    };
    tally.count(program, &begun.rows, &outs);
    if let Err(fault) = rounds.finish(alloc, program, out, state, outs) {
        return Err(RunFault::Round(fault));
    }
    let border = match filled {
        Ok(border) => border,
        Err(fault) => return Err(RunFault::Round(fault)),
    };
    match rounds.hand_out(alloc, program, border) {
        Ok(next) => Ok(next),
        Err(_) => Err(RunFault::Round(RoundsFault::NoMemory)),
    }
}

// Runs the rows of a round in another thread while the next round is read.
fn both<F: Files, G: Gate, R: Threads + Wait + Sync>(
    rt: &R,
    alloc: Global,
    files: &mut F,
    rounds: &mut Rounds,
    engine: &mut Adaptive<G, R, Backup>,
    opening: State,
    rows: &Streams,
) -> (
    Result<(State, Outs), AllocError>,
    Result<Border, RoundsFault>,
)
    requires program { program_of engine.old.checked ≡ rounds.old.held.program }
    requires stage { rounds.old.held.stage ≡ Stage.Filling }
    requires itags { length (listed rows.now) ≡ count_of_itags (program_of engine.old.checked) }
    requires sorts { IsStateOf (program_of engine.old.checked).families (held opening) }
    ensures state { IfOk result.0 (λ r. held r.0 ≡ final_state (program_of engine.old.checked) (held opening) (listed rows.now)) }
    ensures sorts { IfOk result.0 (λ r. IsStateOf (program_of engine.old.checked).families (held r.0)) }
    ensures outputs { IfOk result.0 (λ r. IsPermutation (final_outputs (program_of engine.old.checked) (held opening) (listed rows.now)) r.1) }
    ensures engine { engine.new.checked ≡ engine.old.checked }
    ensures adapts { engine.new.adapts ≡ engine.old.adapts }
    ensures counts { OnOk result.0 (IsTrue engine.old.adapts → engine.new.counts ≡ grown engine.old.counts (listed rows.now)) }
    ensures filled { IsFilled rounds.old rounds.new (call (F.left files.old) (F.left files.new) (F.faults files.old) (F.faults files.new)
        (F.put_faults files.old) (F.put_faults files.new) None None 0 0) result.1 }
{
    programs_are_shared();
    let program = engine.checked().program();
    let mut meanwhile = || -> Result<Border, RoundsFault>
        requires { (program.now ≡ rounds.now.held.program) × (rounds.now.held.stage ≡ Stage.Filling) }
        ensures { IsFilled rounds.entry.now rounds.exit.now (call (F.left files.entry.now) (F.left files.exit.now) (F.faults files.entry.now)
            (F.faults files.exit.now) (F.put_faults files.entry.now) (F.put_faults files.exit.now) None None 0 0) result }
    { fill_next(alloc, files, rounds, program) };
    engine.batch_beside(rt, alloc, opening, rows, &mut meanwhile)
}

// Reads the next round.
fn fill_next<F: Files>(
    alloc: Global,
    files: &mut F,
    rounds: &mut Rounds,
    program: &Program,
) -> Result<Border, RoundsFault>
    requires program { program.now ≡ rounds.old.held.program }
    requires stage { rounds.old.held.stage ≡ Stage.Filling }
    ensures { IsFilled rounds.old rounds.new (call (F.left files.old) (F.left files.new) (F.faults files.old) (F.faults files.new)
        (F.put_faults files.old) (F.put_faults files.new) None None 0 0) result }
{
    rounds.fill(alloc, program, files)
}

// Runs the last round, which has begun, and writes its report; and finds what is said after it.
fn last_round<F: Files, K: Sink, G: Gate, R: Threads + Wait + Sync>(
    rt: &R,
    alloc: Global,
    files: &F,
    out: &mut K,
    rounds: &mut Rounds,
    engine: &mut Adaptive<G, R, Backup>,
    begun: Begun,
    mut tally: Tally,
) -> Result<Ran, RunFault>
    requires program { program_of engine.old.checked ≡ rounds.old.held.program }
    requires itags { length (listed begun.rows) ≡ count_of_itags (program_of engine.old.checked) }
    requires sorts { IsStateOf (program_of engine.old.checked).families (held begun.opening) }
    ensures ends { (adapts : Bool) (p : Program) (o : PlainOpening) (a : Option Contents) (k s : List ℕ → ℕ) (had : Option (List ℕ)) (x : ℕ)
        → begun.border ≡ Border.Closed
        → HasBegun adapts p engine.old o
        (call a (F.left files.now) k (F.faults files.now) s (F.put_faults files.now) had (K.taken out.old) x (K.faults out.old)) rounds.old begun
        → EndsRounds adapts p o None
        (call a (F.left files.now) k (F.faults files.now) s (F.put_faults files.now) had (K.taken out.new) x (K.faults out.new)) result
        × StaysWithin p None
        (call a (F.left files.now) k (F.faults files.now) s (F.put_faults files.now) had (K.taken out.new) x (K.faults out.new)) }
    ensures unread { result ≢ Err (RunFault.Round RoundsFault.ReadFault) }
    ensures written_quiet { result ≢ Err (RunFault.Round RoundsFault.WriteFault) → K.faults out.new ≡ K.faults out.old }
{
    resumed_runs_go_on();
    resumed_runs_write_the_fold();
    other_names_leave_runs_alone();
    rounds_are_counted_in_turn();
    runs_count_their_events();
    halves_make_a_round();
    let _files = files;
    let program = engine.checked().program();
    let Ok((state, outs)) = engine.batch(rt, alloc, begun.opening, &begun.rows) else {
        return Err(RunFault::Round(RoundsFault::NoMemory));
    };
    let Ok(says) = said_behind(alloc, engine, begun.border) else {
        return Err(RunFault::Round(RoundsFault::NoMemory));
    };
    tally.count(program, &begun.rows, &outs);
    match rounds.finish(alloc, program, out, state, outs) {
        Ok(()) => Ok(Ran {
            said: says,
            counts: tally.end(alloc, program, rounds.state()),
        }),
        Err(fault) => Err(RunFault::Round(fault)),
    }
}
