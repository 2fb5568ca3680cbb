//! Runs in rounds, on an engine, on a tree of threads and on one whose plan follows the counts.

ghost use Rattle.std.specs.Prelude.{◌≡◌, ◌≤◌, ◌<◌, ◌^◌, IfOk};
ghost use Rattle.flu_cells.specs.Holding.{held};
ghost use Rattle.flu_deps.specs.Checking.{program_of};
ghost use Rattle.flu_model.specs.Sorts.{IsStateOf};
ghost use Rattle.flu_streams.specs.declared.held.Stage.{Stage};
ghost use Rattle.flu_rounds.specs.Standing.{StandsBehind};

use flu_adaptive::Adaptive;
use flu_cells::State;
use flu_outside::{MemFiles, MemSink, write_all};
use flu_plan::print_plan;
use flu_rounds::{Begun, Border, Rounds, RoundsFault};
use flu_run::TreeEngine;
use flu_seq::{Engine, Gate};
use std::alloc::Global;
use std::sync::Wait;
use std::test::Fail;
use std::thread::Threads;

/// More rounds than any run of these tests has.
const MOST: u32 = 1000;

/// What is written of a run's rounds after their reports.
#[derive(Clone, Copy)]
pub enum Marks {
    /// What each round answered, in a line.
    Each,
    /// What the last one answered.
    Last,
    /// What each round answered, and the plan that is in force after it.
    Plans,
}

/// Writes what a round answered, if that is to be written.
fn mark(
    alloc: Global,
    out: &mut MemSink,
    marks: Marks,
    answer: Result<Border, RoundsFault>,
) -> Result<(), Fail> {
    let line = match answer {
        Ok(Border::At(_)) if matches!(marks, Marks::Last) => return Ok(()),
        Ok(Border::At(time)) => format!(in alloc; "at {time}\n")?,
        Ok(Border::Closed) => format!(in alloc; "closed\n")?,
        Err(RoundsFault::Source(fault)) => {
            let source = fault.source;
            let row = fault.row;
            let why = fault.why;
            format!(in alloc; "source {source} row {row} {why:?}\n")?
        }
        Err(fault) => format!(in alloc; "{fault:?}\n")?,
    };
    write_all(out, line.as_bytes())?;
    Ok(())
}

/// Runs the rounds on an engine until one is the last, or fails.
pub fn run_on<R, N: Engine<R>>(
    rt: &R,
    alloc: Global,
    engine: &mut N,
    files: &mut MemFiles,
    out: &mut MemSink,
    rows: u32,
    marks: Marks,
) -> Result<(), Fail>
    requires some { 1 ≤ rows }
    requires few { rows ≤ 4096 }
{
    let mut rounds = Rounds::new(alloc, engine.program(), rows)?;
    go_on(rt, alloc, engine, &mut rounds, files, out, marks)
}

/// Runs this many rounds on an engine, or fewer if one is the last or fails, and answers the state after them.
pub fn state_behind<R, N: Engine<R>>(
    rt: &R,
    alloc: Global,
    engine: &mut N,
    files: &mut MemFiles,
    out: &mut MemSink,
    rows: u32,
    rounds: u32,
) -> Result<State, Fail>
    requires some { 1 ≤ rows }
    requires few { rows ≤ 4096 }
    ensures same { N.program_of engine.new ≡ N.program_of engine.old }
    ensures sorts { IfOk result (λ state. IsStateOf (N.program_of engine.old).families (held state)) }
{
    let mut run = Rounds::new(alloc, engine.program(), rows)?;
    for _ in 0..rounds {
        let Border::At(_) = run.round(rt, alloc, files, out, engine)? else {
            break;
        };
    }
    Ok(run.state().copy()?)
}

/// Runs the rounds on an engine, above a border and from a state, until one is the last, or fails.
pub fn resume_on<R, N: Engine<R>>(
    rt: &R,
    alloc: Global,
    engine: &mut N,
    files: &mut MemFiles,
    out: &mut MemSink,
    rows: u32,
    border: u64,
    state: State,
) -> Result<(), Fail>
    requires some { 1 ≤ rows }
    requires few { rows ≤ 4096 }
    requires border { border < 2 ^ 63 }
    requires sorts { IsStateOf (N.program_of engine.old).families (held state) }
{
    let mut rounds = Rounds::resume(alloc, engine.program(), rows, border, state)?;
    go_on(rt, alloc, engine, &mut rounds, files, out, Marks::Each)
}

// Runs the rounds on an engine, from where they are, until one is the last, or fails.
fn go_on<R, N: Engine<R>>(
    rt: &R,
    alloc: Global,
    engine: &mut N,
    rounds: &mut Rounds,
    files: &mut MemFiles,
    out: &mut MemSink,
    marks: Marks,
) -> Result<(), Fail>
    requires program { N.program_of engine.old ≡ rounds.old.held.program }
    requires stage { rounds.old.held.stage ≡ Stage.Filling }
{
    for _ in 0..MOST {
        let answer = rounds.round(rt, alloc, files, out, engine);
        mark(alloc, out, marks, answer)?;
        let Ok(Border::At(_)) = answer else {
            return Ok(());
        };
    }
    Ok(())
}

/// One round on a tree of threads, in two halves with the batch between them.
fn tree_round<G: Gate, R: Threads + Wait + Sync, B: Engine<R>>(
    rt: &R,
    alloc: Global,
    engine: &mut TreeEngine<G, R, B>,
    files: &mut MemFiles,
    out: &mut MemSink,
    rounds: &mut Rounds,
) -> Result<Border, RoundsFault>
    requires program { program_of engine.old.checked.now ≡ rounds.old.held.program }
    requires stage { rounds.old.held.stage ≡ Stage.Filling }
    ensures stands { IfOk result (StandsBehind rounds.old.held rounds.new.held) }
    ensures same { program_of engine.new.checked.now ≡ program_of engine.old.checked.now }
{
    let checked = engine.checked;
    let program = checked.program();
    let Begun {
        border,
        opening,
        rows,
    } = rounds.begin(alloc, program, files)?;
    let (state, outs) = engine.batch(rt, alloc, opening, &rows)?;
    rounds.finish(alloc, program, out, state, outs)?;
    Ok(border)
}

/// Runs the rounds on a tree of threads until one is the last, or fails.
pub fn run_on_tree<G: Gate, R: Threads + Wait + Sync, B: Engine<R>>(
    rt: &R,
    alloc: Global,
    engine: &mut TreeEngine<G, R, B>,
    files: &mut MemFiles,
    out: &mut MemSink,
    rows: u32,
    marks: Marks,
) -> Result<(), Fail>
    requires some { 1 ≤ rows }
    requires few { rows ≤ 4096 }
{
    let checked = engine.checked;
    let mut rounds = Rounds::new(alloc, checked.program(), rows)?;
    for _ in 0..MOST {
        let answer = tree_round(rt, alloc, engine, files, out, &mut rounds);
        mark(alloc, out, marks, answer)?;
        let Ok(Border::At(_)) = answer else {
            return Ok(());
        };
    }
    Ok(())
}

/// One round on an adaptive engine, in two halves with the batch between them.
pub fn adaptive_round<G: Gate, R: Threads + Wait + Sync, B: Engine<R> + Drop>(
    rt: &R,
    alloc: Global,
    engine: &mut Adaptive<G, R, B>,
    files: &mut MemFiles,
    out: &mut MemSink,
    rounds: &mut Rounds,
) -> Result<Border, RoundsFault>
    requires program { program_of engine.old.checked ≡ rounds.old.held.program }
    requires stage { rounds.old.held.stage ≡ Stage.Filling }
    ensures stands { IfOk result (StandsBehind rounds.old.held rounds.new.held) }
    ensures same { IfOk result (λ end. engine.new.checked ≡ engine.old.checked) }
{
    let checked = engine.checked();
    let program = checked.program();
    let Begun {
        border,
        opening,
        rows,
    } = rounds.begin(alloc, program, files)?;
    let (state, outs) = engine.batch(rt, alloc, opening, &rows)?;
    rounds.finish(alloc, program, out, state, outs)?;
    Ok(border)
}

/// Runs the rounds on an adaptive engine until one is the last, or fails.
pub fn run_adaptively<G: Gate, R: Threads + Wait + Sync, B: Engine<R> + Drop>(
    rt: &R,
    alloc: Global,
    engine: &mut Adaptive<G, R, B>,
    files: &mut MemFiles,
    out: &mut MemSink,
    rows: u32,
    marks: Marks,
) -> Result<(), Fail>
    requires some { 1 ≤ rows }
    requires few { rows ≤ 4096 }
{
    let checked = engine.checked();
    let mut rounds = Rounds::new(alloc, checked.program(), rows)?;
    for _ in 0..MOST {
        let answer = adaptive_round(rt, alloc, engine, files, out, &mut rounds);
        mark(alloc, out, marks, answer)?;
        if matches!(marks, Marks::Plans) {
            let plan = print_plan(alloc, checked.program(), engine.valid().plan())?;
            write_all(out, plan.as_str().as_bytes())?;
        }
        let Ok(Border::At(_)) = answer else {
            return Ok(());
        };
    }
    Ok(())
}
