//! What the rounds of an input write by each engine.

ghost use Rattle.std.specs.Prelude.{◌≤◌, ◌<◌, ◌^◌};
ghost use Rattle.flu_deps.specs.Checking.{program_of};
ghost use Rattle.flu_deps.specs.Validated.{IsValidFor};

use crate::inputs::{Input, accepted, files_of, planned};
use crate::runs::{Marks, resume_on, run_adaptively, run_on, run_on_tree, state_behind};
use flu_adaptive::Adaptive;
use flu_cells::State;
use flu_deps::{Checked, Valid};
use flu_live::NetEngine;
use flu_outside::{MemSink, write_all};
use flu_parse::read_job;
use flu_report::report_text;
use flu_run::TreeEngine;
use flu_seq::{FoldEngine, OpenGate, fold};
use flu_streams::gather;
use std::alloc::Global;
use std::process::Abort;
use std::sync::Wait;
use std::test::Fail;
use std::thread::Threads;

/// More bytes than any run of these tests writes.
const ROOM: usize = 1_048_576;

/// What a run of the sources is to write: the report of the fold of all rows, and that the last round closed.
pub fn whole(alloc: Global, input: Input) -> Result<MemSink, Fail> {
    let p = read_job(alloc, input.job.as_bytes())?;
    let streams = gather(alloc, &p, &mut files_of(alloc, input)?)?;
    let (_, outs) = fold(alloc, &p, State::new(alloc), &streams)?;
    let report = report_text(alloc, &p, outs)?;
    let mut out = MemSink::with_room(alloc, ROOM)?;
    write_all(&mut out, report.as_str().as_bytes())?;
    write_all(&mut out, b"closed\n")?;
    Ok(out)
}

/// Compares the rounds by the fold.
pub fn folds(
    rt: &impl Abort,
    alloc: Global,
    input: Input,
    rows: u32,
    marks: Marks,
    wanted: &[u8],
) -> Result<(), Fail>
    requires some { 1 ≤ rows }
    requires few { rows ≤ 4096 }
{
    let program = read_job(alloc, input.job.as_bytes())?;
    let mut engine = FoldEngine { program };
    let mut files = files_of(alloc, input)?;
    let mut out = MemSink::with_room(alloc, ROOM)?;
    run_on(rt, alloc, &mut engine, &mut files, &mut out, rows, marks)?;
    assert_eq!(rt; out.bytes(), wanted);
    Ok(())
}

/// Compares what the fold writes above a border, a row at a time, from the state after this many rounds from the first row on.
pub fn resumes(
    rt: &impl Abort,
    alloc: Global,
    input: Input,
    rounds: u32,
    border: u64,
    wanted: &[u8],
) -> Result<(), Fail>
    requires { border < 2 ^ 63 }
{
    let program = read_job(alloc, input.job.as_bytes())?;
    let mut engine = FoldEngine { program };
    let mut files = files_of(alloc, input)?;
    let mut out = MemSink::with_room(alloc, ROOM)?;
    let state = state_behind(rt, alloc, &mut engine, &mut files, &mut out, 1, rounds)?;
    let mut files = files_of(alloc, input)?;
    let mut out = MemSink::with_room(alloc, ROOM)?;
    resume_on(
        rt,
        alloc,
        &mut engine,
        &mut files,
        &mut out,
        1,
        border,
        state,
    )?;
    assert_eq!(rt; out.bytes(), wanted);
    Ok(())
}

/// Compares the rounds by the net.
pub fn nets(
    rt: &impl Abort,
    alloc: Global,
    checked: &Checked,
    valid: &Valid,
    input: Input,
    rows: u32,
    marks: Marks,
    wanted: &[u8],
) -> Result<(), Fail>
    requires valid { IsValidFor (program_of checked.now) valid.now }
    requires some { 1 ≤ rows }
    requires few { rows ≤ 4096 }
{
    let mut engine = NetEngine {
        checked,
        valid,
        seed: rows,
    };
    let mut files = files_of(alloc, input)?;
    let mut out = MemSink::with_room(alloc, ROOM)?;
    run_on(rt, alloc, &mut engine, &mut files, &mut out, rows, marks)?;
    assert_eq!(rt; out.bytes(), wanted);
    Ok(())
}

/// Compares the rounds by the tree of threads.
pub fn trees<R: Abort + Threads + Wait + Sync>(
    rt: &R,
    alloc: Global,
    checked: &Checked,
    valid: &Valid,
    input: Input,
    rows: u32,
    marks: Marks,
    wanted: &[u8],
) -> Result<(), Fail>
    requires valid { IsValidFor (program_of checked.now) valid.now }
    requires some { 1 ≤ rows }
    requires few { rows ≤ 4096 }
{
    let backup = NetEngine {
        checked,
        valid,
        seed: 0,
    };
    let mut engine = TreeEngine::new(checked, valid, &OpenGate, backup);
    let mut files = files_of(alloc, input)?;
    let mut out = MemSink::with_room(alloc, ROOM)?;
    run_on_tree(rt, alloc, &mut engine, &mut files, &mut out, rows, marks)?;
    assert_eq!(rt; out.bytes(), wanted);
    Ok(())
}

/// Compares the rounds by a tree of threads whose plan follows the counts, from the first plan on.
pub fn adapts<R: Abort + Threads + Wait + Sync>(
    rt: &R,
    alloc: Global,
    checked: &Checked,
    valid: &Valid,
    first: Valid,
    input: Input,
    rows: u32,
    marks: Marks,
    wanted: &[u8],
) -> Result<(), Fail>
    requires valid { IsValidFor (program_of checked.now) valid.now }
    requires first { IsValidFor (program_of checked.now) first }
    requires some { 1 ≤ rows }
    requires few { rows ≤ 4096 }
{
    let backup = NetEngine {
        checked,
        valid,
        seed: 0,
    };
    let mut engine = Adaptive::new(alloc, checked, first, &OpenGate, backup, true)?;
    let mut files = files_of(alloc, input)?;
    let mut out = MemSink::with_room(alloc, ROOM)?;
    run_adaptively(rt, alloc, &mut engine, &mut files, &mut out, rows, marks)?;
    assert_eq!(rt; out.bytes(), wanted);
    Ok(())
}

/// Compares the rounds by the net, by the tree of threads and by one whose plan follows the counts, all from the same plan on.
fn works<R: Abort + Threads + Wait + Sync>(
    rt: &R,
    alloc: Global,
    checked: &Checked,
    input: Input,
    rows: u32,
    marks: Marks,
    wanted: &[u8],
) -> Result<(), Fail>
    requires some { 1 ≤ rows }
    requires few { rows ≤ 4096 }
{
    let valid = planned(alloc, checked)?;
    assert!(rt; valid.is_some());
    let valid = valid.unwrap();
    nets(rt, alloc, checked, &valid, input, rows, marks, wanted)?;
    trees(rt, alloc, checked, &valid, input, rows, marks, wanted)?;
    follows(rt, alloc, checked, &valid, input, rows, marks, wanted)
}

/// Compares the rounds by a tree of threads whose plan follows the counts.
pub fn follows<R: Abort + Threads + Wait + Sync>(
    rt: &R,
    alloc: Global,
    checked: &Checked,
    valid: &Valid,
    input: Input,
    rows: u32,
    marks: Marks,
    wanted: &[u8],
) -> Result<(), Fail>
    requires valid { IsValidFor (program_of checked.now) valid.now }
    requires some { 1 ≤ rows }
    requires few { rows ≤ 4096 }
{
    let first = planned(alloc, checked)?;
    assert!(rt; first.is_some());
    adapts(
        rt,
        alloc,
        checked,
        valid,
        first.unwrap(),
        input,
        rows,
        marks,
        wanted,
    )
}

/// Compares the rounds by each engine.
pub fn writes<R: Abort + Threads + Wait + Sync>(
    rt: &R,
    alloc: Global,
    input: Input,
    rows: u32,
    marks: Marks,
    wanted: &[u8],
) -> Result<(), Fail>
    requires some { 1 ≤ rows }
    requires few { rows ≤ 4096 }
{
    folds(rt, alloc, input, rows, marks, wanted)?;
    let checked = accepted(alloc, input.job)?;
    assert!(rt; checked.is_some());
    works(rt, alloc, &checked.unwrap(), input, rows, marks, wanted)
}
