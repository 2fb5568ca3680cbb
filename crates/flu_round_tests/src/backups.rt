//! The batch of a run whose threads are refused: the backup runs it, as the fold does.

ghost use Rattle.std.specs.Prelude.{◌≡◌, length, IfOk};
ghost use Rattle.flu_model.specs.Itags.{count_of_itags};
ghost use Rattle.flu_model.specs.Listed.{listed};

use crate::inputs::{Input, files_of, job};
use flu_cells::{Cell, State, Worth};
use flu_model::{Outs, Program, Streams};
use flu_parse::read_job;
use flu_report::report_text;
use flu_run::fall_back;
use flu_seq::{FoldEngine, fold};
use flu_streams::gather;
use std::alloc::Global;
use std::process::Abort;
use std::test::Fail;

const MEMORY: &str = "memory";

const A: &str = "1,inc,5\n4,inc,2\n6,inc,9\nend\n";

const B: &str = "2,inc,7\nend\n";

const C: &str = "3,read\n5,read\nend\n";

const COUNT: Cell = Cell { family: 0, key: 0 };

/// An engine of the job.
fn engine(alloc: Global) -> Result<FoldEngine, Fail> {
    let program = read_job(alloc, job(alloc, [0, 0, 0])?.as_bytes())?;
    Ok(FoldEngine { program })
}

/// The streams of the rows above.
fn streams(alloc: Global, p: &Program) -> Result<Streams, Fail>
    ensures { IfOk result (λ s. length (listed s) ≡ count_of_itags p.now) }
{
    let input = Input {
        job: "",
        a: A,
        b: B,
        c: C,
    };
    Ok(gather(alloc, p, &mut files_of(alloc, input)?)?)
}

/// The count is the 9 after the last read, and the report has both reads.
fn is_told(rt: &impl Abort, alloc: Global, p: &Program, state: &State, outs: Outs) {
    assert_eq!(rt; state.get(COUNT), Some(Worth::Sum(9)));
    let report = report_text(alloc, p, outs).expect(rt, MEMORY);
    assert_eq!(rt; report.as_str(), "3,read,count 12\n5,read,count 2\n");
}

/// What the fold gives.
fn folds(rt: &impl Abort, alloc: Global, p: &Program, streams: &Streams)
    requires { length (listed streams.now) ≡ count_of_itags p.now }
{
    let (state, outs) = fold(alloc, p, State::new(alloc), streams).expect(rt, MEMORY);
    is_told(rt, alloc, p, &state, outs);
}

/// What the backup gives.
fn falls_back(rt: &impl Abort, alloc: Global, engine: &mut FoldEngine, streams: &Streams)
    requires { length (listed streams.now) ≡ count_of_itags engine.old.program }
{
    let opening = State::new(alloc);
    let (state, outs) = fall_back(rt, alloc, opening, streams, engine).expect(rt, MEMORY);
    is_told(rt, alloc, &engine.program, &state, outs);
}

#[test]
fn the_backup_runs_a_batch_as_the_fold_does(rt: HostRuntime) -> Result<(), Fail> {
    let mut engine = engine(rt.alloc())?;
    let streams = streams(rt.alloc(), &engine.program)?;
    folds(&rt, rt.alloc(), &engine.program, &streams);
    falls_back(&rt, rt.alloc(), &mut engine, &streams);
    Ok(())
}
