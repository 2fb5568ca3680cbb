//! What runs of jobs with their plans come to.

ghost use Rattle.std.specs.Prelude.{◌≡◌, ◌^◌, ◌<◌, length, IfOk};
ghost use Rattle.flu_model.specs.Itags.{count_of_itags};
ghost use Rattle.flu_model.specs.Listed.{listed};
ghost use Rattle.flu_model.specs.Sorts.{IsStateOf};
ghost use Rattle.flu_cells.specs.Holding.{held};

use crate::stages::{MEMORY, Stage};
use flu_cells::State;
use flu_deps::Checked;
use flu_fork::Case;
use flu_live::{NetEngine, Run, StepCounts, bound, simulate, some_enabled};
use flu_model::{Cell, Outs, Streams};
use flu_net::Net;
use flu_report::report_text;
use flu_seq::{Engine, fold};
use std::alloc::{AllocError, Global};
use std::process::Abort;

/// What a run is to come to: the report, and, if they are given, how many steps of each kind it has, in the order in which they are
/// declared, and its mark with the bound on its steps.
#[derive(Clone, Copy)]
pub struct Wanted<'a> {
    pub report: &'a str,
    pub steps: Option<[u128; 7]>,
    pub mark: Option<(u32, u128)>,
}

/// What a batch of an engine comes to, from the empty state.
pub fn batched<E: Engine<()>>(
    alloc: Global,
    engine: &mut E,
    streams: &Streams,
) -> Result<(State, Outs), AllocError>
    requires { length (listed streams.now) ≡ count_of_itags (E.program_of engine.old) }
    ensures sorts { IfOk result (λ r. IsStateOf (E.program_of engine.old).families (held r.0)) }
    ensures same { E.program_of engine.new ≡ E.program_of engine.old }
{
    engine.batch(&(), alloc, State::new(alloc), streams)
}

/// Compares the report of some outputs.
fn reports(rt: &impl Abort, alloc: Global, checked: &Checked, outs: Outs, report: &str) {
    let text = report_text(alloc, checked.program(), outs).expect(rt, MEMORY);
    assert_eq!(rt; text.as_str(), report);
}

/// Compares the report of a batch of the engine of the net.
fn batches(rt: &impl Abort, alloc: Global, stage: &Stage, seed: u32, report: &str)
    requires { seed < 2 ^ 31 }
{
    let mut engine = NetEngine {
        checked: stage.checked,
        valid: stage.valid,
        seed,
    };
    let (_state, outs) = batched(alloc, &mut engine, stage.streams).expect(rt, MEMORY);
    reports(rt, alloc, stage.checked, outs, report);
}

/// Compares the report of the fold.
fn folds(rt: &impl Abort, alloc: Global, stage: &Stage, report: &str) {
    let program = stage.checked.program();
    let (_state, outs) = fold(alloc, program, State::new(alloc), stage.streams).expect(rt, MEMORY);
    reports(rt, alloc, stage.checked, outs, report);
}

/// What the fold comes to from the empty state: the report and what the state holds.
pub fn folded(rt: &impl Abort, alloc: Global, stage: &Stage) -> String {
    let program = stage.checked.program();
    let (state, outs) = fold(alloc, program, State::new(alloc), stage.streams).expect(rt, MEMORY);
    ended(rt, alloc, stage.checked, &state, outs)
}

/// The report of some outputs, and after it what a state holds in the first cell of its first two families, each in a line.
pub fn ended(
    rt: &impl Abort,
    alloc: Global,
    checked: &Checked,
    state: &State,
    outs: Outs,
) -> String {
    let report = report_text(alloc, checked.program(), outs).expect(rt, MEMORY);
    let mut text = String::from_str(alloc, report.as_str()).expect(rt, MEMORY);
    for family in 0..2u32 {
        let worth = state.get(Cell { family, key: 0 });
        write!(text, "{worth:?}\n").expect(rt, MEMORY);
    }
    text
}

/// Whether a step is enabled at the start.
fn begins(rt: &impl Abort, alloc: Global, case: &Case) -> bool {
    let net = Net::new(alloc, case).expect(rt, MEMORY);
    some_enabled(&net, case).is_some()
}

/// How many steps of each kind a run has, in the order in which they are declared.
fn counts(steps: StepCounts) -> [u128; 7] {
    [
        steps.arrive,
        steps.handle,
        steps.ask,
        steps.take,
        steps.give,
        steps.hold,
        steps.lend,
    ]
}

/// Compares what a run comes to.
fn simulates(rt: &impl Abort, alloc: Global, case: &Case, seed: u32, wanted: Wanted)
    requires { seed < 2 ^ 31 }
{
    let Run {
        outs,
        steps,
        mark,
        ..
    } = simulate(alloc, case, seed).expect(rt, MEMORY);
    reports(rt, alloc, case.checked(), outs, wanted.report);
    if let Some(all) = wanted.steps {
        assert_eq!(rt; counts(steps), all);
    }
    if let Some((seen, most)) = wanted.mark {
        assert_eq!(rt; mark, seen);
        assert_eq!(rt; bound(case), most);
    }
}

/// Compares what a run, a batch with the same seed and the fold come to.
pub fn runs(rt: &impl Abort, alloc: Global, stage: &Stage, seed: u32, wanted: Wanted)
    requires { seed < 2 ^ 31 }
{
    batches(rt, alloc, stage, seed, wanted.report);
    folds(rt, alloc, stage, wanted.report);
    let case = stage.case(alloc).expect(rt, MEMORY);
    assert!(rt; begins(rt, alloc, &case));
    simulates(rt, alloc, &case, seed, wanted);
}
