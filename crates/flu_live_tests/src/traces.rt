//! Traces of runs: what is written of them, run again, gives the report of the fold.

ghost use Rattle.std.specs.Prelude.{◌≡◌, ◌^◌, ◌<◌};
ghost use Rattle.flu_trace.specs.Lines.{number_of};

use crate::drawn::Tagged;
use crate::jobs::{ended, folded};
use crate::stages::{Input, MEMORY, Rows, Sources, Stage, Task, tries};
use crate::texts::{
    ABOVE, COUNT, DEEP, EMPTY, FOUR, LAST, ONE, ONE_TIME, SHARED, SHARED_PLAN, THREE, TWO_READS,
    VALUES,
};
use flu_fork::Case;
use flu_live::{TracedRun, trace};
use flu_model::Text;
use flu_net::Step;
use flu_outside::MemFiles;
use flu_trace::{replay, step_line};
use std::alloc::Global;
use std::process::Abort;

/// The name of a trace among files.
const TRACE: &str = "trace";

const PLAIN: Tagged = &[("a", "inc", true), ("b", "inc", true), ("c", "read", false)];

const MORE: Tagged = &[
    ("a", "inc", true),
    ("b", "inc", true),
    ("c", "read", false),
    ("d", "read", false),
];

const SET: Tagged = &[("a", "r", true), ("b", "r2", true), ("c", "z", false)];

const SOLD: Tagged = &[
    ("q", "quote", true),
    ("t1", "trade", true),
    ("t2", "trade", true),
    ("s", "shut", false),
];

/// The number of the itag or of the worker that a step names.
fn number(step: Step) -> u32
    ensures { result ≡ number_of step }
{
    match step {
        Step::Arrive(i) => i.0,
        Step::Handle(w) | Step::Give(w) | Step::Hold(w) => w,
        Step::Ask(w, _) | Step::Take(w, _) | Step::Lend(w, _) => w,
    }
}

/// The lines of the run that a seed draws, without their line feeds. A step whose number has more than three digits has none.
pub fn lines_of(rt: &impl Abort, alloc: Global, case: &Case, seed: u32) -> Vec<Text>
    requires { seed < 2 ^ 31 }
{
    let TracedRun { steps, .. } = trace(alloc, case, seed).expect(rt, MEMORY);
    let mut lines = Vec::new(alloc);
    for step in steps.as_slice() {
        if number(*step) < 1000 {
            let line = step_line(alloc, *step).expect(rt, MEMORY);
            lines.push(line).expect(rt, MEMORY);
        }
    }
    lines
}

/// Appends a line to a text.
pub fn push_line(rt: &impl Abort, text: &mut String, line: &str) {
    text.push_str(line).expect(rt, MEMORY);
    text.push_str("\n").expect(rt, MEMORY);
}

/// Appends lines to a text.
pub fn push_lines(rt: &impl Abort, text: &mut String, lines: &[Text]) {
    for line in lines {
        push_line(rt, text, line.as_str());
    }
}

/// What the replay of a trace comes to: the report and what the state holds, or the fault. The first take gives at most this many bytes,
/// and each later one a single byte.
pub fn replayed(rt: &impl Abort, alloc: Global, case: &Case, text: &str, most: usize) -> String
    requires { 0 < most }
{
    let mut files = MemFiles::new(alloc);
    let bytes = text.as_bytes().to_vec(alloc).expect(rt, MEMORY);
    files.add(TRACE, bytes).expect(rt, MEMORY);
    files.piece(most);
    files.add_piece(1).expect(rt, MEMORY);
    match replay(alloc, case, TRACE, &mut files) {
        Ok((state, outs)) => ended(rt, alloc, case.checked(), &state, outs),
        Err(fault) => format!(in alloc; "{fault:?}").expect(rt, MEMORY),
    }
}

/// Compares what the replay of a trace comes to.
fn replays(rt: &impl Abort, alloc: Global, case: &Case, text: &str, most: usize, wanted: &str)
    requires { 0 < most }
{
    let told = replayed(rt, alloc, case, text, most);
    assert_eq!(rt; told.as_str(), wanted, "{text} {most}");
}

/// Compares what the replay of a trace comes to, of which the first take gives less, about as much and more than a line.
pub fn replays_in_pieces(rt: &impl Abort, alloc: Global, stage: &Stage, text: &str, wanted: &str) {
    let case = stage.case(alloc).expect(rt, MEMORY);
    replays(rt, alloc, &case, text, 1, wanted);
    replays(rt, alloc, &case, text, 20, wanted);
    replays(rt, alloc, &case, text, 1000, wanted);
}

/// Compares what the replay of the trace of a run comes to; how many lines the trace has.
fn reruns(rt: &impl Abort, alloc: Global, case: &Case, seed: u32, wanted: &str) -> usize
    requires { seed < 2 ^ 31 }
{
    let lines = lines_of(rt, alloc, case, seed);
    let mut text = String::new(alloc);
    push_lines(rt, &mut text, lines.as_slice());
    replays(rt, alloc, case, text.as_str(), 20, wanted);
    lines.len()
}

/// Compares what the replay of the trace of a run and the fold come to.
pub fn retells(
    rt: &impl Abort,
    alloc: Global,
    stage: &Stage,
    seed: u32,
    told: Option<(usize, &str)>,
)
    requires { seed < 2 ^ 31 }
{
    let wanted = folded(rt, alloc, stage);
    let case = stage.case(alloc).expect(rt, MEMORY);
    let count = reruns(rt, alloc, &case, seed, wanted.as_str());
    if let Some((lines, report)) = told {
        assert_eq!(rt; count, lines);
        assert_eq!(rt; wanted.as_str(), report);
    }
}

#[test]
fn traces_of_drawn_streams_give_the_fold(rt: HostRuntime) {
    let cases = [
        (COUNT, ONE, PLAIN),
        (COUNT, THREE, PLAIN),
        (FOUR, DEEP, MORE),
        (LAST, ABOVE, SET),
        (SHARED, SHARED_PLAN, SOLD),
    ];
    for (job, plan, sources) in cases {
        let rows = Rows::Drawn(sources);
        let input = Input { job, plan, rows };
        for seed in 0..40 {
            tries(&rt, rt.alloc(), input, seed, Task::Retell(None));
        }
    }
}

#[test]
fn traces_of_a_run_have_as_many_lines(rt: HostRuntime) {
    let counted = "3,read,count 12\n5,read,count 2\nNone\nNone\n";
    let values = "4,r2,q 7\n5,z,z none 7\n10,r,p 9\nSome(Last(9))\nSome(Last(7))\n";
    let cases = [
        (COUNT, THREE, TWO_READS, 37, counted),
        (COUNT, ONE, TWO_READS, 13, counted),
        (LAST, ABOVE, VALUES, 33, values),
    ];
    for (job, plan, files, lines, report) in cases {
        let rows = Rows::Written(files);
        let input = Input { job, plan, rows };
        for seed in 0..10 {
            let task = Task::Retell(Some((lines, report)));
            tries(&rt, rt.alloc(), input, seed, task);
        }
    }
}

/// Replays a trace on one node of the first job over some files.
fn replays_on_one(rt: &impl Abort, alloc: Global, files: Sources, text: &str, wanted: &str) {
    let input = Input {
        job: COUNT,
        plan: ONE,
        rows: Rows::Written(files),
    };
    tries(rt, alloc, input, 0, Task::Replay(text, wanted));
}

#[test]
fn a_replay_that_nothing_stops_ends_with_its_lines(rt: HostRuntime) {
    let cases = [
        (EMPTY, "", "Incomplete { line: 1 }"),
        (EMPTY, "arrive 2\narrive 0\narrive 1", "None\nNone\n"),
        (EMPTY, "arrive 2\narrive 0\narrive 1\n", "None\nNone\n"),
        (EMPTY, "arrive 2\narrive 0\n", "Incomplete { line: 3 }"),
        (
            ONE_TIME,
            "arrive 0\narrive 2\nhandle 0\narrive 0\narrive 1\narrive 2\nhandle 0",
            "3,read,count 1\nNone\nNone\n",
        ),
    ];
    for (files, text, wanted) in cases {
        replays_on_one(&rt, rt.alloc(), files, text, wanted);
    }
}

#[test]
fn a_replay_ends_at_a_step_that_is_not_enabled(rt: HostRuntime) {
    let cases = [
        (EMPTY, "arrive 2\narrive 2\nx", "NotEnabled { line: 2 }"),
        (
            EMPTY,
            "arrive 2\narrive 0\narrive 1\ngive 0",
            "NotEnabled { line: 4 }",
        ),
        (EMPTY, "arrive 7", "NotEnabled { line: 1 }"),
        (EMPTY, "ask 3 left", "NotEnabled { line: 1 }"),
        (EMPTY, "hold 3", "NotEnabled { line: 1 }"),
        (EMPTY, "take 999 right", "NotEnabled { line: 1 }"),
        (
            ONE_TIME,
            "arrive 0\narrive 0\narrive 1\nhandle 0",
            "NotEnabled { line: 4 }",
        ),
    ];
    for (files, text, wanted) in cases {
        replays_on_one(&rt, rt.alloc(), files, text, wanted);
    }
}

#[test]
fn a_replay_ends_at_a_bad_line(rt: HostRuntime) {
    let cases = [
        ("arrive 2\nx\narrive 2", "Bad { line: 2 }"),
        ("arrive 2\narrive 0\narrive 1\n\n", "Bad { line: 4 }"),
        ("arive 0", "Bad { line: 1 }"),
        ("\n", "Bad { line: 1 }"),
        ("arrive 007", "Bad { line: 1 }"),
        ("arrive 1000", "Bad { line: 1 }"),
        ("arrive 0\r\n", "Bad { line: 1 }"),
        ("ask 3", "Bad { line: 1 }"),
        ("hold 3 left", "Bad { line: 1 }"),
    ];
    for (text, wanted) in cases {
        replays_on_one(&rt, rt.alloc(), EMPTY, text, wanted);
    }
}

#[test]
fn long_lines_are_bad(rt: HostRuntime) {
    let texts = [
        "arrive 2\narrive 0                \narrive 1",
        "arrive 2\narrive 0                 \narrive 1",
        "arrive 2\narrive 0                ",
        "arrive 2\narrive 0                 ",
    ];
    for text in texts {
        replays_on_one(&rt, rt.alloc(), EMPTY, text, "Bad { line: 2 }");
    }
}
