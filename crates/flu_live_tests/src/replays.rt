//! Traces with a line that is changed, doubled, dropped or swapped: the replay ends as the steps one by one on a net do.

ghost use Rattle.std.specs.Prelude.{◌≡◌, ◌^◌, ◌<◌, length, OnOk};

use crate::drawn::Draws;
use crate::nets::{made, told};
use crate::stages::{Input, MEMORY, Rows, Stage, Task, tries};
use crate::texts::{
    ABOVE, COUNT, LAST, ONE, SHARED, SHARED_PLAN, THREE, TRADES, TWO_READS, VALUES,
};
use crate::traces::{lines_of, push_line, push_lines, replayed};
use flu_fork::Case;
use flu_model::Text;
use flu_net::Net;
use flu_trace::{ReplayFault, read_step};
use std::alloc::{AllocError, Global};
use std::process::Abort;

/// What is done to one line of a trace.
#[derive(Clone, Copy)]
enum Edit {
    /// Another line is in its place.
    Changed,
    /// It is there twice.
    Doubled,
    /// It is not there.
    Dropped,
    /// It changes places with the next one.
    Swapped,
}

const EDITS: [Edit; 4] = [Edit::Changed, Edit::Doubled, Edit::Dropped, Edit::Swapped];

/// Lines that a trace may have in place of one of its own: bad ones, and steps that are not there.
const ODD: [&str; 8] = [
    "",
    "arrive 00",
    "handle 0 ",
    "hold 1 left",
    "give",
    "ask 3 left",
    "give 999",
    "take 0 middle",
];

/// How edited traces end: how many at a bad line, at a step that is not enabled, before the net is final, and in a final net.
#[derive(Clone, Copy)]
struct Tally {
    bad: u32,
    not_enabled: u32,
    incomplete: u32,
    complete: u32,
}

impl Tally {
    // Counts how a trace ends.
    fn count(&mut self, told: &str) {
        if told.starts_with("Bad") {
            self.bad = self.bad.saturating_add(1);
        } else if told.starts_with("NotEnabled") {
            self.not_enabled = self.not_enabled.saturating_add(1);
        } else if told.starts_with("Incomplete") {
            self.incomplete = self.incomplete.saturating_add(1);
        } else {
            self.complete = self.complete.saturating_add(1);
        }
    }
}

/// Makes the step of a line, by its number; what stops it, if anything does.
fn stopped(
    alloc: Global,
    case: &Case,
    net: &mut Net,
    text: &str,
    line: u64,
) -> Result<Option<ReplayFault>, AllocError>
    requires { case.now ≡ net.old.case }
    ensures { OnOk result (net.new.case ≡ net.old.case) }
{
    let Some(step) = read_step(text.as_bytes()) else {
        return Ok(Some(ReplayFault::Bad { line }));
    };
    if !net.enabled(case, step) || !made(alloc, case, net, step)? {
        return Ok(Some(ReplayFault::NotEnabled { line }));
    }
    Ok(None)
}

/// Makes the steps of a trace one by one; what stops them, if anything does.
fn first_stop(
    alloc: Global,
    case: &Case,
    net: &mut Net,
    text: &str,
) -> Result<Option<ReplayFault>, AllocError>
    requires { case.now ≡ net.old.case }
    ensures { OnOk result (net.new.case ≡ net.old.case) }
{
    let mut line = 1u64;
    for piece in text.split_inclusive('\n') {
        let piece = piece.strip_suffix('\n').unwrap_or(piece);
        let stop = stopped(alloc, case, net, piece, line)?;
        if stop.is_some() {
            return Ok(stop);
        }
        line = line.saturating_add(1);
    }
    if net.is_final(case) {
        return Ok(None);
    }
    Ok(Some(ReplayFault::Incomplete { line }))
}

/// What a trace comes to by its steps one by one: the report and what the state holds, or the fault.
fn stepped(rt: &impl Abort, alloc: Global, case: &Case, text: &str) -> String {
    let mut net = Net::new(alloc, case).expect(rt, MEMORY);
    match first_stop(alloc, case, &mut net, text).expect(rt, MEMORY) {
        Some(fault) => format!(in alloc; "{fault:?}").expect(rt, MEMORY),
        None => told(rt, alloc, case, net),
    }
}

/// The trace of some lines, one of which is edited; if it is changed, another line is in its place.
fn edited(
    rt: &impl Abort,
    alloc: Global,
    lines: &[Text],
    at: usize,
    edit: Edit,
    other: &str,
) -> String
    requires { at < length lines.now }
{
    let mut text = String::new(alloc);
    push_lines(rt, &mut text, &lines[..at]);
    let line = lines[at].as_str();
    let behind = match edit {
        Edit::Changed => {
            push_line(rt, &mut text, other);
            &lines[at + 1..]
        }
        Edit::Doubled => {
            push_line(rt, &mut text, line);
            &lines[at..]
        }
        Edit::Dropped => &lines[at + 1..],
        Edit::Swapped => match lines.get(at + 1) {
            Some(next) => {
                push_line(rt, &mut text, next.as_str());
                push_line(rt, &mut text, line);
                &lines[at + 2..]
            }
            None => &lines[at..],
        },
    };
    push_lines(rt, &mut text, behind);
    text
}

/// Another line: one of these, or an odd one.
fn other_line<'a>(lines: &'a [Text], draws: &mut Draws) -> &'a str {
    let place = draws.below(100) as usize;
    match lines.get(place) {
        Some(line) => line.as_str(),
        None => ODD[place % ODD.len()],
    }
}

/// Compares what a trace comes to by its steps and by its replay, and counts how it ends.
fn compare(rt: &impl Abort, alloc: Global, case: &Case, text: &str, tally: &mut Tally) {
    let by_net = stepped(rt, alloc, case, text);
    let by_replay = replayed(rt, alloc, case, text, 50);
    assert_eq!(rt; by_replay.as_str(), by_net.as_str(), "{text}");
    tally.count(by_net.as_str());
}

/// Compares what the traces come to that differ in this line.
fn edits_at(
    rt: &impl Abort,
    alloc: Global,
    case: &Case,
    lines: &[Text],
    at: usize,
    draws: &mut Draws,
    tally: &mut Tally,
)
    requires { at < length lines.now }
{
    for edit in EDITS {
        let other = other_line(lines, draws);
        let text = edited(rt, alloc, lines, at, edit, other);
        compare(rt, alloc, case, text.as_str(), tally);
    }
}

/// Compares what the traces come to that differ in one line from the trace of a run.
fn edits_of(rt: &impl Abort, alloc: Global, case: &Case, seed: u32, tally: &mut Tally)
    requires { seed < 2 ^ 31 }
{
    let mut draws = Draws::of(seed);
    let lines = lines_of(rt, alloc, case, seed);
    for at in 0..lines.len() {
        edits_at(rt, alloc, case, lines.as_slice(), at, &mut draws, tally);
    }
}

/// Compares what the traces come to that differ in one line from the trace of one of two runs. Some of them end in each of the four ways.
pub fn edits(rt: &impl Abort, alloc: Global, stage: &Stage) {
    let case = stage.case(alloc).expect(rt, MEMORY);
    let mut tally = Tally {
        bad: 0,
        not_enabled: 0,
        incomplete: 0,
        complete: 0,
    };
    edits_of(rt, alloc, &case, 0, &mut tally);
    edits_of(rt, alloc, &case, 1, &mut tally);
    assert!(rt; tally.bad > 0 && tally.not_enabled > 0);
    assert!(rt; tally.incomplete > 0 && tally.complete > 0);
}

#[test]
fn an_edited_trace_ends_as_its_steps_do(rt: HostRuntime) {
    let cases = [
        (COUNT, ONE, TWO_READS),
        (COUNT, THREE, TWO_READS),
        (LAST, ABOVE, VALUES),
        (SHARED, SHARED_PLAN, TRADES),
    ];
    for (job, plan, files) in cases {
        let rows = Rows::Written(files);
        tries(&rt, rt.alloc(), Input { job, plan, rows }, 0, Task::Edit);
    }
}
