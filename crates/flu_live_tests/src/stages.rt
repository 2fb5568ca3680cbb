//! Jobs that are accepted, each with a plan that is valid for it and the streams of its sources, and what is tried on them. Whatever does
//! not go as a test says ends it, so that no function here has a way out while it owns a job or a net.

ghost use Rattle.std.specs.Prelude.{◌≡◌, ◌^◌, ◌<◌, length};
ghost use Rattle.flu_model.specs.Itags.{count_of_itags};
ghost use Rattle.flu_model.specs.Listed.{listed};
ghost use Rattle.flu_deps.specs.Checking.{program_of};
ghost use Rattle.flu_deps.specs.Validated.{IsValidFor};

use crate::drawn::{Tagged, drawn_files};
use crate::jobs::{Wanted, runs};
use crate::nets::{Walk, walks};
use crate::replays::edits;
use crate::traces::{replays_in_pieces, retells};
use flu_cells::State;
use flu_check::check;
use flu_deps::{Checked, Valid};
use flu_fork::Case;
use flu_model::Streams;
use flu_outside::MemFiles;
use flu_parse::read_job;
use flu_plan::read_plan;
use flu_streams::gather;
use flu_valid::validate;
use std::alloc::{AllocError, Global};
use std::process::Abort;

/// What a test says if it ends because memory ran out.
pub const MEMORY: &str = "there is memory";

/// The files of a job's sources, each with its name.
pub type Sources = &'static [(&'static str, &'static str)];

/// Where the rows of a job's sources come from.
#[derive(Clone, Copy)]
pub enum Rows {
    /// They are these texts.
    Written(Sources),
    /// The seed draws them.
    Drawn(Tagged),
}

/// A job with a plan and its sources' rows.
#[derive(Clone, Copy)]
pub struct Input {
    pub job: &'static str,
    pub plan: &'static str,
    pub rows: Rows,
}

/// What is tried on a job with its plan and its streams.
#[derive(Clone, Copy)]
pub enum Task<'a> {
    /// A run, a batch and the fold come to what is wanted.
    Run(Wanted<'a>),
    /// A walk over the net goes as it says.
    Walk(Walk<'a>),
    /// The replay of the trace of a run comes to what the fold comes to: if it is given, to this, and from this many lines.
    Retell(Option<(usize, &'a str)>),
    /// The replay of a trace, the first text, comes to the second one.
    Replay(&'a str, &'a str),
    /// Each trace with one line edited ends as its steps do.
    Edit,
}

/// A job that is accepted, a plan that is valid for it, and the streams of its sources, all borrowed.
#[derive(Drop)]
pub struct Stage<'a> {
    pub checked: &'a Checked,
    pub valid: &'a Valid,
    pub streams: &'a Streams,
    pub ghost of_job: { IsValidFor (program_of checked.now) valid.now },
    pub ghost one_each: { length (listed streams.now) ≡ count_of_itags (program_of checked.now) },
}

impl<'a> Stage<'a> {
    /// A case of it that opens with the empty state.
    pub fn case(&self, alloc: Global) -> Result<Case<'_>, AllocError> {
        Case::new(
            alloc,
            self.checked,
            self.valid,
            self.streams,
            State::new(alloc),
        )
    }
}

/// A job that is accepted.
fn accepted(rt: &impl Abort, alloc: Global, job: &str) -> Checked {
    let program = read_job(alloc, job.as_bytes());
    check(program.ok().expect(rt, "the job is read"))
        .ok()
        .expect(rt, "the job is accepted")
}

/// A plan that is valid for an accepted job.
fn planned(rt: &impl Abort, alloc: Global, checked: &Checked, plan: &str) -> Valid
    ensures { IsValidFor (program_of checked.now) result }
{
    let plan = read_plan(alloc, checked.program(), plan.as_bytes());
    match validate(checked, plan.ok().expect(rt, "the plan is read")) {
        Ok(valid) => valid,
        Err(_) => panic!(rt; "the plan is valid"),
    }
}

/// Files in memory.
fn stored(rt: &impl Abort, alloc: Global, files: Sources) -> MemFiles {
    let mut sources = MemFiles::new(alloc);
    for (name, text) in files {
        let bytes = text.as_bytes().to_vec(alloc).expect(rt, MEMORY);
        sources.add(name, bytes).expect(rt, MEMORY);
    }
    sources
}

/// The streams of an accepted job's sources.
fn gathered(rt: &impl Abort, alloc: Global, checked: &Checked, rows: Rows, seed: u32) -> Streams
    requires { seed < 2 ^ 31 }
    ensures { length (listed result) ≡ count_of_itags (program_of checked.now) }
{
    let mut sources = match rows {
        Rows::Written(files) => stored(rt, alloc, files),
        Rows::Drawn(sources) => drawn_files(rt, alloc, sources, seed),
    };
    match gather(alloc, checked.program(), &mut sources) {
        Ok(streams) => streams,
        Err(_) => panic!(rt; "the rows are read"),
    }
}

/// Tries what a test asks on a stage.
fn on_stage(rt: &impl Abort, alloc: Global, stage: &Stage, seed: u32, task: Task)
    requires { seed < 2 ^ 31 }
{
    match task {
        Task::Run(wanted) => runs(rt, alloc, stage, seed, wanted),
        Task::Retell(told) => retells(rt, alloc, stage, seed, told),
        Task::Walk(walk) => walks(rt, alloc, stage, walk),
        Task::Replay(text, wanted) => replays_in_pieces(rt, alloc, stage, text, wanted),
        Task::Edit => edits(rt, alloc, stage),
    }
}

/// Tries what a test asks on an accepted job.
fn on_job(rt: &impl Abort, alloc: Global, checked: &Checked, input: Input, seed: u32, task: Task)
    requires { seed < 2 ^ 31 }
{
    let valid = planned(rt, alloc, checked, input.plan);
    let streams = gathered(rt, alloc, checked, input.rows, seed);
    let stage = Stage {
        checked,
        valid: &valid,
        streams: &streams,
    };
    on_stage(rt, alloc, &stage, seed, task);
}

/// Tries what a test asks on a job with its plan over its sources' rows; the seed is that of the run, and of the rows if these are drawn.
pub fn tries(rt: &impl Abort, alloc: Global, input: Input, seed: u32, task: Task)
    requires { seed < 2 ^ 31 }
{
    let checked = accepted(rt, alloc, input.job);
    on_job(rt, alloc, &checked, input, seed, task);
}
