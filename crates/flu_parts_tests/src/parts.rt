//! The parts of a run: the text of what a node apart sends, and the report of what is joined.

ghost use Rattle.std.specs.Prelude.{◌≡◌, ◌<◌, ◌^◌, length, IfOk};
ghost use Rattle.flu_deps.specs.Checking.{program_of};
ghost use Rattle.flu_deps.specs.Validated.{IsValidFor};
ghost use Rattle.flu_model.specs.Itags.{count_of_itags};
ghost use Rattle.flu_model.specs.Listed.{listed};

use crate::cases::{Case, files_of};
use flu_cells::State;
use flu_deps::{Checked, Valid};
use flu_joining::{JoinFault, Queue, join_sent};
use flu_model::{Name, Program, Streams, Text};
use flu_parse::print_job;
use flu_partial::{PartialHead, push_head};
use flu_plan::print_plan;
use flu_readers::{SourcesRead, sources_of_node, sources_of_rest};
use flu_report::report_text;
use flu_selected::gather_selected;
use flu_sending::{first_time, push_sent};
use flu_seq::fold;
use flu_streams::gather;
use std::alloc::Global;
use std::test::Fail;

/// A case with rows that a seed draws.
#[derive(Clone, Copy)]
pub struct Drawn {
    pub case: Case,
    pub seed: u32,
    ghost small: { seed < 2 ^ 31 },
}

/// The report of the fold of all sources.
pub fn folded(alloc: Global, drawn: Drawn, program: &Program) -> Result<Text, Fail> {
    let mut files = files_of(alloc, drawn.case, drawn.seed)?;
    let streams = gather(alloc, program, &mut files)?;
    let (_, outs) = fold(alloc, program, State::new(alloc), &streams)?;
    Ok(report_text(alloc, program, outs)?)
}

// The streams of the sources that are read.
fn selected(
    alloc: Global,
    drawn: Drawn,
    program: &Program,
    read: &SourcesRead,
) -> Result<Streams, Fail>
    ensures { IfOk result (λ streams. length (listed streams) ≡ count_of_itags program.now) }
{
    let mut files = files_of(alloc, drawn.case, drawn.seed)?;
    Ok(gather_selected(alloc, program, read.as_slice(), &[], &mut files)?)
}

// The name of a node of a plan.
fn name_of(valid: &Valid, w: u32) -> &str {
    match valid.plan().nodes.items().get(w as usize) {
        Some(node) => node.name.as_str(),
        None => "",
    }
}

/// The text of what a node apart sends, which reads only the sources that it needs.
pub fn partial(
    alloc: Global,
    drawn: Drawn,
    checked: &Checked,
    valid: &Valid,
    w: u32,
) -> Result<Vec<u8>, Fail>
    requires valid { IsValidFor (program_of checked.now) valid.now }
{
    let program = checked.program();
    let read = sources_of_node(checked, valid, w);
    let streams = selected(alloc, drawn, program, &read)?;
    let mut text = Vec::new(alloc);
    let head = PartialHead {
        first: first_time(program, &streams),
        job: print_job(alloc, program)?,
        node: Name::of(String::from_str(alloc, name_of(valid, w))?),
        plan: print_plan(alloc, program, valid.plan())?,
    };
    push_head(alloc, &mut text, &head)?;
    push_sent(alloc, &mut text, checked, valid, w, &streams)?;
    Ok(text)
}

/// The report of what nodes apart sent, joined to the events inside none of them.
pub fn joined(
    alloc: Global,
    drawn: Drawn,
    checked: &Checked,
    valid: &Valid,
    apart: &[u32],
    queues: Vec<Queue>,
) -> Result<Result<Text, JoinFault>, Fail>
    requires valid { IsValidFor (program_of checked.now) valid.now }
{
    let program = checked.program();
    let read = sources_of_rest(checked, valid, apart);
    let streams = selected(alloc, drawn, program, &read)?;
    match join_sent(alloc, checked, valid, apart, queues, &streams) {
        Ok((_, outs)) => Ok(Ok(report_text(alloc, program, outs)?)),
        Err(fault) => Ok(Err(fault)),
    }
}
