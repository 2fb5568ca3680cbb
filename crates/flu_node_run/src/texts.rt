//! The text of a node's partial.

ghost use Rattle.std.specs.Prelude.{◌≡◌, ◌<◌, length, IfOk};
ghost use Rattle.flu_model.specs.Itags.{count_of_itags};
ghost use Rattle.flu_model.specs.Listed.{listed};
ghost use Rattle.flu_deps.specs.Checking.{program_of};
ghost use Rattle.flu_deps.specs.Validated.{plan_of, IsValidFor};
ghost use Rattle.flu_node_run.specs.Partials.{head_of, text_of_partial};

use flu_deps::{Checked, Valid};
use flu_model::{Name, Streams};
use flu_parse::print_job;
use flu_partial::{PartialHead, push_head};
use flu_plan::print_plan;
use flu_sending::{first_time, push_sent};
use std::alloc::{AllocError, Global};

// The head of a node's partial.
fn head_of(
    alloc: Global,
    c: &Checked,
    v: &Valid,
    w: u32,
    streams: &Streams,
) -> Result<PartialHead, AllocError>
    requires node { w < length (plan_of v.now).nodes }
    requires lists { length (listed streams.now) ≡ count_of_itags (program_of c.now) }
    ensures { IfOk result (λ head. head ≡ head_of (program_of c.now) (plan_of v.now).nodes w (listed streams.now)) }
{
    let p = c.program();
    let plan = v.plan();
    let node = &plan.nodes.items()[w as usize];
    let name = String::from_str(alloc, node.name.as_str())?;
    let job = print_job(alloc, p)?;
    let printed = print_plan(alloc, p, plan)?;
    Ok(PartialHead {
        first: first_time(p, streams),
        job,
        node: Name::of(name),
        plan: printed,
    })
}

/// The text of a node's partial of the streams that the node has read, which have one list for each itag of the job.
pub(crate) fn text_of_partial(
    alloc: Global,
    c: &Checked,
    v: &Valid,
    w: u32,
    streams: &Streams,
) -> Result<Vec<u8>, AllocError>
    requires valid { IsValidFor (program_of c.now) v.now }
    requires node { w < length (plan_of v.now).nodes }
    requires lists { length (listed streams.now) ≡ count_of_itags (program_of c.now) }
    ensures { IfOk result (λ text. text.items ≡ text_of_partial (program_of c.now) (plan_of v.now).nodes w (listed streams.now)) }
{
    let head = head_of(alloc, c, v, w, streams)?;
    let mut text = Vec::new(alloc);
    push_head(alloc, &mut text, &head)?;
    push_sent(alloc, &mut text, c, v, w, streams)?;
    Ok(text)
}
