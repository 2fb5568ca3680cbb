//! Which partials are accepted.

ghost use Rattle.std.specs.Prelude.{◌≡◌, ◌<◌, ◌≤◌, ℕ, List, IfOk, IfErr, IfSome, IsTrue, OnOk, length, position};
ghost use Rattle.flu_model.specs.declared.plans.Node.{Node as NodeOf};
ghost use Rattle.flu_model.specs.Erasure.{job_of};
ghost use Rattle.flu_model.specs.Owners.{are_related};
ghost use Rattle.flu_deps.specs.Checking.{program_of};
ghost use Rattle.flu_deps.specs.Validated.{plan_of, IsValidFor};
ghost use Rattle.flu_joining.specs.Parts.{waiting_in};
ghost use Rattle.flu_receiving.specs.Receiving.{IsRead};
ghost use Rattle.flu_parse.specs.Printing.{normal_form};
ghost use Rattle.flu_plan.specs.Printing.{printed};
ghost use Rattle.flu_combine.specs.Partials.{most_bytes, node_named, IsOfNode, IsPartialOf, TellsRows, IsDefectOfNode, IsDefectOfHead};
ghost use Rattle.flu_combine.specs.Reading.{IsApartBeside, IsDefectBeside, IsRefusedAs, ranks_told};
ghost use Rattle.flu_streams.specs.Clocks.{AreEarly};

use crate::fault::{PartialDefect, Refused};
use crate::spans::{Told, times_fit, told_by};
use flu_apart::apart;
use flu_deps::nodes::{is_within, related};
use flu_deps::{Checked, Valid};
use flu_joining::Queue;
use flu_model::{Node, Plan, Program};
use flu_partial::PartialHead;
use flu_receiving::{PartialFault, Received, read_partial};
use std::alloc::Global;

// What was accepted of a partial: its node, what was sent, and where the rows stand that the node read.
#[derive(Drop)]
pub(crate) struct Accepted {
    pub(crate) node: u32,
    pub(crate) queue: Queue,
    pub(crate) told: Option<Told>,
}

// The place of the node with a name.
fn place_of_node(nodes: &[Node], name: &str) -> Option<usize>
    ensures value { result ≡ node_named nodes.now name.now }
    ensures there { IfSome result (λ w. w < length nodes.now) }
{
    nodes.iter().position(|node| node.name.as_str() == name)
}

// The number of the node with a name.
fn node_named(plan: &Plan, name: &str) -> Option<u32>
    ensures value { result ≡ node_named plan.now.nodes name.now }
    ensures there { IfSome result (λ w. w < length plan.now.nodes) }
{
    match place_of_node(plan.nodes.items(), name) {
        Some(w) => Some(w as u32),
        None => None,
    }
}

// The node that a head is of, if it is of the job and of the plan, whose texts these are.
fn node_of(
    c: &Checked,
    v: &Valid,
    job: &str,
    plan: &str,
    head: &PartialHead,
) -> Result<u32, PartialDefect>
    requires job { job.now ≡ normal_form (job_of (program_of c.now)) }
    requires plan { plan.now ≡ printed (program_of c.now) (plan_of v.now).nodes }
    ensures node { IfOk result (IsOfNode (program_of c.now) (plan_of v.now).nodes head.now) }
    ensures there { IfOk result (λ w. w < length (plan_of v.now).nodes) }
    ensures defect { IfErr result (λ d. (ws : List ℕ) → IsDefectOfHead (program_of c.now) (plan_of v.now).nodes ws head.now d) }
{
    if head.job.as_str() != job {
        return Err(PartialDefect::OtherJob);
    }
    if head.plan.as_str() != plan {
        return Err(PartialDefect::OtherPlan);
    }
    match node_named(v.plan(), head.node.as_str()) {
        Some(w) => Ok(w),
        None => Err(PartialDefect::UnknownNode),
    }
}

// The place of the first of some nodes that is a node, or within it, or above it.
fn first_related(plan: &Plan, nodes: &[u32], w: u32) -> Option<usize>
    ensures value { result ≡ position (λ u. are_related plan.now.nodes u w) nodes.now }
    ensures there { IfSome result (λ place. place < length nodes.now) }
{
    nodes.iter().position(|u| related(plan, *u, w))
}

// What is wrong with a node beside one that is it, or within it, or above it.
fn defect_beside(plan: &Plan, other: u32, w: u32) -> PartialDefect
    requires { IsTrue (are_related plan.now.nodes other w) }
    ensures { IsDefectBeside plan.now.nodes other w result }
{
    if other == w {
        PartialDefect::Twice(w)
    } else if is_within(plan, other, w) {
        PartialDefect::Within(w, other)
    } else {
        PartialDefect::Within(other, w)
    }
}

// The node, if it may be apart beside others.
fn apart_beside(c: &Checked, v: &Valid, nodes: &[u32], w: u32) -> Result<u32, PartialDefect>
    requires valid { IsValidFor (program_of c.now) v.now }
    requires node { w < length (plan_of v.now).nodes }
    ensures same { IfOk result (λ u. u ≡ w) }
    ensures apart { OnOk result (IsApartBeside (program_of c.now) (plan_of v.now).nodes nodes.now w) }
    ensures defect { IfErr result (IsDefectOfNode (program_of c.now) (plan_of v.now).nodes nodes.now w) }
{
    if let Err(reason) = apart(c, v, w) {
        return Err(PartialDefect::NotApart(w, reason));
    }
    match first_related(v.plan(), nodes, w) {
        Some(place) => Err(defect_beside(v.plan(), nodes[place], w)),
        None => Ok(w),
    }
}

// The node of a head, if it is of the job and of the plan, and its node may be apart beside others.
fn judge(
    c: &Checked,
    v: &Valid,
    job: &str,
    plan: &str,
    nodes: &[u32],
    head: &PartialHead,
) -> Result<u32, PartialDefect>
    requires valid { IsValidFor (program_of c.now) v.now }
    requires job { job.now ≡ normal_form (job_of (program_of c.now)) }
    requires plan { plan.now ≡ printed (program_of c.now) (plan_of v.now).nodes }
    ensures node { IfOk result (IsOfNode (program_of c.now) (plan_of v.now).nodes head.now) }
    ensures apart { IfOk result (IsApartBeside (program_of c.now) (plan_of v.now).nodes nodes.now) }
    ensures defect { IfErr result (IsDefectOfHead (program_of c.now) (plan_of v.now).nodes nodes.now head.now) }
{
    match node_of(c, v, job, plan, head) {
        Ok(w) => apart_beside(c, v, nodes, w),
        Err(defect) => Err(defect),
    }
}

// The bytes, read as a partial of the job.
fn received(alloc: Global, p: &Program, bytes: &[u8]) -> Result<Received, Refused>
    requires { length bytes.now ≤ most_bytes }
    ensures read { IfOk result (IsRead p.now bytes.now) }
    ensures refused { IfErr result (λ e. (nodes : List NodeOf) (ws : List ℕ) → IsRefusedAs p.now nodes ws bytes.now e) }
{
    match read_partial(alloc, p, bytes) {
        Ok(received) => Ok(received),
        Err(PartialFault::NoMemory) => Err(Refused::NoMemory),
        Err(fault) => Err(Refused::Defect(PartialDefect::Text(fault))),
    }
}

/// Accepts the bytes of a partial, if it is one of the job and of the plan, whose texts these are, and its node may be apart beside those of
/// earlier ones.
pub(crate) fn accept(
    alloc: Global,
    c: &Checked,
    v: &Valid,
    job: &str,
    plan: &str,
    nodes: &[u32],
    bytes: &[u8],
) -> Result<Accepted, Refused>
    requires valid { IsValidFor (program_of c.now) v.now }
    requires job { job.now ≡ normal_form (job_of (program_of c.now)) }
    requires plan { plan.now ≡ printed (program_of c.now) (plan_of v.now).nodes }
    requires few { length bytes.now ≤ most_bytes }
    ensures partial { IfOk result (λ a. IsPartialOf (program_of c.now) (plan_of v.now).nodes bytes.now a.node (waiting_in a.queue)) }
    ensures tells { IfOk result (λ a. TellsRows (program_of c.now) bytes.now (ranks_told a.told)) }
    ensures early { IfOk result (λ a. AreEarly (program_of c.now) (ranks_told a.told)) }
    ensures apart { IfOk result (λ a. IsApartBeside (program_of c.now) (plan_of v.now).nodes nodes.now a.node) }
    ensures refused { IfErr result (IsRefusedAs (program_of c.now) (plan_of v.now).nodes nodes.now bytes.now) }
{
    let received = match received(alloc, c.program(), bytes) {
        Ok(received) => received,
        Err(refused) => return Err(refused),
    };
    let node = match judge(c, v, job, plan, nodes, &received.head) {
        Ok(node) => node,
        Err(defect) => return Err(Refused::Defect(defect)),
    };
    if !times_fit(c.program(), received.head.first, received.last) {
        return Err(Refused::Defect(PartialDefect::WrongTimes));
    }
    Ok(Accepted {
        node,
        told: told_by(c.program(), received.head.first, received.last),
        queue: Queue::of(received.sent),
    })
}
