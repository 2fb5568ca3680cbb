//! The lines of what a node apart sends.

ghost use Rattle.std.specs.Prelude.{◌≡◌, ◌++◌, ◌+◌, ◌<◌, ◌≤◌, ◌^◌, ◌∷◌, [], List, length, OnOk};
ghost use Rattle.std.specs.List.{AllByRecursion};
ghost use Rattle.flu_model.specs.Itags.{count_of_itags};
ghost use Rattle.flu_model.specs.Listed.{listed};
ghost use Rattle.flu_model.specs.Owners.{subtree_owns, ancestors_own};
ghost use Rattle.flu_model.specs.declared.events.Event.{Event};
ghost use Rattle.flu_deps.specs.Checking.{program_of};
ghost use Rattle.flu_deps.specs.Validated.{plan_of, IsValidFor};
ghost use Rattle.flu_contribution.specs.Parts.{contribution_of, open_of};
ghost use Rattle.flu_contribution.specs.Sending as sending;
ghost use Rattle.flu_sending.specs.Lines.{last_time, lines_of, sent_by};

use crate::times::last_time;
use flu_apart::Subtree;
use flu_cells::State;
use flu_contribution::{Contributing, Handed};
use flu_deps::nodes::is_within;
use flu_deps::{Checked, Valid};
use flu_handover::line_of;
use flu_laws::updates_are_changes;
use flu_model::{Event, Itag, Program, Streams};
use flu_partial::push_contribution;
use flu_seq::merge;
use std::alloc::{AllocError, Global};

// A node apart of a valid plan, and the last time of the streams that it has read.
#[derive(Drop)]
struct Part<'a> {
    program: &'a Program,
    valid: &'a Valid,
    node: u32,
    last: Option<u64>,
    ghost fits: { IsValidFor program.now valid.now },
}

impl<'a> Part<'a> {
    ghost use Rattle.flu_sending.specs.LoopSending.{program_in, nodes_in, lines_by, lines_from, IsNodeOf};

    // Whether the node or one below it owns an itag.
    fn is_inside(&self, i: Itag) -> bool
        requires { i.0 < count_of_itags (program_in self.now) }
        ensures { result ≡ subtree_owns (program_in self.now) (nodes_in self.now) self.now.node i }
    {
        is_within(self.valid.plan(), self.node, self.valid.owner(i))
    }

    // Whether a proper ancestor of the node owns an itag.
    fn is_above(&self, i: Itag) -> bool
        requires { i.0 < count_of_itags (program_in self.now) }
        ensures { result ≡ ancestors_own (program_in self.now) (nodes_in self.now) self.now.node i }
    {
        let owner = self.valid.owner(i);
        is_within(self.valid.plan(), owner, self.node) && owner != self.node
    }

    // Appends the line of a contribution.
    fn push_line(&self, alloc: Global, out: &mut Vec<u8>, k: &Handed) -> Result<(), AllocError>
        ensures { OnOk result (out.new.items ≡ out.old.items ++ lines_by self.now (contribution_of k.now ∷ [])) }
    {
        let line = line_of(alloc, self.program, k, self.last)?;
        push_contribution(alloc, out, &line)
    }

    // Appends the line of a contribution, unless it is idle.
    fn push_unless_idle(
        &self,
        alloc: Global,
        out: &mut Vec<u8>,
        k: &Handed,
    ) -> Result<(), AllocError>
        ensures { OnOk result (out.new.items ≡ out.old.items ++ lines_by self.now (sending.sent (contribution_of k.now ∷ []))) }
    {
        if is_idle(k) {
            Ok(())
        } else {
            self.push_line(alloc, out, k)
        }
    }

    // Does one event. What it closes is handed over.
    fn take_event(
        &self,
        alloc: Global,
        out: &mut Vec<u8>,
        node: &mut Contributing<'_>,
        x: Event,
    ) -> Result<(), AllocError>
        requires in_range { x.itag.0 < count_of_itags (program_in self.now) }
        requires its { IsNodeOf self.now node.old }
        requires few { (open_of node.old).count + 1 < 2 ^ 64 }
        ensures lines { OnOk result ((xs : List Event) → out.new.items ++ lines_from self.now (open_of node.new) xs
            ≡ out.old.items ++ lines_from self.now (open_of node.old) (x ∷ xs)) }
        ensures its { OnOk result (IsNodeOf self.now node.new) }
        ensures count { OnOk result ((open_of node.new).count ≤ (open_of node.old).count + 1) }
    {
        if self.is_inside(x.itag) {
            updates_are_changes();
            node.inside(&x)
        } else if self.is_above(x.itag) {
            let closed = node.above(x)?;
            self.push_unless_idle(alloc, out, &closed)
        } else {
            Ok(())
        }
    }

    // Appends the lines of what the node sends of events, from its open contribution on.
    fn push_all(
        &self,
        alloc: Global,
        out: &mut Vec<u8>,
        node: Contributing<'_>,
        events: &[Event],
    ) -> Result<(), AllocError>
        requires in_range { AllByRecursion (λ (x : Event). x.itag.0 < count_of_itags (program_in self.now)) events.now }
        requires its { IsNodeOf self.now node }
        requires few { (open_of node).count + length events.now < 2 ^ 64 }
        ensures { OnOk result (out.new.items ≡ out.old.items ++ lines_from self.now (open_of node.entry) events.now) }
    {
        let mut node = node;
        for x in events {
            self.take_event(alloc, out, &mut node, *x)?;
        }
        self.push_unless_idle(alloc, out, &node.end())
    }
}

// Whether a contribution is of no event and is to be joined before one.
fn is_idle(k: &Handed) -> bool
    ensures { result ≡ sending.is_idle (contribution_of k.now) }
{
    k.count == 0 && k.before.is_some()
}

/// Appends the lines of what a node apart sends of the streams that it has read, which have one list for each itag of the job: in their order
/// the contributions of some event, and the last one, which has the last time of these streams.
///
/// Only events of the itags that the node or one below it owns, or a proper ancestor of it, make a difference to what is sent, so the others need
/// not be read. A node that the plan does not have sends one contribution, of no event. The time is that of merging the streams and doing the
/// events, and each closed contribution goes through the cells that it holds, by `Subtree::class_of`.
///
/// # Errors
///
/// Only if memory runs out; then some of the lines may have been appended.
pub fn push_sent(
    alloc: Global,
    out: &mut Vec<u8>,
    c: &Checked,
    v: &Valid,
    w: u32,
    streams: &Streams,
) -> Result<(), AllocError>
    requires valid { IsValidFor (program_of c.now) v.now }
    requires lists { length (listed streams.now) ≡ count_of_itags (program_of c.now) }
    ensures { OnOk result (out.new.items ≡ out.old.items
        ++ lines_of (program_of c.now) (last_time (program_of c.now) (listed streams.now)) (sent_by (program_of c.now) (plan_of v.now).nodes w (listed streams.now))) }
{
    let p = c.program();
    let part = Part {
        program: p,
        valid: v,
        node: w,
        last: last_time(p, streams),
    };
    let events = merge(alloc, p, streams)?;
    let mut opening = State::new(alloc);
    let node = Contributing::new(alloc, Subtree::of(c, v, w), &mut opening)?;
    part.push_all(alloc, out, node, events.as_slice())
}
