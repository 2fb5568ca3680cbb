//! A node apart: the events of its subtree, one after another, and what it hands over.

ghost use Rattle.std.specs.Prelude.{◌≡◌, ◌+◌, ◌<◌, ◌^◌, OnOk, IfOk};
ghost use Rattle.flu_model.specs.Itags.{count_of_itags};
ghost use Rattle.flu_model.specs.Sorts.{IsStateOf};
ghost use Rattle.flu_cells.specs.Holding.{held};
ghost use Rattle.flu_laws.specs.Consistency.{outside};
ghost use Rattle.flu_apart.specs.Subtrees.{job, nodes, node, IsSubtree};

use crate::kept::take_kept;
use flu_apart::Subtree;
use flu_cells::State;
use flu_model::{Event, Outs};
use flu_step::update;
use std::alloc::{AllocError, Global};
use std::mem;

/// A contribution, as it is handed over: what some events of a subtree left in the cells and emitted, how many they are, and the event
/// before which it is to be joined, or none if at the end.
#[derive(Drop)]
pub struct Handed {
    pub cells: State,
    pub outputs: Outs,
    pub count: u64,
    pub before: Option<Event>,
}

/// A node apart, with its open contribution. It is fed the events of its subtree and those that an ancestor of the node owns, in order.
#[derive(Drop)]
pub struct Contributing<'a> {
    subtree: Subtree<'a>,
    cells: State,
    outputs: Outs,
    count: u64,
    alloc: Global,
    ghost is_subtree: { IsSubtree subtree },
}

impl<'a> Contributing<'a> {
    ghost use Rattle.flu_contribution.specs.Contributions.{opened, with_event, closed};
    ghost use Rattle.flu_contribution.specs.Parts.{keeps_of, subtree_of, open_of, contribution_of};

    /// A node apart before the first event. It takes out of the opening state what the node keeps.
    ///
    /// Where memory is refused, the opening state is of no further use.
    pub fn new(
        alloc: Global,
        subtree: Subtree<'a>,
        opening: &mut State,
    ) -> Result<Contributing<'a>, AllocError>
        requires subtree { IsSubtree subtree }
        requires sorts { IsStateOf (job subtree).families (held opening.old) }
        ensures open { IfOk result (λ k. open_of k ≡ opened (job subtree.entry) (nodes subtree.entry) (node subtree.entry) (held opening.old)) }
        ensures left { OnOk result (held opening.new ≡ outside (keeps_of subtree.entry) (held opening.old)) }
        ensures same { IfOk result (λ k. subtree_of k ≡ subtree.entry) }
    {
        let cells = take_kept(alloc, &subtree, opening)?;
        Ok(Contributing {
            subtree,
            cells,
            outputs: Outs::of(Vec::new(alloc)),
            count: 0,
            alloc,
        })
    }

    /// Does an event of the subtree.
    ///
    /// Where memory is refused, the node is of no further use.
    pub fn inside(&mut self, x: &Event) -> Result<(), AllocError>
        requires in_range { x.now.itag.0 < count_of_itags (job (subtree_of self.old)) }
        requires few { (open_of self.old).count + 1 < 2 ^ 64 }
        ensures open { OnOk result (open_of self.new ≡ with_event (job (subtree_of self.old)) (open_of self.old) x.now) }
        ensures same { subtree_of self.new ≡ subtree_of self.old }
    {
        self.count += 1;
        update(
            self.alloc,
            self.subtree.program(),
            &mut self.cells,
            x,
            &mut self.outputs,
        )
    }

    /// Closes the open contribution before an event that an ancestor of the node owns, hands it over, and opens the next.
    ///
    /// Where memory is refused, the node is of no further use.
    pub fn above(&mut self, y: Event) -> Result<Handed, AllocError>
        requires sorts { IsStateOf (job (subtree_of self.old)).families (open_of self.old).cells }
        ensures closed { IfOk result (λ k. contribution_of k
            ≡ closed (job (subtree_of self.old)) (nodes (subtree_of self.old)) (node (subtree_of self.old)) (open_of self.old) y) }
        ensures open { OnOk result (open_of self.new
            ≡ opened (job (subtree_of self.old)) (nodes (subtree_of self.old)) (node (subtree_of self.old)) (open_of self.old).cells) }
        ensures same { subtree_of self.new ≡ subtree_of self.old }
    {
        let kept = take_kept(self.alloc, &self.subtree, &mut self.cells)?;
        let cells = mem::replace(&mut self.cells, kept);
        let outputs = mem::replace(&mut self.outputs, Outs::of(Vec::new(self.alloc)));
        let count = self.count;
        self.count = 0;
        Ok(Handed {
            cells,
            outputs,
            count,
            before: Some(y),
        })
    }

    /// Hands over the last contribution, with what the node keeps. It takes no memory.
    pub fn end(self) -> Handed
        ensures { contribution_of result ≡ open_of self.entry }
    {
        Handed {
            cells: self.cells,
            outputs: self.outputs,
            count: self.count,
            before: None,
        }
    }
}
