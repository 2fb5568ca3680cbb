//! The part of a state that a node keeps.

ghost use Rattle.std.specs.Prelude.{◌≡◌, ◌⊎◌, ◌&&◌, ◌||◌, ◌+◌, ◌<◌, true, length, is_some, OnOk, IfOk};
ghost use Rattle.flu_model.specs.Contents.{is_same_cell};
ghost use Rattle.flu_model.specs.Sorts.{IsStateOf};
ghost use Rattle.flu_model.specs.declared.events.Cell.{Cell};
ghost use Rattle.flu_cells.specs.Holding.{held};
ghost use Rattle.flu_cells.specs.Sets.{is_in};
ghost use Rattle.flu_laws.specs.Consistency.{within, outside};
ghost use Rattle.flu_apart.specs.Subtrees.{job, nodes, node, IsSubtree};
ghost use Rattle.flu_contribution.specs.Parts.{keeps_of, HasKept};

use flu_apart::{Class, Subtree};
use flu_cells::{CellSet, State};
use flu_model::Cell;
use std::alloc::{AllocError, Global};

/// Takes out of a state what it holds in the cells that the node of a subtree keeps, into a state of its own; the other cells keep what
/// they hold. The cells that hold something are gone through, each in the time of `Subtree::class_of`.
///
/// Where memory is refused, the state is of no further use.
pub fn take_kept(alloc: Global, s: &Subtree, state: &mut State) -> Result<State, AllocError>
    requires subtree { IsSubtree s.now }
    requires sorts { IsStateOf (job s.now).families (held state.old) }
    ensures taken { IfOk result (λ t. held t ≡ within (keeps_of s.now) (held state.old)) }
    ensures left { OnOk result (held state.new ≡ outside (keeps_of s.now) (held state.old)) }
{
    let kept = kept_cells(alloc, s, state)?;
    let taken = state.take_out(&kept)?;
    Ok(taken)
}

// The cells that a state holds and the node keeps.
fn kept_cells(alloc: Global, s: &Subtree, state: &State) -> Result<CellSet, AllocError>
    requires subtree { IsSubtree s.now }
    ensures { IfOk result (λ set. HasKept s.now (held state.now) set (length (job s.now).families)) }
{
    let mut kept = CellSet::new(alloc);
    let count = s.program().families.items().len() as u32;
    for family in 0..count {
        add_family(s, state, &mut kept, family)?;
    }
    Ok(kept)
}

// Puts in those of a family.
fn add_family(s: &Subtree, state: &State, kept: &mut CellSet, family: u32) -> Result<(), AllocError>
    requires subtree { IsSubtree s.now }
    requires before { HasKept s.now (held state.now) kept.old family }
    ensures { OnOk result (HasKept s.now (held state.now) kept.new (family + 1)) }
{
    let keys = state.keys(family)?;
    for key in keys.as_slice() {
        add_cell(s, kept, Cell { family, key: *key })?;
    }
    Ok(())
}

// Puts a cell in, if the node keeps it.
fn add_cell(s: &Subtree, kept: &mut CellSet, c: Cell) -> Result<(), AllocError>
    requires subtree { IsSubtree s.now }
    ensures { OnOk result ((d : Cell) → is_in kept.new d ≡ (is_in kept.old d || (is_same_cell c d && keeps_of s.now c))) }
{
    match s.class_of(c) {
        Class::Kept => kept.add(c),
        Class::Unused | Class::Contributed | Class::Shared => Ok(()),
    }
}
