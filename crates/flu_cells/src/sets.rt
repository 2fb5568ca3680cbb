//! Sets of cells, by whole families and by single cells.

ghost use Rattle.std.specs.Prelude.{◌≡◌, ◌==◌, ◌&&◌, ◌||◌, not, false, OnOk, OnErr};
ghost use Rattle.flu_model.specs.Contents.{is_same_cell};
ghost use Rattle.flu_cells.specs.Sets.{is_in, is_in_but, has_family};

use flu_model::Cell;
use std::alloc::{AllocError, Global};
use std::collections::BTreeSet;

/// A set of cells that grows: all cells of some families, and some single cells.
#[derive(Drop)]
pub struct CellSet {
    // The families, by their numbers as declared, all of whose cells are in the set.
    pub(crate) whole: BTreeSet<u32>,
    // Further cells of the set.
    pub(crate) single: BTreeSet<Cell>,
}

impl CellSet {
    ghost use Rattle.flu_cells.specs.declared.sets.CellSet.{CellSet};

    /// The set without any cell. It takes no memory.
    pub fn new(alloc: Global) -> CellSet
        ensures { (c : Cell) → is_in result c ≡ false }
    {
        CellSet {
            whole: BTreeSet::new(alloc),
            single: BTreeSet::new(alloc),
        }
    }

    /// Puts a cell in. Where memory is refused, the set has the cells that it had.
    pub fn add(&mut self, c: Cell) -> Result<(), AllocError>
        ensures ok { OnOk result ((d : Cell) → is_in self.new d ≡ (is_in self.old d || is_same_cell c d)) }
        ensures single { OnOk result ((other : CellSet) (d : Cell) → is_in_but other self.new d ≡ (is_in_but other self.old d || is_same_cell c d)) }
        ensures err { OnErr result ((d : Cell) → is_in self.new d ≡ is_in self.old d) }
    {
        self.single.insert(c)?;
        Ok(())
    }

    /// Puts all cells of a family in. Where memory is refused, the set has the cells that it had.
    pub fn add_family(&mut self, family: u32) -> Result<(), AllocError>
        ensures ok { OnOk result ((d : Cell) → is_in self.new d ≡ (is_in self.old d || (d.family == family))) }
        ensures whole { OnOk result ((other : CellSet) (d : Cell)
            → is_in_but other self.new d ≡ (is_in_but other self.old d || (not (is_in other d) && (d.family == family)))) }
        ensures err { OnErr result ((d : Cell) → is_in self.new d ≡ is_in self.old d) }
    {
        self.whole.insert(family)?;
        Ok(())
    }

    /// Whether all cells of a family were put in at once.
    pub fn has_family(&self, family: u32) -> bool
        ensures { result ≡ has_family self.now family }
    {
        self.whole.contains(&family)
    }

    /// Whether a cell is in the set. Neither the families nor the cells are gone through.
    pub fn has(&self, c: Cell) -> bool
        ensures { result ≡ is_in self.now c }
    {
        self.whole.contains(&c.family) || self.single.contains(&c)
    }
}
