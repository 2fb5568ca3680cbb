//! The amounts of a state.

ghost use Rattle.std.specs.Prelude.{◌≡◌, ◌++◌, ◌↔◌, map, IfOk, OnOk, IsTrue};
ghost use Rattle.flu_cells.specs.Holding.{held};
ghost use Rattle.flu_model.specs.Contents.{held_keys};
ghost use Rattle.flu_save.specs.Checkpoint.{number_held, cells_of_family, cells_held, HasWordWidth};
ghost use Rattle.flu_save.specs.Widths.{HaveWordWidth, AllHaveWordWidth};
ghost use Rattle.flu_handover.specs.Handing.{amounts_of};
ghost use Rattle.flu_handover.specs.Parts.{amount_of};

use flu_cells::State;
use flu_model::{Cell, Program, Worth};
use flu_partial::Amount;
use std::alloc::{AllocError, Global};

// The number that a cell holds; 0 if it is neutral.
fn number_held(worth: Option<Worth>) -> i128
    ensures value { result ≡ number_held worth }
    ensures width { HasWordWidth worth }
{
    match worth {
        None => 0,
        Some(Worth::Sum(n)) => n,
        Some(Worth::Max(v)) => i128::from(v),
        Some(Worth::Last(v)) => i128::from(v),
    }
}

// Appends the amounts of a family's cells, by rising key.
fn add_family(amounts: &mut Vec<Amount>, s: &State, family: u32) -> Result<(), AllocError>
    ensures amounts { OnOk result (amounts.new.items ≡ amounts.old.items
        ++ map (amount_of (held s.now)) (cells_of_family (held s.now) family)) }
    ensures width { OnOk result (HaveWordWidth (held s.now) family (held_keys (held s.now) family)) }
{
    let keys = s.keys(family)?;
    for key in keys.as_slice() {
        let cell = Cell { family, key: *key };
        let value = number_held(s.get(cell));
        amounts.push(Amount { cell, value })?;
    }
    Ok(())
}

// The amounts of a state.
pub(crate) fn amounts_of(alloc: Global, p: &Program, s: &State) -> Result<Vec<Amount>, AllocError>
    ensures amounts { IfOk result (λ v. v.items ≡ amounts_of p.now.families (held s.now)) }
    ensures width { OnOk result (AllHaveWordWidth (held s.now) (cells_held p.now.families (held s.now))) }
{
    let mut amounts = Vec::new(alloc);
    let count = p.families.items().len() as u32;
    for family in 0..count {
        add_family(&mut amounts, s, family)?;
    }
    Ok(amounts)
}

// Whether two lists of amounts are the same.
pub(crate) fn are_same(a: &[Amount], b: &[Amount]) -> bool
    ensures { IsTrue result ↔ (a.now ≡ b.now) }
{
    a == b
}
