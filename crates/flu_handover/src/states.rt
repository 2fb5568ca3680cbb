//! The state that a line's amounts are of.

ghost use Rattle.std.specs.Prelude.{◌≡◌, ◌<◌, Some, IfOk, IfSome, OnOk, FitsSigned};
ghost use Rattle.std.specs.Int.{w64};
ghost use Rattle.flu_cells.specs.Holding.{held};
ghost use Rattle.flu_model.specs.Contents.{Contents, with_worth, key_count};
ghost use Rattle.flu_model.specs.Sorts.{IsWorthOf, MayHold, key_is_in};
ghost use Rattle.flu_model.specs.declared.events.Worth.{Worth};
ghost use Rattle.flu_save.specs.Checkpoint.{number_held, HasWordWidth, IsSavable};
ghost use Rattle.flu_handover.specs.Handing.{amounts_of};
ghost use Rattle.flu_handover.specs.Parts.{IsProper, IsStateWith};

use crate::amounts::{amounts_of, are_same};
use flu_cells::State;
use flu_model::{Cell, Family, KEY_COUNT, Program, Sort, Worth};
use flu_partial::Amount;
use std::alloc::{AllocError, Global};

// Whether a family has a cell with this key.
fn has_key(family: &Family, key: u32) -> bool
    ensures { result ≡ key_is_in (Some family.now) key }
{
    if family.keyed {
        key < KEY_COUNT
    } else {
        key == 0
    }
}

// A number of 64 bits.
fn word_of(value: i128) -> Option<i64>
    ensures fits { IfSome result (λ v. FitsSigned w64 v) }
    ensures found { FitsSigned w64 value → result ≡ Some value }
{
    i64::try_from(value).ok()
}

// What a cell of a sort holds if its number is this, unless it is neutral then or cannot hold it.
fn worth_in(sort: Sort, value: i128) -> Option<Worth>
    ensures sort { IfSome result (λ w. IsWorthOf sort w × HasWordWidth (Some w)) }
    ensures found { (w : Worth) → IsWorthOf sort w → HasWordWidth (Some w) → value ≡ number_held (Some w) → result ≡ Some w }
{
    match sort {
        Sort::Sum if value == 0 => None,
        Sort::Sum => Some(Worth::Sum(value)),
        Sort::Max => Some(Worth::Max(word_of(value)?)),
        Sort::Last => Some(Worth::Last(word_of(value)?)),
    }
}

// What the cell of an amount holds, if it is one of the job's that can hold such an amount and is not neutral then.
fn worth_of(p: &Program, amount: Amount) -> Option<Worth>
    ensures fits { IfSome result (λ w. MayHold p.now.families amount.cell (Some w) × HasWordWidth (Some w)) }
    ensures found { (w : Worth) → MayHold p.now.families amount.cell (Some w) → HasWordWidth (Some w)
        → amount.value ≡ number_held (Some w) → result ≡ Some w }
{
    let family = p.families.items().get(amount.cell.family as usize)?;
    if has_key(family, amount.cell.key) {
        worth_in(family.sort, amount.value)
    } else {
        None
    }
}

// Makes a cell hold a value that is not neutral.
fn put(state: &mut State, cell: Cell, worth: Worth) -> Result<(), AllocError>
    requires key { cell.key < key_count }
    requires proper { IsProper worth }
    ensures { OnOk result (held state.new ≡ with_worth (held state.old) cell (Some worth)) }
{
    state.clear(cell);
    match worth {
        Worth::Sum(n) => state.add(cell, n),
        Worth::Max(v) => state.raise(cell, v),
        Worth::Last(v) => state.put(cell, v),
    }
}

// The state of a list of amounts. Of two amounts of one cell the last one counts.
fn state_of(alloc: Global, p: &Program, amounts: &[Amount]) -> Result<Option<State>, AllocError>
    ensures savable { IfOk result (λ o. IfSome o (λ t. IsSavable p.now.families (held t))) }
    ensures found { (s : Contents) → IsSavable p.now.families s → amounts.now ≡ amounts_of p.now.families s
        → IfOk result (IsStateWith s) }
{
    let mut state = State::new(alloc);
    for amount in amounts {
        let Some(worth) = worth_of(p, *amount) else {
            return Ok(None);
        };
        put(&mut state, amount.cell, worth)?;
    }
    Ok(Some(state))
}

// The state whose amounts these are; none where they are not those of any state that can be saved.
pub(crate) fn state_with(
    alloc: Global,
    p: &Program,
    amounts: &[Amount],
) -> Result<Option<State>, AllocError>
    ensures savable { IfOk result (λ o. IfSome o (λ t. IsSavable p.now.families (held t))) }
    ensures same { IfOk result (λ o. IfSome o (λ t. amounts.now ≡ amounts_of p.now.families (held t))) }
    ensures found { (s : Contents) → IsSavable p.now.families s → amounts.now ≡ amounts_of p.now.families s
        → IfOk result (IsStateWith s) }
{
    let Some(state) = state_of(alloc, p, amounts)? else {
        return Ok(None);
    };
    // cells that do not rise, and cells that stand there twice, are found so
    let own = amounts_of(alloc, p, &state)?;
    if are_same(amounts, own.as_slice()) {
        Ok(Some(state))
    } else {
        Ok(None)
    }
}
