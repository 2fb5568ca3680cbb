//! Which cells and actions are meant, for a tag.

ghost use Rattle.std.specs.Prelude.{◌≡◌, slice_get};
ghost use Rattle.flu_model.specs.Expressions.{cell_of, item_of};
ghost use Rattle.flu_model.specs.Updates.{actions_of};

use crate::events::{Cell, Event, Tag};
use crate::jobs::{Action, At, CellRef, Program};

/// The item of an event, as the definitions of what a job means take it.
pub fn item_of(x: &Event) -> u16
    ensures { result ≡ item_of x.now }
{
    x.item
}

/// The cell that a reference means, for an event with this item whose tag has this key.
pub fn cell_of(r: CellRef, key: u32, item: u16) -> Cell
    ensures { result ≡ cell_of r key item }
{
    let key = match r.at {
        At::Alone => 0,
        At::OwnKey => key,
        At::OwnItem => u32::from(item),
        At::Fixed(fixed) => fixed,
    };
    Cell {
        family: r.family,
        key,
    }
}

/// The actions of a tag's kind; none where the kind is not declared.
pub fn actions_of(p: &Program, t: Tag) -> &[Action]
    ensures { result.now ≡ actions_of (slice_get p.now.kinds t.kind) }
{
    match p.kinds.items().get(t.kind as usize) {
        Some(kind) => kind.actions.items(),
        None => &[],
    }
}
