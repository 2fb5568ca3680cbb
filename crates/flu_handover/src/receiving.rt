//! What a line says was handed over.

ghost use Rattle.std.specs.Prelude.{◌≡◌, ℕ, Option, IfOk, IfSome};
ghost use Rattle.flu_contribution.specs.Contributions.{Contribution};
ghost use Rattle.flu_contribution.specs.Parts.{contribution_of};
ghost use Rattle.flu_handover.specs.Handing.{line_of, place_of, IsAlikeTo, IsLineOf, IsSendable};

use crate::outputs::outputs_of;
use crate::states::state_with;
use flu_contribution::Handed;
use flu_model::{Event, Program};
use flu_partial::{Contribution as LineContribution, Place};
use std::alloc::{AllocError, Global};

// An event at a place, with item and value 0; none at the end.
fn event_at(place: Place) -> Option<Event>
    ensures { (last : Option ℕ) × (place ≡ place_of result last) }
{
    match place {
        Place::Before { time, itag } => Some(Event {
            time,
            itag,
            item: 0,
            value: 0,
        }),
        Place::End { .. } => None,
    }
}

/// What a line's contribution says was handed over: cells, outputs, how many events it is of, and before which event it is to be joined,
/// of which only time and itag count; item and value are 0. None if no node of the job hands that over: where an amount is of no cell of
/// the job, neutral, or not in the range of the cell's values; where the cells do not rise by family and key; or where no itag of the job
/// has a tag of an output's name.
///
/// # Errors
///
/// Only if memory runs out.
pub fn handed_of(
    alloc: Global,
    p: &Program,
    line: &LineContribution,
) -> Result<Option<Handed>, AllocError>
    ensures alike { (k : Contribution) (last : Option ℕ) → IsSendable p.now k → line.now ≡ line_of p.now last k
        → IfOk result (IsAlikeTo p.now k) }
    ensures sendable { IfOk result (λ o. IfSome o (λ h. IsLineOf p.now line.now (contribution_of h))) }
{
    let Some(cells) = state_with(alloc, p, line.cells.items())? else {
        return Ok(None);
    };
    let Some(outputs) = outputs_of(alloc, p, line.outs.items())? else {
        return Ok(None);
    };
    Ok(Some(Handed {
        cells,
        outputs,
        count: line.events,
        before: event_at(line.place),
    }))
}
