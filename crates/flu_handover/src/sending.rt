//! The line of what was handed over.

ghost use Rattle.std.specs.Prelude.{◌≡◌, IfOk, OnOk};
ghost use Rattle.std.specs.List.{AllByRecursion};
ghost use Rattle.flu_cells.specs.Holding.{held};
ghost use Rattle.flu_model.specs.Sorts.{IsStateOf};
ghost use Rattle.flu_model.specs.declared.events.Out.{Out};
ghost use Rattle.flu_contribution.specs.Parts.{contribution_of};
ghost use Rattle.flu_handover.specs.Handing.{line_of, place_of, IsListed, IsSendable};

use crate::amounts::amounts_of;
use crate::outputs::all_emitted;
use flu_contribution::Handed;
use flu_model::{Event, List, Program};
use flu_partial::{Contribution, Place};
use std::alloc::{AllocError, Global};

// Where a contribution is to be joined.
fn place_of(before: Option<Event>, last: Option<u64>) -> Place
    ensures { result ≡ place_of before last }
{
    match before {
        Some(y) => Place::Before {
            time: y.time,
            itag: y.itag,
        },
        None => Place::End { last },
    }
}

/// The contribution of a line that says what a node apart handed over: the amounts of its cells that are not neutral, by rising family and
/// key, how many events it is of, its outputs with their tags as the report names them, and the event before which it is to be joined, by
/// time and itag. At the end `last` stands in place of the event.
///
/// The cells are those of the job's families. If the state has values of the job's sorts, and the outputs have tags that its sources list, it can
/// be sent: `handed_of` of the line gives something alike.
///
/// # Errors
///
/// Only if memory runs out.
pub fn line_of(
    alloc: Global,
    p: &Program,
    k: &Handed,
    last: Option<u64>,
) -> Result<Contribution, AllocError>
    ensures line { IfOk result (λ c. c ≡ line_of p.now last (contribution_of k.now)) }
    ensures sendable { IsStateOf p.now.families (held k.now.cells) → AllByRecursion (λ (o : Out). IsListed p.now o.tag) k.now.outputs
        → OnOk result (IsSendable p.now (contribution_of k.now)) }
{
    let cells = amounts_of(alloc, p, &k.cells)?;
    let outs = all_emitted(alloc, p, k.outputs.items())?;
    Ok(Contribution {
        place: place_of(k.before, last),
        cells: List::of(cells),
        events: k.count,
        outs: List::of(outs),
    })
}
