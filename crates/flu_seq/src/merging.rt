//! The merged list: all events of all itags in order (`docs/MODEL.md`).

ghost use Rattle.std.specs.Prelude.{◌≡◌, List, length, IfOk};
ghost use Rattle.flu_model.specs.Itags.{count_of_itags};
ghost use Rattle.flu_model.specs.Listed.{listed};
ghost use Rattle.flu_model.specs.Merging.{IsMerged, merged};

use crate::coming::Coming;
use flu_model::{Event, Program, Streams};
use std::alloc::{AllocError, Global};

/// The merged list of the streams, which have one list for each itag of the job: all their events, sorted by time and,
/// where times are equal, by the itag's number. No other list is sorted so and has these events.
///
/// The time is that of the number of events by the logarithm of the number of itags, or less where an itag has several events in a row.
pub fn merge(alloc: Global, p: &Program, s: &Streams) -> Result<Vec<Event>, AllocError>
    requires { length (listed s.now) ≡ count_of_itags p.now }
    ensures same { IfOk result (λ v. v.items ≡ merged (listed s.now)) }
    ensures sorted { IfOk result (λ v. IsMerged (listed s.now) v.items) }
    ensures only { IfOk result (λ v. (events : List Event) → IsMerged (listed s.now) events → events ≡ v.items) }
{
    let mut coming = Coming::of(alloc, p, s)?;
    let mut events = Vec::new(alloc);
    while let Some(event) = coming.next()? {
        events.push(event)?;
    }
    Ok(events)
}
