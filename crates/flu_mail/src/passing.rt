//! Which events the seen items of an itag let pass.

ghost use Rattle.std.specs.Prelude.{◌≡◌, ◌≤◌, length, slice_get, take};
ghost use Rattle.flu_mail.specs.Passing.{time_passes, last_passes};
ghost use Rattle.flu_mail.specs.Places.{event_in};

use flu_model::{Event, Item};

/// The first items, this many.
pub fn first_items(items: &[Item], count: u64) -> &[Item]
    requires { count ≤ length items.now }
    ensures { result.now ≡ take count items.now }
{
    &items[..count as usize]
}

/// The event at a place of the seen items; none if that place was not seen.
pub fn event_at(seen: &[Item], place: u64) -> Option<Event>
    ensures { result ≡ event_in (slice_get seen.now place) }
{
    match seen.get(place as usize) {
        Some(item) => event_in(item),
        None => None,
    }
}

fn event_in(item: &Item) -> Option<Event>
    ensures { result ≡ event_in (Some item.now) }
{
    match item {
        Item::Event(x) => Some(*x),
        Item::Beat(_) | Item::End => None,
    }
}

/// Whether the last seen item is the end, or its time is at least this one.
pub fn last_passes(t: u64, seen: &[Item]) -> bool
    ensures { result ≡ last_passes t seen.now }
{
    match seen.last() {
        Some(last) => time_passes(t, last),
        None => false,
    }
}

fn time_passes(t: u64, item: &Item) -> bool
    ensures { result ≡ time_passes t item.now }
{
    match item {
        Item::Event(x) => t <= x.time,
        Item::Beat(u) => t <= *u,
        Item::End => true,
    }
}
