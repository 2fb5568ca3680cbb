//! The places of the events of an itag among its items.

ghost use Rattle.std.specs.Prelude.{◌≡◌, ◌≤◌, ◌+◌, length, drop, slice_get};
ghost use Rattle.flu_model.specs.Merging.{events_of};
ghost use Rattle.flu_mail.specs.Places.{place_of, is_event, event_in, time_in};

use crate::passing::event_at;
use flu_model::Item;

/// The place of the event with index n, all items if there is none, from that of an earlier one.
///
/// It looks at the items between the two places, each once.
pub fn place_after(items: &[Item], place: u64, count: u64, n: u64) -> u64
    requires place { place ≡ place_of items.now count }
    requires forward { count ≤ n }
    requires there { n ≤ length (events_of items.now) }
    ensures { result ≡ place_of items.now n }
{
    let mut place = place;
    for _counted in count..n {
        place = first_event(items, place + 1);
    }
    place
}

/// The place of the first event from a place on; all items if there is none.
pub fn first_event(items: &[Item], from: u64) -> u64
    requires { from ≤ length items.now }
    ensures { result ≡ from + place_of (drop from items.now) 0 }
{
    for place in from as usize..items.len() {
        if is_event(&items[place]) {
            return place as u64;
        }
    }
    items.len() as u64
}

fn is_event(item: &Item) -> bool
    ensures { result ≡ is_event item.now }
{
    match item {
        Item::Event(_) => true,
        Item::Beat(_) | Item::End => false,
    }
}

/// The time of the event at a place; 0 if there is none.
pub fn time_at(items: &[Item], place: u64) -> u64
    ensures { result ≡ time_in (event_in (slice_get items.now place)) }
{
    match event_at(items, place) {
        Some(x) => x.time,
        None => 0,
    }
}
