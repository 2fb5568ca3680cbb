//! The most steps that a run may have.

ghost use Rattle.std.specs.Prelude.{◌≡◌, ◌≤◌, ◌<◌, ◌^◌, ◌*◌, [], ◌∷◌, length};
ghost use Rattle.flu_lemmas.specs.Totals.{total};
ghost use Rattle.flu_model.specs.Merging.{events_of as events_among};
ghost use Rattle.flu_net.specs.Measure.{events_of, items_of, itags, most_steps};

use flu_fork::Case;
use flu_model::{Itag, Item, itag_count};

/// The most steps that a list of steps from the start of the net may have: its items, its events, and for each node eight times one
/// more than its events (`docs/TREE.md`). It takes no memory.
pub fn bound(case: &Case) -> u128
    ensures { result ≡ most_steps case.now }
{
    let nodes = u128::from(case.valid().count());
    let (items, events) = totals(case);
    items + events + 8 * nodes * (events + 1)
}

// How many items and how many events there are.
fn totals(case: &Case) -> (u128, u128)
    ensures items { result.0 ≡ total (items_of case.now) (itags case.now) }
    ensures events { result.1 ≡ total (events_of case.now) (itags case.now) }
    ensures few { (result.0 ≤ 256 * 2 ^ 64) × (result.1 ≤ 256 * 2 ^ 64) }
{
    let mut items = 0;
    let mut events = 0;
    for i in 0..itag_count(case.checked().program()) {
        let stream = case.streams().items(Itag(i));
        items += stream.len() as u128;
        events += count_events(stream) as u128;
    }
    (items, events)
}

// How many of these are events.
fn count_events(items: &[Item]) -> usize
    ensures { result ≡ length (events_among items.now) }
{
    let mut events = 0;
    for item in items {
        events += one_event(*item);
    }
    events
}

// 1 for an event, and 0 for another item.
fn one_event(item: Item) -> usize
    ensures count { result ≡ length (events_among (item ∷ [])) }
    ensures small { result ≤ 1 }
{
    match item {
        Item::Event(_) => 1,
        Item::Beat(_) | Item::End => 0,
    }
}
