//! Streams that are made at run time.

ghost use Rattle.std.specs.Prelude.{◌≡◌, map, length, IfSome};
ghost use Rattle.flu_model.specs.Itags.{count_of_itags};
ghost use Rattle.flu_model.specs.Listed.{listed};
ghost use Rattle.flu_model.specs.Streaming as meaning;

use flu_model::{Event, Itag, Item, Program, Streams, itag_count};
use std::alloc::{AllocError, Global};

/// The items of each itag: its events of these, each an itag, a time and a value, and the end.
pub fn lists(
    alloc: Global,
    itags: u32,
    events: &[(u32, u64, i64)],
) -> Result<Vec<Vec<Item>>, AllocError> {
    let mut lists = Vec::new(alloc);
    for itag in 0..itags {
        lists.push(items(alloc, itag, events)?)?;
    }
    Ok(lists)
}

fn items(alloc: Global, itag: u32, events: &[(u32, u64, i64)]) -> Result<Vec<Item>, AllocError> {
    let mut items = Vec::new(alloc);
    for (of, time, value) in events {
        if *of == itag {
            items.push(event(itag, *time, *value))?;
        }
    }
    items.push(Item::End)?;
    Ok(items)
}

fn event(itag: u32, time: u64, value: i64) -> Item {
    Item::Event(Event {
        time,
        itag: Itag(itag),
        item: 0,
        value,
    })
}

/// The streams with these lists, if there is one for each itag of the job and each is a stream of its itag.
pub fn streams(p: &Program, lists: Vec<Vec<Item>>) -> Option<Streams>
    ensures { IfSome result (λ s. length (listed s) ≡ count_of_itags p.now) }
{
    if lists.len() == itag_count(p) as usize && are_streams(lists.as_slice()) {
        Some(Streams::new(lists))
    } else {
        None
    }
}

fn are_streams(lists: &[Vec<Item>]) -> bool
    ensures { result ≡ meaning.are_streams 0 (map (λ v. v.items) lists.now) }
{
    let mut itag = 0;
    for items in lists {
        if !is_stream(itag, items.as_slice()) {
            return false;
        }
        itag += 1;
    }
    true
}

// The items are those of an itag: times rise, and the end comes last.
fn is_stream(itag: u64, items: &[Item]) -> bool
    ensures { result ≡ meaning.is_stream_from itag 0 items.now }
{
    let mut low: u128 = 0;
    for at in 0..items.len() {
        match &items[at] {
            Item::Event(x) => {
                let time = u128::from(x.time);
                if u64::from(x.itag.0) != itag || time < low {
                    return false;
                }
                low = time + 1;
            }
            Item::Beat(beat) => {
                let time = u128::from(*beat);
                if time < low {
                    return false;
                }
                low = time + 1;
            }
            Item::End => return at + 1 == items.len(),
        }
    }
    false
}
