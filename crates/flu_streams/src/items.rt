//! Items in order of time, and lists of items that grow.

ghost use Rattle.std.specs.Prelude.{◌≡◌, ◌≢◌, ℕ, ◌+◌, ◌<◌, ◌≤◌, ◌++◌, [], ◌∷◌, None, Some, length, slice_index_or, vec_len, IsTrue, IfOk, IfErr, OnOk};
ghost use Rattle.std.specs.List.{filter_map, list_all};
ghost use Rattle.flu_lemmas.specs.Late.{rises_from};
ghost use Rattle.flu_streams.specs.Lists.{items_of_list, item_time, item_for, is_own};

use flu_model::Item;
use std::alloc::{AllocError, Global};

/// The time of an event or a heartbeat; the end has none, and gets 0.
pub(crate) fn time_of(item: &Item) -> u64
    ensures { result ≡ item_time item.now }
{
    match item {
        Item::Event(event) => event.time,
        Item::Beat(time) => *time,
        Item::End => 0,
    }
}

/// How many of some items in order of time come no later than a time.
pub(crate) fn count_until(items: &[Item], time: u64) -> usize
    requires { IsTrue (rises_from item_time 0 items.now) }
    ensures within { result ≤ length items.now }
    ensures earlier { (i : ℕ) → i < result → item_time (slice_index_or items.now i Item.End) ≤ time }
    ensures later { (i : ℕ) → result ≤ i → i < length items.now → time < item_time (slice_index_or items.now i Item.End) }
{
    let mut count = items.len();
    while count > 0 && time_of(&items[count - 1]) > time {
        count -= 1;
    }
    count
}

/// Whether each of some items is an event of the itag with this number, or a heartbeat.
pub(crate) fn are_own(items: &[Item], itag: u32) -> bool
    ensures { result ≡ list_all (is_own itag) items.now }
{
    items.iter().all(|item| is_own(item, itag))
}

// Whether an item is an event of the itag with this number, or a heartbeat.
fn is_own(item: &Item, itag: u32) -> bool
    ensures { result ≡ is_own itag item.now }
{
    match item {
        Item::Event(event) => event.itag.0 == itag,
        Item::Beat(_) => true,
        Item::End => false,
    }
}

/// This many empty lists.
pub(crate) fn empty_lists(alloc: Global, count: u32) -> Result<Vec<Vec<Item>>, AllocError>
    ensures len { IfOk result (λ lists. vec_len lists ≡ count) }
    ensures empty { IfOk result (λ lists. (i : ℕ) → items_of_list lists i ≡ []) }
{
    let mut lists = Vec::new(alloc);
    for _ in 0..count {
        lists.push(Vec::new(alloc))?;
    }
    Ok(lists)
}

/// Gives each itag, the first of which has the number `first`, those of some items that are its own.
pub(crate) fn push_items(
    lists: &mut Vec<Vec<Item>>,
    first: u32,
    items: &[Item],
) -> Result<(), AllocError>
    requires { first + vec_len lists.old ≤ 256 }
    ensures len { vec_len lists.new ≡ vec_len lists.old }
    ensures each { OnOk result ((i : ℕ) → i < vec_len lists.old
        → items_of_list lists.new i ≡ items_of_list lists.old i ++ filter_map (item_for (first + i)) items.now) }
{
    for item in items {
        push_item(lists, first, *item)?;
    }
    Ok(())
}

/// Appends an item to each list that it belongs to.
pub(crate) fn push_item(
    lists: &mut Vec<Vec<Item>>,
    first: u32,
    item: Item,
) -> Result<(), AllocError>
    requires { first + vec_len lists.old ≤ 256 }
    ensures len { vec_len lists.new ≡ vec_len lists.old }
    ensures each { OnOk result ((i : ℕ) → i < vec_len lists.old
        → items_of_list lists.new i ≡ items_of_list lists.old i ++ filter_map (item_for (first + i)) (item ∷ [])) }
{
    match item {
        Item::Event(event) => {
            let itag = event.itag.0;
            if itag < first || (itag - first) as usize >= lists.len() {
                return Ok(());
            }
            push_at(lists, (itag - first) as usize, item)
        }
        Item::Beat(_) => push_each(lists, item),
        Item::End => Ok(()),
    }
}

// Appends an item to one list.
fn push_at(lists: &mut Vec<Vec<Item>>, place: usize, item: Item) -> Result<(), AllocError>
    requires { place < vec_len lists.old }
    ensures len { vec_len lists.new ≡ vec_len lists.old }
    ensures here { OnOk result (items_of_list lists.new place ≡ items_of_list lists.old place ++ item ∷ []) }
    ensures others { (i : ℕ) → i ≢ place → items_of_list lists.new i ≡ items_of_list lists.old i }
{
    lists[place].push(item)?;
    Ok(())
}

/// Appends an item to each list.
pub(crate) fn push_each(lists: &mut Vec<Vec<Item>>, item: Item) -> Result<(), AllocError>
    ensures len { vec_len lists.new ≡ vec_len lists.old }
    ensures each { OnOk result ((i : ℕ) → i < vec_len lists.old → items_of_list lists.new i ≡ items_of_list lists.old i ++ item ∷ []) }
{
    for place in 0..lists.len() {
        push_at(lists, place, item)?;
    }
    Ok(())
}
