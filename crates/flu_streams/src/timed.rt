//! Items in order of time, into which late ones are inserted.

ghost use Rattle.std.specs.Prelude.{◌≡◌, ◌++◌, ◌+◌, ◌^◌, ◌<◌, ◌≤◌, ◌==◌, ℕ, [], ◌∷◌, false, length, nat_le, nat_lt};
ghost use Rattle.std.specs.Prelude.{slice_index_or, vec_len, IsTrue, OnOk, OnErr, IfOk, IfSome, IfNone, ◌⊎◌};
ghost use Rattle.std.specs.List.{filter, filter_map, list_any};
ghost use Rattle.std.specs.BTreeMap.{keys, values};
ghost use Rattle.flu_lemmas.specs.Late.{put_late, rises_from};
ghost use Rattle.flu_streams.specs.Lists.{items_of_list, item_time, item_for, times_in};
ghost use Rattle.flu_streams.specs.LoopHeld.{count_to, taken_by};
ghost use Rattle.flu_streams.specs.LoopMoments.{Follow, between};
ghost use Rattle.flu_streams.specs.Rounds.{is_up_to};

use crate::border::Border;
use crate::items::{are_own, count_until, push_each, push_item, push_items, time_of};
use flu_model::Item;
use std::alloc::{AllocError, Global};
use std::collections::BTreeMap;
use std::marker::Model;
use std::mem;

/// Some items in order of time: those in a vector, and then those in a map under their times. An item that is in order is appended
/// to the vector. Those after an item that is inserted late are moved to the map, and back once no item can come before them any
/// more, so no item is moved for each one that is inserted before it.
#[derive(Drop)]
pub(crate) struct TimedItems {
    early: Vec<Item>,
    late: BTreeMap<u64, Item>,
}

impl Model for TimedItems {
    ghost use Rattle.std.specs.Prelude.{◌≡◌, ◌++◌, List};
    ghost use Rattle.std.specs.BTreeMap.{keys, values};
    ghost use Rattle.flu_model.specs.declared.events.Item.{Item};
    ghost use Rattle.flu_streams.specs.Lists.{times_in};

    ghost Value = { List Item };

    ghost view = { λ t. t.early.items ++ values t.late };

    ghost invariant = { λ t. keys t.late ≡ times_in (values t.late) };
}

impl TimedItems {
    /// No items.
    pub(crate) fn new(alloc: Global) -> TimedItems
        ensures { result ≡ [] }
    {
        TimedItems {
            early: Vec::new(alloc),
            late: BTreeMap::new(alloc),
        }
    }

    /// How many there are.
    pub(crate) fn len(&self) -> usize
        requires { length self.now < 2 ^ 63 }
        ensures { result ≡ length self.now }
    {
        self.early.len() + self.late.len()
    }

    /// How many come from a moment on and before another. They are at consecutive moments from the first one on, so the last of them tells how many
    /// there are.
    pub(crate) fn count_between(&mut self, from: u64, end: u64) -> Result<u64, AllocError>
        requires rising { IsTrue (rises_from item_time 0 self.old) }
        requires order { from < end }
        requires in_a_row { Follow from (between from end (times_in self.old)) }
        ensures same { self.new ≡ self.old }
        ensures count { IfOk result (λ count. count ≡ length (between from end (times_in self.old))) }
    {
        part(&mut self.early, &mut self.late, end - 1)?;
        if let Some((time, _)) = self.late.range(from..end).next_back() {
            return Ok(*time - from + 1);
        }
        let count = self.early.len();
        if count > 0 {
            let last = time_of(&self.early[count - 1]);
            if last >= from {
                return Ok(last - from + 1);
            }
        }
        Ok(0)
    }

    /// Inserts an item where its time belongs.
    pub(crate) fn put(&mut self, item: Item) -> Result<(), AllocError>
        requires rising { IsTrue (rises_from item_time 0 self.old) }
        requires apart { list_any (λ t. t == item_time item) (times_in self.old) ≡ false }
        ensures put { OnOk result (self.new ≡ put_late item_time item self.old) }
        ensures same { OnErr result (self.new ≡ self.old) }
    {
        let time = time_of(&item);
        part(&mut self.early, &mut self.late, time)?;
        if self.late.is_empty() {
            self.early.push(item)?;
        } else {
            self.late.insert(time, item)?;
        }
        Ok(())
    }

    /// Notes that no item comes at a time or before it any more.
    pub(crate) fn settle(&mut self, time: u64) -> Result<(), AllocError>
        ensures { self.new ≡ self.old }
    {
        move_back(&mut self.early, &mut self.late, time)
    }

    /// Whether this many of them come no later than a time.
    pub(crate) fn has_until(&self, count: usize, time: u64) -> bool
        requires rising { IsTrue (rises_from item_time 0 self.now) }
        requires some { 1 ≤ count }
        ensures { result ≡ nat_le count (count_to time self.now) }
    {
        if count <= self.early.len() {
            return time_of(&self.early[count - 1]) <= time;
        }
        count - self.early.len() <= count_late(&self.late, time)
    }

    /// Drops those up to a time.
    pub(crate) fn drop_until(&mut self, time: u64)
        requires rising { IsTrue (rises_from item_time 0 self.old) }
        ensures { self.new ≡ filter (λ item. nat_lt time (item_time item)) self.old }
    {
        let count = count_until(self.early.as_slice(), time);
        self.early.drain(..count);
        drop_late(&mut self.late, time);
    }

    /// Moves all of them out as the list of an itag, and the end behind them, if each is the itag's own or a heartbeat. Else they stay, and none
    /// is answered.
    pub(crate) fn take_list(
        &mut self,
        alloc: Global,
        itag: u32,
    ) -> Result<Option<Vec<Item>>, AllocError>
        ensures list { IfOk result (λ list. IfSome list (λ own. own.items ≡ filter_map (item_for itag) self.old ++ Item.End ∷ [])) }
        ensures moved { IfOk result (λ list. IfSome list (λ own. self.new ≡ [])) }
        ensures kept { IfOk result (λ list. IfNone list (self.new ≡ self.old)) }
        ensures failed { OnErr result ((self.new ≡ self.old) ⊎ (self.new ≡ [])) }
    {
        move_back(&mut self.early, &mut self.late, u64::MAX)?;
        if !self.late.is_empty() || !are_own(self.early.as_slice(), itag) {
            return Ok(None);
        }
        let mut list = mem::replace(&mut self.early, Vec::new(alloc));
        list.push(Item::End)?;
        Ok(Some(list))
    }

    /// Gives each itag, the first of which has the number `first`, those up to a border that are its own, and the end.
    pub(crate) fn push_to(
        &self,
        lists: &mut Vec<Vec<Item>>,
        first: u32,
        end: Border,
    ) -> Result<(), AllocError>
        requires rising { IsTrue (rises_from item_time 0 self.now) }
        requires numbered { first + vec_len lists.old ≤ 256 }
        ensures len { vec_len lists.new ≡ vec_len lists.old }
        ensures each { OnOk result ((i : ℕ) → i < vec_len lists.old
            → items_of_list lists.new i ≡ (items_of_list lists.old i ++ filter_map (item_for (first + i)) (taken_by end self.now)) ++ Item.End ∷ []) }
    {
        let count = match end {
            Border::At(time) => count_until(self.early.as_slice(), time),
            Border::Closed => self.early.len(),
        };
        push_items(lists, first, &self.early[..count])?;
        push_late(lists, first, &self.late, end)?;
        push_each(lists, Item::End)?;
        Ok(())
    }
}

// Moves the items after a time from the vector to the map.
fn part(early: &mut Vec<Item>, late: &mut BTreeMap<u64, Item>, time: u64) -> Result<(), AllocError>
    requires rising { IsTrue (rises_from item_time 0 (early.old.items ++ values late.old)) }
    requires keyed { keys late.old ≡ times_in (values late.old) }
    ensures same { early.new.items ++ values late.new ≡ early.old.items ++ values late.old }
    ensures keyed { keys late.new ≡ times_in (values late.new) }
    ensures parted { OnOk result ((i : ℕ) → i < length early.new.items → item_time (slice_index_or early.new.items i Item.End) ≤ time) }
{
    while early.len() > 0 {
        let item = early[early.len() - 1];
        let own = time_of(&item);
        if own <= time {
            return Ok(());
        }
        late.insert(own, item)?;
        early.pop();
    }
    Ok(())
}

// Moves the items up to a time from the map to the vector.
fn move_back(
    early: &mut Vec<Item>,
    late: &mut BTreeMap<u64, Item>,
    time: u64,
) -> Result<(), AllocError>
    requires keyed { keys late.old ≡ times_in (values late.old) }
    ensures same { early.new.items ++ values late.new ≡ early.old.items ++ values late.old }
    ensures keyed { keys late.new ≡ times_in (values late.new) }
{
    while let Some((own, item)) = late.first_key_value() {
        if *own > time {
            return Ok(());
        }
        early.push(*item)?;
        late.pop_first();
    }
    Ok(())
}

// Drops the items up to a time.
fn drop_late(late: &mut BTreeMap<u64, Item>, time: u64)
    requires keyed { keys late.old ≡ times_in (values late.old) }
    ensures left { values late.new ≡ filter (λ item. nat_lt time (item_time item)) (values late.old) }
    ensures keyed { keys late.new ≡ times_in (values late.new) }
{
    while let Some((own, _)) = late.first_key_value() {
        if *own > time {
            return;
        }
        late.pop_first();
    }
}

// How many of the items come no later than a time.
fn count_late(late: &BTreeMap<u64, Item>, time: u64) -> usize
    requires keyed { keys late.now ≡ times_in (values late.now) }
    ensures { result ≡ count_to time (values late.now) }
{
    late.range(..=time).count()
}

// Gives each itag those of the items up to a border that are its own.
fn push_late(
    lists: &mut Vec<Vec<Item>>,
    first: u32,
    late: &BTreeMap<u64, Item>,
    end: Border,
) -> Result<(), AllocError>
    requires numbered { first + vec_len lists.old ≤ 256 }
    ensures len { vec_len lists.new ≡ vec_len lists.old }
    ensures each { OnOk result ((i : ℕ) → i < vec_len lists.old
        → items_of_list lists.new i ≡ items_of_list lists.old i ++ filter_map (item_for (first + i)) (taken_by end (values late.now))) }
{
    for item in late.values() {
        if is_up_to(end, time_of(item)) {
            push_item(lists, first, *item)?;
        }
    }
    Ok(())
}

// Whether a round takes a time.
fn is_up_to(end: Border, time: u64) -> bool
    ensures { result ≡ is_up_to end time }
{
    match end {
        Border::At(border) => time <= border,
        Border::Closed => true,
    }
}
