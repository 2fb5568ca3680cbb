//! What is held of one source from round to round, and the loop over its rows.

ghost use Rattle.std.specs.Prelude.{◌≡◌, ◌≢◌, ◌≤◌, ◌<◌, ◌+◌, ◌^◌, ◌/◌, ◌++◌, ◌∷◌, [], ℕ, None, Some, length, unwrap_or, vec_len, IsTrue, OnOk, IfOk, IfErr};
ghost use Rattle.std.specs.Prelude.{IsErrOf};
ghost use Rattle.std.specs.Prelude.{is_some, true, false, nat_le, Err};
ghost use Rattle.std.specs.List.{filter_map, list_all};
ghost use Rattle.flu_lemmas.specs.Late.{rises_from};
ghost use Rattle.flu_outside.specs.Outside.{WhereTold, Rose, SameCounts};
ghost use Rattle.flu_outside.specs.Taking.{TakesFrom, CountsOf};
ghost use Rattle.flu_rows.specs.Row.{IsInRange};
ghost use Rattle.flu_model.specs.Moments.{IsTiming, last_moment};
ghost use Rattle.flu_streams.specs.Holding.{HaveAtMost, most_of};
ghost use Rattle.flu_streams.specs.LoopMoments.{are_in_a_row, own_times, is_timed, item_at_time, end_moment};
ghost use Rattle.flu_streams.specs.Rounds.{is_up_to};
ghost use Rattle.flu_streams.specs.Tests.{has_moments, time_in};
ghost use Rattle.flu_streams.specs.Lists.{item_time, item_for, items_of_list, lists_in, times_in};
ghost use Rattle.flu_streams.specs.Tags.{width};

use crate::border::Border;
use crate::faults::Why;
use crate::items::{empty_lists, time_of};
use crate::late::{count_more, margin, moment_behind, put_item};
use crate::stop::{RowRefusal, Stop, defect_behind, stop_at, stop_of};
use crate::tags::{found_of, tag_count};
use crate::timed::TimedItems;
use flu_model::{Event, Itag, Item, Kind, Source, Timing};
use flu_outside::Files;
use flu_rows::{Next, Row, RowForm, Rows};
use std::alloc::{AllocError, Global};

/// How many rows a round needs of a source at most.
const MOST_ROWS: u64 = 4096;

/// What is held of a source: the items with a time above the last border at their moments, in order; how its rows are numbered; its reader; the
/// least and the greatest time that were read; and whether `end` was, and all of its file, as of a clock from the start. In a resumed run, `goal` is
/// its border until the reading has reached it.
///
/// `held` is how many items are held, those of earlier sources and one for each itag of a heartbeat included, where a source is
/// read whole: there it has a limit, and no other. A round needs few items, so for rounds they are not counted.
#[derive(Drop)]
pub(crate) struct Inlet {
    pub(crate) rows: Rows,
    pub(crate) items: TimedItems,
    pub(crate) timing: Timing,
    pub(crate) first: Option<u64>,
    pub(crate) last: Option<u64>,
    pub(crate) ended: bool,
    pub(crate) closed: bool,
    pub(crate) goal: Option<u64>,
    pub(crate) held: Option<u64>,
    pub(crate) ghost rising: { IsTrue (rises_from item_time 0 items) },
    pub(crate) ghost none: { last ≡ None → items ≡ [] },
    pub(crate) ghost fits: { IsTiming timing },
    pub(crate) ghost range: { unwrap_or last 0 < 2 ^ 63 / timing.scale },
    pub(crate) ghost early: { (t : ℕ) → last ≡ Some t → t < timing.end },
    pub(crate) ghost ordered: { (t : ℕ) → last ≡ Some t → (f : ℕ) → first ≡ Some f → f ≤ t },
    pub(crate) ghost within: { IsTrue (list_all (λ t. nat_le t (unwrap_or last 0)) (own_times timing items)) },
    pub(crate) ghost in_a_row: { IsTrue (are_in_a_row timing None (times_in items)) },
    pub(crate) ghost few: { is_some held ≡ false → length items ≤ most_of timing },
    pub(crate) ghost limit: { unwrap_or held 0 ≤ 16777216 },
    pub(crate) ghost alone: { (t : ℕ) → goal ≡ Some t → is_some held ≡ false },
}

impl Inlet {
    ghost use Rattle.flu_streams.specs.Holding.{unread_source};
    ghost use Rattle.flu_streams.specs.LoopHeld.{source_of, enough_for, CatchesUp, fault_behind, fault_at, taken_by, PutsIn, PutsItem, DropsTo, IsRefilled};
    ghost use Rattle.flu_streams.specs.LoopHeld.{IsStopOf};
    ghost use Rattle.flu_streams.specs.LoopStop.{IsRefusal};

    /// Nothing of a source, whose rows have this form, are numbered so and are run from a border on, if there is one; or are read whole, while this
    /// many items are held of other sources.
    pub(crate) fn new(
        alloc: Global,
        form: &RowForm,
        timing: Timing,
        source: &Source,
        border: Option<u64>,
        held: Option<u64>,
    ) -> Result<Inlet, AllocError>
        requires limit { unwrap_or held 0 ≤ 16777216 }
        requires alone { (t : ℕ) → border ≡ Some t → is_some held ≡ false }
        requires fits { IsTiming timing }
        ensures source { IfOk result (λ h. source_of h ≡ unread_source form.now border source.now) }
        ensures timing { IfOk result (λ h. h.timing ≡ timing) }
        ensures held { IfOk result (λ h. h.held ≡ held) }
    {
        Ok(Inlet {
            rows: Rows::new(alloc, form, &source.file)?,
            items: TimedItems::new(alloc),
            timing,
            first: None,
            last: None,
            ended: false,
            closed: source.every.is_some(),
            goal: border,
            held,
        })
    }

    /// Reads the source until this many of its items are settled, and answers the settled time; or to the end of its file. Where no
    /// number is given, nothing is enough, and the source is read whole: for that its items are counted.
    ///
    /// Whether the items are enough is tested before anything is read, so nothing is read of a source that needs nothing.
    pub(crate) fn refill<F: Files>(
        &mut self,
        kinds: &[Kind],
        source: &Source,
        first: u32,
        rows: Option<u32>,
        files: &mut F,
    ) -> Result<Border, Stop>
        requires kinds { length kinds.now ≤ 64 }
        requires numbered { first + width source.now ≤ 256 }
        requires some { 1 ≤ unwrap_or rows 1 }
        requires most { unwrap_or rows 0 ≤ 4096 }
        requires counted { rows ≡ None → is_some self.old.held ≡ true }
        requires slack { source.now.slack ≤ 60000 }
        requires file { self.old.rows.file ≡ source.now.file }
        ensures filled { IfOk result (λ end. IsRefilled kinds.now source.now first rows self.old self.new (F.left files.old) (F.left files.new) end) }
        ensures stop { IfErr result (IsStopOf kinds.now source.now first rows self.old (F.left files.old) (F.left files.new)) }
        ensures counted { is_some self.new.held ≡ is_some self.old.held }
        ensures timing { self.new.timing ≡ self.old.timing }
        ensures taken { WhereTold (F.left files.old) (F.left files.new) (TakesFrom source.now.file) }
        ensures counts { CountsOf (F.left files.old) source.now.file (F.faults files.old) (F.faults files.new) }
        ensures quiet { result ≢ Err Stop.ReadFault → SameCounts (F.faults files.old) (F.faults files.new) }
        ensures puts { SameCounts (F.put_faults files.old) (F.put_faults files.new) }
        ensures cause { IsErrOf result Stop.ReadFault → Rose (F.faults files.old source.now.file) (F.faults files.new source.now.file) }
        ensures shut { self.old.closed ≡ true → files.new ≡ files.old }
        ensures read { IfErr result (λ stop. self.old.closed ≡ false) }
    {
        self.catch_up(source.slack);
        loop {
            if let Some(time) = self.enough(rows, source.slack) {
                return Ok(Border::At(time));
            }
            if self.closed {
                return Ok(Border::Closed);
            }
            let next = match self.rows.next_row(files) {
                Ok(next) => next,
                Err(fault) => return Err(stop_of(fault)),
            };
            match next {
                Next::Row { line, row } => {
                    if let Err(refusal) = self.take(kinds, source, first, row) {
                        return Err(stop_at(line, refusal));
                    }
                    self.catch_up(source.slack);
                }
                last => {
                    if let Some((row, why)) = defect_behind(self.ended, &last) {
                        return Err(Stop::Defect { row, why });
                    }
                    self.closed = true;
                    self.catch_up(source.slack);
                    return Ok(Border::Closed);
                }
            }
        }
    }

    /// For each itag of the source, the first of which has the number `first`, its items up to a border, and the end.
    pub(crate) fn lists(
        &self,
        alloc: Global,
        first: u32,
        width: u32,
        end: Border,
    ) -> Result<Vec<Vec<Item>>, AllocError>
        requires { first + width ≤ 256 }
        ensures len { IfOk result (λ lists. vec_len lists ≡ width) }
        ensures each { IfOk result (λ lists. (i : ℕ) → i < width
            → items_of_list lists i ≡ filter_map (item_for (first + i)) (taken_by (end_moment self.now.timing end) self.now.items) ++ Item.End ∷ []) }
        ensures few { is_some self.now.held ≡ false → IfOk result (λ lists. HaveAtMost (most_of self.now.timing) (lists_in lists)) }
    {
        let mut lists = empty_lists(alloc, width)?;
        self.items
            .push_to(&mut lists, first, end_moment(self.timing, end))?;
        Ok(lists)
    }

    /// For each itag of the source, the first of which has the number `first`, all its items, and the end. The items of a source with one itag are
    /// moved out of what is held.
    pub(crate) fn take_lists(
        &mut self,
        alloc: Global,
        first: u32,
        width: u32,
    ) -> Result<Vec<Vec<Item>>, AllocError>
        requires { first + width ≤ 256 }
        ensures len { IfOk result (λ lists. vec_len lists ≡ width) }
        ensures each { IfOk result (λ lists. (i : ℕ) → i < width
            → items_of_list lists i ≡ filter_map (item_for (first + i)) (taken_by Border.Closed self.old.items) ++ Item.End ∷ []) }
        ensures counted { self.new.held ≡ self.old.held }
    {
        if width == 1 {
            if let Some(list) = self.items.take_list(alloc, first)? {
                let mut lists = Vec::new(alloc);
                lists.push(list)?;
                return Ok(lists);
            }
        }
        self.lists(alloc, first, width, Border::Closed)
    }

    /// Drops the items up to a time.
    pub(crate) fn drop_until(&mut self, time: u64)
        ensures { DropsTo time self.old self.new }
    {
        self.items.drop_until(last_moment(self.timing, time));
    }

    // In a resumed run, drops the items up to its border once that is settled, or nothing more is to be read. Before that it drops
    // those that are settled, if many are held: they are not needed to test later rows.
    fn catch_up(&mut self, slack: u64)
        requires { slack ≤ 60000 }
        ensures { CatchesUp slack self.old self.new }
    {
        let Some(goal) = self.goal else {
            return;
        };
        if self.closed {
            self.drop_until(goal);
            self.goal = None;
            return;
        }
        let Some(last) = self.last else {
            return;
        };
        let behind = margin(self.timing, slack);
        if last < behind {
            return;
        }
        let settled = last - behind;
        if settled >= goal {
            self.drop_until(goal);
            self.goal = None;
        } else if self.items.len() as u64 >= self.most_items(slack) {
            self.drop_until(settled);
        }
    }

    // With this many items, a resumed run that has not reached its border yet drops settled ones: at most as many are not settled as the source may
    // have at the times within its margin, and a round needs at most some more.
    fn most_items(&self, slack: u64) -> u64
        requires { slack ≤ 60000 }
        ensures { result ≤ most_of self.now.timing }
    {
        MOST_ROWS + margin(self.timing, slack) * self.timing.ties
    }

    // The settled time, if this many of the items come no later.
    fn enough(&self, rows: Option<u32>, slack: u64) -> Option<u64>
        requires some { 1 ≤ unwrap_or rows 1 }
        requires slack { slack ≤ 60000 }
        ensures { result ≡ enough_for self.now.timing rows slack (source_of self.now) }
    {
        let rows = rows?;
        if self.goal.is_some() {
            return None;
        }
        let last = self.last?;
        let behind = margin(self.timing, slack);
        if last < behind {
            return None;
        }
        let settled = last - behind;
        let moment = last_moment(self.timing, settled);
        if !self.items.has_until(rows as usize, moment) {
            return None;
        }
        Some(settled)
    }

    // Takes in a row.
    fn take(
        &mut self,
        kinds: &[Kind],
        source: &Source,
        first: u32,
        row: Row,
    ) -> Result<(), RowRefusal>
        requires few { length kinds.now ≤ 64 }
        requires numbered { first + width source.now ≤ 256 }
        requires range { IsInRange row }
        requires slack { source.now.slack ≤ 60000 }
        requires room { is_some self.old.held ≡ false → length self.old.items < most_of self.old.timing }
        ensures taken { OnOk result (PutsIn kinds.now source.now first row self.old self.new) }
        ensures counted { is_some self.new.held ≡ is_some self.old.held }
        ensures timing { self.new.timing ≡ self.old.timing }
        ensures refused { IfErr result (IsRefusal (fault_behind kinds.now source.now self.old row)) }
    {
        if self.ended {
            return Err(RowRefusal::Fault(Why::AfterEnd));
        }
        if !self.has_moments(&row) {
            return Err(RowRefusal::Fault(Why::BadRow));
        }
        match row {
            Row::End => {
                self.ended = true;
                Ok(())
            }
            Row::Beat(time) => {
                let count = tag_count(source.tags.items());
                self.insert(source.slack, Item::Beat(time), count)
            }
            Row::Event {
                time,
                name,
                key,
                fields,
            } => match found_of(kinds, source, name.as_bytes(), key, fields) {
                Ok(found) => {
                    let event = Event {
                        time,
                        itag: Itag(first + found.place),
                        item: found.item,
                        value: found.value,
                    };
                    self.insert(source.slack, Item::Event(event), 1)
                }
                Err(why) => Err(RowRefusal::Fault(why)),
            },
        }
    }

    // Whether a row's time is below the end of times.
    fn has_moments(&self, row: &Row) -> bool
        ensures { result ≡ has_moments self.now.timing (time_in row.now) }
    {
        match row {
            Row::Event { time, .. } | Row::Beat(time) => self.is_early(*time),
            Row::End => true,
        }
    }

    // Whether a time is below the end of times.
    #[inline]
    fn is_early(&self, time: u64) -> bool
        ensures { result ≡ has_moments self.now.timing (Some time) }
    {
        time < self.timing.end
    }

    // Takes in an event or a heartbeat at its moment, which counts as this many items.
    fn insert(&mut self, slack: u64, item: Item, count: u32) -> Result<(), RowRefusal>
        requires time { item_time item < self.old.timing.end }
        requires timed { is_timed item ≡ true }
        requires slack { slack ≤ 60000 }
        requires room { is_some self.old.held ≡ false → length self.old.items < most_of self.old.timing }
        ensures passes { OnOk result
            (fault_at self.old.timing slack (own_times self.old.timing self.old.items) self.old.last self.old.held (item_time item) count ≡ None) }
        ensures taken { OnOk result (PutsItem item count self.old self.new) }
        ensures counted { is_some self.new.held ≡ is_some self.old.held }
        ensures timing { self.new.timing ≡ self.old.timing }
        ensures refused { IfErr result
            (IsRefusal (fault_at self.old.timing slack (own_times self.old.timing self.old.items) self.old.last self.old.held (item_time item) count)) }
    {
        let time = time_of(&item);
        let moment = moment_behind(&mut self.items, self.timing, self.last, slack, time)?;
        let held = count_more(self.held, count)?;
        let last = self.last.unwrap_or(0).max(time);
        let settled = self.settled_moment(last, slack);
        if put_item(&mut self.items, at_time(item, moment), settled).is_err() {
            return Err(RowRefusal::NoMemory);
        }
        self.first = Some(self.first.unwrap_or(time).min(time));
        self.last = Some(last);
        self.held = held;
        Ok(())
    }

    // The last moment at which no row may come any more, where this is the greatest time that was read.
    fn settled_moment(&self, last: u64, slack: u64) -> Option<u64>
        requires { slack ≤ 60000 }
    {
        let behind = margin(self.timing, slack);
        if last < behind {
            return None;
        }
        Some(last_moment(self.timing, last - behind))
    }
}

// The last moment of a time, or a greater one that is above all moments.
fn last_moment(timing: Timing, time: u64) -> u64
    requires fits { IsTiming timing }
    ensures { (m : ℕ) → m < 2 ^ 63 → nat_le m result ≡ nat_le m (last_moment timing time) }
{
    match (time.saturating_add(1)).checked_mul(timing.scale) {
        Some(moments) => moments - 1,
        None => u64::MAX,
    }
}

// The border of moments of a border, or a greater one that is above all moments.
fn end_moment(timing: Timing, end: Border) -> Border
    requires fits { IsTiming timing }
    ensures { (m : ℕ) → m < 2 ^ 63 → is_up_to result m ≡ is_up_to (end_moment timing end) m }
{
    match end {
        Border::At(time) => Border::At(last_moment(timing, time)),
        Border::Closed => Border::Closed,
    }
}

// An event or a heartbeat at another time.
fn at_time(item: Item, time: u64) -> Item
    ensures { result ≡ item_at_time time item }
{
    match item {
        Item::Event(event) => Item::Event(Event { time, ..event }),
        Item::Beat(_) => Item::Beat(time),
        Item::End => Item::End,
    }
}
