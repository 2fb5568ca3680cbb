//! How a time is tested, and an item inserted, among those that are held of a source; and how items are counted.

ghost use Rattle.std.specs.Prelude.{◌≡◌, ◌==◌, ◌≤◌, ◌<◌, ◌^◌, ◌/◌, false, [], nat_le, is_some, unwrap_or, IsTrue, None, OnOk, OnErr, IfOk, IfErr};
ghost use Rattle.std.specs.List.{list_all, list_any};
ghost use Rattle.flu_lemmas.specs.Counting.{times};
ghost use Rattle.flu_lemmas.specs.Late.{put_late, rises_from};
ghost use Rattle.flu_model.specs.Moments.{IsTiming, moment_at};
ghost use Rattle.flu_streams.specs.Lists.{item_time, times_in};
ghost use Rattle.flu_streams.specs.LoopHeld.{held_with, test_held};
ghost use Rattle.flu_streams.specs.LoopMoments.{are_in_a_row, own_times};
ghost use Rattle.flu_streams.specs.LoopStop.{IsRefusal};
ghost use Rattle.flu_streams.specs.Tests.{margin, same_time, test_behind};

use crate::faults::Why;
use crate::stop::RowRefusal;
use crate::timed::TimedItems;
use flu_model::{Item, Timing};
use std::alloc::AllocError;

/// The most items that are held at once, where they are counted.
const MOST_ITEMS: u64 = 16_777_216;

/// The moment of a row at a time after the items that are held, or the rule that its time breaks: it has to be above the greatest one that was read,
/// `last`, less the slack, in version 3 not below that; and not too many rows may have it. Above `last` none of the items is looked at.
pub(crate) fn moment_behind(
    items: &mut TimedItems,
    timing: Timing,
    last: Option<u64>,
    slack: u64,
    time: u64,
) -> Result<u64, RowRefusal>
    requires rising { IsTrue (rises_from item_time 0 items.old) }
    requires none { last ≡ None → items.old ≡ [] }
    requires within { IsTrue (list_all (λ t. nat_le t (unwrap_or last 0)) (own_times timing items.old)) }
    requires in_a_row { IsTrue (are_in_a_row timing None (times_in items.old)) }
    requires timing { IsTiming timing }
    requires range { time < 2 ^ 63 / timing.scale }
    requires slack { slack ≤ 60000 }
    ensures same { items.new ≡ items.old }
    ensures passes { OnOk result (test_behind timing slack (own_times timing items.old) last time ≡ None) }
    ensures moment { IfOk result (λ m. m ≡ moment_at timing time (times time (own_times timing items.old))) }
    ensures few { OnOk result (times time (own_times timing items.old) < timing.ties) }
    ensures range { IfOk result (λ m. m < 2 ^ 63) }
    ensures refused { IfErr result (IsRefusal (test_behind timing slack (own_times timing items.old) last time)) }
{
    let first = time * timing.scale + timing.offset;
    let Some(last) = last else {
        return Ok(first);
    };
    if time > last {
        return Ok(first);
    }
    if last - time >= margin(timing, slack) {
        return Err(RowRefusal::Fault(Why::Disordered { last, got: time }));
    }
    let Ok(before) = items.count_between(first, first + timing.ties) else {
        return Err(RowRefusal::NoMemory);
    };
    if before >= timing.ties {
        return Err(RowRefusal::Fault(same_time(timing, last, time)));
    }
    Ok(first + before)
}

// The fault of a time that too many earlier rows have.
fn same_time(timing: Timing, last: u64, time: u64) -> Why
    requires { timing.ties < 2 ^ 63 }
    ensures { result ≡ same_time timing last time }
{
    if timing.several {
        Why::TooMany {
            count: timing.ties + 1,
        }
    } else {
        Why::Disordered { last, got: time }
    }
}

/// How far a time is behind the greatest one that no row may have any more.
pub(crate) fn margin(timing: Timing, slack: u64) -> u64
    requires { slack ≤ 60000 }
    ensures { result ≡ margin timing slack }
{
    if timing.several { slack + 1 } else { slack }
}

/// Inserts an item whose moment none of the items has; `settled` is the last moment at which no row may come any more, if there is one.
pub(crate) fn put_item(
    items: &mut TimedItems,
    item: Item,
    settled: Option<u64>,
) -> Result<(), AllocError>
    requires rising { IsTrue (rises_from item_time 0 items.old) }
    requires apart { list_any (λ t. t == item_time item) (times_in items.old) ≡ false }
    ensures put { OnOk result (items.new ≡ put_late item_time item items.old) }
    ensures same { OnErr result (items.new ≡ items.old) }
{
    if let Some(moment) = settled {
        items.settle(moment)?;
    }
    items.put(item)
}

/// How many items are held with this many more, where they are counted; or the fault of too many.
pub(crate) fn count_more(held: Option<u64>, more: u32) -> Result<Option<u64>, RowRefusal>
    requires { unwrap_or held 0 ≤ 16777216 }
    ensures passes { OnOk result (test_held held more ≡ None) }
    ensures counted { IfOk result (λ now. now ≡ held_with held more) }
    ensures limit { IfOk result (λ now. unwrap_or now 0 ≤ 16777216) }
    ensures same { IfOk result (λ now. is_some now ≡ is_some held) }
    ensures refused { IfErr result (IsRefusal (test_held held more)) }
{
    let Some(held) = held else {
        return Ok(None);
    };
    let more = u64::from(more);
    if more > MOST_ITEMS - held {
        return Err(RowRefusal::Fault(Why::TooMany {
            count: MOST_ITEMS + 1,
        }));
    }
    Ok(Some(held + more))
}
