//! The streams of a demo.

ghost use Rattle.std.specs.Prelude.{◌≡◌, ◌+◌, ◌/◌, ◌%◌, ◌≤◌, ◌<◌, ◌^◌, ◌==◌, if◌then◌else◌, [], ◌∷◌, ◌++◌, map, length, IfOk, OnOk};
ghost use Rattle.flu_model.specs.Itags.{count_of_itags};
ghost use Rattle.flu_model.specs.Listed.{listed};
ghost use Rattle.flu_model.specs.Merging.{all_events};
ghost use Rattle.flu_gen.specs.DemoJob.{IsDemoJob};
ghost use Rattle.flu_gen.specs.DemoStreams.{clock_tick, event_at, ticks, ended, of_itag, demo_lists};

use crate::drawn::drawn_events;
use flu_model::{Event, Itag, Item, Program, Streams, itag_count};
use std::alloc::{AllocError, Global};

/// How many times a tick is apart from the next one.
const TICK_EVERY: u64 = 1000;

/// The streams of a demo: at each time from 1 to n an event that the seed draws, a tick of the clock at each thousandth time, and
/// one more at time n + 1. No source has heartbeats, and each one ends.
///
/// # Errors
///
/// Only if memory runs out.
pub fn demo_streams(alloc: Global, p: &Program, n: u32, seed: u32) -> Result<Streams, AllocError>
    requires job { IsDemoJob p.now }
    requires few { n ≤ 1000000 }
    requires seed { seed < 2 ^ 31 }
    ensures lists { IfOk result (λ streams. listed streams ≡ demo_lists n seed) }
    ensures one_each { IfOk result (λ streams. length (listed streams) ≡ count_of_itags p.now) }
    ensures events { IfOk result (λ streams. length (all_events (listed streams)) ≡ n + n / 1000 + 1) }
{
    let lists = lists_of(alloc, n, seed, itag_count(p) - 1)?;
    Ok(Streams::new(lists))
}

// The items of each itag, of which the last is the clock's.
fn lists_of(alloc: Global, n: u32, seed: u32, clock: u32) -> Result<Vec<Vec<Item>>, AllocError>
    requires seed { seed < 2 ^ 31 }
    requires clock { clock ≡ clock_tick }
    ensures { IfOk result (λ lists. map (λ v. v.items) lists.items ≡ demo_lists n seed) }
{
    let drawn = drawn_events(alloc, n, seed)?;
    let mut lists = Vec::new(alloc);
    for itag in 0..clock {
        let items = items_of(alloc, drawn.as_slice(), itag)?;
        lists.push(items)?;
    }
    let last = tick_items(alloc, n, clock)?;
    lists.push(last)?;
    Ok(lists)
}

// The items of an itag: those of some events that are its own, and the end.
fn items_of(alloc: Global, events: &[Event], itag: u32) -> Result<Vec<Item>, AllocError>
    ensures { IfOk result (λ items. items.items ≡ ended (of_itag itag events.now)) }
{
    let mut items = Vec::new(alloc);
    for event in events {
        push_own(&mut items, *event, itag)?;
    }
    items.push(Item::End)?;
    Ok(items)
}

// Puts an event at the end of some items, if it is of the itag.
fn push_own(items: &mut Vec<Item>, event: Event, itag: u32) -> Result<(), AllocError>
    ensures { OnOk result (items.new.items ≡ items.old.items ++ (if event.itag.0 == itag then Item.Event event ∷ [] else [])) }
{
    if event.itag.0 == itag {
        items.push(Item::Event(event))?;
    }
    Ok(())
}

// The items of the clock.
fn tick_items(alloc: Global, n: u32, clock: u32) -> Result<Vec<Item>, AllocError>
    requires { clock ≡ clock_tick }
    ensures { IfOk result (λ items. items.items ≡ ended (ticks n)) }
{
    let mut items = Vec::new(alloc);
    for turn in 0..n {
        push_tick(&mut items, u64::from(turn) + 1, clock)?;
    }
    items.push(tick(u64::from(n) + 1, clock))?;
    items.push(Item::End)?;
    Ok(items)
}

// Puts a tick at the end of some items, where the clock ticks at the time.
fn push_tick(items: &mut Vec<Item>, time: u64, clock: u32) -> Result<(), AllocError>
    ensures { OnOk result (items.new.items ≡ items.old.items ++ (if time % 1000 == 0 then Item.Event (event_at time clock 0) ∷ [] else [])) }
{
    if time % TICK_EVERY == 0 {
        items.push(tick(time, clock))?;
    }
    Ok(())
}

fn tick(time: u64, clock: u32) -> Item
    ensures { result ≡ Item.Event (event_at time clock 0) }
{
    Item::Event(Event {
        time,
        itag: Itag(clock),
        item: 0,
        value: 0,
    })
}
