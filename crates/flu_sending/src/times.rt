//! The first and the last time of the rows of streams.

ghost use Rattle.std.specs.Prelude.{◌≡◌, ◌<◌, length, min, max};
ghost use Rattle.std.specs.List.{reduce};
ghost use Rattle.flu_model.specs.Itags.{count_of_itags};
ghost use Rattle.flu_model.specs.Listed.{listed};
ghost use Rattle.flu_sending.specs.Lines.{time_of, times_of, times_of_itag, first_time, last_time};
ghost use Rattle.flu_sending.specs.LoopSending.{chosen};

use flu_apart::has_ticks;
use flu_model::{Itag, Item, Program, Streams, itag_count};

// The time of an event or a heartbeat.
fn time_of(item: Item) -> Option<u64>
    ensures { result ≡ time_of item }
{
    match item {
        Item::Event(x) => Some(x.time),
        Item::Beat(t) => Some(t),
        Item::End => None,
    }
}

// The lesser of two times, if both are there.
fn earlier(a: Option<u64>, b: Option<u64>) -> Option<u64>
    ensures { result ≡ chosen min a b }
{
    match (a, b) {
        (None, time) | (time, None) => time,
        (Some(t), Some(u)) => Some(t.min(u)),
    }
}

// The greater of two times, if both are there.
fn later(a: Option<u64>, b: Option<u64>) -> Option<u64>
    ensures { result ≡ chosen max a b }
{
    match (a, b) {
        (None, time) | (time, None) => time,
        (Some(t), Some(u)) => Some(t.max(u)),
    }
}

// The first time of some items.
fn first_of(items: &[Item]) -> Option<u64>
    ensures { result ≡ reduce min (times_of items.now) }
{
    let mut first = None;
    for item in items {
        first = earlier(first, time_of(*item));
    }
    first
}

// The last time of some items.
fn last_of(items: &[Item]) -> Option<u64>
    ensures { result ≡ reduce max (times_of items.now) }
{
    let mut last = None;
    for item in items {
        last = later(last, time_of(*item));
    }
    last
}

// The first and the last time of the rows of an itag; a tick is no row.
fn first_of_itag(p: &Program, streams: &Streams, i: Itag) -> Option<u64>
    requires lists { length (listed streams.now) ≡ count_of_itags p.now }
    requires itag { i.0 < count_of_itags p.now }
    ensures { result ≡ reduce min (times_of_itag p.now (listed streams.now) i.0) }
{
    if has_ticks(p, i) {
        None
    } else {
        first_of(streams.items(i))
    }
}

fn last_of_itag(p: &Program, streams: &Streams, i: Itag) -> Option<u64>
    requires lists { length (listed streams.now) ≡ count_of_itags p.now }
    requires itag { i.0 < count_of_itags p.now }
    ensures { result ≡ reduce max (times_of_itag p.now (listed streams.now) i.0) }
{
    if has_ticks(p, i) {
        None
    } else {
        last_of(streams.items(i))
    }
}

/// The time of the first event or heartbeat of the rows of streams, which have one list for each itag of the job; none if they have neither. The ticks of
/// clocks are left out. It takes no memory.
pub fn first_time(p: &Program, streams: &Streams) -> Option<u64>
    requires { length (listed streams.now) ≡ count_of_itags p.now }
    ensures { result ≡ first_time p.now (listed streams.now) }
{
    let mut first = None;
    for i in 0..itag_count(p) {
        first = earlier(first, first_of_itag(p, streams, Itag(i)));
    }
    first
}

/// The time of the last event or heartbeat of the rows of streams, which have one list for each itag of the job; none if they have neither. The ticks of
/// clocks are left out. It takes no memory.
pub fn last_time(p: &Program, streams: &Streams) -> Option<u64>
    requires { length (listed streams.now) ≡ count_of_itags p.now }
    ensures { result ≡ last_time p.now (listed streams.now) }
{
    let mut last = None;
    for i in 0..itag_count(p) {
        last = later(last, last_of_itag(p, streams, Itag(i)));
    }
    last
}
