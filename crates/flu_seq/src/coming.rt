//! The events of streams that are still to come, one after another in their order (`docs/MODEL.md`).

ghost use Rattle.std.specs.Prelude.{◌≡◌, ◌<◌, ◌≤◌, List, ◌∷◌, [], drop, length, IfOk, Some, OnOk, IsTrue, MatchOption};
ghost use Rattle.std.specs.BinaryHeap.{heap_items, IsHeap};
ghost use Rattle.flu_model.specs.Itags.{count_of_itags};
ghost use Rattle.flu_model.specs.Listed.{listed};
ghost use Rattle.flu_model.specs.Merging.{events_of};
ghost use Rattle.flu_seq.specs.LoopHeads.{Adds, AreBehind, Goes, IsBehind, IsNext, Leads, Pops, Starts, Yields, event_at, head_cmp, items_at};

use flu_model::{Event, Itag, Item, Program, Streams, itag_count};
use std::alloc::{AllocError, Global};
use std::cmp::Reverse;
use std::collections::BinaryHeap;

/// The next event of an itag, and the place after it among the itag's items.
#[derive(Clone, Copy, PartialEq, Eq, PartialOrd, Ord)]
struct Head {
    time: u64,
    itag: u32,
    item: u16,
    value: i64,
    place: usize,
}

/// The events of streams that are still to come: the next one of all, and in a heap the next one of each other itag that has one.
///
/// As long as an itag has the next event of all, the heap is not changed. So an event costs the logarithm of the number of itags only
/// where the itag changes.
#[derive(Drop)]
pub(crate) struct Coming<'s> {
    streams: &'s Streams,
    next: Option<Head>,
    others: BinaryHeap<Reverse<Head>>,
}

impl<'s> Coming<'s> {
    /// All events of the streams, which have one list for each itag of the job.
    pub(crate) fn of(alloc: Global, p: &Program, s: &'s Streams) -> Result<Coming<'s>, AllocError>
        requires { length (listed s.now) ≡ count_of_itags p.now }
        ensures streams { IfOk result (λ coming. coming.streams.now ≡ s.now) }
        ensures all { IfOk result (IsBehind []) }
    {
        let mut others = first_heads(alloc, p, s)?;
        let next = pop_first(&mut others);
        Ok(Coming {
            streams: s,
            next,
            others,
        })
    }

    /// The next event, which is then no longer to come; none where no event is.
    pub(crate) fn next(&mut self) -> Result<Option<Event>, AllocError>
        requires { AreBehind self.old }
        ensures streams { self.new.streams.now ≡ self.old.streams.now }
        ensures next { IfOk result (Yields self.old self.new) }
    {
        let Some(head) = self.next else {
            return Ok(None);
        };
        self.next = next_after(head, &mut self.others, self.streams)?;
        Ok(Some(event_of(head)))
    }
}

fn event_of(head: Head) -> Event
    ensures { result ≡ event_at head }
{
    Event {
        time: head.time,
        itag: Itag(head.itag),
        item: head.item,
        value: head.value,
    }
}

// The first event of each itag that has one.
fn first_heads(
    alloc: Global,
    p: &Program,
    s: &Streams,
) -> Result<BinaryHeap<Reverse<Head>>, AllocError>
    requires { length (listed s.now) ≡ count_of_itags p.now }
    ensures { IfOk result (λ heads. Starts (listed s.now) (heap_items heads)) }
{
    let mut heads = BinaryHeap::new(alloc);
    for i in 0..itag_count(p) {
        push_next(&mut heads, s, Itag(i), 0)?;
    }
    Ok(heads)
}

// The first of some heads, which leaves them.
fn pop_first(heads: &mut BinaryHeap<Reverse<Head>>) -> Option<Head>
    ensures { Pops (heap_items heads.old) (heap_items heads.new) result }
{
    let Reverse(head) = heads.pop()?;
    Some(head)
}

// The head after one, which leaves the others: the next one of its own itag, if its event is before those of all others; else the first
// of the others, which the next one of its own itag joins.
fn next_after(
    head: Head,
    others: &mut BinaryHeap<Reverse<Head>>,
    s: &Streams,
) -> Result<Option<Head>, AllocError>
    requires { IsNext (listed s.now) (Some head) (heap_items others.old) }
    ensures { IfOk result (Goes (listed s.now) head (heap_items others.old) (heap_items others.new)) }
{
    let itag = Itag(head.itag);
    let Some(own) = next_head(s.items(itag), head.place) else {
        return Ok(pop_first(others));
    };
    if is_first(&own, others) {
        return Ok(Some(own));
    }
    others.push(Reverse(own))?;
    Ok(pop_first(others))
}

// Whether the event of a head is before those of all others.
fn is_first(own: &Head, others: &BinaryHeap<Reverse<Head>>) -> bool
    ensures { IsTrue result → IsHeap head_cmp (heap_items others.now) → Leads (Some own.now) (heap_items others.now) }
{
    match others.peek() {
        None => true,
        Some(Reverse(first)) => {
            own.time < first.time || (own.time == first.time && own.itag < first.itag)
        }
    }
}

// The next event of an itag joins the heads, if there is one.
fn push_next(
    heads: &mut BinaryHeap<Reverse<Head>>,
    s: &Streams,
    itag: Itag,
    from: usize,
) -> Result<(), AllocError>
    requires itag { itag.0 < length (listed s.now) }
    requires from { from ≤ length (items_at (listed s.now) itag.0) }
    ensures { OnOk result (Adds (listed s.now) itag.0 from (heap_items heads.old) (heap_items heads.new)) }
{
    if let Some(head) = next_head(s.items(itag), from) {
        heads.push(Reverse(head))?;
    }
    Ok(())
}

// The next event from a place on.
fn next_head(items: &[Item], from: usize) -> Option<Head>
    requires { from ≤ length items.now }
    ensures next { MatchOption result (events_of (drop from items.now) ≡ [])
        (λ h. events_of (drop from items.now) ≡ event_at h ∷ events_of (drop h.place items.now)) }
    ensures within { MatchOption result (0 ≤ from) (λ h. h.place ≤ length items.now) }
{
    for place in from..items.len() {
        if let Item::Event(x) = items[place] {
            return Some(Head {
                time: x.time,
                itag: x.itag.0,
                item: x.item,
                value: x.value,
                place: place + 1,
            });
        }
    }
    None
}
