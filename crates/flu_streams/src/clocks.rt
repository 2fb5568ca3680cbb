//! The ticks of clocks among the rows that were read of all sources.

ghost use Rattle.std.specs.Prelude.{◌≡◌, ◌≤◌, ◌<◌, ◌+◌, ◌/◌, ◌^◌, ◌++◌, ℕ, List, Option, Some, None, All, length, slice_get, take, IfOk};
ghost use Rattle.std.specs.List.{filter, list_any};
ghost use Rattle.flu_model.specs.Rules.{is_clock};
ghost use Rattle.flu_model.specs.Moments.{IsTiming, end_of_times, limit_of_times};
ghost use Rattle.flu_streams.specs.Clocks.{AreEarly, ticks_of, items_of_ticks};
ghost use Rattle.flu_streams.specs.LoopClocks.{HasSpan, IsEarly, span_to, span_with, ranks_in};
ghost use Rattle.flu_streams.specs.Rounds.{is_within};

use crate::border::Border;
use flu_model::{Event, Itag, Item, Program, Source, Timing};
use flu_moments::laws::ticks_follow_rows;
use flu_moments::{Moments, Ticks};
use std::alloc::{AllocError, Global};

/// Where the first and the last of some rows stand among those of all sources: by time, and at one time by source, as declared.
#[derive(Clone, Copy)]
pub(crate) struct Span {
    pub(crate) first: u64,
    pub(crate) last: u64,
}

/// Whether some source of a job is a clock.
pub(crate) fn has_clocks(p: &Program) -> bool
    ensures { result ≡ list_any is_clock p.now.sources }
{
    p.sources
        .items()
        .iter()
        .any(|source| source.every.is_some())
}

/// A span with the rows of one more source, the one with this number, whose least and greatest times are these; none have been read where there are
/// no times.
pub(crate) fn span_with(
    sources: u64,
    number: u32,
    span: Option<Span>,
    first: Option<u64>,
    last: Option<u64>,
) -> Option<Span>
    requires number { number < sources }
    requires ordered { (t : ℕ) → last ≡ Some t → (f : ℕ) → first ≡ Some f → f ≤ t }
    requires range { (t : ℕ) → last ≡ Some t → t < 2 ^ 63 / sources }
    ensures span { result ≡ span_with sources number span first last }
{
    let (Some(first), Some(last)) = (first, last) else {
        return span;
    };
    let low = first * sources + u64::from(number);
    let high = last * sources + u64::from(number);
    Some(span_to(span, low, high))
}

// A span with rows from the first and to the last of these ranks.
fn span_to(span: Option<Span>, low: u64, high: u64) -> Span
    ensures { Some result ≡ span_to span low high }
{
    match span {
        None => Span {
            first: low,
            last: high,
        },
        Some(span) => Span {
            first: span.first.min(low),
            last: span.last.max(high),
        },
    }
}

/// A span with rows elsewhere, which stand there.
pub(crate) fn span_beside(p: &Program, beside: &[u64], span: Option<Span>) -> Option<Span>
    requires rows { AreEarly p.now beside.now }
    requires early { IsEarly (length p.now.sources) (end_of_times p.now) span }
    ensures span { (ranks : List ℕ) → HasSpan span ranks → HasSpan result (beside.now ++ ranks) }
    ensures early { IsEarly (length p.now.sources) (end_of_times p.now) result }
{
    let mut span = span;
    for rank in beside {
        span = Some(span_to(span, *rank, *rank));
    }
    span
}

/// The ticks of a source above one border and up to another, among rows with this span. Only a clock has any.
pub(crate) fn ticks_within(
    p: &Program,
    number: u32,
    source: &Source,
    span: Option<Span>,
    above: Option<u64>,
    end: Border,
) -> Ticks
    requires source { slice_get p.now.sources number ≡ Some source.now }
    requires early { IsEarly (length p.now.sources) (end_of_times p.now) span }
    ensures ticks { result ≡ filter (is_within above end) (ticks_of p.now (ranks_in span) (take number p.now.sources, source.now)) }
    ensures range { All (λ time. time < limit_of_times p.now) result }
{
    let (Some(every), Some(span)) = (source.every, span) else {
        return Ticks::none();
    };
    ticks_follow_rows();
    let moments = Moments {
        sources: p.sources.items().len() as u64,
        ties: 1,
    };
    let until = match end {
        Border::At(time) => Some(time),
        Border::Closed => None,
    };
    match moments.ticks_inside(
        every,
        u64::from(number),
        span.first,
        span.last,
        above,
        until,
    ) {
        Some(ticks) => ticks,
        None => unreachable!(),
    }
}

/// The items of a clock's itag: its ticks at their moments, and the end.
pub(crate) fn items_of_ticks(
    alloc: Global,
    timing: Timing,
    itag: Itag,
    ticks: Ticks,
) -> Result<Vec<Item>, AllocError>
    requires fits { IsTiming timing }
    requires range { All (λ time. time < 2 ^ 63 / timing.scale) ticks }
    ensures { IfOk result (λ items. items.items ≡ items_of_ticks timing itag.0 ticks) }
{
    let mut items = Vec::new(alloc);
    let mut left = ticks;
    while let Some(time) = left.next() {
        items.push(Item::Event(Event {
            time: time * timing.scale + timing.offset,
            itag,
            item: 0,
            value: 0,
        }))?;
    }
    items.push(Item::End)?;
    Ok(items)
}
