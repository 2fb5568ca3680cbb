//! What a report does not show of the events that it is of. No clause says what is counted: hints for people alone are made of it.

ghost use Rattle.std.specs.Prelude.{◌≡◌, ◌<◌, length};
ghost use Rattle.flu_model.specs.Itags.{count_of_itags};
ghost use Rattle.flu_model.specs.Listed.{listed};

use flu_cells::State;
use flu_lines::{Counts, Span};
use flu_model::{Itag, Item, Out, Outs, Program, Streams, itag_count, moments_a_time};
use std::alloc::Global;

/// What was counted so far of the events that a report is of, round by round.
#[derive(Drop)]
pub struct Tally {
    last_line: Option<u64>,
    after: Span,
    itags: Vec<Span>,
}

impl Tally {
    /// No event was counted.
    pub fn new(alloc: Global) -> Tally {
        Tally {
            last_line: None,
            after: Span::NONE,
            itags: Vec::new(alloc),
        }
    }

    /// Counts the events of one more round, later ones than those before, which emitted these outputs. Of a round with an output only the
    /// items after the last one are gone through.
    pub fn count(&mut self, program: &Program, rows: &Streams, outs: &Outs)
        requires { length (listed rows.now) ≡ count_of_itags program.now }
    {
        let last = last_time(outs.items());
        if last.is_some() {
            self.last_line = last;
            self.after = Span::NONE;
        }
        let scale = moments_a_time(program);
        for i in 0..itag_count(program) {
            let items = rows.items(Itag(i));
            let behind = span_behind(items, scale, last);
            self.after = self.after.and(behind);
            self.add(i as usize, behind.and(ends_of(items, scale)));
        }
    }

    // Adds events of an itag. If memory is refused they are not counted.
    fn add(&mut self, i: usize, span: Span) {
        if i == self.itags.len() && self.itags.push(Span::NONE).is_err() {
            return;
        }
        if let Some(known) = self.itags.get_mut(i) {
            *known = known.and(span);
        }
    }

    /// What was counted, with what a state holds at the end; none if memory is refused.
    pub fn end(self, alloc: Global, program: &Program, state: &State) -> Option<Counts> {
        let mut held = Vec::new(alloc);
        let families = program.families.items().len() as u32;
        for family in 0..families {
            let keys = state.keys(family).ok()?;
            held.push(keys.len()).ok()?;
        }
        Some(Counts {
            last_line: self.last_line,
            after: self.after,
            itags: self.itags,
            held,
        })
    }
}

// The greatest of the times of some outputs.
fn last_time(outs: &[Out]) -> Option<u64> {
    let mut last = None;
    for out in outs {
        last = match last {
            Some(time) if time >= out.time => last,
            _ => Some(out.time),
        };
    }
    last
}

// The events after a time, or all events if none is given, of the items of an itag, whose moments rise; a time has this many moments. Moments are
// compared, and divided only at the end, since a division takes longer than all else that is done for an event here.
fn span_behind(items: &[Item], scale: u64, time: Option<u64>) -> Span
    requires { 0 < scale }
{
    let from = match time {
        Some(time) => time.saturating_add(1).saturating_mul(scale),
        None => 0,
    };
    let mut span = Span::NONE;
    for item in items.iter().rev() {
        if let Item::Event(event) = item {
            if event.time < from {
                break;
            }
            span = span.and(at(event.time, 1));
        }
    }
    by_times(span, scale)
}

// Events by their times, where their moments are given; a time has this many moments.
fn by_times(span: Span, scale: u64) -> Span
    requires { 0 < scale }
{
    if span.first > span.last {
        return span;
    }
    Span {
        events: span.events,
        first: span.first / scale,
        last: span.last / scale,
    }
}

// The times of the first and the last event of an itag, as a span of no event; a time has this many moments.
fn ends_of(items: &[Item], scale: u64) -> Span
    requires { 0 < scale }
{
    let mut ends = Span::NONE;
    for item in items {
        if let Item::Event(event) = item {
            ends = at(event.time, 0);
            break;
        }
    }
    for item in items.iter().rev() {
        if let Item::Event(event) = item {
            return by_times(ends.and(at(event.time, 0)), scale);
        }
    }
    ends
}

// This many events at one time or moment.
fn at(time: u64, events: u64) -> Span {
    Span {
        events,
        first: time,
        last: time,
    }
}
