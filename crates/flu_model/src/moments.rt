//! Moments: the order of the rows of all sources (`docs/MODEL.md`, "Moments").

ghost use Rattle.std.specs.Prelude.{◌≡◌, ◌<◌, ◌≤◌, ◌^◌, ◌/◌, length};
ghost use Rattle.flu_model.specs.Moments.{moments_a_time, time_of_moment, at_its_time, limit_of_times, last_multiple, end_of_times, timing_of, IsTiming};

use crate::events::Event;
use crate::jobs::Program;
use flu_calendar::times_end;

/// How the rows of a source are numbered by moments. A row at a time has the moment `time * scale + offset`, and one more for each row before
/// it that the source has at this time.
#[derive(Clone, Copy)]
pub struct Timing {
    /// Whether a source may have several rows at one time: a row at the same time as one before it is then not late.
    pub several: bool,
    /// How many moments a time has.
    pub scale: u64,
    /// The number, from 0, of the source's first moment among those of a time.
    pub offset: u64,
    /// How many rows the source may have at one time, one or more.
    pub ties: u64,
    /// The times of rows are below this one.
    pub end: u64,
}

/// How many moments a time has.
pub fn moments_a_time(p: &Program) -> u64
    ensures value { result ≡ moments_a_time p.now }
    ensures some { 0 < result }
    ensures few { result ≤ 2 ^ 37 }
{
    if p.version == 3 {
        let sources = p.sources.items().len().max(1) as u64;
        sources * u64::from(p.ties)
    } else {
        1
    }
}

/// The time of a moment.
#[inline]
pub fn time_of_moment(p: &Program, moment: u64) -> u64
    ensures { result ≡ time_of_moment p.now moment }
{
    if p.version == 3 {
        moment / moments_a_time(p)
    } else {
        moment
    }
}

/// An event as its actions see it: at its time, where the core has its moment.
#[inline]
pub fn at_its_time(p: &Program, x: &Event) -> Event
    ensures { result ≡ at_its_time p.now x.now }
{
    Event {
        time: time_of_moment(p, x.time),
        itag: x.itag,
        item: x.item,
        value: x.value,
    }
}

// The times that have moments, and a text where times are texts, are below this one.
fn limit_of_times(p: &Program) -> u64
    ensures value { result ≡ limit_of_times p.now }
    ensures range { result ≤ 2 ^ 63 / moments_a_time p.now }
{
    let limit = (1 << 63) / moments_a_time(p);
    match p.iso {
        None => limit,
        Some(unit) => limit.min(times_end(unit)),
    }
}

/// The times of rows are below this one: each row's moments are below 2^63, its text is before the year 10000 where times are texts, and both
/// hold of the tick of each clock that is behind it.
pub fn end_of_times(p: &Program) -> u64
    ensures value { result ≡ end_of_times p.now }
    ensures range { result ≤ 2 ^ 63 / moments_a_time p.now }
{
    let limit = limit_of_times(p);
    let mut end = limit;
    for source in p.sources.items() {
        if let Some(every) = source.every {
            end = end.min(last_multiple(limit, every));
        }
    }
    end
}

// The last multiple of a period below a limit.
fn last_multiple(limit: u64, every: u64) -> u64
    ensures { result ≡ last_multiple limit every }
{
    limit.saturating_sub(1).checked_div(every).unwrap_or(0) * every
}

/// How the rows of the source with a number are numbered.
pub fn timing_of(p: &Program, number: u32) -> Timing
    requires { number < length p.now.sources }
    ensures value { result ≡ timing_of p.now number }
    ensures fits { IsTiming result }
{
    let ties = u64::from(p.ties);
    let several = p.version == 3;
    let offset = if several { u64::from(number) * ties } else { 0 };
    Timing {
        several,
        scale: moments_a_time(p),
        offset,
        ties,
        end: end_of_times(p),
    }
}
