//! The moments of rows, what of a row is in a moment, and the ticks of clocks among moments.

ghost use Rattle.std.specs.Prelude.{◌≡◌, ◌↔◌, ℕ, ◌*◌, ◌^◌, ◌<◌, ◌≤◌, List, length, IsSome, IfSome, IfNone};
ghost use Rattle.std.specs.List.{filter};
ghost use Rattle.flu_moments.specs.Clocks.{tick_moment, IsNextTick, IsTicks, IsSpan, AreBetween, ticks_among, is_inside};
ghost use Rattle.flu_moments.specs.Moments.{moment, time_of, source_of, place_of, border, greatest_time};

use crate::ticks::Ticks;

/// How the rows of some sources are numbered, of which each has at most `ties` rows at one time.
///
/// A moment is the number of a row. Times are numbers from 0; sources, as declared, and places are numbered from 0.
#[derive(Clone, Copy)]
pub struct Moments {
    pub sources: u64,
    pub ties: u64,
    pub ghost has_a_source: { 0 < sources },
    pub ghost has_a_place: { 0 < ties },
    pub ghost in_range: { sources * ties ≤ 2 ^ 63 },
}

impl Moments {
    /// The numbering for some sources and ties; none where one of them is 0, or their product is above 2^63.
    pub fn new(sources: u64, ties: u64) -> Option<Moments>
        ensures in_range { IsSome result ↔ ((0 < sources) × (0 < ties) × (sources * ties ≤ 2 ^ 63)) }
        ensures value { IfSome result (λ m. (m.sources ≡ sources) × (m.ties ≡ ties)) }
    {
        if sources == 0 || ties == 0 || sources > (1 << 63) / ties {
            return None;
        }
        Some(Moments { sources, ties })
    }

    /// The greatest time whose moments are all below 2^63.
    pub fn greatest_time(self) -> u64
        ensures { result ≡ greatest_time self.sources self.ties }
    {
        (1 << 63) / (self.sources * self.ties) - 1
    }

    /// The moment of the row at a place, from 0, among the rows that its source has at its time.
    pub fn moment(self, time: u64, source: u64, place: u64) -> u64
        requires time { time ≤ greatest_time self.sources self.ties }
        requires source { source < self.sources }
        requires place { place < self.ties }
        ensures value { result ≡ moment self.sources self.ties time source place }
        ensures in_range { result < 2 ^ 63 }
    {
        (time * self.sources + source) * self.ties + place
    }

    /// The time of a moment.
    pub fn time_of(self, moment: u64) -> u64
        ensures { result ≡ time_of self.sources self.ties moment }
    {
        moment / (self.sources * self.ties)
    }

    /// The source of a moment.
    pub fn source_of(self, moment: u64) -> u64
        ensures value { result ≡ source_of self.sources self.ties moment }
        ensures in_range { result < self.sources }
    {
        moment / self.ties % self.sources
    }

    /// The place of a moment among the rows that its source has at its time.
    pub fn place_of(self, moment: u64) -> u64
        ensures value { result ≡ place_of self.ties moment }
        ensures in_range { result < self.ties }
    {
        moment % self.ties
    }

    /// The border of a time: the last moment of it, so at or above each moment of the times up to it and below each of a later time.
    pub fn border(self, time: u64) -> u64
        requires { time ≤ greatest_time self.sources self.ties }
        ensures value { result ≡ border self.sources self.ties time }
        ensures in_range { result < 2 ^ 63 }
    {
        (time + 1) * (self.sources * self.ties) - 1
    }

    /// The next tick, after a moment, of a clock that ticks at the multiples of `every`; none where its time is above the greatest.
    pub fn next_tick(self, every: u64, clock: u64, moment: u64) -> Option<u64>
        requires every { 0 < every }
        requires clock { clock < self.sources }
        requires moment { moment < 2 ^ 63 }
        ensures some { IfSome result (IsNextTick self.sources self.ties every clock moment) }
        ensures in_range { IfSome result (λ time. time ≤ greatest_time self.sources self.ties) }
        ensures none { IfNone result ((time : ℕ) → IsNextTick self.sources self.ties every clock moment time
            → greatest_time self.sources self.ties < time) }
    {
        let time = self
            .first_time(clock, moment)
            .checked_next_multiple_of(every)?;
        if time <= self.greatest_time() {
            Some(time)
        } else {
            None
        }
    }

    /// The ticks of a clock among rows whose first and last moments in order are these; none where the last tick's time is above the
    /// greatest.
    pub fn ticks(self, every: u64, clock: u64, first: u64, last: u64) -> Option<Ticks>
        requires every { 0 < every }
        requires clock { clock < self.sources }
        requires order { first ≤ last }
        requires last { last < 2 ^ 63 }
        ensures some { IfSome result (λ ticks. (rows : List ℕ) → IsSpan first last rows → IsTicks self.sources self.ties every clock rows ticks) }
        ensures in_range { IsSome result → (time : ℕ) → IsNextTick self.sources self.ties every clock last time
            → time ≤ greatest_time self.sources self.ties }
        ensures none { IfNone result ((time : ℕ) → IsNextTick self.sources self.ties every clock last time
            → greatest_time self.sources self.ties < time) }
    {
        let from = self.next_tick(every, clock, first)?;
        let to = self.next_tick(every, clock, last)?;
        Some(Ticks::new(from, every, (to - from) / every + 1))
    }

    /// How many ticks a clock has among rows whose first and last moments in order are these; none where the last tick's time is above
    /// the greatest.
    pub fn count_of_ticks(self, every: u64, clock: u64, first: u64, last: u64) -> Option<u64>
        requires every { 0 < every }
        requires clock { clock < self.sources }
        requires order { first ≤ last }
        requires last { last < 2 ^ 63 }
        ensures some { IfSome result (λ count. (rows ticks : List ℕ) → IsSpan first last rows
            → IsTicks self.sources self.ties every clock rows ticks → length ticks ≡ count) }
        ensures in_range { IsSome result → (time : ℕ) → IsNextTick self.sources self.ties every clock last time
            → time ≤ greatest_time self.sources self.ties }
        ensures none { IfNone result ((time : ℕ) → IsNextTick self.sources self.ties every clock last time
            → greatest_time self.sources self.ties < time) }
    {
        let ticks = self.ticks(every, clock, first, last)?;
        Some(ticks.count())
    }

    /// The ticks of a clock above one moment and not above another.
    pub fn ticks_between(self, every: u64, clock: u64, low: u64, high: u64) -> Ticks
        requires every { 0 < every }
        requires clock { clock < self.sources }
        requires low { low < 2 ^ 63 }
        requires high { high < 2 ^ 63 }
        ensures { AreBetween self.sources self.ties every clock low high result }
    {
        let end = self.first_time(clock, high);
        let Some(from) = self.first_time(clock, low).checked_next_multiple_of(every) else {
            return Ticks::new(0, every, 0);
        };
        if from < end {
            Ticks::new(from, every, (end - 1 - from) / every + 1)
        } else {
            Ticks::new(0, every, 0)
        }
    }

    /// Of the ticks of a clock among rows whose first and last moments in order are these, those above one time and up to another, where these are
    /// given; none where the time of the last tick among the rows is above the greatest.
    pub fn ticks_inside(
        self,
        every: u64,
        clock: u64,
        first: u64,
        last: u64,
        above: Option<u64>,
        end: Option<u64>,
    ) -> Option<Ticks>
        requires every { 0 < every }
        requires clock { clock < self.sources }
        requires order { first ≤ last }
        requires last { last < 2 ^ 63 }
        ensures some { IfSome result (λ ticks. (rows : List ℕ) → IsSpan first last rows
            → ticks ≡ filter (is_inside above end) (ticks_among self.sources self.ties every clock rows)) }
        ensures none { IfNone result ((time : ℕ) → IsNextTick self.sources self.ties every clock last time
            → greatest_time self.sources self.ties < time) }
    {
        let to = self.next_tick(every, clock, last)?;
        let low = match above {
            None => first,
            Some(time) => {
                if time >= to {
                    return Some(Ticks::new(0, every, 0));
                }
                first.max(self.border(time))
            }
        };
        let until = end.unwrap_or(to).min(to);
        let high = self.moment(until, clock, 0);
        Some(self.ticks_between(every, clock, low, high))
    }

    // The first time at which a tick of the clock is above a moment.
    fn first_time(self, clock: u64, moment: u64) -> u64
        requires clock { clock < self.sources }
        requires moment { moment < 2 ^ 63 }
        ensures { (time : ℕ) → (moment < tick_moment self.sources self.ties clock time) ↔ (result ≤ time) }
    {
        let time = self.time_of(moment);
        if moment < (time * self.sources + clock) * self.ties {
            time
        } else {
            time + 1
        }
    }
}
