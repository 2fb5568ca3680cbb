//! The units in which times are counted.

ghost use Rattle.std.specs.Prelude.{◌≡◌, ◌-◌, ◌^◌};
ghost use Rattle.std.specs.Int.{IsInRange};
ghost use Rattle.flu_calendar.specs.Units.{units_in_second, times_end};

/// What a time counts from 1970-01-01T00:00:00 UTC on.
#[derive(Clone, Copy, Debug)]
pub enum Unit {
    Seconds,
    Milliseconds,
    Microseconds,
}

impl Unit {
    /// How many units a second has: 1, 1,000 or 1,000,000.
    #[inline]
    pub fn in_second(self) -> u64
        ensures { result ≡ units_in_second self }
    {
        match self {
            Unit::Seconds => 1,
            Unit::Milliseconds => 1_000,
            Unit::Microseconds => 1_000_000,
        }
    }
}

/// The days from 1970-01-01 to 10000-01-01.
const DAYS_END: u64 = 2_932_897;

/// The first time after the year 9999: every time that a text says is below it.
#[inline]
pub fn times_end(unit: Unit) -> u64
    ensures value { result ≡ times_end unit }
    ensures range { IsInRange 1 (2 ^ 63 - 1) result }
{
    DAYS_END * 86_400 * unit.in_second()
}
