//! The text that a time is printed as.

ghost use Rattle.std.specs.Prelude.{◌≡◌, ◌+◌, ◌/◌, ◌%◌, ◌<◌, ◌≤◌, ◌++◌, length, OnOk, OnErr, codes};
ghost use Rattle.std.specs.Str.{IsAscii};
ghost use Rattle.std.specs.String.{string_bytes, string_len, string_capacity};
ghost use Rattle.flu_calendar.specs.Calendar.{year_of, month_of, day_in_month};
ghost use Rattle.flu_calendar.specs.Units.{times_end, units_in_second};
ghost use Rattle.flu_calendar.specs.Texts.{time_text, date_text, clock_text, last_digits, printed_fraction};

use crate::date::date_of;
use crate::unit::Unit;
use std::alloc::AllocError;

/// The bytes of the longest printed text, which is one in microseconds.
const LONGEST: usize = 27;

/// Appends the text that a time is printed as to another text. On an error memory is short, and the text is as before. The crate's page
/// states the form.
pub fn push_time(text: &mut String, unit: Unit, time: u64) -> Result<(), AllocError>
    requires { time < times_end unit }
    ensures ok { OnOk result (string_bytes text.new ≡ string_bytes text.old ++ time_text unit time) }
    ensures err { OnErr result (string_bytes text.new ≡ string_bytes text.old) }
{
    text.reserve(LONGEST)?;
    let (second, units) = split(unit, time);
    push_bytes(text, &date_bytes((second / 86_400) as u32));
    push_bytes(text, &clock_bytes((second % 86_400) as u32));
    push_fraction(text, unit, units);
    Ok(())
}

// The whole seconds of a time, and the units that are left.
#[tactic(auto, using(crate::proofs::Printed::second_below))]
fn split(unit: Unit, time: u64) -> (u64, u32)
    requires { time < times_end unit }
    ensures second { result.0 ≡ time / units_in_second unit }
    ensures units { result.1 ≡ time % units_in_second unit }
    ensures below_end { result.0 < 253402300800 }
{
    match unit {
        Unit::Seconds => (time, 0),
        Unit::Milliseconds => (time / 1_000, (time % 1_000) as u32),
        Unit::Microseconds => (time / 1_000_000, (time % 1_000_000) as u32),
    }
}

// The date of a day, and the `T` behind it.
fn date_bytes(day: u32) -> [u8; 11]
    requires { day < 2932897 }
    ensures value { result ≡ date_text (year_of day) (month_of day) (day_in_month day) ++ codes "T" }
{
    let date = date_of(day);
    let tens = date.year / 10;
    let hundreds = tens / 10;
    let (month, day) = (date.month, date.day);
    [
        digit(hundreds / 10),
        digit(hundreds),
        digit(tens),
        digit(date.year),
        b'-',
        digit(month / 10),
        digit(month),
        b'-',
        digit(day / 10),
        digit(day),
        b'T',
    ]
}

// The time of day that is so many seconds after midnight.
fn clock_bytes(clock: u32) -> [u8; 8]
    ensures value { result ≡ clock_text (clock / 3600) (clock / 60 % 60) (clock % 60) }
{
    let hour = clock / 3_600;
    let minute = clock / 60 % 60;
    let second = clock % 60;
    [
        digit(hour / 10),
        digit(hour),
        b':',
        digit(minute / 10),
        digit(minute),
        b':',
        digit(second / 10),
        digit(second),
    ]
}

// Appends a fraction of a second, with all digits of the unit, and the zone.
#[tactic(auto, using(crate::proofs::Printed::fraction_ascii, crate::proofs::Printed::zone_ascii))]
fn push_fraction(text: &mut String, unit: Unit, units: u32)
    requires { string_len text.old + 8 ≤ string_capacity text.old }
    ensures { string_bytes text.new ≡ string_bytes text.old ++ (printed_fraction unit units ++ codes "Z") }
{
    match unit {
        Unit::Seconds => push_bytes(text, b"Z"),
        Unit::Milliseconds => push_bytes(text, &milliseconds(units)),
        Unit::Microseconds => push_bytes(text, &microseconds(units)),
    }
}

// A fraction of so many milliseconds, and the zone.
fn milliseconds(units: u32) -> [u8; 5]
    ensures { result ≡ codes "." ++ last_digits 3 units ++ codes "Z" }
{
    let tens = units / 10;
    [b'.', digit(tens / 10), digit(tens), digit(units), b'Z']
}

// A fraction of so many microseconds, and the zone.
fn microseconds(units: u32) -> [u8; 8]
    ensures { result ≡ codes "." ++ last_digits 6 units ++ codes "Z" }
{
    let tens = units / 10;
    let hundreds = tens / 10;
    let thousands = hundreds / 10;
    let ten_thousands = thousands / 10;
    [
        b'.',
        digit(ten_thousands / 10),
        digit(ten_thousands),
        digit(thousands),
        digit(hundreds),
        digit(tens),
        digit(units),
        b'Z',
    ]
}

// The last digit of a number.
#[inline]
fn digit(n: u32) -> u8
    ensures { result ≡ 48 + n % 10 }
{
    b'0' + (n % 10) as u8
}

// Appends bytes for which a text has room.
#[inline]
fn push_bytes(text: &mut String, bytes: &[u8])
    requires room { string_len text.old + length bytes.now ≤ string_capacity text.old }
    requires ascii { IsAscii bytes.now }
    ensures bytes { string_bytes text.new ≡ string_bytes text.old ++ bytes.now }
    ensures len { string_len text.new ≡ string_len text.old + length bytes.now }
    ensures capacity { string_capacity text.old ≤ string_capacity text.new }
{
    let valid = valid_text(bytes);
    if text.push_str(valid).is_err() {
        unreachable!();
    }
}

// ASCII bytes as text.
#[inline]
#[tactic(auto, using(crate::proofs::Printed::text_of_ascii))]
fn valid_text(bytes: &[u8]) -> &str
    requires { IsAscii bytes.now }
    ensures { result.now ≡ bytes.now }
{
    match std::str::from_utf8(bytes) {
        Ok(valid) => valid,
        Err(_) => unreachable!(),
    }
}
