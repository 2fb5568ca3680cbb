//! The time that a text says.

ghost use Rattle.std.specs.Prelude.{◌≡◌, ◌+◌, ◌*◌, ◌<◌, ◌≤◌, ℕ, length, IfSome, IfNone, drop};
ghost use Rattle.flu_calendar.specs.Units.{units_in_second, times_end};
ghost use Rattle.flu_calendar.specs.Texts.{IsTimeText, IsFraction, units_in_fraction};
ghost use Rattle.flu_calendar.specs.Places.{HasTwo, HasDay, HasClock, SaysFraction, IsWithoutZone};
ghost use Rattle.flu_calendar.specs.TimeInText.{time_in_text};

use crate::date::{day_of, is_date};
use crate::unit::Unit;

/// The bytes of a date, a separator and a time of day.
const SECOND_LEN: usize = 19;

/// The most digits that a fraction may have.
const MOST_DIGITS: usize = 9;

/// The time that a text says, in a unit: `None` exactly for a text that says none. The crate's page states the rule.
pub fn read_time(unit: Unit, bytes: &[u8]) -> Option<u64>
    ensures says { IfSome result (λ t. IsTimeText unit bytes.now t) }
    ensures says_none { IfNone result ((t : ℕ) → ¬ IsTimeText unit bytes.now t) }
    ensures value { result ≡ time_in_text unit bytes.now }
    ensures below_end { IfSome result (λ t. t < times_end unit) }
{
    if bytes.len() < SECOND_LEN {
        return None;
    }
    let day = day_in(bytes)?;
    let second = clock_in(bytes)?;
    let fraction = fraction_in(unit, &bytes[SECOND_LEN..])?;
    Some((u64::from(day) * 86_400 + u64::from(second)) * unit.in_second() + fraction)
}

// The day of the date that a text begins with.
#[inline]
fn day_in(bytes: &[u8]) -> Option<u32>
    requires { 19 ≤ length bytes.now }
    ensures some { IfSome result (λ n. HasDay bytes.now n) }
    ensures none { IfNone result ((n : ℕ) → ¬ HasDay bytes.now n) }
    ensures below_end { IfSome result (λ n. n < 2932897) }
{
    let century = two_digits(bytes, 0)?;
    let year_in_century = two_digits(bytes, 2)?;
    let month = two_digits(bytes, 5)?;
    let day = two_digits(bytes, 8)?;
    let year = century * 100 + year_in_century;
    if bytes[4] != b'-' || bytes[7] != b'-' || !is_date(year, month, day) {
        return None;
    }
    Some(day_of(year, month, day))
}

// The seconds after midnight that stand behind a date, with the separator before them.
#[inline]
fn clock_in(bytes: &[u8]) -> Option<u32>
    requires { 19 ≤ length bytes.now }
    ensures some { IfSome result (λ n. HasClock bytes.now n) }
    ensures none { IfNone result ((n : ℕ) → ¬ HasClock bytes.now n) }
    ensures in_day { IfSome result (λ n. n < 86400) }
{
    let hour = two_digits(bytes, 11)?;
    let minute = two_digits(bytes, 14)?;
    let second = two_digits(bytes, 17)?;
    if bytes[10] != b'T' && bytes[10] != b' ' {
        return None;
    }
    if bytes[13] != b':' || bytes[16] != b':' || hour > 23 || minute > 59 || second > 59 {
        return None;
    }
    Some(hour * 3600 + minute * 60 + second)
}

// The number whose two digits stand from a place on.
#[inline]
fn two_digits(bytes: &[u8], at: usize) -> Option<u32>
    requires { at + 1 < length bytes.now }
    ensures some { IfSome result (λ n. HasTwo bytes.now at n) }
    ensures none { IfNone result ((n : ℕ) → ¬ HasTwo bytes.now at n) }
{
    let tens = bytes[at];
    let ones = bytes[at + 1];
    if tens.is_ascii_digit() && ones.is_ascii_digit() {
        Some(u32::from(tens - b'0') * 10 + u32::from(ones - b'0'))
    } else {
        None
    }
}

// The units of what follows the seconds: a fraction and a zone, each if wanted.
#[inline]
fn fraction_in(unit: Unit, rest: &[u8]) -> Option<u64>
    ensures some { IfSome result (λ n. SaysFraction unit rest.now n) }
    ensures none { IfNone result ((n : ℕ) → ¬ SaysFraction unit rest.now n) }
    ensures less { IfSome result (λ n. n < units_in_second unit) }
{
    match without_zone(rest) {
        [] => Some(0),
        [b'.', digits @ ..] => digits_in(unit, digits),
        _ => None,
    }
}

// What is before the zone, if there is one.
#[inline]
fn without_zone(rest: &[u8]) -> &[u8]
    ensures { IsWithoutZone rest.now result.now }
{
    match rest {
        [body @ .., b'Z'] => body,
        _ => rest,
    }
}

// The units of a fraction with these digits, which are one to nine.
#[inline]
fn digits_in(unit: Unit, digits: &[u8]) -> Option<u64>
    ensures some { IfSome result (λ n. IsFraction digits.now × (1 ≤ length digits.now) × (n ≡ units_in_fraction unit digits.now)) }
    ensures none { IfNone result (IsFraction digits.now → length digits.now ≡ 0) }
    ensures less { IfSome result (λ n. n < units_in_second unit) }
{
    if digits.is_empty() || digits.len() > MOST_DIGITS {
        return None;
    }
    let mut units = 0u64;
    let mut weight = unit.in_second();
    for digit in digits {
        if !digit.is_ascii_digit() {
            return None;
        }
        weight /= 10;
        units += u64::from(*digit - b'0') * weight;
    }
    Some(units)
}
