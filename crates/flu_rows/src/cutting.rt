//! Fields that are read while they are cut off the front of some bytes, so that their bytes are gone through once. These are fields as most
//! are, without quotes: what is none of them may still be a field.

ghost use Rattle.std.specs.Prelude.{◌≡◌, ◌<◌, ◌≤◌, ◌^◌, false, pos, neg_ℤ, slice_index, IfSome, IsTrue};
ghost use Rattle.flu_rows.specs.LoopFields.{is_bare};
ghost use Rattle.flu_rows.specs.Fields.{item_in};
ghost use Rattle.flu_rows.specs.LoopCuts.{StartsWithDigits, CutsTime, CutsTag, CutsNumber};

use crate::fields::{greatest_time, item_in};
use crate::last_name::LastName;
use crate::row::RowForm;
use crate::short_name::ShortName;

/// A number that is less than this is less than 2^63 with one more digit.
const TENTH: u64 = 922_337_203_685_477_580;

/// The greatest key.
const GREATEST_KEY: u64 = 65_535;

/// A number behind a tag, and as an item, if it may be one.
#[derive(Clone, Copy)]
pub(crate) struct Number {
    pub(crate) item: Option<u16>,
    pub(crate) value: i64,
}

/// The time at the front of some bytes, which is digits, and what comes after it.
#[inline(always)]
pub(crate) fn cut_time<'a>(form: &RowForm, bytes: &'a [u8]) -> Option<(u64, &'a [u8])>
    ensures value { IfSome result (λ cut. CutsTime form.now bytes.now cut.0 cut.1.now) }
    ensures range { IfSome result (λ cut. cut.0 < 2 ^ 63) }
{
    let (time, rest) = cut_digits(bytes)?;
    if time > greatest_time(form) || !ends_field(rest) {
        return None;
    }
    Some((time, rest))
}

/// The tag at the front of some bytes, whose name becomes the last one, and what comes after it.
#[inline(always)]
pub(crate) fn cut_tag<'a>(
    last: &mut LastName,
    bytes: &'a [u8],
) -> Option<(ShortName, Option<u32>, &'a [u8])>
    ensures value { IfSome result (λ cut. CutsTag bytes.now cut.0 cut.1 cut.2.now) }
    ensures range { IfSome result (λ cut. IfSome cut.1 (λ k. k ≤ 65535)) }
{
    let (name, rest) = last.name_at_front(bytes)?;
    let [b'[', digits @ ..] = rest else {
        if !ends_field(rest) {
            return None;
        }
        return Some((name, None, rest));
    };
    let (key, rest) = cut_digits(digits)?;
    let [b']', rest @ ..] = rest else {
        return None;
    };
    if key > GREATEST_KEY || !ends_field(rest) {
        return None;
    }
    Some((name, Some(key as u32), rest))
}

/// The number at the front of some bytes, with an optional `-` before it, and what comes after it.
#[inline(always)]
pub(crate) fn cut_number(bytes: &[u8]) -> Option<(Number, &[u8])>
    ensures { IfSome result (λ cut. CutsNumber bytes.now cut.0.item cut.0.value cut.1.now) }
{
    if let [b'-', digits @ ..] = bytes {
        let (size, rest) = cut_digits(digits)?;
        if !ends_field(rest) {
            return None;
        }
        return Some((number_below_zero(size), rest));
    }
    let (size, rest) = cut_digits(bytes)?;
    if !ends_field(rest) {
        return None;
    }
    Some((number_from_zero(size), rest))
}

// The number of this size without a `-`.
fn number_from_zero(size: u64) -> Number
    requires { size < 2 ^ 63 }
    ensures item { result.item ≡ item_in size }
    ensures value { result.value ≡ pos size }
{
    Number {
        item: item_in(size),
        value: size as i64,
    }
}

// The number of this size with a `-`.
fn number_below_zero(size: u64) -> Number
    requires { size < 2 ^ 63 }
    ensures item { result.item ≡ None }
    ensures value { result.value ≡ neg_ℤ (pos size) }
{
    Number {
        item: None,
        value: 0i64.wrapping_sub_unsigned(size),
    }
}

// The number that digits at the front of some bytes write, and what comes after them.
#[inline(always)]
fn cut_digits(bytes: &[u8]) -> Option<(u64, &[u8])>
    ensures value { IfSome result (λ cut. StartsWithDigits bytes.now cut.0 cut.1.now) }
    ensures range { IfSome result (λ cut. cut.0 < 2 ^ 63) }
{
    let mut number = 0u64;
    for (count, byte) in bytes.iter().enumerate() {
        if !byte.is_ascii_digit() {
            if count == 0 {
                return None;
            }
            return Some((number, &bytes[count..]));
        }
        if number >= TENTH {
            return None;
        }
        number = number * 10 + u64::from(*byte - b'0');
    }
    None
}

// Whether a field without quotes ends before these bytes.
#[inline(always)]
fn ends_field(rest: &[u8]) -> bool
    ensures { IsTrue result → is_bare (slice_index rest.now 0) ≡ false }
{
    matches!(rest, [b',' | b'\n' | b'\r', ..])
}
