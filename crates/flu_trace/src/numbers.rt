//! The numbers in a trace.

ghost use Rattle.std.specs.Prelude.{◌≡◌, ◌≢◌, ◌<◌, ℕ, IfSome, IfNone};
ghost use Rattle.std.specs.Fmt.{decimal};

/// The most digits with which a number is written.
const MOST_DIGITS: usize = 3;

/// The number below 1,000 that digits write; the first digit is zero only if it is the only one.
pub(crate) fn number_in(digits: &[u8]) -> Option<u32>
    ensures some { IfSome result (λ n. (n < 1000) × (digits.now ≡ decimal n)) }
    ensures none { IfNone result ((n : ℕ) → n < 1000 → digits.now ≢ decimal n) }
{
    if digits.is_empty() {
        return None;
    }
    if digits.len() > MOST_DIGITS {
        return None;
    }
    if digits.len() > 1 && digits[0] == b'0' {
        return None;
    }
    let mut number = 0u32;
    for digit in digits {
        if !digit.is_ascii_digit() {
            return None;
        }
        number = number
            .saturating_mul(10)
            .saturating_add(u32::from(*digit - b'0'));
    }
    Some(number)
}
