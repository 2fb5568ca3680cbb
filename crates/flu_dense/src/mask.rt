//! Sets of numbers below 64.

ghost use Rattle.std.specs.Prelude.{◌≡◌, ℕ, ◌<◌, ◌≤◌, ◌==◌, ◌&&◌, ◌||◌, not, true, false, IfSome, IfNone};
ghost use Rattle.flu_dense.specs.Masks.{has};

/// A set of numbers below 64.
#[derive(Clone, Copy)]
pub(crate) struct Mask {
    // The number k is in the set where the bit of 2^k is 1.
    bits: u64,
}

impl Mask {
    /// The set without any number.
    pub(crate) fn none() -> Mask
        ensures { (k : ℕ) → has result k ≡ false }
    {
        Mask { bits: 0 }
    }

    /// Whether a number is in the set.
    pub(crate) fn has(self, k: u32) -> bool
        requires { k < 64 }
        ensures { result ≡ has self k }
    {
        (self.bits >> k) & 1 == 1
    }

    /// The set with a number more.
    pub(crate) fn with(self, k: u32) -> Mask
        requires { k < 64 }
        ensures { (j : ℕ) → has result j ≡ ((j == k) || has self j) }
    {
        Mask {
            bits: self.bits | 1 << k,
        }
    }

    /// The set without a number.
    pub(crate) fn without(self, k: u32) -> Mask
        requires { k < 64 }
        ensures { (j : ℕ) → j < 64 → has result j ≡ (not (j == k) && has self j) }
    {
        Mask {
            bits: self.bits & !(1 << k),
        }
    }

    /// The set, without a number if that is gone.
    pub(crate) fn without_if(self, k: u32, gone: bool) -> Mask
        requires { k < 64 }
        ensures { (j : ℕ) → j < 64 → has result j ≡ (not ((j == k) && gone) && has self j) }
    {
        if gone { self.without(k) } else { self }
    }

    /// The least number of the set that is at least `from`.
    pub(crate) fn next(self, from: u32) -> Option<u32>
        requires { from < 64 }
        ensures found { IfSome result (λ k. (from ≤ k) × (k < 64) × (has self k ≡ true)) }
        ensures least { IfSome result (λ k. (j : ℕ) → from ≤ j → j < k → has self j ≡ false) }
        ensures none { IfNone result ((j : ℕ) → from ≤ j → j < 64 → has self j ≡ false) }
    {
        let rest = self.bits & (u64::MAX << from);
        if rest == 0 {
            None
        } else {
            Some(rest.trailing_zeros())
        }
    }
}
