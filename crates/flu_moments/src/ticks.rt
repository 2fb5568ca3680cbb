//! The ticks of a clock, one by one.

ghost use Rattle.std.specs.Prelude.{◌≡◌, ◌+◌, ◌-◌, ◌*◌, ◌^◌, ◌<◌, [], ◌∷◌, length, slice_get, IfSome, IfNone};
ghost use Rattle.flu_moments.specs.Clocks.{steps};

use std::marker::Model;

/// The times of the ticks that a clock has left, in order. Contracts see it as the list of them.
#[derive(Drop)]
pub struct Ticks {
    time: u64,
    every: u64,
    left: u64,
}

impl Model for Ticks {
    ghost use Rattle.std.specs.Prelude.{ℕ, List, ◌+◌, ◌-◌, ◌*◌, ◌^◌, ◌<◌};
    ghost use Rattle.flu_moments.specs.Clocks.{steps};

    ghost Value = { List ℕ };

    ghost view = { λ t. steps t.time t.every t.left };

    ghost invariant = { λ t. 0 < t.left → t.time + (t.left - 1) * t.every < 2 ^ 63 };
}

impl Ticks {
    /// As many ticks from the first on, each after the one before by `every`.
    pub(crate) fn new(first: u64, every: u64, count: u64) -> Ticks
        requires { 0 < count → first + (count - 1) * every < 2 ^ 63 }
        ensures { result ≡ steps first every count }
    {
        Ticks {
            time: first,
            every,
            left: count,
        }
    }

    /// No ticks.
    pub fn none() -> Ticks
        ensures { result ≡ [] }
    {
        Ticks::new(0, 1, 0)
    }

    /// How many ticks are left.
    pub fn count(&self) -> u64
        ensures { result ≡ length self.now }
    {
        self.left
    }

    /// The time of the tick behind this many others; none where there are no more.
    pub fn get(&self, number: u64) -> Option<u64>
        ensures { result ≡ slice_get self.now number }
    {
        if number < self.left {
            Some(self.time + number * self.every)
        } else {
            None
        }
    }

    /// The time of the next tick, which is then no longer left; none where none is left.
    pub fn next(&mut self) -> Option<u64>
        ensures some { IfSome result (λ time. self.old ≡ time ∷ self.new) }
        ensures none { IfNone result ((self.old ≡ []) × (self.new ≡ [])) }
    {
        if self.left == 0 {
            return None;
        }
        let time = self.time;
        self.left -= 1;
        if self.left > 0 {
            self.time += self.every;
        }
        Some(time)
    }
}
