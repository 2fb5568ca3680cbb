//! How many steps of each kind a run has.

ghost use Rattle.std.specs.Prelude.{◌≡◌, ◌+◌, ◌^◌, ◌<◌};
ghost use Rattle.flu_live.specs.Counting.{steps_in};
ghost use Rattle.flu_live.specs.Seeded.{counting, no_steps};

use flu_net::Step;

/// How many steps of each kind a run has (`Step` of `flu_net`).
#[derive(Clone, Copy, PartialEq, Eq, Debug)]
pub struct StepCounts {
    pub arrive: u128,
    pub handle: u128,
    pub ask: u128,
    pub take: u128,
    pub give: u128,
    pub hold: u128,
    pub lend: u128,
}

impl StepCounts {
    /// No steps.
    pub(crate) fn none() -> StepCounts
        ensures { result ≡ no_steps }
    {
        StepCounts {
            arrive: 0,
            handle: 0,
            ask: 0,
            take: 0,
            give: 0,
            hold: 0,
            lend: 0,
        }
    }

    /// Counts one more step.
    pub(crate) fn count(&mut self, s: Step)
        requires { steps_in self.old + 1 < 2 ^ 128 }
        ensures { self.new ≡ counting s self.old }
    {
        match s {
            Step::Arrive(_) => self.arrive += 1,
            Step::Handle(_) => self.handle += 1,
            Step::Ask(_, _) => self.ask += 1,
            Step::Take(_, _) => self.take += 1,
            Step::Give(_) => self.give += 1,
            Step::Hold(_) => self.hold += 1,
            Step::Lend(_, _) => self.lend += 1,
        }
    }
}
