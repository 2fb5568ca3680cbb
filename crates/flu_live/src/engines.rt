//! The engine that runs on the net.

ghost use Rattle.std.specs.Prelude.{◌^◌, ◌<◌};
ghost use Rattle.flu_deps.specs.Validated.{IsValidFor};
ghost use Rattle.flu_deps.specs.Checking.{program_of as job_of};

use crate::simulating::{Run, simulate};
use flu_cells::State;
use flu_deps::{Checked, Valid};
use flu_fork::Case;
use flu_model::{Outs, Program, Streams};
use flu_seq::Engine;
use std::alloc::{AllocError, Global};

/// The engine that runs a batch on the net of a plan, by the steps that a seed draws (`docs/TREE.md`).
#[derive(Drop)]
pub struct NetEngine<'a> {
    /// The job.
    pub checked: &'a Checked,
    /// A plan that is valid for it.
    pub valid: &'a Valid,
    /// The seed.
    pub seed: u32,
    pub ghost of_job: { IsValidFor (job_of checked.now) valid.now },
    pub ghost small: { seed < 2 ^ 31 },
}

impl<'a, R> Engine<R> for NetEngine<'a> {
    ghost program_of = { λ e. job_of e.checked.now };

    fn program(&self) -> &Program {
        self.checked.program()
    }

    fn batch(
        &mut self,
        _rt: &R,
        alloc: Global,
        opening: State,
        s: &Streams,
    ) -> Result<(State, Outs), AllocError> {
        let case = Case::new(alloc, self.checked, self.valid, s, opening)?;
        let Run { state, outs, .. } = simulate(alloc, &case, self.seed)?;
        Ok((state, outs))
    }
}
