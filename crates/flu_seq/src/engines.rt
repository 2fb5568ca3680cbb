//! Engines: whatever gives the fold's state and its outputs in some order.

ghost use Rattle.std.specs.Prelude.{◌≡◌, length, IfOk};
ghost use Rattle.std.specs.List.Sorted.{IsPermutation};
ghost use Rattle.flu_model.specs.Folding.{final_state, final_outputs};
ghost use Rattle.flu_model.specs.Itags.{count_of_itags};
ghost use Rattle.flu_model.specs.Listed.{listed};
ghost use Rattle.flu_model.specs.Sorts.{IsStateOf};
ghost use Rattle.flu_cells.specs.Holding.{held};

use crate::folding::fold;
use flu_cells::State;
use flu_laws::updates_are_changes;
use flu_model::{Outs, Program, Streams};
use std::alloc::{AllocError, Global};

/// Runs the events of streams from an opening state, for one job that it keeps (`docs/MODEL.md`).
///
/// It runs by a runtime `R`. What the runtime may do is stated at the impl: an engine that folds runs by any and never waits,
/// one of threads by one that may wait.
pub trait Engine<R> {
    ghost use Rattle.flu_model.specs.declared.jobs.Program.{Program};

    /// The job that is run.
    ghost program_of: { Self → Program };

    /// The job that is run. It takes no memory.
    fn program(&self) -> &Program
        ensures { result.now ≡ program_of self.now };

    /// Runs all events of the streams, which have one list for each itag of the job, from a state that holds values of the
    /// job's sorts: the state is the fold's, which holds such values too, and the outputs are the fold's in some order. The
    /// job is the same after a batch as before it.
    fn batch(
        &mut self,
        rt: &R,
        alloc: Global,
        opening: State,
        s: &Streams,
    ) -> Result<(State, Outs), AllocError>
        requires lists { length (listed s.now) ≡ count_of_itags (program_of self.old) }
        requires sorts { IsStateOf (program_of self.old).families (held opening) }
        ensures state { IfOk result (λ r. held r.0 ≡ final_state (program_of self.old) (held opening) (listed s.now)) }
        ensures sorts { IfOk result (λ r. IsStateOf (program_of self.old).families (held r.0)) }
        ensures outputs { IfOk result (λ r. IsPermutation (final_outputs (program_of self.old) (held opening) (listed s.now)) r.1) }
        ensures same { program_of self.new ≡ program_of self.old };
}

/// The plain engine, which folds the merged events one after another.
#[derive(Drop)]
pub struct FoldEngine {
    /// The job that it runs.
    pub program: Program,
}

impl<R> Engine<R> for FoldEngine {
    ghost program_of = { λ e. e.program };

    fn program(&self) -> &Program {
        &self.program
    }

    fn batch(
        &mut self,
        _rt: &R,
        alloc: Global,
        opening: State,
        s: &Streams,
    ) -> Result<(State, Outs), AllocError> {
        updates_are_changes();
        fold(alloc, &self.program, opening, s)
    }
}
