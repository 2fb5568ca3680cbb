//! Running a batch if a thread is refused.

ghost use Rattle.std.specs.Prelude.{◌≡◌, length, IfOk};
ghost use Rattle.std.specs.List.Sorted.{IsPermutation};
ghost use Rattle.flu_model.specs.Folding.{final_state, final_outputs};
ghost use Rattle.flu_model.specs.Itags.{count_of_itags};
ghost use Rattle.flu_model.specs.Listed.{listed};
ghost use Rattle.flu_model.specs.Sorts.{IsStateOf};
ghost use Rattle.flu_cells.specs.Holding.{held};

use flu_cells::State;
use flu_model::{Outs, Streams};
use flu_seq::Engine;
use std::alloc::{AllocError, Global};

/// Runs a batch on the backup, as `run_tree` does if a thread is refused: all events of the streams, which have one list for
/// each itag of the job, from a state that holds values of the job's sorts. The result is as `Engine` promises.
///
/// # Errors
///
/// Only if memory runs out.
pub fn fall_back<B: Engine<R>, R>(
    rt: &R,
    alloc: Global,
    opening: State,
    s: &Streams,
    backup: &mut B,
) -> Result<(State, Outs), AllocError>
    requires lists { length (listed s.now) ≡ count_of_itags (B.program_of backup.old) }
    requires sorts { IsStateOf (B.program_of backup.old).families (held opening) }
    ensures state { IfOk result (λ r. held r.0 ≡ final_state (B.program_of backup.old) (held opening) (listed s.now)) }
    ensures sorts { IfOk result (λ r. IsStateOf (B.program_of backup.old).families (held r.0)) }
    ensures outputs { IfOk result (λ r. IsPermutation (final_outputs (B.program_of backup.old) (held opening) (listed s.now)) r.1) }
    ensures same { B.program_of backup.new ≡ B.program_of backup.old }
{
    backup.batch(rt, alloc, opening, s)
}
