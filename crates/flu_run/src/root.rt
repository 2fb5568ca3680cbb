//! Running a case on the tree of threads.

ghost use Rattle.std.specs.Prelude.{◌≡◌, IfOk};
ghost use Rattle.std.specs.List.Sorted.{IsPermutation};
ghost use Rattle.flu_model.specs.Folding.{final_state, final_outputs};
ghost use Rattle.flu_model.specs.Listed.{listed};
ghost use Rattle.flu_model.specs.Sorts.{IsStateOf};
ghost use Rattle.flu_cells.specs.Holding.{held};
ghost use Rattle.flu_fork.specs.Lots.{job};
ghost use Rattle.flu_run.specs.Ended.{EndsWhole, IsWhole};

use crate::backup::fall_back;
use crate::ends::End;
use crate::feeding::{feed_all, limits, words};
use crate::handed::{Done, Ended, Why};
use crate::holder::HasCase;
use crate::laws::laws_below;
use crate::tree::subtree;
use crate::waiting::Parkers;
use flu_cells::State;
use flu_fork::Lot;
use flu_model::{Outs, itag_count};
use flu_seq::{Engine, Gate};
use std::alloc::{AllocError, Global};
use std::sync::Wait;
use std::thread::Threads;

/// Runs the events of a case on a tree of threads, one for each worker of its plan: the root's is the calling thread, which first lets
/// all items arrive (`docs/TREE.md`). The state is the fold's, which holds values of the job's sorts, and the outputs are the fold's in
/// some order.
///
/// Each worker passes the gate before and after each of its updates. It waits for lots and asks by looking again a few times, and then
/// sleeps until a worker beside it hands something to it, or for a tenth of a second.
///
/// If a thread is refused, all workers stop, and the backup, an engine of the same job, runs the batch from a copy of the opening
/// state.
///
/// # Errors
///
/// Only if memory runs out: a worker that runs out of it stops the others.
pub fn run_tree<H: HasCase + Sync, G: Gate, B: Engine<R>, R: Threads + Wait + Sync>(
    rt: &R,
    alloc: Global,
    case: &H,
    gate: &G,
    backup: &mut B,
) -> Result<(State, Outs), AllocError>
    requires { B.program_of backup.old ≡ job (H.content case.now) }
    ensures state { IfOk result (λ r. held r.0 ≡ final_state (job (H.content case.now)) (held (H.content case.now).opening)
        (listed (H.content case.now).streams)) }
    ensures sorts { IfOk result (λ r. IsStateOf (job (H.content case.now)).families (held r.0)) }
    ensures outputs { IfOk result (λ r. IsPermutation (final_outputs (job (H.content case.now)) (held (H.content case.now).opening)
        (listed (H.content case.now).streams)) r.1) }
    ensures same { B.program_of backup.new ≡ B.program_of backup.old }
{
    match run_all(rt, alloc, case, gate) {
        Ended::Done(done) => Ok(taken(case, done)),
        Ended::Cut(Why::Refused) => backed_up(rt, alloc, case, backup),
        Ended::Cut(Why::NoMemory | Why::Stopped) => Err(AllocError),
    }
}

// Feeds all items, and then runs all workers.
fn run_all<H: HasCase + Sync, G: Gate, R: Threads + Wait + Sync>(
    rt: &R,
    alloc: Global,
    holder: &H,
    gate: &G,
) -> Ended
    ensures { EndsWhole (H.content holder.now) result }
{
    laws_below();
    let case = holder.case();
    let itags = itag_count(case.checked().program());
    let Ok(limits) = limits(alloc, case) else {
        return Ended::Cut(Why::NoMemory);
    };
    let Ok((mut feeder, watch)) = words(alloc, limits.as_slice()) else {
        return Ended::Cut(Why::NoMemory);
    };
    let Ok(parkers) = Parkers::new(alloc, case.valid()) else {
        return Ended::Cut(Why::NoMemory);
    };
    feed_all(&mut feeder, limits.as_slice(), itags);
    subtree(
        rt,
        alloc,
        holder,
        gate,
        &parkers,
        0,
        End::Top(case.note()),
        watch,
    )
}

// What the root handed on.
fn taken<H: HasCase>(holder: &H, done: Done) -> (State, Outs)
    requires { IsWhole (H.content holder.now) done.lot done.outs }
    ensures state { held result.0 ≡ final_state (job (H.content holder.now)) (held (H.content holder.now).opening) (listed (H.content holder.now).streams) }
    ensures sorts { IsStateOf (job (H.content holder.now)).families (held result.0) }
    ensures outputs { IsPermutation (final_outputs (job (H.content holder.now)) (held (H.content holder.now).opening) (listed (H.content holder.now).streams))
        result.1 }
{
    laws_below();
    let _holder = holder;
    let Done { lot, outs, .. } = done;
    let Lot { state, .. } = lot;
    (state, outs)
}

// The run of the backup, from a copy of the opening state.
fn backed_up<H: HasCase, B: Engine<R>, R>(
    rt: &R,
    alloc: Global,
    holder: &H,
    backup: &mut B,
) -> Result<(State, Outs), AllocError>
    requires { B.program_of backup.old ≡ job (H.content holder.now) }
    ensures state { IfOk result (λ r. held r.0 ≡ final_state (job (H.content holder.now)) (held (H.content holder.now).opening)
        (listed (H.content holder.now).streams)) }
    ensures sorts { IfOk result (λ r. IsStateOf (job (H.content holder.now)).families (held r.0)) }
    ensures outputs { IfOk result (λ r. IsPermutation (final_outputs (job (H.content holder.now)) (held (H.content holder.now).opening)
        (listed (H.content holder.now).streams)) r.1) }
    ensures same { B.program_of backup.new ≡ B.program_of backup.old }
{
    laws_below();
    let case = holder.case();
    let start = case.opening().copy()?;
    fall_back(rt, alloc, start, case.streams(), backup)
}
