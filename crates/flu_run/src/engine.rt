//! The engine that runs batches on the tree of threads.

ghost use Rattle.std.specs.Prelude.{◌≡◌, length, IfOk};
ghost use Rattle.std.specs.Coded.{codes};
ghost use Rattle.std.specs.List.Sorted.{IsPermutation};
ghost use Rattle.flu_model.specs.contracts.jobs.Program as p;
ghost use Rattle.flu_model.specs.Folding.{final_state, final_outputs};
ghost use Rattle.flu_model.specs.Itags.{count_of_itags};
ghost use Rattle.flu_model.specs.Listed.{listed};
ghost use Rattle.flu_model.specs.Sorts.{IsStateOf};
ghost use Rattle.flu_cells.specs.Holding.{held};
ghost use Rattle.flu_deps.specs.Checking.{program_of};
ghost use Rattle.flu_deps.specs.Validated.{plan_of, IsValidFor};
ghost use Rattle.flu_fork.specs.Tables.{AreTreeTablesOf};

use crate::root::run_tree;
use crate::sharing::{jobs_are_shared, plans_are_shared, streams_are_shared};
use flu_cells::State;
use flu_deps::{Checked, Valid};
use flu_fork::{Case, TreeTables};
use flu_model::{Outs, Streams};
use flu_seq::{Engine, Gate};
use std::alloc::{AllocError, Global};
use std::marker::PhantomData;
use std::sync::Wait;
use std::thread::Threads;

/// Runs batches on a tree of threads, for an accepted job and a plan that is valid for it, and on the backup, an engine of the same
/// job, if a thread is refused.
///
/// It keeps the promise of an [`Engine`] for any runtime that has threads. It is not itself one, since what the block of an impl is
/// given, such as the gate's calls, may not be passed on to threads.
#[derive(Drop)]
pub struct TreeEngine<'a, G: Gate, R, B: Engine<R>> {
    /// The job.
    pub checked: &'a Checked,
    /// The plan.
    pub valid: &'a Valid,
    /// What each worker passes before and after each of its updates.
    pub gate: &'a G,
    /// What runs a batch if a thread is refused.
    pub backup: B,
    // The runtime that the backup runs on.
    by: PhantomData<R>,
    pub ghost of_job: { IsValidFor (program_of checked.now) valid.now },
    pub ghost same_job: { B.program_of backup ≡ program_of checked.now } by { Prim.hlevel (codes, p.the_row.coded) },
}

impl<'a, G: Gate, R: Threads + Wait + Sync, B: Engine<R>> TreeEngine<'a, G, R, B> {
    /// The engine of a job, a plan that is valid for it, a gate and a backup of the same job. It takes no memory.
    pub fn new(
        checked: &'a Checked,
        valid: &'a Valid,
        gate: &'a G,
        backup: B,
    ) -> TreeEngine<'a, G, R, B>
        requires valid { IsValidFor (program_of checked.now) valid.now }
        requires backup { B.program_of backup ≡ program_of checked.now }
        ensures checked { result.checked.now ≡ checked.now }
        ensures valid { result.valid.now ≡ valid.now }
        ensures backup { result.backup ≡ backup }
    {
        TreeEngine {
            checked,
            valid,
            gate,
            backup,
            by: PhantomData,
        }
    }

    /// Runs all events of the streams, which have one list for each itag of the job, from a state that holds values of the job's
    /// sorts, as [`run_tree`] does: the state is the fold's, which holds such values too, and the outputs are the fold's in some
    /// order. It waits for its threads.
    ///
    /// # Errors
    ///
    /// Only if memory runs out.
    pub fn batch(
        &mut self,
        rt: &R,
        alloc: Global,
        opening: State,
        s: &Streams,
    ) -> Result<(State, Outs), AllocError>
        requires lists { length (listed s.now) ≡ count_of_itags (program_of self.old.checked.now) }
        requires sorts { IsStateOf (program_of self.old.checked.now).families (held opening) }
        ensures state { IfOk result (λ r. held r.0 ≡ final_state (program_of self.old.checked.now) (held opening) (listed s.now)) }
        ensures sorts { IfOk result (λ r. IsStateOf (program_of self.old.checked.now).families (held r.0)) }
        ensures outputs { IfOk result (λ r. IsPermutation (final_outputs (program_of self.old.checked.now) (held opening) (listed s.now)) r.1) }
        ensures same { self.new.checked.now ≡ self.old.checked.now }
    {
        let tables = TreeTables::new(alloc, self.checked, self.valid)?;
        let (ran, _tables) = self.batch_with(rt, alloc, tables, opening, s);
        ran
    }

    /// The same, with what was computed of the job and the plan before, which is given back for the next batch, also if this one fails.
    ///
    /// # Errors
    ///
    /// Only if memory runs out.
    pub fn batch_with(
        &mut self,
        rt: &R,
        alloc: Global,
        tables: TreeTables,
        opening: State,
        s: &Streams,
    ) -> (Result<(State, Outs), AllocError>, TreeTables)
        requires tables { AreTreeTablesOf (program_of self.old.checked.now) (plan_of self.old.valid.now).nodes tables }
        requires lists { length (listed s.now) ≡ count_of_itags (program_of self.old.checked.now) }
        requires sorts { IsStateOf (program_of self.old.checked.now).families (held opening) }
        ensures state { IfOk result.0 (λ r. held r.0 ≡ final_state (program_of self.old.checked.now) (held opening) (listed s.now)) }
        ensures sorts { IfOk result.0 (λ r. IsStateOf (program_of self.old.checked.now).families (held r.0)) }
        ensures outputs { IfOk result.0 (λ r. IsPermutation (final_outputs (program_of self.old.checked.now) (held opening) (listed s.now)) r.1) }
        ensures tables { AreTreeTablesOf (program_of self.old.checked.now) (plan_of self.old.valid.now).nodes result.1 }
        ensures same { self.new.checked.now ≡ self.old.checked.now }
    {
        jobs_are_shared(self.checked);
        plans_are_shared(self.valid);
        streams_are_shared(s);
        let case = Case::with(tables, self.checked, self.valid, s, opening);
        let ran = run_tree(rt, alloc, &case, self.gate, &mut self.backup);
        (ran, case.into_tables())
    }
}
