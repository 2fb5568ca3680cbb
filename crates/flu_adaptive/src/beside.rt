//! A batch that is run in a thread of its own, beside other work on the calling thread.

ghost use Rattle.std.specs.Prelude.{◌≡◌, length, IfOk, IfSome, IsSome};
ghost use Rattle.std.specs.List.Sorted.{IsPermutation};
ghost use Rattle.std.specs.Thread.{IsSync};
ghost use Rattle.flu_model.specs.Folding.{final_state, final_outputs};
ghost use Rattle.flu_model.specs.Itags.{count_of_itags};
ghost use Rattle.flu_model.specs.Listed.{listed};
ghost use Rattle.flu_model.specs.Sorts.{IsStateOf};
ghost use Rattle.flu_cells.specs.Holding.{held};
ghost use Rattle.flu_deps.specs.Checking.{program_of};
ghost use Rattle.flu_deps.specs.Validated.{plan_of, IsValidFor};
ghost use Rattle.flu_fork.specs.Tables.{AreTreeTablesOf};
ghost use Rattle.flu_adaptive.specs.Ways.{IsWayOf};

use crate::crossing::{
    jobs_are_shared, plans_are_sent, states_are_sent, streams_are_shared, tables_are_sent,
    ways_are_sent,
};
use crate::ways::{Way, in_way};
use flu_cells::State;
use flu_deps::{Checked, Valid};
use flu_fork::TreeTables;
use flu_model::{Outs, Streams};
use flu_seq::{Engine, Gate};
use std::alloc::{AllocError, Global};
use std::sync::Wait;
use std::thread::{Threads, join_mut};

/// What the thread of a batch is given.
#[derive(Drop)]
pub(crate) struct Given<B> {
    pub(crate) tables: Option<TreeTables>,
    pub(crate) way: Way,
    pub(crate) backup: B,
    pub(crate) opening: State,
}

/// What it gives: the state and the outputs, and what it was lent.
pub(crate) type Gives<B> = (
    Result<(State, Outs), AllocError>,
    B,
    Option<TreeTables>,
    Way,
);

/// The same as `in_way`, in a thread of its own, while `meanwhile` is called once on the calling thread. If the thread is refused, the
/// batch is run on the calling thread after that.
pub(crate) fn in_way_beside<
    G: Gate,
    R: Threads + Wait + Sync,
    B: Engine<R> + Send + Drop,
    T,
    M: FnMut() -> T,
>(
    rt: &R,
    alloc: Global,
    checked: &Checked,
    valid: &Valid,
    given: Given<B>,
    gate: &G,
    s: &Streams,
    meanwhile: &mut M,
) -> (Gives<B>, T)
    requires valid { IsValidFor (program_of checked.now) valid.now }
    requires tables { IfSome given.tables (AreTreeTablesOf (program_of checked.now) (plan_of valid.now).nodes) }
    requires way { IsWayOf (program_of checked.now) given.way }
    requires backup { B.program_of given.backup ≡ program_of checked.now }
    requires lists { length (listed s.now) ≡ count_of_itags (program_of checked.now) }
    requires sorts { IsStateOf (program_of checked.now).families (held given.opening) }
    requires meanwhile { M.pre meanwhile.old }
    ensures state { IfOk result.0.0 (λ r. held r.0 ≡ final_state (program_of checked.now) (held given.opening) (listed s.now)) }
    ensures sorts { IfOk result.0.0 (λ r. IsStateOf (program_of checked.now).families (held r.0)) }
    ensures outputs { IfOk result.0.0 (λ r. IsPermutation (final_outputs (program_of checked.now) (held given.opening) (listed s.now)) r.1) }
    ensures backup { B.program_of result.0.1 ≡ program_of checked.now }
    ensures tables { IfSome result.0.2 (AreTreeTablesOf (program_of checked.now) (plan_of valid.now).nodes) }
    ensures way { IsWayOf (program_of checked.now) result.0.3 }
    ensures meanwhile { M.step meanwhile.old result.1 meanwhile.new }
{
    jobs_are_shared();
    plans_are_sent();
    streams_are_shared();
    states_are_sent();
    tables_are_sent();
    ways_are_sent();
    let mut given = Some(given);
    let mut work = || -> Option<Gives<B>>
        requires { IsSync R.row × IsSync G.row × IsValidFor (program_of checked.now) valid.now × (length (listed s.now) ≡ count_of_itags (program_of checked.now))
            × IfSome given (λ g. IfSome g.tables (AreTreeTablesOf (program_of checked.now) (plan_of valid.now).nodes) × IsWayOf (program_of checked.now) g.way
            × (B.program_of g.backup ≡ program_of checked.now) × IsStateOf (program_of checked.now).families (held g.opening)) }
        ensures { IfSome given.entry (λ g. IsSome result × IfSome result (λ r.
            IfOk r.0 (λ done. (held done.0 ≡ final_state (program_of checked.entry.now) (held g.opening) (listed s.entry.now))
            × IsStateOf (program_of checked.entry.now).families (held done.0)
            × IsPermutation (final_outputs (program_of checked.entry.now) (held g.opening) (listed s.entry.now)) done.1)
            × (B.program_of r.1 ≡ program_of checked.entry.now)
            × IfSome r.2 (AreTreeTablesOf (program_of checked.entry.now) (plan_of valid.entry.now).nodes)
            × IsWayOf (program_of checked.entry.now) r.3)) }
    {
        let Given {
            tables,
            way,
            backup,
            opening,
        } = given.take()?;
        Some(in_way(
            rt, alloc, checked, valid, tables, way, gate, backup, opening, s,
        ))
    };
    let (gives, told) = join_mut(rt, &mut work, meanwhile);
    (gives.unwrap(), told)
}
