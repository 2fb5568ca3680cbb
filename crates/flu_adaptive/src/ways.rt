//! The ways in which a batch is run.

ghost use Rattle.std.specs.Prelude.{◌≡◌, length, IfOk, IfSome};
ghost use Rattle.std.specs.List.Sorted.{IsPermutation};
ghost use Rattle.flu_model.specs.Folding.{final_state, final_outputs};
ghost use Rattle.flu_model.specs.Itags.{count_of_itags};
ghost use Rattle.flu_model.specs.Listed.{listed};
ghost use Rattle.flu_model.specs.Sorts.{IsStateOf};
ghost use Rattle.flu_cells.specs.Holding.{held};
ghost use Rattle.flu_deps.specs.Checking.{program_of};
ghost use Rattle.flu_deps.specs.Validated.{plan_of, IsValidFor};
ghost use Rattle.flu_fork.specs.Tables.{AreTreeTablesOf};
ghost use Rattle.flu_adaptive.specs.Ways.{IsPlannedFor, IsWayOf};

use flu_cells::State;
use flu_deps::{Checked, Valid};
use flu_fork::TreeTables;
use flu_model::{Outs, Streams};
use flu_run::{TreeEngine, fall_back};
use flu_seq::{Engine, Gate};
use std::alloc::{AllocError, Global};
use std::sync::Wait;
use std::thread::Threads;

/// A plan, and what the tree needs of it and the job, once a batch was run by it.
#[derive(Drop)]
pub(crate) struct Planned {
    pub(crate) valid: Valid,
    pub(crate) tables: Option<TreeTables>,
}

/// How a batch is run.
#[derive(Drop)]
pub(crate) enum Way {
    /// On the tree of threads of the plan in force.
    InForce,
    /// On the tree of threads of this plan.
    Planned(Planned),
    /// By the backup alone, on the calling thread.
    Alone,
}

// Runs a batch on the tree of threads of a plan, and gives back the backup and what the tree needs of the job and the plan.
fn on_tree<G: Gate, R: Threads + Wait + Sync, B: Engine<R>>(
    rt: &R,
    alloc: Global,
    checked: &Checked,
    valid: &Valid,
    tables: Option<TreeTables>,
    gate: &G,
    backup: B,
    opening: State,
    s: &Streams,
) -> (Result<(State, Outs), AllocError>, B, Option<TreeTables>)
    requires valid { IsValidFor (program_of checked.now) valid.now }
    requires tables { IfSome tables (AreTreeTablesOf (program_of checked.now) (plan_of valid.now).nodes) }
    requires backup { B.program_of backup ≡ program_of checked.now }
    requires lists { length (listed s.now) ≡ count_of_itags (program_of checked.now) }
    requires sorts { IsStateOf (program_of checked.now).families (held opening) }
    ensures state { IfOk result.0 (λ r. held r.0 ≡ final_state (program_of checked.now) (held opening) (listed s.now)) }
    ensures sorts { IfOk result.0 (λ r. IsStateOf (program_of checked.now).families (held r.0)) }
    ensures outputs { IfOk result.0 (λ r. IsPermutation (final_outputs (program_of checked.now) (held opening) (listed s.now)) r.1) }
    ensures backup { B.program_of result.1 ≡ program_of checked.now }
    ensures tables { IfSome result.2 (AreTreeTablesOf (program_of checked.now) (plan_of valid.now).nodes) }
{
    let Ok(tables) = tables_of(alloc, checked, valid, tables) else {
        return (Err(AllocError), backup, None);
    };
    let mut engine = TreeEngine::new(checked, valid, gate, backup);
    let (ran, tables) = engine.batch_with(rt, alloc, tables, opening, s);
    (ran, engine.backup, Some(tables))
}

// What the tree needs of a job and a plan: what an earlier batch had, or computed now.
fn tables_of(
    alloc: Global,
    checked: &Checked,
    valid: &Valid,
    tables: Option<TreeTables>,
) -> Result<TreeTables, AllocError>
    requires valid { IsValidFor (program_of checked.now) valid.now }
    requires tables { IfSome tables (AreTreeTablesOf (program_of checked.now) (plan_of valid.now).nodes) }
    ensures { IfOk result (AreTreeTablesOf (program_of checked.now) (plan_of valid.now).nodes) }
{
    match tables {
        Some(tables) => Ok(tables),
        None => TreeTables::new(alloc, checked, valid),
    }
}

// Runs a batch on the tree of threads of a plan that was chosen, and gives back the backup and the plan.
fn by_plan<G: Gate, R: Threads + Wait + Sync, B: Engine<R>>(
    rt: &R,
    alloc: Global,
    checked: &Checked,
    planned: Planned,
    gate: &G,
    backup: B,
    opening: State,
    s: &Streams,
) -> (Result<(State, Outs), AllocError>, B, Planned)
    requires planned { IsPlannedFor (program_of checked.now) planned }
    requires backup { B.program_of backup ≡ program_of checked.now }
    requires lists { length (listed s.now) ≡ count_of_itags (program_of checked.now) }
    requires sorts { IsStateOf (program_of checked.now).families (held opening) }
    ensures state { IfOk result.0 (λ r. held r.0 ≡ final_state (program_of checked.now) (held opening) (listed s.now)) }
    ensures sorts { IfOk result.0 (λ r. IsStateOf (program_of checked.now).families (held r.0)) }
    ensures outputs { IfOk result.0 (λ r. IsPermutation (final_outputs (program_of checked.now) (held opening) (listed s.now)) r.1) }
    ensures backup { B.program_of result.1 ≡ program_of checked.now }
    ensures planned { IsPlannedFor (program_of checked.now) result.2 }
{
    let Planned { valid, tables } = planned;
    let (ran, backup, tables) = on_tree(
        rt, alloc, checked, &valid, tables, gate, backup, opening, s,
    );
    (ran, backup, Planned { valid, tables })
}

// Runs a batch by the backup, and gives it back.
fn alone<R, B: Engine<R>>(
    rt: &R,
    alloc: Global,
    checked: &Checked,
    backup: B,
    opening: State,
    s: &Streams,
) -> (Result<(State, Outs), AllocError>, B)
    requires backup { B.program_of backup ≡ program_of checked.now }
    requires lists { length (listed s.now) ≡ count_of_itags (program_of checked.now) }
    requires sorts { IsStateOf (program_of checked.now).families (held opening) }
    ensures state { IfOk result.0 (λ r. held r.0 ≡ final_state (program_of checked.now) (held opening) (listed s.now)) }
    ensures sorts { IfOk result.0 (λ r. IsStateOf (program_of checked.now).families (held r.0)) }
    ensures outputs { IfOk result.0 (λ r. IsPermutation (final_outputs (program_of checked.now) (held opening) (listed s.now)) r.1) }
    ensures backup { B.program_of result.1 ≡ program_of checked.now }
{
    let _job = checked;
    let mut backup = backup;
    let ran = fall_back(rt, alloc, opening, s, &mut backup);
    (ran, backup)
}

/// Runs a batch in a way, where this plan is in force, and gives back the backup, what the tree needs of the job and the plan in
/// force, and the way, with what it needs of a plan that was chosen.
pub(crate) fn in_way<G: Gate, R: Threads + Wait + Sync, B: Engine<R>>(
    rt: &R,
    alloc: Global,
    checked: &Checked,
    valid: &Valid,
    tables: Option<TreeTables>,
    way: Way,
    gate: &G,
    backup: B,
    opening: State,
    s: &Streams,
) -> (
    Result<(State, Outs), AllocError>,
    B,
    Option<TreeTables>,
    Way,
)
    requires valid { IsValidFor (program_of checked.now) valid.now }
    requires tables { IfSome tables (AreTreeTablesOf (program_of checked.now) (plan_of valid.now).nodes) }
    requires way { IsWayOf (program_of checked.now) way }
    requires backup { B.program_of backup ≡ program_of checked.now }
    requires lists { length (listed s.now) ≡ count_of_itags (program_of checked.now) }
    requires sorts { IsStateOf (program_of checked.now).families (held opening) }
    ensures state { IfOk result.0 (λ r. held r.0 ≡ final_state (program_of checked.now) (held opening) (listed s.now)) }
    ensures sorts { IfOk result.0 (λ r. IsStateOf (program_of checked.now).families (held r.0)) }
    ensures outputs { IfOk result.0 (λ r. IsPermutation (final_outputs (program_of checked.now) (held opening) (listed s.now)) r.1) }
    ensures backup { B.program_of result.1 ≡ program_of checked.now }
    ensures tables { IfSome result.2 (AreTreeTablesOf (program_of checked.now) (plan_of valid.now).nodes) }
    ensures way { IsWayOf (program_of checked.now) result.3 }
{
    match way {
        Way::InForce => {
            let (ran, backup, tables) = on_tree(
                rt, alloc, checked, valid, tables, gate, backup, opening, s,
            );
            (ran, backup, tables, Way::InForce)
        }
        Way::Planned(planned) => {
            let (ran, backup, planned) = by_plan(
                rt, alloc, checked, planned, gate, backup, opening, s,
            );
            (ran, backup, tables, Way::Planned(planned))
        }
        Way::Alone => {
            let (ran, backup) = alone(rt, alloc, checked, backup, opening, s);
            (ran, backup, tables, Way::Alone)
        }
    }
}
