//! What the thread of a batch is lent and gives may be shared or sent.

ghost use Rattle.std.specs.Thread.{IsSend, IsSync};
ghost use Rattle.flu_deps.specs.contracts.checked.Checked as CheckedRow;
ghost use Rattle.flu_deps.specs.contracts.valid.Valid as ValidRow;
ghost use Rattle.flu_fork.specs.contracts.tree_tables.TreeTables as TablesRow;
ghost use Rattle.flu_cells.specs.contracts.state.State as StateRow;
ghost use Rattle.flu_model.specs.contracts.jobs.Act as ActRow;
ghost use Rattle.flu_model.specs.contracts.jobs.Kind as KindRow;
ghost use Rattle.flu_model.specs.contracts.jobs.Program as ProgramRow;
ghost use Rattle.flu_model.specs.contracts.streams.Streams as StreamsRow;
ghost use Rattle.flu_adaptive.specs.contracts.ways.Way as WayRow;

use crate::ways::Way;
use flu_cells::State;
use flu_deps::{Checked, Valid};
use flu_fork::TreeTables;
use flu_model::{Act, Kind, Program, Streams};

// Threads may share values of the type.
fn is_shared<T: Sync>()
    ensures { IsSync T.row }
{}

// A thread may be given values of the type.
fn is_sent<T: Send>()
    ensures { IsSend T.row }
{}

// Each of these is a step of the one after it.
fn acts_are_shared()
    ensures { IsSync ActRow.the_row }
{
    is_shared::<Act>();
}

fn kinds_are_shared()
    ensures { IsSync KindRow.the_row }
{
    acts_are_shared();
    is_shared::<Kind>();
}

/// Threads may share the program of a job.
pub fn programs_are_shared()
    ensures { IsSync ProgramRow.the_row }
{
    kinds_are_shared();
    is_shared::<Program>();
}

/// Threads may share an accepted job.
pub(crate) fn jobs_are_shared()
    ensures { IsSync CheckedRow.the_row }
{
    kinds_are_shared();
    is_shared::<Checked>();
}

/// Threads may share a valid plan, and may be given one.
pub(crate) fn plans_are_sent()
    ensures shared { IsSync ValidRow.the_row }
    ensures sent { IsSend ValidRow.the_row }
{
    is_shared::<Valid>();
    is_sent::<Valid>();
}

/// Threads may share streams.
pub(crate) fn streams_are_shared()
    ensures { IsSync StreamsRow.the_row }
{
    is_shared::<Streams>();
}

/// A thread may be given a state.
pub(crate) fn states_are_sent()
    ensures { IsSend StateRow.the_row }
{
    is_sent::<State>();
}

/// A thread may be given what the tree needs of a job and a plan.
pub(crate) fn tables_are_sent()
    ensures { IsSend TablesRow.the_row }
{
    is_sent::<TreeTables>();
}

/// A thread may be given the way in which a batch is run.
pub(crate) fn ways_are_sent()
    ensures { IsSend WayRow.the_row }
{
    plans_are_sent();
    tables_are_sent();
    is_sent::<Way>();
}
