//! Threads of a run may share what a case borrows.

ghost use Rattle.std.specs.Thread.{IsSync};
ghost use Rattle.flu_deps.specs.contracts.checked.Checked as CheckedRow;
ghost use Rattle.flu_deps.specs.contracts.valid.Valid as ValidRow;
ghost use Rattle.flu_model.specs.contracts.jobs.Act as ActRow;
ghost use Rattle.flu_model.specs.contracts.jobs.Kind as KindRow;
ghost use Rattle.flu_model.specs.contracts.streams.Streams as StreamsRow;

use flu_deps::{Checked, Valid};
use flu_model::{Act, Kind, Streams};

// Threads may share values of the type.
fn shared<T: Sync>(x: &T)
    ensures { IsSync T.row }
{
    let _x = x;
}

// The same of a type alone.
fn is_shared<T: Sync>()
    ensures { IsSync T.row }
{}

// Each of these is a step of the one after it.
fn acts_are_shared()
    ensures { IsSync ActRow.the_row }
{
    is_shared::<Act>();
}

fn kinds_are_shared()
    ensures { IsSync KindRow.the_row }
{
    acts_are_shared();
    is_shared::<Kind>();
}

/// Threads may share an accepted job.
pub fn jobs_are_shared(checked: &Checked)
    ensures { IsSync CheckedRow.the_row }
{
    let _checked = checked;
    kinds_are_shared();
    is_shared::<Checked>();
}

/// Threads may share a valid plan.
pub fn plans_are_shared(valid: &Valid)
    ensures { IsSync ValidRow.the_row }
{
    shared(valid)
}

/// Threads may share streams.
pub fn streams_are_shared(streams: &Streams)
    ensures { IsSync StreamsRow.the_row }
{
    shared(streams)
}
