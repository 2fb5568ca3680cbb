//! What a case needs of its job and plan alone.

ghost use Rattle.std.specs.Prelude.{IfOk};
ghost use Rattle.flu_deps.specs.Checking.{program_of};
ghost use Rattle.flu_deps.specs.Validated.{plan_of, IsValidFor};
ghost use Rattle.flu_fork.specs.Tables.{AreTreeTablesOf};

use crate::rights::{Right, rights};
use flu_deps::{Checked, Valid};
use flu_tables::Tables;
use std::alloc::{AllocError, Global};

/// What a [`Case`](crate::Case) needs of its job and plan, whatever its streams are: for each node with children the cells that go to
/// the right one, and the tables of the job and the plan.
///
/// A case gives it back, so a run in rounds computes it once and not anew in each round.
#[derive(Drop)]
pub struct TreeTables {
    pub(crate) rights: Vec<Right>,
    pub(crate) tables: Tables,
}

impl TreeTables {
    /// What a case needs of a job and a plan that is valid for it.
    ///
    /// # Errors
    ///
    /// Only if memory runs out.
    pub fn new(alloc: Global, c: &Checked, v: &Valid) -> Result<TreeTables, AllocError>
        requires { IsValidFor (program_of c.now) v.now }
        ensures { IfOk result (AreTreeTablesOf (program_of c.now) (plan_of v.now).nodes) }
    {
        Ok(TreeTables {
            rights: rights(alloc, c.program(), v)?,
            tables: Tables::new(alloc, c, v)?,
        })
    }
}
