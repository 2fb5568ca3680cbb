//! The tables of a job and a plan.

ghost use Rattle.std.specs.Prelude.{◌≡◌, map, IfOk};
ghost use Rattle.flu_model.specs.Owners.{owns, ancestors_own};
ghost use Rattle.flu_deps.specs.Checking.{program_of};
ghost use Rattle.flu_deps.specs.Dependencies.{itags_depend};
ghost use Rattle.flu_deps.specs.Validated.{plan_of, IsValidFor};
ghost use Rattle.flu_tables.specs.LoopTables.{AreTold};

use crate::dependence::{place_of, rows};
use crate::shares::{Share, above_of, own_of, shares};
use flu_deps::laws::plans_are_trees;
use flu_deps::{Checked, Valid};
use flu_model::{Itag, Plan, Program, itag_count};
use std::alloc::{AllocError, Global};
use std::snapshot::Snapshot;

/// Which itags the nodes of a plan and their ancestors own, and which itags of its job depend on each other.
///
/// Making them asks once for each pair of itags whether they depend on each other, and for each node and itag where the itag's
/// owner is. Each look at them takes constant time and no memory.
#[derive(Drop)]
pub struct Tables {
    program: Snapshot<Program>,
    plan: Snapshot<Plan>,
    shares: Vec<Share>,
    /// How many itags there are.
    itags: u32,
    /// One row more than there are itags, and as many places in each: the last is for a number that is no itag's.
    rows: Vec<Vec<bool>>,
    ghost told: { AreTold program.value plan.value.nodes shares.items itags (map (λ row. row.items) rows.items) },
}

impl Tables {
    ghost use Rattle.flu_tables.specs.Lists.{itags_where};
    ghost use Rattle.flu_tables.specs.Tables.{program_in, nodes_in, AreTablesOf};

    /// The tables of a job and a plan that is valid for it.
    ///
    /// # Errors
    ///
    /// Only if memory runs out.
    pub fn new(alloc: Global, c: &Checked, v: &Valid) -> Result<Tables, AllocError>
        requires { IsValidFor (program_of c.now) v.now }
        ensures { IfOk result (AreTablesOf (program_of c.now) (plan_of v.now).nodes) }
    {
        plans_are_trees();
        let p = c.program();
        let shares = shares(alloc, p, v)?;
        let rows = rows(alloc, p)?;
        Ok(Tables {
            program: Snapshot::of(p),
            plan: Snapshot::of(v.plan()),
            shares,
            itags: itag_count(p),
            rows,
        })
    }

    /// The itags that a node owns, by rising number; none if there is no such node.
    pub fn own(&self, w: u32) -> &[Itag]
        ensures { result.now ≡ itags_where (program_in self.now) (owns (program_in self.now) (nodes_in self.now) w) }
    {
        own_of(self.shares.as_slice(), w)
    }

    /// The itags that the proper ancestors of a node own, by rising number; none if there is no such node.
    pub fn above(&self, w: u32) -> &[Itag]
        ensures { result.now ≡ itags_where (program_in self.now) (ancestors_own (program_in self.now) (nodes_in self.now) w) }
    {
        above_of(self.shares.as_slice(), w)
    }

    /// Whether two itags depend on each other.
    pub fn depend(&self, i: Itag, j: Itag) -> bool
        ensures { result ≡ itags_depend (program_in self.now) i j }
    {
        place_of(self.rows.as_slice(), self.itags, i, j)
    }
}
