//! What a tree of workers works on.

ghost use Rattle.std.specs.Prelude.{◌≡◌, length};
ghost use Rattle.flu_model.specs.Itags.{count_of_itags};
ghost use Rattle.flu_model.specs.Listed.{listed};
ghost use Rattle.flu_model.specs.Sorts.{IsStateOf};
ghost use Rattle.flu_deps.specs.Checking.{program_of};
ghost use Rattle.flu_deps.specs.Validated.{plan_of, IsValidFor};
ghost use Rattle.flu_cells.specs.Holding.{held};
ghost use Rattle.flu_tables.specs.Tables.{AreTablesOf};
ghost use Rattle.flu_fork.specs.Tables.{AreTables};

use crate::note::CaseNote;
use crate::rights::Right;
use crate::tree_tables::TreeTables;
use flu_cells::State;
use flu_deps::{Checked, Valid};
use flu_model::Streams;
use flu_tables::Tables;
use std::alloc::{AllocError, Global};
use std::marker::Model;
use std::snapshot::Snapshot;

/// An accepted job with a plan that is valid for it and with streams, all borrowed, and the opening state; and, computed once, for
/// each node with children the cells that go to the right one, and the tables of the job and the plan.
#[derive(Drop)]
pub struct Case<'a> {
    checked: &'a Checked,
    valid: &'a Valid,
    streams: &'a Streams,
    opening: State,
    rights: Vec<Right>,
    tables: Tables,
    ghost of_job: { IsValidFor (program_of checked.now) valid.now },
    ghost one_each: { length (listed streams.now) ≡ count_of_itags (program_of checked.now) },
    ghost opening_sorts: { ∥ IsStateOf (program_of checked.now).families (held opening) ∥₁ },
    ghost rights_are: { AreTables (program_of checked.now) (plan_of valid.now).nodes rights.items },
    ghost tables_are: { ∥ AreTablesOf (program_of checked.now) (plan_of valid.now).nodes tables ∥₁ },
}

impl<'a> Model for Case<'a> {
    ghost use Rattle.flu_fork.specs.declared.content.Content.{Content};

    ghost Value = { Content };

    ghost use Rattle.std.specs.Coded.{codes};
    ghost use Rattle.flu_fork.specs.contracts.content.Content as e;

    ghost coded = { Prim.hlevel (codes, e.the_row.coded) };

    ghost view = { λ a. record {
      checked = a.checked.now;
      valid = a.valid.now;
      streams = a.streams.now;
      opening = a.opening;
      of_job = a.of_job;
      one_each =
          a.one_each;
      opening_sorts = a.opening_sorts;
    } };
}

impl<'a> Case<'a> {
    ghost use Rattle.std.specs.Prelude.{ℕ, ◌<◌, Some, IfOk};
    ghost use Rattle.flu_fork.specs.Tables.{IsRightAt, AreTreeTablesOf};
    ghost use Rattle.flu_fork.specs.Lots.{IsCaseOf, job, nodes};

    /// The case of a job, a plan that is valid for it, its streams and the opening state.
    ///
    /// # Errors
    ///
    /// Only if memory runs out.
    pub fn new(
        alloc: Global,
        c: &'a Checked,
        v: &'a Valid,
        s: &'a Streams,
        opening: State,
    ) -> Result<Case<'a>, AllocError>
        requires of { IsValidFor (program_of c.now) v.now }
        requires one_each { length (listed s.now) ≡ count_of_itags (program_of c.now) }
        requires sorts { IsStateOf (program_of c.now).families (held opening) }
        ensures { IfOk result (IsCaseOf c.now v.now s.now opening) }
    {
        let tables = TreeTables::new(alloc, c, v)?;
        Ok(Case::with(tables, c, v, s, opening))
    }

    /// The same case, with what was computed of the job and the plan before. It takes no memory.
    pub fn with(
        tables: TreeTables,
        c: &'a Checked,
        v: &'a Valid,
        s: &'a Streams,
        opening: State,
    ) -> Case<'a>
        requires of { IsValidFor (program_of c.now) v.now }
        requires tables { AreTreeTablesOf (program_of c.now) (plan_of v.now).nodes tables }
        requires one_each { length (listed s.now) ≡ count_of_itags (program_of c.now) }
        requires sorts { IsStateOf (program_of c.now).families (held opening) }
        ensures { IsCaseOf c.now v.now s.now opening result }
    {
        let TreeTables { rights, tables } = tables;
        Case {
            checked: c,
            valid: v,
            streams: s,
            opening,
            rights,
            tables,
        }
    }

    /// What was computed of the job and the plan, for another case of both. It takes no memory.
    pub fn into_tables(self) -> TreeTables
        ensures { AreTreeTablesOf (job self.entry) (nodes self.entry) result }
    {
        let Case { rights, tables, .. } = self;
        TreeTables { rights, tables }
    }

    /// The job.
    pub fn checked(&self) -> &Checked
        ensures { result.now ≡ self.now.checked }
    {
        self.checked
    }

    /// The plan.
    pub fn valid(&self) -> &Valid
        ensures { result.now ≡ self.now.valid }
    {
        self.valid
    }

    /// The streams of the job's itags.
    pub fn streams(&self) -> &Streams
        ensures { result.now ≡ self.now.streams }
    {
        self.streams
    }

    /// The state at the start.
    pub fn opening(&self) -> &State
        ensures { result.now ≡ self.now.opening }
    {
        &self.opening
    }

    /// Which itags the nodes and their ancestors own, and which itags depend on each other.
    pub fn tables(&self) -> &Tables
        ensures { AreTablesOf (job self.now) (nodes self.now) result.now }
    {
        &self.tables
    }

    /// The content of the case, in a value that borrows nothing. It takes no memory.
    pub fn note(&self) -> CaseNote
        ensures { result ≡ self.now }
    {
        CaseNote {
            checked: Snapshot::of(self.checked()),
            valid: Snapshot::of(self.valid()),
            streams: Snapshot::of(self.streams()),
            opening: Snapshot::of(self.opening()),
        }
    }

    /// What goes to the right child of a node.
    pub(crate) fn right(&self, node: u32) -> &Right
        requires { node < length (nodes self.now) }
        ensures { IsRightAt (job self.now) (nodes self.now) node result.now }
    {
        match self.rights.get(node as usize) {
            Some(right) => right,
            None => unreachable!(),
        }
    }
}
