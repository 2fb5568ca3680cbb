//! The content of a case, for contracts alone.

ghost use Rattle.std.specs.Prelude.{◌≡◌, length};
ghost use Rattle.flu_model.specs.Itags.{count_of_itags};
ghost use Rattle.flu_model.specs.Listed.{listed};
ghost use Rattle.flu_model.specs.Sorts.{IsStateOf};
ghost use Rattle.flu_deps.specs.Checking.{program_of};
ghost use Rattle.flu_deps.specs.Validated.{IsValidFor};
ghost use Rattle.flu_cells.specs.Holding.{held};

use flu_cells::State;
use flu_deps::{Checked, Valid};
use flu_model::Streams;
use std::marker::Model;
use std::snapshot::Snapshot;

/// The content of a case, for contracts alone. It takes no room and borrows nothing.
///
/// A `Case` borrows a job, a plan and streams, so what keeps a case has their lifetime. Workers and the links between them only
/// have to say for which case they are: they keep this in its place, and so may be handed to threads and held in tables.
#[derive(Drop)]
pub struct CaseNote {
    pub(crate) checked: Snapshot<Checked>,
    pub(crate) valid: Snapshot<Valid>,
    pub(crate) streams: Snapshot<Streams>,
    pub(crate) opening: Snapshot<State>,
    pub(crate) ghost of_job: { IsValidFor (program_of checked.value) valid.value },
    pub(crate) ghost one_each: { length (listed streams.value) ≡ count_of_itags (program_of checked.value) },
    pub(crate) ghost opening_sorts: { ∥ IsStateOf (program_of checked.value).families (held opening.value) ∥₁ },
}

impl Model for CaseNote {
    ghost use Rattle.flu_fork.specs.declared.content.Content.{Content};
    ghost use Rattle.std.specs.Coded.{codes};
    ghost use Rattle.flu_fork.specs.contracts.content.Content as e;

    ghost Value = { Content };

    ghost coded = { Prim.hlevel (codes, e.the_row.coded) };

    ghost view = { λ n. record {
      checked = n.checked.value;
      valid = n.valid.value;
      streams = n.streams.value;
      opening = n.opening.value;
      of_job = n.of_job;
      one_each = n.one_each;
      opening_sorts = n.opening_sorts;
    } };
}
