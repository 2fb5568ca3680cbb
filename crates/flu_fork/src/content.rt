//! What contracts see of a case.

ghost use Rattle.std.specs.Prelude.{◌≡◌, length};
ghost use Rattle.flu_model.specs.Itags.{count_of_itags};
ghost use Rattle.flu_model.specs.Listed.{listed};
ghost use Rattle.flu_model.specs.Sorts.{IsStateOf};
ghost use Rattle.flu_deps.specs.Checking.{program_of};
ghost use Rattle.flu_deps.specs.Validated.{IsValidFor};
ghost use Rattle.flu_cells.specs.Holding.{held};

use flu_cells::State;
use flu_deps::{Checked, Valid};
use flu_model::Streams;

/// An accepted job with a plan that is valid for it, a stream for each of its itags, and an opening state with values of the
/// job's sorts.
///
/// It is what contracts see of a `Case`. No value of it is made.
#[derive(Drop)]
pub struct Content {
    /// The job.
    pub checked: Checked,
    /// The plan.
    pub valid: Valid,
    /// For each itag its items.
    pub streams: Streams,
    /// The state at the start.
    pub opening: State,
    pub ghost of_job: { IsValidFor (program_of checked) valid },
    pub ghost one_each: { length (listed streams) ≡ count_of_itags (program_of checked) },
    pub ghost opening_sorts: { ∥ IsStateOf (program_of checked).families (held opening) ∥₁ },
}
