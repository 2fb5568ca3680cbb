//! Which nodes of a valid plan may be apart: those whose subtree only contributes to the cells that others use, and has no itag of a clock
//! (`docs/SCALE.md`).
#![tactic(auto)]

ghost use Rattle.std.specs.Prelude.{◌↔◌, ◌<◌, IsOk, IfErr, length};
ghost use Rattle.flu_deps.specs.Checking.{program_of};
ghost use Rattle.flu_deps.specs.Validated.{plan_of, IsValidFor};
ghost use Rattle.flu_apart.specs.Apart.{MayBeApart, IsFirstReason};

mod classes;
pub mod laws;
mod reason;
mod search;

pub use classes::{Class, Subtree, has_ticks};
pub use flu_deps::{Checked, Valid};
pub use reason::{Reason, SharedUse};
use search::first_reason;

/// Whether a node of a plan may be apart: the node's subtree has no itag of a clock, and each cell that a tag of it uses is used by all tags
/// of the subtree that use it in the mode Add or Raise, or is used by no tag of an itag outside the subtree. A family that is meant whole,
/// by an event's item or by `flush` or `clear`, is all its cells.
///
/// # Errors
///
/// The first clock, as declared, whose itag the subtree has; where there is none, the first tag of the subtree that uses a cell which is neither,
/// with the first such cell: tags are in order of their kinds as declared and then their keys, cells of their families and then their keys.
///
/// It takes no memory. Its time is the number of cells that the actions of the itags' tags name, times the number of itags, times the
/// time of `mode` of `flu_deps`.
pub fn apart(c: &Checked, v: &Valid, w: u32) -> Result<(), Reason>
    requires valid { IsValidFor (program_of c.now) v.now }
    requires node { w < length (plan_of v.now).nodes }
    ensures apart { IsOk result ↔ MayBeApart (program_of c.now) (plan_of v.now).nodes w }
    ensures reason { IfErr result (IsFirstReason (program_of c.now) (plan_of v.now).nodes w) }
{
    match first_reason(c, v, w) {
        Some(reason) => Err(reason),
        None => Ok(()),
    }
}
