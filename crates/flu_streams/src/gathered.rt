//! What was read of the sources so far.

ghost use Rattle.std.specs.Prelude.{◌≤◌};

use crate::clocks::Span;
use flu_model::Item;

/// What was read of some sources: the items of each itag, how many items there are, how many sources, and where the job has clocks, the span of the
/// rows.
#[derive(Drop)]
pub(crate) struct Gathered {
    pub(crate) lists: Vec<Vec<Item>>,
    pub(crate) held: u64,
    pub(crate) number: u32,
    pub(crate) span: Option<Span>,
    pub(crate) ghost few: { held ≤ 16777216 },
}
