//! The fold of the update over the events of streams.

ghost use Rattle.std.specs.Prelude.{◌≡◌, length, IfOk};
ghost use Rattle.flu_model.specs.Folding.{final_state, final_outputs};
ghost use Rattle.flu_model.specs.Itags.{count_of_itags};
ghost use Rattle.flu_model.specs.Listed.{listed};
ghost use Rattle.flu_cells.specs.Holding.{held};

use crate::coming::Coming;
use flu_cells::State;
use flu_model::{Outs, Program, Streams};
use flu_step::update;
use std::alloc::{AllocError, Global};

/// The fold of all events of the streams from an opening state: the final state, and the outputs in the order of the
/// merged list (`docs/MODEL.md`). The streams have one list for each itag of the job.
///
/// Each event is done as it comes, so the merged list takes no memory.
pub fn fold(
    alloc: Global,
    p: &Program,
    opening: State,
    s: &Streams,
) -> Result<(State, Outs), AllocError>
    requires { length (listed s.now) ≡ count_of_itags p.now }
    ensures state { IfOk result (λ r. held r.0 ≡ final_state p.now (held opening) (listed s.now)) }
    ensures outputs { IfOk result (λ r. r.1 ≡ final_outputs p.now (held opening) (listed s.now)) }
{
    let mut coming = Coming::of(alloc, p, s)?;
    let mut state = opening;
    let mut outs = Outs::of(Vec::new(alloc));
    while let Some(event) = coming.next()? {
        update(alloc, p, &mut state, &event, &mut outs)?;
    }
    Ok((state, outs))
}
