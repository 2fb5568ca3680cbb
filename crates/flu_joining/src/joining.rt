//! What nodes apart sent, joined to the fold of the other events.

ghost use Rattle.std.specs.Prelude.{◌≡◌, true, length, IfOk, OnOk, IfErr};
ghost use Rattle.flu_model.specs.Itags.{count_of_itags};
ghost use Rattle.flu_model.specs.Listed.{listed};
ghost use Rattle.flu_cells.specs.Holding.{held};
ghost use Rattle.flu_deps.specs.Checking.{program_of};
ghost use Rattle.flu_deps.specs.Validated.{plan_of, IsValidFor};
ghost use Rattle.flu_contribution.specs.Sending.{joined_from};
ghost use Rattle.flu_joining.specs.Joining.{are_used_up, events_of_none, nothing_joined, IsFaultOf};
ghost use Rattle.flu_joining.specs.Parts.{waiting_in_each};

use crate::fault::JoinFault;
use crate::folding::{first_left_over, join_events, join_last};
use crate::queue::Queue;
use crate::table::of_none;
use flu_cells::State;
use flu_contribution::Combining;
use flu_deps::{Checked, Valid};
use flu_model::{Outs, Streams};
use flu_seq::merge;
use std::alloc::Global;

/// Joins what nodes apart sent to the fold of the events that are inside none of them, from the empty state: the state and the outputs.
/// A queue has what one node sent. The streams have one list for each itag; their events inside one of the nodes are passed over.
///
/// Before each event the first contribution of each queue is joined if it names the event, by its time and itag, and at the end the one
/// that is left in each. `laws` says when that is the state and the report of all events.
///
/// The time is that of `merge` of `flu_seq`, and for each event that is inside none of the nodes that of the number of queues; and once, for
/// each itag and each of the nodes, that of `is_within` of `flu_deps`.
///
/// # Errors
///
/// `LeftOver` if a queue is not used up, with the first such: behind the last event something else waits in it than one contribution
/// that names no event. `NoMemory` only if memory runs out.
pub fn join_sent(
    alloc: Global,
    c: &Checked,
    v: &Valid,
    nodes_apart: &[u32],
    queues: Vec<Queue>,
    streams: &Streams,
) -> Result<(State, Outs), JoinFault>
    requires valid { IsValidFor (program_of c.now) v.now }
    requires lists { length (listed streams.now) ≡ count_of_itags (program_of c.now) }
    ensures cells { IfOk result (λ r. held r.0 ≡ (joined_from (program_of c.now) nothing_joined (waiting_in_each queues.items)
        (events_of_none (program_of c.now) (plan_of v.now).nodes nodes_apart.now (listed streams.now))).cells) }
    ensures outputs { IfOk result (λ r. r.1 ≡ (joined_from (program_of c.now) nothing_joined (waiting_in_each queues.items)
        (events_of_none (program_of c.now) (plan_of v.now).nodes nodes_apart.now (listed streams.now))).outputs) }
    ensures used_up { OnOk result (are_used_up (waiting_in_each queues.items)
        (events_of_none (program_of c.now) (plan_of v.now).nodes nodes_apart.now (listed streams.now)) ≡ true) }
    ensures left_over { IfErr result (λ e. IsFaultOf (waiting_in_each queues.items)
        (events_of_none (program_of c.now) (plan_of v.now).nodes nodes_apart.now (listed streams.now)) e) }
{
    let mut queues = queues;
    let table = of_none(c.program(), v, nodes_apart);
    let events = merge(alloc, c.program(), streams)?;
    let mut fold = Combining::new(alloc, c.program(), State::new(alloc));
    join_events(&mut fold, &mut queues, &table, events.as_slice())?;
    if let Some(place) = first_left_over(queues.as_slice()) {
        return Err(JoinFault::LeftOver(place));
    }
    join_last(&mut fold, &mut queues)?;
    Ok(fold.end())
}
