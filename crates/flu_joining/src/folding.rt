//! The combined fold with its queues, event by event.

ghost use Rattle.std.specs.Prelude.{◌≡◌, ◌<◌, not, position, OnOk, if◌then◌else◌};
ghost use Rattle.std.specs.List.{filter};
ghost use Rattle.flu_contribution.specs.Laws.{AreInRange};
ghost use Rattle.flu_model.specs.Itags.{count_of_itags};
ghost use Rattle.flu_contribution.specs.Combining.{with_effect, with_first, without_first};
ghost use Rattle.flu_contribution.specs.Parts.{combined_of, program_of};
ghost use Rattle.flu_contribution.specs.Sending.{is_due, with_due, without_due, with_last, joined_from};
ghost use Rattle.flu_joining.specs.Joining.{is_last_alone, waiting_behind};
ghost use Rattle.flu_joining.specs.Parts.{waiting_in, waiting_in_each, has_itag};

use crate::queue::Queue;
use flu_contribution::Combining;
use flu_deps::nodes::MAX_ITAGS;
use flu_model::Event;
use std::alloc::AllocError;

// Joins the first that waits, if one does.
fn join_first(fold: &mut Combining, queue: &mut Queue) -> Result<(), AllocError>
    ensures combined { OnOk result (combined_of fold.new ≡ with_first (combined_of fold.old) (waiting_in queue.old)) }
    ensures queue { OnOk result (waiting_in queue.new ≡ without_first (waiting_in queue.old)) }
    ensures job { program_of fold.new ≡ program_of fold.old }
{
    match queue.pop() {
        Some(k) => fold.join(k),
        None => Ok(()),
    }
}

// Joins the first that waits, if it is due before an event.
fn join_if_due(fold: &mut Combining, queue: &mut Queue, y: &Event) -> Result<(), AllocError>
    ensures combined { OnOk result (combined_of fold.new
        ≡ (if is_due (waiting_in queue.old) y.now then with_first (combined_of fold.old) (waiting_in queue.old) else combined_of fold.old)) }
    ensures queue { OnOk result (waiting_in queue.new
        ≡ (if is_due (waiting_in queue.old) y.now then without_first (waiting_in queue.old) else waiting_in queue.old)) }
    ensures job { program_of fold.new ≡ program_of fold.old }
{
    if queue.is_due(y) {
        join_first(fold, queue)
    } else {
        Ok(())
    }
}

// Joins what is due before an event in each queue.
fn join_due(fold: &mut Combining, queues: &mut Vec<Queue>, y: &Event) -> Result<(), AllocError>
    ensures combined { OnOk result (combined_of fold.new ≡ with_due y.now (combined_of fold.old) (waiting_in_each queues.old.items)) }
    ensures queues { OnOk result (waiting_in_each queues.new.items ≡ without_due y.now (waiting_in_each queues.old.items)) }
    ensures job { program_of fold.new ≡ program_of fold.old }
{
    for i in 0..queues.len() {
        join_if_due(fold, &mut queues[i], y)?;
    }
    Ok(())
}

// Does an event that is inside none of the nodes, once what is due before it is joined.
fn join_event(fold: &mut Combining, queues: &mut Vec<Queue>, y: &Event) -> Result<(), AllocError>
    requires { y.now.itag.0 < count_of_itags (program_of fold.old) }
    ensures combined { OnOk result (combined_of fold.new
        ≡ with_effect (program_of fold.old) (with_due y.now (combined_of fold.old) (waiting_in_each queues.old.items)) y.now) }
    ensures queues { OnOk result (waiting_in_each queues.new.items ≡ without_due y.now (waiting_in_each queues.old.items)) }
    ensures job { program_of fold.new ≡ program_of fold.old }
{
    join_due(fold, queues, y)?;
    fold.outside(y)
}

// Does the events whose itag a table has, with what is due before each. What is still to be joined at the end gives the fold of all.
pub(crate) fn join_events(
    fold: &mut Combining,
    queues: &mut Vec<Queue>,
    table: &[bool; MAX_ITAGS],
    events: &[Event],
) -> Result<(), AllocError>
    requires { AreInRange (program_of fold.old) events.now }
    ensures combined { OnOk result (with_last (combined_of fold.new) (waiting_in_each queues.new.items)
        ≡ joined_from (program_of fold.old) (combined_of fold.old) (waiting_in_each queues.old.items) (filter (has_itag table.now) events.now)) }
    ensures queues { OnOk result (waiting_in_each queues.new.items
        ≡ waiting_behind (waiting_in_each queues.old.items) (filter (has_itag table.now) events.now)) }
    ensures job { program_of fold.new ≡ program_of fold.old }
{
    for event in events {
        if table[event.itag.0 as usize] {
            join_event(fold, queues, event)?;
        }
    }
    Ok(())
}

// Joins the first that waits in each queue, at the end.
pub(crate) fn join_last(fold: &mut Combining, queues: &mut Vec<Queue>) -> Result<(), AllocError>
    ensures combined { OnOk result (combined_of fold.new ≡ with_last (combined_of fold.old) (waiting_in_each queues.old.items)) }
{
    for i in 0..queues.len() {
        join_first(fold, &mut queues[i])?;
    }
    Ok(())
}

// The place of the first queue that is not used up.
pub(crate) fn first_left_over(queues: &[Queue]) -> Option<usize>
    ensures { result ≡ position (λ q. not (is_last_alone (waiting_in q))) queues.now }
{
    queues.iter().position(|queue| !queue.is_last_alone())
}
