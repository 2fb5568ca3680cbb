//! The laws of an accepted job: its state may be kept in parts, and independent events may come in either order.

ghost use Rattle.flu_deps.specs.Checking.{program_of};
ghost use Rattle.flu_laws.specs.Consistency.{UpdatesLeft, UpdatesRight, JoinsSplits, Commutes};
ghost use Rattle.flu_laws.specs.Lawful.{IsLawful};

use crate::Checked;

/// Update of a part: updating one part of a state and then joining the parts is the same as joining them and then updating, if the
/// other part is neutral at the cells that the event's tag needs.
pub fn update_of_a_part(checked: &Checked)
    ensures left { UpdatesLeft (program_of checked.now) }
    ensures right { UpdatesRight (program_of checked.now) }
{
    flu_laws::update_of_a_part();
}

/// Independent updates commute: two events of independent tags give the same state in both orders, and each gives the same texts.
pub fn independent_updates_commute(checked: &Checked)
    ensures { Commutes (program_of checked.now) }
{
    flu_laws::independent_updates_commute();
}

/// Join undoes split: if some cells of a state are moved to another part and others are copied to it, the parts join to the
/// state once the copies are dropped.
pub fn join_undoes_split(_checked: &Checked)
    ensures { JoinsSplits }
{
    flu_laws::join_undoes_split();
}

/// The job has everything that the worker tree requires of a job.
pub fn lawful(checked: &Checked)
    ensures { IsLawful (program_of checked.now) }
{
    flu_laws::accepted_is_lawful();
}
