//! What nodes apart contribute, joined at its places, gives the fold (`docs/SCALE.md`): the law, as the contract of a function that does
//! nothing, and the code for a node apart and for the fold that its contributions are joined to.
#![tactic(auto)]

ghost use Rattle.flu_contribution.specs.Laws.{ContributionsGiveTheFold, ContributionsGiveTheRun, ContributionsHavePlaces};

mod combining;
mod contributing;
mod kept;
pub mod laws;

pub use combining::Combining;
pub use contributing::{Contributing, Handed};
pub use kept::take_kept;

/// Of a valid plan of an accepted job take nodes that may be apart, none within another. The fold over the events that are inside none of
/// them, with the contributions of each node joined before the events that an ancestor of the node owns and at the end, has the fold's
/// state, and the fold's outputs in some order. So it is for any list of events, and for the merged events of streams the report is the same.
pub fn contributions_give_the_fold()
    ensures fold { ContributionsGiveTheFold }
    ensures run { ContributionsGiveTheRun }
{
    flu_laws::accepted_is_lawful();
    flu_laws::update_of_a_part();
    flu_deps::laws::plans_are_trees();
    flu_deps::laws::itags_are_owned();
}

/// The contributions of a node of a valid plan are joined before the events that an ancestor of the node owns, one before each, in order,
/// and the last one at the end. Each event of the subtree is counted in one of them.
pub fn contributions_have_places()
    ensures { ContributionsHavePlaces }
{
    flu_deps::laws::plans_are_trees();
    flu_deps::laws::itags_are_owned();
}
