//! The laws on which the promise of a subtree rests.

ghost use Rattle.flu_run.specs.LawsBelow.{LawsBelow};

/// The laws of plans, of lots and of texts.
pub fn laws_below()
    ensures { LawsBelow }
{
    flu_deps::laws::plans_are_trees();
    flu_fork::laws::contents_are_settings();
    flu_fork::laws::itags_are_of_nodes();
    flu_fork::laws::fitting_states_have_sorts();
    flu_fork::laws::last_lots_join();
    flu_fork::laws::texts_are_counted();
    flu_fork::laws::texts_end();
}
