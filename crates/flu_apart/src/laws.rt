//! Laws of the subtrees of nodes, on which running them apart rests. Each law is the contract of a function that does nothing.

ghost use Rattle.flu_apart.specs.Laws.{ReasonsAreOne, ContributedInOneMode, SubtreesContribute, KeptIsLeft};

/// A node has one first reason why it may not be apart, and none if it may.
pub fn reasons_are_one()
    ensures { ReasonsAreOne }
{}

/// An event of the subtree of a node that may be apart changes a cell that the subtree does not keep only by adding to it or raising it,
/// and reads none of them: what it emits and what it does to each cell depend on the kept cells alone.
pub fn subtrees_contribute()
    ensures { SubtreesContribute }
{
    flu_laws::updates_are_local();
    flu_laws::updates_are_changes();
    flu_laws::changes_keep_to_modes();
}

/// An event outside the subtree of a node neither changes nor reads a cell that the subtree keeps.
pub fn kept_is_left()
    ensures { KeptIsLeft }
{
    flu_laws::updates_are_local();
    flu_laws::updates_are_changes();
    flu_laws::changes_keep_to_modes();
}

/// The tags of a subtree that contribute to a cell all add to it, or all raise it, since a family has one sort.
pub fn contributed_in_one_mode()
    ensures { ContributedInOneMode }
{}
