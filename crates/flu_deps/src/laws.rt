//! Laws about conflicts, trees and owners. Each law is the contract of a function that does nothing.

ghost use Rattle.flu_deps.specs.Dependencies.{ConflictIsMutual};
ghost use Rattle.flu_deps.specs.Owners.{ItagsAreOwned};
ghost use Rattle.flu_deps.specs.Trees.{ChildrenAreLater, TreesAreRooted, PathsGoUp, SubtreesAreOfChildren, NodesAreOrdered, NodesAreApart};

/// Of two tags each conflicts with the other on a cell, or neither does.
pub fn conflict_is_mutual()
    ensures { ConflictIsMutual }
{}

/// How the nodes of a tree relate to each other: which are children, parents and ancestors, and what is below a node.
pub fn plans_are_trees()
    ensures children { ChildrenAreLater }
    ensures parents { TreesAreRooted }
    ensures paths { PathsGoUp }
    ensures subtrees { SubtreesAreOfChildren }
    ensures order { NodesAreOrdered }
    ensures apart { NodesAreApart }
{}

/// In a valid plan each itag has an owner, and no other node owns it.
pub fn itags_are_owned()
    ensures { ItagsAreOwned }
{}
