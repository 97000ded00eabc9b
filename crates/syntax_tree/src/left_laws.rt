//! What follows of what edits leave. Each law is a function that does nothing: a caller calls it so
//! that its proof has the law.

ghost use Rattle.syntax_tree.specs.LeftLaws.{LeavesInSpan, LeavesKeepKinds, LeftIsPart, LeftIsReflexive, LeftIsTransitive, NodesAreLeft};

/// A tree is left of itself.
pub fn left_is_reflexive()
    ensures { LeftIsReflexive }
{}

/// What is left of what is left of a tree is left of the tree.
pub fn left_is_transitive()
    ensures { LeftIsTransitive }
{}

/// What is left has some of the numbers and some of the leaves, in their order.
pub fn left_is_part()
    ensures { LeftIsPart }
{}

/// The leaves that are left of a tree of all tokens have the kinds that their tokens have.
pub fn leaves_keep_kinds()
    ensures { LeavesKeepKinds }
{}

/// What is left at a node is left of what was there.
pub fn nodes_are_left()
    ensures { NodesAreLeft }
{}

/// The leaves below a node that is left are those that are left of all tokens in the node's span.
pub fn leaves_in_span()
    ensures { LeavesInSpan }
{}
