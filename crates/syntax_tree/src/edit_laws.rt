//! What follows of edits. Each law is a function that does nothing: a caller calls it so that its
//! proof has the law.

ghost use Rattle.syntax_tree.specs.EditLaws.{EditsByNumber, LocalEditsAreValid, NodesHaveSlots, OtherNodesStay, SelectedAreValid};
ghost use Rattle.syntax_tree.specs.EditLaws.{SelectionsAreValid, SingleEditsAreTrees, SubtreesAreLeft, SubtreesChange, SubtreesFit};

/// The single edits of a tree are the edits at its nodes, each named by its number.
pub fn edits_by_number()
    ensures { EditsByNumber }
{}

/// A single edit of a tree for a slot gives a tree for the slot.
pub fn single_edits_are_trees()
    ensures { SingleEditsAreTrees }
{}

/// An edit at a node that is valid for its slot gives a tree that is valid for it.
pub fn local_edits_are_valid()
    ensures { LocalEditsAreValid }
{}

/// Some of the elements of a list are valid elements again.
pub fn selected_are_valid()
    ensures { SelectedAreValid }
{}

/// A star or plus with some of its elements is valid for its slot, where a plus keeps at least one.
pub fn selections_are_valid()
    ensures { SelectionsAreValid }
{}

/// Each node of a valid tree has a slot, which it is valid for.
pub fn nodes_have_slots()
    ensures { NodesHaveSlots }
{}

/// A tree that is valid for a node's slot can take the node's position.
pub fn subtrees_fit()
    ensures { SubtreesFit }
{}

/// How the leaves of a tree and their number change where another tree takes a node's position.
pub fn subtrees_change()
    ensures { SubtreesChange }
{}

/// A tree in which something that is left of a node takes the node's position is left of the tree.
pub fn subtrees_are_left()
    ensures { SubtreesAreLeft }
{}

/// The nodes outside the one that is edited keep their slots, and what is below them but for the
/// edit.
pub fn other_nodes_stay()
    ensures { OtherNodesStay }
{}
