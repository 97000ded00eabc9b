//! Trees over a normal form.
//!
//! [`Tree`] is the tree of an input's tokens, as a list of [`Node`]s. Nothing here recurs as deep as
//! a tree: the recursive trees are definitions.
//!
//! Read `specs/Trees.antt`, `specs/Valid.antt` and `specs/Numbered.antt` first: trees, which are valid
//! for which slots, and how calls name their nodes; then `specs/Edits.antt` and `specs/Left.antt`: the
//! single edits, and what edits can leave. Which tree a parser takes is in `specs/Preferred.antt`, what
//! contracts see of a [`Tree`] in `specs/Nodes.antt`, and the order of descendants in
//! `specs/Levels.antt`. What follows from these is in `specs/Laws.antt`, `NodeLaws.antt`,
//! `EditLaws.antt` and `LeftLaws.antt`, each law with a function of its name. A slot derives the kinds
//! of each tree that is valid for it ([`valid_trees_are_derived`]), and a single edit of a tree for a
//! slot gives a tree for the slot ([`single_edits_are_trees`]).
#![tactic(auto)]

mod edit_laws;
mod laws;
mod left_laws;
mod node;
mod node_laws;
mod tree;

pub use edit_laws::{
    edits_by_number, local_edits_are_valid, nodes_have_slots, other_nodes_stay, selected_are_valid,
    selections_are_valid, single_edits_are_trees, subtrees_are_left, subtrees_change, subtrees_fit,
};
pub use faults::Memory;
pub use laws::{
    elements_have_tokens, numbers_dont_matter, preferred_trees_are_one, preferred_trees_are_valid,
    valid_trees_are_derived,
};
pub use left_laws::{
    leaves_in_span, leaves_keep_kinds, left_is_part, left_is_reflexive, left_is_transitive,
    nodes_are_left,
};
pub use node::Node;
pub use node_laws::{
    levels_are_below, nodes_are_subtrees, numbers_find_subtrees, numbers_follow_tokens,
    subtrees_have_nodes, whole_trees_rise,
};
pub use tree::Tree;
