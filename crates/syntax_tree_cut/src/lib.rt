//! Cuts: what is left of a parsed tree after edits.
//!
//! A [`Cut`] has a [`Mark`] for each node of a [`Tree`](syntax_tree::Tree): the node is kept, deleted,
//! or replaced by one below it. An edit marks each node that it deletes or replaces, and takes the
//! tokens that are gone from the list of those that are left. The tree itself is never changed.
//!
//! Read `specs/Cuts.antt` first: `cut_tree` is the plain tree that is left, and `IsCutOf` says what
//! holds of each cut of a tree. An edit gives exactly the tree that was left, with that one edit;
//! `keep_elements` keeps some elements of a list and deletes the others at once, and `keep_nodes` does
//! so with nodes of several lists and optionals (`specs/WithoutNodes.antt`).
#![tactic(auto)]

mod children;
mod cut;
mod laws;
mod mark;
mod occupant;
mod progress;
mod shape;
mod tokens;
mod way;
mod weight_laws;

pub use cut::Cut;
pub use faults::Memory;
pub use mark::Mark;
pub use shape::Shape;
pub use weight_laws::weights_count_leaves;
