//! The deletable nodes of what is left of a tree, depth by depth: the elements of stars and pluses and
//! the contents of optionals that have a token.
//!
//! Read `specs/Levels.antt` first: `level` says which nodes are deletable at a depth, and `kept_only`
//! what is left where some of them are deleted at once. [`level`] finds them, [`LevelNodes::next`] goes
//! one level down, so that all levels of a tree take time linear in its size, and [`keep_only`] deletes
//! those that aren't kept. What follows of these definitions is in `specs/Laws.antt`, each law with a
//! function of its name. The single deletions of a tree are those of one node of a level
//! ([`single_deletions_are_of_levels`]).
#![tactic(auto)]

mod keeping;
mod laws;
mod level_nodes;
mod nodes;

pub use faults::Memory;
pub use keeping::{can_keep, keep_only};
pub use laws::{
    higher_nodes_stay, keeping_all_keeps_tree, kept_trees_are_left, kept_trees_are_trees,
    single_deletions_are_of_levels, valid_trees_fill_pluses,
};
pub use level_nodes::{LevelNodes, level};
