//! Rounds of mode `hdd` over what is left of a tree: hierarchical delta debugging (Misherghi and Su,
//! "HDD: Hierarchical Delta Debugging", 2006). There are no texts here.
//!
//! Read `specs/Round.antt` first: a round goes through the levels of a tree from the root down, and
//! makes a list step over the deletable nodes of each. Which nodes are deletable, and what is left
//! without some of them, is in `hdd_levels/specs/Levels.antt`. The same round as a function of a
//! verdict on every text is in `specs/Followed.antt`; what each tree that is tried comes from is in
//! `specs/Deletions.antt`; rounds of three small trees, each question with its answer, are in
//! `specs/Worked.antt`. What follows is in `specs/Laws.antt`, each law with a function of its name. Only
//! trees for the slot are tried ([`tries_kept_trees`]), and a round without a yes has tried each single
//! deletion ([`tries_single_deletions`]).
//!
//! [`TreeLevels`] is the machine: `level_step` has the list step of one level, and `descent` goes down
//! to the next level that asks something. Read `specs/inner/Walking.antt` for what the fields mean.
#![tactic(auto)]

mod descent;
mod laws;
mod level_step;
mod tree_levels;

pub use faults::Memory;
pub use laws::{
    ends_by_levels, fewer_nodes_are_lighter, goes_by_levels, loses_leaves, tries_kept_trees,
    tries_level_deletions, tries_single_deletions, worked_rounds,
};
pub use tree_levels::TreeLevels;
