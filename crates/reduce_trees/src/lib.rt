//! The machine of the modes that reduce trees: rounds of a walk over what is left of a tree, whose trees
//! are asked as texts.
//!
//! What a round tries of a tree is the walk's ([`TreeWalk`](reduce_walk::TreeWalk)): in mode `perses`
//! read `reduce_perses/specs/Visit.antt`; which of these trees are asked, and as which texts, is
//! in `reduce_trees_mode/specs/Listed.antt`. Enter by [`TreeParts::new`] and [`tree_reducer`], or
//! [`perses_reducer`] and [`hdd_reducer`] in their modes. What never changes is in [`TreeParts`], which
//! is lent; [`TreeRound`] has the walk, and what is tried now (`specs/Fields.antt`). What a reduction
//! asks and what it ends with are in `specs/Ends.antt`, for any walk. What a reader believes is
//! `specs/TreeRounds.antt`: over a verdict on every text a round is the recursion `visit_end` in mode
//! `perses`, and `levels_end` in mode `hdd`. The reductions are those of these recursions
//! ([`perses_is_its_recursion`], [`hdd_is_its_recursion`]).
#![tactic(auto)]

mod candidate;
mod ends;
mod laws;
mod modes;
mod parts;
mod reducer;
mod start_text;
mod tree_round;
mod trial;

pub use ends::{walks_ask_candidates, walks_begin, walks_end_minimal};
pub use faults::Memory;
pub use laws::{walks_are_lawful, walks_try_edits};
pub use modes::{
    hdd_is_its_recursion, hdd_reducer, hdd_round, hdd_rounds_are_levels, perses_is_its_recursion,
    perses_reducer, perses_round, perses_rounds_are_visits,
};
pub use parts::{HasInput, TreeParts};
pub use reducer::{TreeReducer, tree_reducer};
pub use tree_round::TreeRound;
