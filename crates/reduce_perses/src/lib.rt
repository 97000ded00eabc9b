//! Rounds of mode `perses` over what is left of a parsed tree: the heaviest node that waits is visited,
//! and after it the next one (Sun, Li, Zhang, Gu and Su: "Perses: Syntax-Guided Program Reduction", 2018).
//! Texts, and which of them may be asked, are no matter of this crate.
//!
//! Read `specs/Visit.antt` first: by the form of the visited node's rule its elements, its content or its
//! compatible descendants are tried. `specs/VisitEnd.antt` says the same as a recursion over a verdict on
//! every text. Which nodes wait is in `specs/Queued.antt`, which descendants are compatible in
//! `descend_replace`, and rounds that were worked out by hand are in `specs/Worked.antt`. What follows is in
//! `specs/Laws.antt`, each law with a function of its name. Only trees for the slot are tried
//! ([`tries_kept_trees`]), and a round without a yes has tried each single edit ([`tries_single_edits`]).
//!
//! [`TreeVisits`] is the machine; enter by [`TreeVisits::new`]. Contracts see what is left of the tree and
//! what is still tried (`specs/inner/Visiting.antt`).
#![tactic(auto)]

mod content;
mod descendants;
mod elements;
mod laws;
mod tree_visits;
mod visit;
mod waiting;

pub use faults::Memory;
pub use laws::{
    loses_leaves, round_begins, rounds_end_by_visits, rounds_go_by_visits,
    tries_edits_and_selections, tries_kept_trees, tries_single_edits, visits_go_on, worked_rounds,
};
pub use tree_visits::TreeVisits;
