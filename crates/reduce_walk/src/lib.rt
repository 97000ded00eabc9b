//! What walks a tree in the rounds of a reduction, whatever the mode: what is left of the tree, and what
//! a round still tries of it.
//!
//! A mode's machine implements [`TreeWalk`]; what the rounds of a mode owe is in `specs/Rounds.antt`.
//! `specs/WorkedTrees.antt` has the trees of rounds that were worked out by hand.
//! Texts, and which of them may be asked, are no matter of this crate.
#![tactic(auto)]

mod walk;

pub use faults::Memory;
pub use walk::TreeWalk;
