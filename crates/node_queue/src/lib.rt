//! The nodes of a tree that wait to be reduced, heaviest first.
//!
//! [`Queue`] is a priority queue over std's `BinaryHeap`. Read `comes_before` and `with_node` in
//! `specs/Waiting.antt` first: a contract sees the list of the nodes in the order in which they are
//! taken out, so that a push puts a node where its weight wants it, and a pop takes the first one.
//! The laws say what is in such a list and that its first node is the heaviest: each is a function
//! that does nothing, which a caller calls so that its proof has the law.
#![tactic(auto)]

mod laws;
mod queue;

pub use faults::Memory;
pub use laws::{has_one_more, next_is_heaviest, stays_in_order};
pub use queue::Queue;
