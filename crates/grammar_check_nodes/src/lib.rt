//! Nodes that are numbers from 0: those to which edges and paths lead, those on cycles, and tables of
//! those that pass a test by what the table says of others.
//!
//! [`first_on_cycle`] gives the first node from which a path leads back to it; read `IsOnCycle` in
//! `specs/Graph.antt` first. [`least_table`] gives the least table that is closed under a [`Test`]; read
//! `IsMarked` in `specs/Marking.antt` first. A [`Condition`] says where a term of an alternative holds:
//! by these the nodes are looked at in an order for which linear time is enough.
#![tactic(auto)]

mod cycles;
mod flags;
mod graph;
mod horn;
mod marking;

pub use cycles::{first_on_cycle, reached_from};
pub use faults::Memory;
pub use flags::is_flagged;
pub use graph::targets;
pub use horn::Condition;
pub use marking::{Test, least_table};
