//! What the parser rules of a grammar use, which of them can be empty, and which can be first in
//! others.
//!
//! Begin with [`empty_bodies`]. Read `is_empty` in `specs/Empty.antt` first.
#![tactic(auto)]

mod bodies;
mod corners;
mod count;
mod empty;
mod empty_rules;
mod loops;
mod recursion;
mod references;
mod rules;

pub use bodies::numbered_bodies;
pub use count::normal_count;
pub use empty_rules::empty_bodies;
pub use faults::Memory;
pub use loops::alts_have_empty_loop;
pub use recursion::{corner_edges, some_rest_can_be_empty};
pub use references::{add_references, references_of};
pub use rules::{Key, rules_by};
