//! The descendants of a node that can take its position: a regular node of a tree is replaced by one
//! below it whose symbol fits its slot.
//!
//! Read `specs/Compatible.antt` first: `compatible` gives these descendants level by level, and
//! [`compatible`] finds exactly them in what is left of a parsed tree.
#![tactic(auto)]

mod descend;
mod laws;

pub use descend::{compatible, level_order};
pub use faults::Memory;
pub use laws::{fits_in_decides, fits_is_decided, levels_are_children, nullable_in_decides};
