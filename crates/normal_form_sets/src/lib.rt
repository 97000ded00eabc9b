//! Sets of token kinds, each once and with a number.
//!
//! A [`FoundSets`] has the sets that were found so far and looks the number of a set up by what it
//! lacks; begin with [`FoundSets::new`], and take the [`KindSets`] out of it in the end. The
//! definitions are in `specs/Sets.antt`; read `SetsOfKinds` and `with_each` first.
#![tactic(auto)]

mod found_sets;
mod kind_sets;

pub use faults::Memory;
pub use found_sets::FoundSets;
pub use kind_sets::KindSets;
