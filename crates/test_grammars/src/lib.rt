//! Grammars for tests, programs of cases and benches, read from their texts.
//!
//! Begin with [`checked`], which reads a text and checks the grammar that it spells; [`grammars`] has
//! the texts. Read `IsRefused` in `specs/Refused.antt` first. The tests are those of the types of
//! grammars and of the printed faults of a text.
#![tactic(auto)]

pub mod grammars;
mod reading;
#[cfg(test)]
mod tests;

pub use reading::{Refused, checked};
