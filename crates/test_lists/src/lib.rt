//! Tests of delta debugging beside the plain recursions that it is: over a list, and over the lines of a
//! text, whose reducer asks it.
//!
//! A machine is asked and answered by a rule, and so is the recursion. Both have to ask the same in the
//! same order, and to end with the same. The guards of these tests and of those of reducers are here too.
#![tactic(auto)]

mod guards;
#[cfg(test)]
mod tests;

pub use faults::Memory;
pub use guards::{KeepsLine, guard_of};
