//! The trait of reducers: what asks for verdicts on texts, is answered, and says what is ahead of it.
//!
//! A reducer is a [`Step`], whose plan is a finite tree of the texts that it may ask
//! (`specs/Plan.antt`); what it would ask if every answer were no is ahead of it (`specs/Ahead.antt`).
//! [`TreeMode`] names the modes that reduce trees.
#![tactic(auto)]

mod laws;
mod mode;
mod step;

pub use faults::Memory;
pub use laws::ahead_may_be_asked;
pub use mode::TreeMode;
pub use step::{Step, TEXT_LIMIT};
