//! What is said on standard error before a run and at its end.
//!
//! Enter by [`warnings`], which looks for what will go wrong, and by [`ending_text`], which says what the
//! status means here: which file, where in it, the system's own reason, and what to do. Neither changes
//! anything, and no contract says what a person reads.
#![tactic(auto)]

mod ending;
mod files;
mod script;
mod warning;

pub use ending::{Ending, Reasons, ending_text};
pub use script::LastAsk;
pub use warning::warnings;
