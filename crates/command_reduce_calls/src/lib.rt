//! What the command `reduce` does beside its run, and without a grammar: it makes the guard of what must
//! stay, opens the gates and the journal, and writes the result, once its report is made.
//!
//! Enter by [`guard_of_lines`] or [`guard_of_tokens`], [`open_gates`], [`open_journal`] and [`write_result`]. Read first
//! `specs/Journal.antt`, what may have become of the journal, and then `specs/Calls.antt`, how these calls
//! end.
#![tactic(auto)]

mod name;
mod openings;
mod output;
mod stays;

pub use openings::{OpeningFault, open_gates, open_journal, without_gate};
pub use output::write_result;
pub use stays::{guard_of_lines, guard_of_tokens};
