//! A reduction in any mode, answered by the gates of 1 to 16 workers until it asks nothing more, with
//! its journal.
//!
//! Enter by [`run_to_text`]. Read `specs/Records.antt` first, what the history of a run and its records
//! are, and then `specs/RunEnds.antt`, how a run ends: with the result that the reduction has over the
//! verdicts of the records, or why there is none. What is said there of a mode holds for each input at
//! which the reducer's first plan is that of the mode, so that a caller reads it in the words of its
//! own mode. No text is recorded twice, each verdict is a gate's or is kept from an earlier run, and
//! the gates are asked as often as there are records that aren't kept. The gate of a worker alone is
//! asked for their texts, in their order.
#![tactic(auto)]

mod fault;
mod known;
mod ran;
mod run;
mod workers;

pub use fault::RunFault;
pub use known::Known;
pub use ran::{Ran, Reduced};
pub use run::run_to_text;
