//! Tests of runs of 1, 2, 4 and 16 workers, and the gates with which they are seen to ask at once.
//!
//! The reduction is that of eight lines of which one has a `b` (`src/tests.rt`). However the workers
//! interleave, it comes to that line by the same answers, each gate's asks are counted, and the journal is
//! read back, event by event. A run that has the verdicts of another one's journal comes to the same, and
//! asks for none of these.
//!
//! A [`HoldGate`] answers by a rule, and holds its asks until so many have begun. Enter by
//! [`HoldCount::new`], which all gates of one test share, and [`HoldGate::new`]; read `specs/Held.antt`
//! first. A run over gates of the width `w` comes to its end only if `w` asks are really under way at once.
//! A body that asks one script at a time, or that holds a lock while it asks, has an ask that fails. No
//! contract says that an ask is held; the tests show it of two and four scripts.
#![tactic(auto)]

mod hold_count;
mod hold_gate;
#[cfg(test)]
mod tests;

pub use hold_count::HoldCount;
pub use hold_gate::HoldGate;
