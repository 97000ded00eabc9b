//! The command `selftest`, which reduces a generated program in memory and prints a summary.
//!
//! Enter by [`selftest`]; read `SelftestEnds` in `specs/Selftest.antt`, how it ends at each status. The
//! summary is that of the reduction as it is defined; only where memory runs out or the output can't be
//! written is there none.
#![tactic(auto)]

mod summary;

pub use summary::selftest;
