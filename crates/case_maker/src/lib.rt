//! Programs for trying a reduction, each made from a number and a size, and the grammar of their
//! language.
//!
//! Begin with [`make_case`]. Read `case_text` in `specs/Cases.antt` first: what a program is. One of
//! its functions has a line with the letters Q and Z, so that a reduction which keeps both comes to
//! what is left of that line. The laws in `specs/Laws.antt` say so of each program.
#![tactic(auto)]

mod case;
mod function;
mod grammar;
mod laws;

pub use case::make_case;
pub use faults::Memory;
pub use grammar::{MINI, mini_grammar};
pub use laws::{cases_are_short, cases_hold_q_and_z};
