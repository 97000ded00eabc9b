//! The printed normal form of a grammar.
//!
//! Enter by [`normal_text`]. Its text is defined in `specs/Print.antt`; read `printed` first. The
//! printed forms of small grammars, worked by hand, are in `proofs/Rows.antt`.
#![tactic(auto)]

mod print;

pub use faults::Memory;
pub use print::normal_text;
