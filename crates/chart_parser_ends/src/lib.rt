//! Where the symbols of a normal form can end in a list of token kinds.
//!
//! [`ends`] gives every end that a symbol has from a position on, and [`derives`] decides whether a
//! symbol derives a whole list; begin with these. A [`Chart`] answers many questions about one list.
//! It keeps what it worked out: for each rule and position that was needed, all positions where the
//! rule can end, rising. It is filled on demand, with a stack in memory, so that neither the nesting
//! of an input nor a chain of rules costs stack of the machine.
//!
//! Read `DerivesSpan` of `normal_form` first, and then `HasExactly` in `specs/Positions.antt`.
//! Answers are exact, of ambiguous grammars too; an error always means that memory ran out, or that there
//! would be more than 4,294,967,295 ends or entries.
#![tactic(auto)]

mod chart;
mod choice;
mod entries;
mod firsts;
mod one_question;
mod optional;
mod positions;
mod repetition;
mod table;
mod work;

pub use chart::Chart;
pub use faults::Memory;
pub use one_question::{derives, ends};
