//! Grammars that are read and checked in one call, from their text or from a lexer text and a parser
//! text.
//!
//! Begin with [`checked_grammar`], of one text. Read `Spells` and `IsGrammarFault` in
//! `specs/Answer.antt` first. Bytes have a checked grammar or one fault, never both
//! ([`grammar_fault_once`]); only memory can run out instead. [`checked_pair`] is to two texts what
//! `checked_grammar` is to one: read `SpellsPair` and `IsPairGrammarFault` in `specs/PairAnswer.antt`.
#![tactic(auto)]

mod fault;
mod laws;
mod pair_fault;
mod pair_reading;
mod reading;

pub use fault::GrammarFault;
pub use laws::grammar_fault_once;
pub use pair_fault::PairGrammarFault;
pub use pair_reading::checked_pair;
pub use reading::checked_grammar;
