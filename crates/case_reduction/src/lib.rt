//! The reduction of a generated program in memory, by a rule in place of a script.
//!
//! Begin with [`case_summary`]. Read `IsSummary` in `specs/Summary.antt` first, and `specs/Laws.antt`:
//! a program has one summary alone in a mode. The call fails only where memory runs out, since each
//! program is in the language of its grammar and the rule says yes to it.
//!
//! That grammar is Mini, as it is written in `specs/Mini.antt`; the laws on it are in
//! `specs/LanguageLaws.antt`. Each law is a function that does nothing: a caller calls it so that its
//! proof has the law.
#![tactic(auto)]

mod language_laws;
mod laws;
mod reduce;
mod summary;

pub use faults::Memory;
pub use language_laws::{cases_are_in_language, cases_get_yes, mini_is_spelled};
pub use laws::summaries_are_one;
pub use reduce::case_summary;
