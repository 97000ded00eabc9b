//! The NFA of a grammar's lexer rules and implicit tokens (Thompson 1968).
//!
//! Begin with [`add_kinds`]. Read `IsNfaOf` in `specs/GrammarNfa.antt` first; what states mean while
//! they are added is `IsAdded` in `specs/inner/Compile.antt`.
//!
//! Each alternative of each kind becomes states (`alternatives`, `compile`), in which the rules that
//! it names are written out where they are named (`names`).
#![tactic(auto)]

mod alternatives;
mod compile;
mod names;

pub use alternatives::add_kinds;
pub use faults::Memory;
