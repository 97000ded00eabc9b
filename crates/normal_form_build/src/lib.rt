//! From a checked grammar to its normal form.
//!
//! Enter by [`normalise`]. Each parser rule derives the same lists of token kinds as its rule in the
//! normal form, direct left recursion included: that is a clause of [`normalise`]. Which rules a
//! grammar's terms give and how they are numbered is defined in `normal_form/specs/Numbering.antt` and
//! `NormalOf.antt`; read these first.
//!
//! `rules` makes the rules of one parser rule's terms: `push_block` adds the rule of alternatives and
//! after it the new rules of their terms. `Numbers` has the numbers that symbols name.
#![tactic(auto)]

mod from_grammar;
mod groups;
mod numbers;
mod own_rules;
mod parser_rule;
mod rule_names;
mod rules;
mod sets;

pub use faults::Memory;
pub use from_grammar::normalise;
