//! The longest beginning of a list of token kinds that some list of a symbol begins with, and the
//! kinds that can follow it: where an input stops being one of a grammar.
//!
//! Begin with [`longest_prefix`]. Read `IsViablePrefix` and `IsLongestPrefix` in
//! `specs/Prefixes.antt` first. Positions are gone through from left to right, up to the answer: for
//! each the symbols that can come next there are found (the predictions of Earley, 1970), where the
//! chart of `chart_parser_ends` says where symbols end.
#![tactic(auto)]

mod expected;
mod following;
mod prefix;
mod productive;
mod search;

pub use faults::Memory;
pub use prefix::{LongestPrefix, longest_prefix};
