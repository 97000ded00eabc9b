//! Where a grammar has each fault of its rules first: the first rule that has it, by its index or its
//! name, or the name of the first use of a name that names nothing. The start rule is found here too;
//! whether the normal form has too many rules is decided in `grammar_check`. Each search takes time near
//! linear in the grammar's size.
//!
//! Begin with [`twin`]. Read `grammar_tree/specs/Faults.antt` first, which says what each fault is,
//! then `IsNamedOrNone` in `specs/Answer.antt`. [`fragment_loop`], [`first_short_use`] and
//! [`first_lexer_loop`] ask that no two rules have one name.
#![tactic(auto)]

mod answer;
mod eof;
mod lexer_checks;
mod parser_checks;
mod parser_rules;
mod rule_checks;
mod unknown;

pub use answer::{fragment_loop, misplaced_eof, name_at, twin};
pub use faults::Memory;
pub use lexer_checks::{first_empty_token, first_lexer_loop};
pub use parser_rules::{
    first_empty_loop, index_with_loop, index_without_base, left_recursive_index, parser_indices,
};
pub use rule_checks::{find_start, first_short_use, missing_name};
pub use unknown::first_unknown_use;
