//! What the lexer rules of a grammar use, and which of them match the empty text.
//!
//! Begin with [`empty_lexer_rules`]. Read `lexer_is_empty` in `specs/Lexer.antt` first.
#![tactic(auto)]

mod lexer_names;
mod lexer_rules;
mod lexer_tables;

pub use faults::Memory;
pub use lexer_names::LexerNames;
pub use lexer_rules::{add_names, is_empty_text, lexer_alts_have_empty_loop};
pub use lexer_tables::{empty_lexer_rules, lexer_edges};
