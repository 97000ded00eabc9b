//! How the literals of a grammar print.
//!
//! Begin with [`PrintedLiteral`], which prints in quotes, with escapes: a tab and `é` as
//! `'\t\u{E9}'`. Read `literal_bytes` in `specs/Literal.antt` first.
#![tactic(auto)]

mod literal;

pub use literal::PrintedLiteral;
