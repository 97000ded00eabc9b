//! A lexer grammar and a parser grammar in two texts, joined to one grammar.
//!
//! Begin with [`join`]. Read `lexer_body` and `parser_body` in `specs/Bodies.antt` first, which say what is
//! read of the two texts, and then `IsJoined` and `IsPairFault` in `specs/Joined.antt`. Of
//! `lexer grammar L; A : 'a' ;` and `parser grammar P; options { tokenVocab=L; } s : 'a' ;` it is the
//! grammar of `grammar P; s : 'a' ; A : 'a' ;`.
#![tactic(auto)]

mod body;
mod entries;
mod fault;
mod joining;
mod reading;

pub use fault::PairFault;
pub use joining::join;
