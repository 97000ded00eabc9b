//! Reading the grammar that a command line names: its file, or those of its lexer and its parser, their
//! texts, and its start rule.
//!
//! Enter by [`grammar_of_files`], which answers a checked grammar or the refusal with which a command
//! ends. Read `specs/Texts.antt` first, what the texts of a grammar spell, and then `specs/Grammar.antt`.
//! No file is changed.
#![tactic(auto)]

mod grammar;

pub use grammar::grammar_of_files;
