//! Reads a grammar in the notation of ANTLR 4.
//!
//! Begin with [`read_grammar`]: it gives the grammar that a text spells, or its first fault: the first
//! word that can't follow the ones before, with its byte. Of `grammar G; s : 'x' | ) ;` that is
//! `)`, at byte 21; of `grammar G; mode` it is `mode`, which isn't supported, at byte 11. Read `IsText`
//! in `grammar_reader_notation/specs/Notation.antt` first, which has a family for each row of the
//! notation, then `IsFirstFault` in `grammar_reader_notation/specs/Reads.antt`.
//!
//! The reader is a pushdown machine (`grammar_reader_machine`). `steps` has its step: from
//! `State::Start` the words of `grammar G; s : 'x' ;` lead to `State::End`, which has the grammar.
//! `naming` says what a word is called that can't follow: `specs/Rows.antt` has a line for each word
//! that has a name of its own, and `specs/Positions.antt` says where in a text a state is.
//!
//! The laws are in `specs/Laws.antt`, over `run` in `specs/WordByWord.antt`: the machine reads exactly
//! the texts of the notation ([`texts_are_read`]), and a word that can't follow is called what the
//! notation calls it ([`faults_are_named`]). `proofs/Rest.antt` has the words that may still come after
//! a state, from which the laws on texts follow. Only memory can keep a text of the notation from being
//! read. [`word_at`] says where the words of a text are.
#![tactic(auto)]

mod laws;
mod naming;
mod positions;
mod reader;
mod steps;

pub use grammar_reader_words::{Span, word_at};
pub use laws::{faults_are_named, texts_are_read};
pub use reader::read_grammar;
