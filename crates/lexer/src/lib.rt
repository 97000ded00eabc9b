//! The lexer of a grammar: a text is cut into tokens by longest match.
//!
//! Begin with [`Lexer::build`] and [`Lexer::lex`]. Read `Lexes` in `grammar_tree/specs/Lexes.antt`
//! first, then `HasTokens` in `specs/Tokens.antt`. [`Lexer::pieces`] gives the pieces themselves, gap
//! text too, and for each of them how much of the text it depends on; a [`PieceReader`] reads one piece
//! alone (`specs/Pieces.antt`).
//!
//! [`Lexer::build`] makes an NFA of the alternatives of each kind (`lexer_nfa`), of which one after
//! another is read (`lexer_match`). What comes next in a text is the longest match of the
//! alternatives that can begin with its first character (`candidates`, `pieces`), and the text is cut
//! so from its beginning on, into tokens (`tokens`) or into all pieces (`read_pieces`); a `reader` reads
//! single pieces. Which characters are gap text by themselves is found when the lexer is built (`empty`,
//! `gaps`), and so is which states are live (`live`).
#![tactic(auto)]

mod candidates;
mod empty;
mod gaps;
mod lexer;
mod live;
mod piece;
mod pieces;
mod read_pieces;
mod reader;
mod rules;
mod token;
mod tokens;

pub use faults::Memory;
pub use lexer::Lexer;
pub use piece::{Piece, Pieces};
pub use reader::{LexReader, PieceReader};
pub use token::{LexFault, Token, Tokens};
