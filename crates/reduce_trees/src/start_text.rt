//! A start with its pieces.

ghost use Rattle.std.specs.Prelude.{◌≡◌, ◌≤◌, IfOk, List, length, string_bytes};
ghost use Rattle.std.specs.Str.{chars};
ghost use Rattle.grammar_tree.specs.Lexes.{PlacedToken};
ghost use Rattle.lexer.specs.Pieces.{ArePiecesOf};
ghost use Rattle.lexer.specs.Tokens.{HasTokens};
ghost use Rattle.reduce_step.specs.Limits.{text_limit};

use faults::Memory;
use lexer::{LexFault, Lexer, Pieces};
use std::marker::Model;
use token_print::tokens_have_no_stop;

/// A text with its pieces, and the lexer that cut it into them. Contracts see the grammar and the text.
#[derive(Drop)]
pub(crate) struct StartText {
    text: String,
    lexer: Lexer,
    pieces: Pieces,
}

impl Model for StartText {
    ghost use Rattle.std.specs.Prelude.{string_bytes};
    ghost use Rattle.lexer.specs.Pieces.{ArePiecesOf};
    ghost use Rattle.reduce_trees.specs.inner.StartText.{TextOf, text_of_coded};

    ghost Value = { TextOf };

    ghost coded = { text_of_coded };

    ghost view = { λ s. record { grammar = s.lexer; bytes = string_bytes s.text } };

    ghost invariant = { λ s. ArePiecesOf s.lexer.grammar (string_bytes s.text) s.pieces };
}

impl StartText {
    /// The text, which is cut into tokens, with its pieces.
    pub(crate) fn new(text: String, lexer: Lexer) -> Result<StartText, Memory>
        requires tokens { (tokens : List PlacedToken) × HasTokens lexer.grammar (chars (string_bytes text)) tokens }
        requires short { length (string_bytes text) ≤ text_limit }
        ensures { IfOk result (λ start. start ≡ record { grammar = lexer; bytes = string_bytes text }) }
    {
        tokens_have_no_stop();
        let pieces = match lexer.pieces(text.as_str()) {
            Ok(pieces) => pieces,
            Err(LexFault::NoToken { .. }) => unreachable!(),
            Err(LexFault::Memory(memory)) => return Err(memory),
        };
        Ok(StartText {
            text,
            lexer,
            pieces,
        })
    }

    /// The text.
    pub(crate) fn text(&self) -> &str
        ensures { result.now ≡ self.now.bytes }
    {
        self.text.as_str()
    }

    /// The lexer.
    pub(crate) fn lexer(&self) -> &Lexer
        ensures { result.now ≡ self.now.grammar }
    {
        &self.lexer
    }

    /// The pieces of the text.
    pub(crate) fn pieces(&self) -> &Pieces
        ensures { ArePiecesOf self.now.grammar.grammar self.now.bytes result.now }
    {
        &self.pieces
    }
}
