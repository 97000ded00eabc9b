//! Whether a text is cut into given tokens.

ghost use Rattle.std.specs.Prelude.{◌↔◌, ◌<◌, ◌^◌, IfOk, IsTrue, length, map};
ghost use Rattle.std.specs.Str.{chars};
ghost use Rattle.lexer.specs.Tokens.{HasTokens, token_of};
ghost use Rattle.token_print.specs.Kept.{AreKept, KeepsTokens};

use crate::lexing_laws::tokens_are_in_order;
use crate::same::are_same;
use faults::Memory;
use lexer::{LexFault, Lexer, Tokens};

/// Whether the text is UTF-8 and cut into tokens with exactly the kinds and spellings of the kept
/// tokens of the start, in their order, wherever they are in the text. The kept ones are given by
/// their numbers, from 0.
///
/// It takes as long as to lex the text.
pub fn keeps_tokens(
    start: &str,
    tokens: &Tokens,
    lexer: &Lexer,
    kept: &[u32],
    text: &[u8],
) -> Result<bool, Memory>
    requires tokens { HasTokens lexer.now.grammar (chars start.now) (map token_of tokens.now.items.items) }
    requires kept { AreKept (map token_of tokens.now.items.items) kept.now }
    requires small { length text.now < 2 ^ 32 }
    ensures { IfOk result (λ keeps. IsTrue keeps ↔ KeepsTokens lexer.now.grammar start.now (map token_of tokens.now.items.items) kept.now text.now) }
{
    tokens_are_in_order();
    let Ok(text) = str::from_utf8(text) else {
        return Ok(false);
    };
    match lexer.lex(text) {
        Ok(found) => Ok(are_same(text, &found.items, start, &tokens.items, kept)),
        Err(LexFault::NoToken { .. }) => Ok(false),
        Err(LexFault::Memory(memory)) => Err(memory),
    }
}
