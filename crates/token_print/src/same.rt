//! Whether tokens are spelled alike.

ghost use Rattle.std.specs.Prelude.{◌≡◌, ◌↔◌, ◌<◌, IsTrue, length, map};
ghost use Rattle.std.specs.List.{All};
ghost use Rattle.lexer.specs.Tokens.{token_of};
ghost use Rattle.token_print.specs.LexingLaws.{IsSlice};
ghost use Rattle.token_print.specs.Spelling.{kind_and_spelling, kinds_and_spellings};

use crate::lexing_laws::equal_characters_equal_bytes;
use crate::spellings::spelling;
use lexer::Token;

/// Whether two tokens, each of its own text, have the same kind and the same spelling.
pub(crate) fn is_same(text: &str, token: Token, other_text: &str, other: Token) -> bool
    requires slice { IsSlice text.now token.start token.end }
    requires other_slice { IsSlice other_text.now other.start other.end }
    ensures { IsTrue result ↔ (kind_and_spelling text.now (token_of token) ≡ kind_and_spelling other_text.now (token_of other)) }
{
    equal_characters_equal_bytes();
    token.kind == other.kind && spelling(text, token) == spelling(other_text, other)
}

/// Whether the tokens of the text have the kinds and spellings of the kept ones of the start.
pub(crate) fn are_same(
    text: &str,
    found: &[Token],
    start: &str,
    tokens: &[Token],
    kept: &[u32],
) -> bool
    requires found { All (λ t. IsSlice text.now t.start t.end) (map token_of found.now) }
    requires tokens { All (λ t. IsSlice start.now t.start t.end) (map token_of tokens.now) }
    requires kept { All (λ i. i < length tokens.now) kept.now }
    ensures { IsTrue result ↔ (map (kind_and_spelling text.now) (map token_of found.now) ≡ kinds_and_spellings start.now (map token_of tokens.now) kept.now) }
{
    if found.len() != kept.len() {
        return false;
    }
    for i in 0..kept.len() {
        let token = tokens[kept[i] as usize];
        if !is_same(text, found[i], start, token) {
            return false;
        }
    }
    true
}
