//! The spellings of tokens.

ghost use Rattle.std.specs.Prelude.{◌≡◌};
ghost use Rattle.lexer.specs.Tokens.{token_of};
ghost use Rattle.token_print.specs.LexingLaws.{IsSlice};
ghost use Rattle.token_print.specs.Spelling.{spelling};

use lexer::Token;

/// The spelling of a token of the text, whose offsets count its bytes from 0.
pub fn spelling(text: &str, token: Token) -> &str
    requires { IsSlice text.now token.start token.end }
    ensures { result.now ≡ spelling text.now (token_of token) }
{
    &text[token.start as usize..token.end as usize]
}
