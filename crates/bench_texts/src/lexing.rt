//! How many tokens a text has, and its pieces.

ghost use Rattle.std.specs.Prelude.{◌<◌, ◌-◌, ◌^◌, IfOk, length};
ghost use Rattle.std.specs.Str.{chars};
ghost use Rattle.bench_texts.specs.Counted.{CountsTokens};

use lexer::{LexFault, Lexer};

/// How many tokens the text has.
fn token_count(lexer: &Lexer, text: &str) -> Result<usize, LexFault>
    requires { length text.now < 2 ^ 32 }
    ensures { IfOk result (CountsTokens lexer.now.grammar (chars text.now)) }
{
    Ok(lexer.lex(text)?.items.len())
}

/// The same, which is found so many times, at least once.
pub fn counted(lexer: &Lexer, text: &str, times: u32) -> Result<usize, LexFault>
    requires { length text.now < 2 ^ 32 }
    ensures { IfOk result (CountsTokens lexer.now.grammar (chars text.now)) }
{
    for _ in 1..times {
        token_count(lexer, text)?;
    }
    token_count(lexer, text)
}

/// Cuts the text into its pieces so many times.
pub fn cut(lexer: &Lexer, text: &str, times: u32) -> Result<(), LexFault>
    requires { length text.now < 2 ^ 32 - 1 }
{
    for _ in 0..times {
        lexer.pieces(text)?;
    }
    Ok(())
}
