//! The text of kept tokens.

ghost use Rattle.std.specs.Prelude.{◌≡◌, IfOk, map};
ghost use Rattle.std.specs.Str.{chars, IsUtf8};
ghost use Rattle.lexer.specs.Tokens.{HasTokens, token_of};
ghost use Rattle.token_print.specs.Kept.{AreKept};
ghost use Rattle.token_print.specs.Printed.{AreSkipped, IsPrinted};

use crate::layout::Layout;
use crate::lexing_laws::{gaps_are_slices, tokens_are_in_order};
use crate::style::{Skips, Style};
use faults::Memory;
use lexer::{Lexer, Tokens};
use std::alloc::Global;

/// Which of the characters that separate tokens the lexer skips.
pub fn skips(lexer: &Lexer) -> Result<Skips, Memory>
    ensures { IfOk result (AreSkipped lexer.now.grammar) }
{
    let newline = lexer.skips('\n')?;
    let space = lexer.skips(' ')?;
    Ok(Skips { newline, space })
}

/// The text of the kept tokens of the start. They are given by their numbers, from 0.
///
/// What the lexer skips is asked once for a newline and once for a space. Kept tokens that follow one
/// another are copied as one piece, with their gaps. So beside the copy it takes, for each such run, time in
/// proportion to the logarithm of how many tokens it has; squeezed, each token is by itself.
pub fn print(
    alloc: Global,
    start: &str,
    tokens: &Tokens,
    lexer: &Lexer,
    kept: &[u32],
    style: Style,
) -> Result<Vec<u8>, Memory>
    requires tokens { HasTokens lexer.now.grammar (chars start.now) (map token_of tokens.now.items.items) }
    requires kept { AreKept (map token_of tokens.now.items.items) kept.now }
    ensures utf8 { IfOk result (λ text. IsUtf8 text.items) }
    ensures printed { IfOk result (λ text. IsPrinted lexer.now.grammar start.now (map token_of tokens.now.items.items) kept.now style text.items) }
{
    tokens_are_in_order();
    gaps_are_slices();
    let layout = Layout {
        start,
        tokens: &tokens.items,
        skips: skips(lexer)?,
        style,
    };
    let text = layout.text(alloc, kept)?;
    Ok(text)
}
