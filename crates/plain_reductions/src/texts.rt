//! The texts of kept tokens.

ghost use Rattle.std.specs.Prelude.{IfOk};
ghost use Rattle.std.specs.Option.{IfSome};
ghost use Rattle.plain_reductions.specs.Texts.{IsListedText};

use faults::Memory;
use lexer::Lexer;
use std::alloc::Global;
use token_print::{Style, are_kept, keeps_tokens, print};

/// The text of these tokens of the start, where it is cut into them again; None where it isn't, and
/// where they aren't tokens of the start in their order. The start is cut into its tokens each time.
pub(crate) fn listed_text(
    alloc: Global,
    start: &str,
    lexer: &Lexer,
    kept: &[u32],
    style: Style,
) -> Result<Option<Vec<u8>>, Memory>
    ensures { IfOk result (λ answer. IfSome answer (λ text. IsListedText lexer.now.grammar start.now kept.now style text.items)) }
{
    if start.len() > u32::MAX as usize {
        return Ok(None);
    }
    let Ok(tokens) = lexer.lex(start) else {
        return Ok(None);
    };
    if !are_kept(&tokens, kept) {
        return Ok(None);
    }
    let text = print(alloc, start, &tokens, lexer, kept, style)?;
    if text.len() > u32::MAX as usize {
        return Ok(None);
    }
    if keeps_tokens(start, &tokens, lexer, kept, &text)? {
        Ok(Some(text))
    } else {
        Ok(None)
    }
}
