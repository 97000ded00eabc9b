//! Tokens as text.

ghost use Rattle.std.specs.Prelude.{◌≡◌, IfOk, string_bytes};
ghost use Rattle.cases_answers.specs.AnswerTexts.{token_text, tokens_text};

use faults::Memory;
use lexer::Token;
use std::alloc::Global;

/// A token: the number of its kind, and its offsets in bytes.
fn token_shown(alloc: Global, kind: u32, start: usize, end: usize) -> Result<String, Memory>
    ensures { IfOk result (λ shown. string_bytes shown ≡ token_text kind start end) }
{
    Ok(format!(in alloc; "{kind}@{start}-{end} ")?)
}

/// The tokens, one after another.
pub fn tokens_shown(alloc: Global, tokens: &[Token]) -> Result<String, Memory>
    ensures { IfOk result (λ shown. string_bytes shown ≡ tokens_text tokens.now) }
{
    let mut out = String::new(alloc);
    for token in tokens {
        let text = token_shown(alloc, token.kind, token.start as usize, token.end as usize)?;
        out.push_str(text.as_str())?;
    }
    Ok(out)
}
