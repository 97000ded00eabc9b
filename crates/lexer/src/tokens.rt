//! How a text is cut into tokens.

ghost use Rattle.std.specs.Prelude.{◌≡◌, ◌<◌, ◌^◌, ◌++◌, [], IfErr, IfOk, OnOk, length, map};
ghost use Rattle.std.specs.Str.{chars};
ghost use Rattle.grammar_tree.specs.GrammarView.{kind_of};
ghost use Rattle.grammar_tree.specs.Kinds.{kinds_of};
ghost use Rattle.grammar_tree.specs.Lexes.{is_gap_kind};
ghost use Rattle.grammar_tree.specs.Written.{WrittenGrammar};
ghost use Rattle.lexer.specs.inner.Built.{IsBuilt};
ghost use Rattle.lexer.specs.Tokens.{HasTokens, ReportsStop, token_of};
ghost use Rattle.lexer.specs.inner.Tokens.{unless_gap};
ghost use Rattle.lexer_match.specs.Dead.{HasNoDead};
ghost use Rattle.lexer_match.specs.Reading.{IsReady};

use crate::rules::Rules;
use crate::token::{LexFault, Token};
use faults::Memory;
use grammar_tree::{Checked, Kind};
use lexer_match::Reading;
use std::alloc::Global;

/// Whether the kind with this number is a gap kind.
pub(crate) fn is_gap(kinds: &[Kind], kind: u32) -> bool
    ensures { (grammar : WrittenGrammar) → kinds_of grammar ≡ map kind_of kinds.now → result ≡ is_gap_kind grammar kind }
{
    let at = kind as usize;
    if at >= kinds.len() {
        return false;
    }
    kinds[at].gap
}

/// Adds the token, unless its kind is a gap kind.
fn add_token(tokens: &mut Vec<Token>, kinds: &[Kind], token: Token) -> Result<(), Memory>
    ensures { (grammar : WrittenGrammar) → kinds_of grammar ≡ map kind_of kinds.now
        → OnOk result (map token_of tokens.new.items ≡ map token_of tokens.old.items ++ unless_gap grammar (token_of token)) }
{
    if is_gap(kinds, token.kind) {
        return Ok(());
    }
    tokens.push(token)?;
    Ok(())
}

/// Reads the text, and adds its tokens.
fn add_tokens(
    tokens: &mut Vec<Token>,
    reading: &mut Reading,
    checked: &Checked,
    rules: &Rules,
    text: &str,
) -> Result<(), LexFault>
    requires built { IsBuilt checked.now rules.now }
    requires small { length text.now < 2 ^ 32 }
    requires empty { tokens.old.items ≡ [] }
    requires ready { IsReady (length rules.now.states.items) reading.old }
    requires none { HasNoDead reading.old.dead }
    ensures tokens { OnOk result (HasTokens checked.now.grammar (chars text.now) (map token_of tokens.new.items)) }
    ensures fault { IfErr result (ReportsStop checked.now.grammar (chars text.now)) }
{
    checked.is_checked();
    let mut at = 0;
    while at < text.len() {
        let found = rules.next(reading, &text[at..])?;
        let Some(next) = found else {
            return Err(LexFault::NoToken { offset: at as u64 });
        };
        let end = at + next.found.len;
        let token = Token {
            kind: next.found.kind,
            start: at as u32,
            end: end as u32,
        };
        add_token(tokens, checked.kinds(), token)?;
        at = end;
    }
    Ok(())
}

/// The tokens of the text.
pub(crate) fn read_tokens(
    alloc: Global,
    checked: &Checked,
    rules: &Rules,
    text: &str,
) -> Result<Vec<Token>, LexFault>
    requires built { IsBuilt checked.now rules.now }
    requires small { length text.now < 2 ^ 32 }
    ensures tokens { IfOk result (λ tokens. HasTokens checked.now.grammar (chars text.now) (map token_of tokens.items)) }
    ensures fault { IfErr result (ReportsStop checked.now.grammar (chars text.now)) }
{
    let mut reading = rules.reading(alloc)?;
    let mut tokens = Vec::new(alloc);
    add_tokens(&mut tokens, &mut reading, checked, rules, text)?;
    Ok(tokens)
}
