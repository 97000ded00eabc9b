//! The texts of kept tokens, and whether they keep them.

ghost use Rattle.std.specs.Prelude.{IfOk, map};
ghost use Rattle.std.specs.Str.{chars};
ghost use Rattle.lexer.specs.Tokens.{HasTokens, token_of};
ghost use Rattle.token_print.specs.Kept.{AreKept};

use crate::{HASHES, lexer_of};
use anyhow::{Result, bail};
use lexer::{Lexer, Tokens};
use std::alloc::Global;
use test_grammars::grammars::{JOINED, STATEMENTS};
use token_print::{Style, are_kept, keeps_tokens, print};

/// As `JOINED`, with spaces that are skipped.
const SPACED: &str = "grammar K; s : 'a' ','? 'b' EOF ; AB : 'ab' ; WS : ' ' -> skip ;";

/// Neither a newline nor a space is skipped by itself.
const COMMENTED: &str =
    "grammar C; s : ID* ; ID : [a-z]+ ; C : '/*' .*? '*/' -> skip ; TAB : '\\t' -> skip ;";

/// A start, and the numbers of the tokens of it that are kept.
type Case = (&'static str, &'static [u32]);

/// Kept tokens beside each other and apart; newlines in gaps, leading and trailing gaps; no token
/// kept, and none there.
const STATEMENT_CASES: [Case; 15] = [
    ("x=((1));", &[0, 1, 4, 7]),
    ("x=((1));", &[0, 1, 2, 3, 4, 5, 6, 7]),
    ("a=1;b=2;c=3;", &[0, 1, 2, 3]),
    ("a=1;b=2;c=3;", &[4, 5, 6, 7, 8, 9, 10, 11]),
    ("a=1;a=1;a=1;", &[0, 1, 2, 3, 8, 9, 10, 11]),
    ("{{a=1;}}", &[0, 7]),
    ("{{a=1;}}", &[0, 1, 6, 7]),
    ("a   =   1;", &[0, 1, 2, 3]),
    (" \n a = 1 ; \n b = 2 ;\n\n", &[0, 1, 2, 3, 4, 5, 6, 7]),
    (" \n a = 1 ; \n b = 2 ;\n\n", &[4, 5, 6, 7]),
    (" \n a = 1 ; \n b = 2 ;\n\n", &[0, 1, 2, 3]),
    (" \n a = 1 ; \n b = 2 ;\n\n", &[0, 4, 7]),
    (" a=1; ", &[]),
    ("\n \n", &[]),
    ("", &[]),
];

const JOINED_CASES: [Case; 2] = [("a,b", &[0, 2]), ("a,b", &[0, 1, 2])];

const SPACED_CASES: [Case; 1] = [("a,b", &[0, 2])];

const COMMENTED_CASES: [Case; 2] = [
    ("a/*\n*/b\tc/* */", &[0, 1, 2]),
    ("a/*\n*/b\tc/* */", &[0, 2]),
];

const HASHES_CASES: [Case; 1] = [("a-q#aq", &[0, 2])];

/// The grammars, each with its cases.
const GRAMMARS: [(&str, &[Case]); 5] = [
    (STATEMENTS, &STATEMENT_CASES),
    (JOINED, &JOINED_CASES),
    (SPACED, &SPACED_CASES),
    (COMMENTED, &COMMENTED_CASES),
    (HASHES, &HASHES_CASES),
];

/// The tokens of the text, which has fewer than 2^32 bytes.
fn tokens_of(lexer: &Lexer, text: &str) -> Result<Tokens>
    ensures { IfOk result (λ tokens. HasTokens lexer.now.grammar (chars text.now) (map token_of tokens.items.items)) }
{
    if text.len() > u32::MAX as usize {
        bail!("too long");
    }
    match lexer.lex(text) {
        Ok(tokens) => Ok(tokens),
        Err(fault) => bail!("{fault}"),
    }
}

/// A text of the kept tokens, and whether it keeps them.
fn text_shown(
    alloc: Global,
    lexer: &Lexer,
    start: &str,
    tokens: &Tokens,
    kept: &[u32],
    text: &[u8],
) -> Result<String>
    requires tokens { HasTokens lexer.now.grammar (chars start.now) (map token_of tokens.now.items.items) }
    requires kept { AreKept (map token_of tokens.now.items.items) kept.now }
{
    if text.len() > u32::MAX as usize {
        bail!("too long");
    }
    let keeps = keeps_tokens(start, tokens, lexer, kept, text)?;
    let text = str::from_utf8(text)?;
    Ok(format!(in alloc; "{text:?} {keeps}")?)
}

/// The text of the kept tokens in the style, and whether it keeps them.
fn kept_shown(
    alloc: Global,
    lexer: &Lexer,
    start: &str,
    tokens: &Tokens,
    kept: &[u32],
    style: Style,
) -> Result<String>
    requires { HasTokens lexer.now.grammar (chars start.now) (map token_of tokens.now.items.items) }
{
    if !are_kept(tokens, kept) {
        bail!("no such tokens: {kept:?}");
    }
    let text = print(alloc, start, tokens, lexer, kept, style)?;
    text_shown(alloc, lexer, start, tokens, kept, &text)
}

/// Prints the text of the case in the style, and whether it keeps the tokens.
fn show(rt: &impl Print, alloc: Global, lexer: &Lexer, case: Case, style: Style) -> Result<()> {
    let (start, kept) = case;
    let tokens = tokens_of(lexer, start)?;
    let shown = kept_shown(alloc, lexer, start, &tokens, kept, style)?;
    println!(rt; "{style:?} {shown}")?;
    Ok(())
}

/// Prints the texts of the cases, each in both styles.
fn show_cases(rt: &impl Print, alloc: Global, lexer: &Lexer, cases: &[Case]) -> Result<()> {
    for case in cases {
        show(rt, alloc, lexer, *case, Style::AsWas)?;
        show(rt, alloc, lexer, *case, Style::Squeezed)?;
    }
    Ok(())
}

/// The same by the grammar that a text spells.
fn show_by(rt: &impl Print, alloc: Global, grammar: &str, cases: &[Case]) -> Result<()> {
    let lexer = lexer_of(alloc, grammar)?;
    show_cases(rt, alloc, &lexer, cases)
}

/// Prints the texts of all cases.
pub(crate) fn show_prints(rt: &impl Print, alloc: Global) -> Result<()> {
    for &(grammar, cases) in &GRAMMARS {
        show_by(rt, alloc, grammar, cases)?;
    }
    Ok(())
}
