//! Texts and their tokens, and the characters that are skipped.

use anyhow::{Result, bail};
use cases_answers::tokens_shown;
use grammar_tree::Checked;
use lexer::Lexer;
use std::alloc::Global;

/// The tokens that the text is cut into, or where no rule matches.
fn lexed_text(alloc: Global, lexer: &Lexer, text: &str) -> Result<String> {
    if text.len() > u32::MAX as usize {
        bail!("the text is too long");
    }
    match lexer.lex(text) {
        Ok(tokens) => Ok(tokens_shown(alloc, &tokens.items)?),
        Err(fault) => Ok(fault.to_string(alloc)?),
    }
}

/// The tokens of the text, or where no rule matches.
pub(crate) fn text_shown(alloc: Global, checked: &Checked, text: &str) -> Result<String> {
    let lexer = Lexer::build(alloc, checked)?;
    lexed_text(alloc, &lexer, text)
}

/// The characters that are asked about: the printable ones of ASCII, and others.
const OTHERS: [char; 12] = [
    '\n',
    '\t',
    '\u{7f}',
    '\u{80}',
    '\u{a0}',
    '\u{e9}',
    '\u{2003}',
    '\u{20ac}',
    '\u{d7ff}',
    '\u{e000}',
    '\u{1F600}',
    '\u{10FFFF}',
];

/// Adds the code of the character, in hexadecimal digits, where it is skipped.
fn add_skipped(alloc: Global, lexer: &Lexer, c: char, out: &mut String) -> Result<()> {
    if lexer.skips(c)? {
        out.push_str(format!(in alloc; "{:x} ", c as u32)?.as_str())?;
    }
    Ok(())
}

/// Adds the codes of the characters that the lexer skips.
fn add_all_skipped(alloc: Global, lexer: &Lexer, out: &mut String) -> Result<()> {
    for c in OTHERS {
        add_skipped(alloc, lexer, c, out)?;
    }
    for c in ' '..='~' {
        add_skipped(alloc, lexer, c, out)?;
    }
    Ok(())
}

/// The codes, in hexadecimal digits, of the characters that the lexer skips.
pub(crate) fn skipped_shown(alloc: Global, checked: &Checked) -> Result<String> {
    let lexer = Lexer::build(alloc, checked)?;
    let mut out = String::new(alloc);
    add_all_skipped(alloc, &lexer, &mut out)?;
    Ok(out)
}
