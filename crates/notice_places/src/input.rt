//! Inputs that aren't cut into tokens, or whose tokens aren't derived.

use crate::following::Stop;
use crate::grammar::GrammarFiles;
use crate::quote::Quoted;
use crate::text_file::{MOST_BYTES, TextFile};
use chart_parser_prefix::{LongestPrefix, longest_prefix};
use grammar_tree::Checked;
use lexer::{Lexer, Token};
use normal_form::Sym;
use normal_form_build::normalise;
use reduce_trees_input::{InputFault, parsed_input};
use std::alloc::{AllocError, Global};
use std::str;

/// The byte of a fault of an input.
fn offset_of(fault: &InputFault) -> Option<usize> {
    match fault {
        InputFault::NotUtf8 { offset } | InputFault::NoToken { offset } => Some(*offset as usize),
        InputFault::NoParse | InputFault::Memory(_) => None,
    }
}

/// Why an input isn't cut into tokens, and where.
pub fn add_no_tokens(
    text: &mut String,
    alloc: Global,
    grammar: GrammarFiles<'_>,
    input: TextFile<'_>,
) -> Result<(), AllocError> {
    if input.is_too_long() {
        return Ok(());
    }
    let Some(checked) = grammar.checked(alloc) else {
        return Ok(());
    };
    let Err(fault) = parsed_input(alloc, &checked, input.bytes) else {
        return Ok(());
    };
    if let Some(offset) = offset_of(&fault) {
        input.add_place(text, alloc, offset, &fault)?;
    }
    match fault {
        InputFault::NotUtf8 { .. } => {
            let name = Quoted(input.path);
            write!(
                text,
                "perses: where it is Latin-1: iconv -f latin1 -t utf8 {name} >FILE\n"
            )
        }
        InputFault::NoToken { .. } => write!(
            text,
            "perses: no lexer rule of {} matches what begins there\n",
            grammar.lexer_path()
        ),
        InputFault::NoParse | InputFault::Memory(_) => Ok(()),
    }
}

/// The tokens of an input, where it is cut into some and memory doesn't run out.
fn tokens_in(alloc: Global, checked: &Checked, bytes: &[u8]) -> Option<Vec<Token>> {
    let text = str::from_utf8(bytes).ok()?;
    if text.len() > MOST_BYTES {
        return None;
    }
    let lexer = Lexer::build(alloc, checked).ok()?;
    let tokens = lexer.lex(text).ok()?;
    Some(tokens.items)
}

/// The longest beginning of the tokens that some text of the language begins with. None where there is
/// none, or memory ran out.
fn prefix_of(alloc: Global, checked: &Checked, tokens: &[Token]) -> Option<LongestPrefix> {
    let mut kinds = Vec::new(alloc);
    for token in tokens {
        kinds.push(token.kind).ok()?;
    }
    if kinds.len() > MOST_BYTES {
        return None;
    }
    let normal = normalise(alloc, checked).ok()?;
    longest_prefix(alloc, &normal, Sym::Rule(normal.start()), &kinds).ok()?
}

/// The byte at which the token of this number begins; after the last token the byte after it.
fn offset_in(tokens: &[Token], number: usize, bytes: &[u8]) -> usize {
    match (tokens.get(number), tokens.last()) {
        (Some(token), _) => token.start as usize,
        (None, Some(last)) => last.end as usize,
        (None, None) => bytes.len(),
    }
}

/// Shows where an input stops being one of the grammar. Whether it could be found.
fn add_stop(
    text: &mut String,
    alloc: Global,
    checked: &Checked,
    input: TextFile<'_>,
) -> Result<bool, AllocError> {
    let Some(tokens) = tokens_in(alloc, checked, input.bytes) else {
        return Ok(false);
    };
    let Some(prefix) = prefix_of(alloc, checked, &tokens) else {
        return Ok(false);
    };
    let number = prefix.length as usize;
    let stop = Stop {
        kinds: checked.kinds(),
        kind: tokens.get(number).map(|token| token.kind),
        prefix: &prefix,
    };
    let offset = offset_in(&tokens, number, input.bytes);
    input.add_place(text, alloc, offset, &stop)?;
    Ok(true)
}

/// Why the start rule doesn't derive an input: the first token that can't follow, and what could. Where
/// this can't be found, only that it doesn't.
pub fn add_no_parse(
    text: &mut String,
    alloc: Global,
    grammar: GrammarFiles<'_>,
    input: TextFile<'_>,
) -> Result<(), AllocError> {
    if let Some(checked) = grammar.checked(alloc)
        && add_stop(text, alloc, &checked, input)?
    {
        return Ok(());
    }
    let (path, input) = (grammar.file.path, input.path);
    match grammar.start {
        Some(rule) => write!(
            text,
            "perses: {input}: rule {rule} of {path} doesn't derive it\n"
        ),
        None => write!(
            text,
            "perses: {input}: the first parser rule of {path} doesn't derive it\n"
        ),
    }
}
