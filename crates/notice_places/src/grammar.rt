//! Grammars in one file or two, and why they can't be used.

ghost use Rattle.std.specs.Prelude.{◌≤◌, length};

use crate::text_file::TextFile;
use compat_table::compat;
use faults::Limit;
use grammar_check::CheckFault;
use grammar_load::{GrammarFault, PairGrammarFault, checked_grammar, checked_pair};
use grammar_pair::PairFault;
use grammar_reader_notation::ReadFault;
use grammar_tree::Checked;
use lexer::Lexer;
use memchr::memmem;
use normal_form_build::normalise;
use std::alloc::{AllocError, Global};

/// Whether the byte can be in a name.
fn is_in_name(byte: u8) -> bool {
    byte.is_ascii_alphanumeric() || byte == b'_'
}

/// Whether these bytes begin with the name and no longer one.
fn begins_with_name(bytes: &[u8], name: &[u8]) -> bool {
    match bytes.strip_prefix(name) {
        Some(rest) => !rest.first().is_some_and(|byte| is_in_name(*byte)),
        None => false,
    }
}

/// Whether a colon is the first of these bytes that is no blank.
fn begins_with_colon(bytes: &[u8]) -> bool {
    match bytes.iter().find(|byte| !byte.is_ascii_whitespace()) {
        Some(byte) => *byte == b':',
        None => false,
    }
}

/// Where the last rule of this name begins, or else where the name is: a name is followed by a colon
/// where its rule begins. A name in a comment or in quotes may be taken for it.
fn place_of_name(bytes: &[u8], name: &[u8]) -> Option<usize> {
    let mut found = None;
    let mut defined = false;
    let mut in_name = false;
    for index in 0..bytes.len() {
        let here = &bytes[index..];
        if !in_name && begins_with_name(here, name) {
            let defines = begins_with_colon(here.get(name.len()..).unwrap_or(&[]));
            if defines || !defined {
                found = Some(index);
                defined = defined || defines;
            }
        }
        in_name = is_in_name(bytes[index]);
    }
    found
}

/// The byte of a fault of the notation.
fn offset_of(fault: &ReadFault) -> Option<usize> {
    match fault {
        ReadFault::NotUtf8 { offset }
        | ReadFault::Syntax { offset }
        | ReadFault::Unsupported { offset, .. }
        | ReadFault::NestedTooDeep { offset } => Some(*offset as usize),
        ReadFault::Memory(_) => None,
    }
}

/// The name in a fault of a grammar.
fn name_in(fault: &CheckFault) -> Option<&str> {
    match fault {
        CheckFault::TwoRules { name } | CheckFault::NoRule { name } => Some(name.as_str()),
        CheckFault::EofPlace { rule }
        | CheckFault::FragmentLoop { rule }
        | CheckFault::ShortUse { rule }
        | CheckFault::EmptyToken { rule }
        | CheckFault::NoBase { rule }
        | CheckFault::EmptyLoop { rule }
        | CheckFault::LeftRecursion { rule } => Some(rule.as_str()),
        CheckFault::NoStart { .. } | CheckFault::TooManyRules { .. } | CheckFault::Memory(_) =>
            None,
    }
}

/// Where in its text the fault of a grammar is.
fn place_of(bytes: &[u8], fault: &GrammarFault) -> Option<usize> {
    match fault {
        GrammarFault::Read(fault) => offset_of(fault),
        GrammarFault::Check(fault) => place_of_name(bytes, name_in(fault)?.as_bytes()),
        GrammarFault::Memory(_) => None,
    }
}

/// The rule of this name, and its file: a parser rule begins with a small letter.
fn place_of_rule<'a>(
    lexer: TextFile<'a>,
    parser: TextFile<'a>,
    name: &str,
) -> Option<(TextFile<'a>, usize)> {
    let name = name.as_bytes();
    let (own, other) = match name.first() {
        Some(letter) if letter.is_ascii_lowercase() => (parser, lexer),
        _ => (lexer, parser),
    };
    match place_of_name(own.bytes, name) {
        Some(offset) => Some((own, offset)),
        None => Some((other, place_of_name(other.bytes, name)?)),
    }
}

/// Where a text has this literal between quotes.
fn place_of_literal(alloc: Global, bytes: &[u8], literal: &str) -> Option<usize> {
    let quoted = format!(in alloc; "'{literal}'").ok()?;
    memmem::find(bytes, quoted.as_bytes())
}

/// The text that a fault of a lexer grammar and its parser grammar is in, and where.
fn place_of_pair<'a>(
    alloc: Global,
    lexer: TextFile<'a>,
    parser: TextFile<'a>,
    fault: &PairFault,
) -> Option<(TextFile<'a>, usize)> {
    match fault {
        PairFault::LexerText(fault) => Some((lexer, offset_of(fault)?)),
        PairFault::NotLexer => Some((lexer, place_of_name(lexer.bytes, b"grammar")?)),
        PairFault::ParserText(fault) => Some((parser, offset_of(fault)?)),
        PairFault::NotParser => Some((parser, place_of_name(parser.bytes, b"grammar")?)),
        PairFault::OtherVocab { .. } => Some((parser, place_of_name(parser.bytes, b"tokenVocab")?)),
        PairFault::WrongRule { name } => place_of_rule(parser, lexer, name.as_str()),
        PairFault::NoLiteral { literal } => {
            let offset = place_of_literal(alloc, parser.bytes, literal.as_str())?;
            Some((parser, offset))
        }
        PairFault::Memory(_) => None,
    }
}

/// The text that their fault is in, and where, also that of the grammar that they are together.
fn place_in_pair<'a>(
    alloc: Global,
    lexer: TextFile<'a>,
    parser: TextFile<'a>,
    fault: &PairGrammarFault,
) -> Option<(TextFile<'a>, usize)> {
    match fault {
        PairGrammarFault::Pair(fault) => place_of_pair(alloc, lexer, parser, fault),
        PairGrammarFault::Check(fault) => place_of_rule(lexer, parser, name_in(fault)?),
        PairGrammarFault::Memory(_) => None,
    }
}

/// What is wrong with a grammar in one text.
fn add_one(
    text: &mut String,
    alloc: Global,
    grammar: TextFile<'_>,
    start: Option<&str>,
) -> Result<(), AllocError>
    requires { length grammar.bytes.now ≤ 1048576 }
{
    let Err(fault) = checked_grammar(alloc, grammar.bytes, start) else {
        return Ok(());
    };
    match place_of(grammar.bytes, &fault) {
        Some(offset) => grammar.add_place(text, alloc, offset, &fault)?,
        None => write!(text, "perses: {}: {fault}\n", grammar.path)?,
    }
    match fault {
        GrammarFault::Read(ReadFault::Unsupported { .. }) => {
            write!(
                text,
                "perses: tools/plain-grammar writes it anew without that\n"
            )
        }
        _ => Ok(()),
    }
}

/// What is wrong with a lexer grammar and its parser grammar.
fn add_pair(
    text: &mut String,
    alloc: Global,
    lexer: TextFile<'_>,
    parser: TextFile<'_>,
    start: Option<&str>,
) -> Result<(), AllocError>
    requires lexer { length lexer.bytes.now ≤ 1048576 }
    requires parser { length parser.bytes.now ≤ 1048576 }
{
    let Err(fault) = checked_pair(alloc, lexer.bytes, parser.bytes, start) else {
        return Ok(());
    };
    match place_in_pair(alloc, lexer, parser, &fault) {
        Some((file, offset)) => file.add_place(text, alloc, offset, &fault)?,
        None => write!(text, "perses: {}: {fault}\n", parser.path)?,
    }
    match fault {
        PairGrammarFault::Pair(
            PairFault::LexerText(ReadFault::Unsupported { .. })
            | PairFault::ParserText(ReadFault::Unsupported { .. }),
        ) => write!(
            text,
            "perses: tools/plain-grammar --pair FILE writes both anew without that\n"
        ),
        _ => Ok(()),
    }
}

/// A grammar as it was read.
#[derive(Clone, Copy, Debug)]
pub struct GrammarFiles<'a> {
    /// Its file, or that of its parser rules.
    pub file: TextFile<'a>,
    /// That of its lexer rules, where it is in two.
    pub lexer: Option<TextFile<'a>>,
    /// The name of its start rule; none where it is the first parser rule.
    pub start: Option<&'a str>,
}

impl GrammarFiles<'_> {
    /// The checked grammar, where it is one that can be looked at again.
    pub(crate) fn checked(&self, alloc: Global) -> Option<Checked> {
        if self.file.is_too_long() {
            return None;
        }
        match self.lexer {
            None => checked_grammar(alloc, self.file.bytes, self.start).ok(),
            Some(lexer) if lexer.is_too_long() => None,
            Some(lexer) => checked_pair(alloc, lexer.bytes, self.file.bytes, self.start).ok(),
        }
    }

    /// The path of its lexer rules.
    pub(crate) fn lexer_path(&self) -> &str {
        match &self.lexer {
            None => self.file.path,
            Some(lexer) => lexer.path,
        }
    }

    /// Which limit it passes, where its lexer or the table of its symbols can't be made again once the run
    /// has ended.
    pub fn add_limit(&self, text: &mut String, alloc: Global) -> Result<(), AllocError> {
        let Some(checked) = self.checked(alloc) else {
            return Ok(());
        };
        if Lexer::build(alloc, &checked).is_err() {
            return write!(
                text,
                "perses: {}: its lexer would have more than {} states or {} ranges of characters, or there is too little memory\n",
                self.lexer_path(),
                Limit::States.bound(),
                Limit::Ranges.bound()
            );
        }
        let Ok(normal) = normalise(alloc, &checked) else {
            return Ok(());
        };
        if compat(alloc, &normal).is_err() {
            return write!(
                text,
                "perses: {}: in its chains of rules more than {} symbols would fit, or there is too little memory\n",
                self.file.path,
                Limit::Symbols.bound()
            );
        }
        Ok(())
    }

    /// What is wrong with it.
    pub fn add_fault(&self, text: &mut String, alloc: Global) -> Result<(), AllocError> {
        if self.file.is_too_long() {
            return Ok(());
        }
        match self.lexer {
            None => add_one(text, alloc, self.file, self.start),
            Some(lexer) if lexer.is_too_long() => Ok(()),
            Some(lexer) => add_pair(text, alloc, lexer, self.file, self.start),
        }
    }
}
