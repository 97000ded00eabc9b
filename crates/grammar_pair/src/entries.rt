//! The entries of a parser text that name its vocabulary: `tokenVocab = NAME ;` in a block of options
//! before the first rule.

ghost use Rattle.std.specs.Prelude.{◌≡◌, IfOk, IfSome, Some, cond, length, option_map};
ghost use Rattle.std.specs.Str.{bytes_eq};
ghost use Rattle.grammar_reader_words.specs.Spans.{IsCutOut, spans_after, spans_left};
ghost use Rattle.grammar_reader_words.specs.Words.{words_of};
ghost use Rattle.grammar_pair.specs.Bodies.{after_option, after_prequel, after_word, are_entry, entry_of, entry_with, name_of, name_word, spelled};
ghost use Rattle.grammar_pair.specs.inner.View.{AreWordsAfter, IsEntryWithin, entry_view};

use grammar_reader_words::{Span, Word, Words, word_at};
use grammar_tree::{Memory, Text};
use std::alloc::Global;

/// The part of a parser text that a word is in.
#[derive(Clone, Copy, Debug, PartialEq, Eq, Drop)]
pub enum Part {
    /// Up to the first `;`.
    Head,

    /// Where a block of options or of tokens may begin, or the first rule.
    Prequels,

    /// After `options`.
    Options,

    /// After `tokens`.
    Tokens,

    /// In a block of tokens.
    InTokens,

    /// In a block of options, where an entry may begin.
    AtEntry,

    /// In an entry of a block of options.
    InEntry,

    /// From the first rule on.
    Rules,
}

/// `tokenVocab`, `=`, a name and `;`.
#[derive(Drop)]
pub struct Entry {
    pub keyword: Span,
    pub equals: Span,
    pub named: Span,
    pub semicolon: Span,

    /// The vocabulary's name.
    pub name: Text,
}

/// The part after a word where a block or the first rule may begin.
fn after_prequel(word: &str) -> Part
    ensures { result ≡ after_prequel word.now }
{
    if word == "options" {
        Part::Options
    } else if word == "tokens" {
        Part::Tokens
    } else {
        Part::Rules
    }
}

/// The part after a word in a block of options.
fn after_option(word: &str) -> Part
    ensures { result ≡ after_option word.now }
{
    if word == "}" {
        Part::Prequels
    } else if word == ";" {
        Part::AtEntry
    } else {
        Part::InEntry
    }
}

/// The part after a word, where it is `wanted`, or else the other one.
fn after_wanted(word: &str, wanted: &str, part: Part, other: Part) -> Part
    ensures { result ≡ cond (bytes_eq word.now wanted.now) part other }
{
    if word == wanted { part } else { other }
}

/// The part of a text after a word.
pub fn after_word(part: Part, word: &str) -> Part
    ensures { result ≡ after_word part word.now }
{
    match part {
        Part::Head => after_wanted(word, ";", Part::Prequels, Part::Head),
        Part::Prequels => after_prequel(word),
        Part::Options => after_wanted(word, "{", Part::AtEntry, Part::Rules),
        Part::Tokens => after_wanted(word, "{", Part::InTokens, Part::Rules),
        Part::InTokens => after_wanted(word, "}", Part::Prequels, Part::InTokens),
        Part::AtEntry | Part::InEntry => after_option(word),
        Part::Rules => Part::Rules,
    }
}

/// How a word is spelled.
pub fn spelling<'a>(text: &'a str, span: &Span) -> &'a str
    requires { IsCutOut text.now span.now }
    ensures { result.now ≡ spelled text.now span.now }
{
    &text[span.start as usize..span.end as usize]
}

/// The word after another one. There is none after one that isn't good.
pub fn word_after(text: &str, span: &Span) -> Option<Span>
    requires { IsCutOut text.now span.now }
    ensures next { spans_after text.now span.now ≡ spans_left text.now result }
    ensures cut_out { IfSome result (λ next. IsCutOut text.now next) }
{
    if span.good {
        word_at(text, span.end)
    } else {
        None
    }
}

/// The name that the word is.
fn name_in(alloc: Global, word: &str) -> Result<Option<Text>, Memory>
    ensures { IfOk result (λ name. name ≡ name_of (words_of word.now)) }
{
    match Words::new(word).next(alloc)? {
        Some(placed) => Ok(name_word(placed.word)),
        None => Ok(None),
    }
}

fn name_word(word: Word) -> Option<Text>
    ensures { result ≡ name_word word }
{
    match word {
        Word::Upper(name) => Some(name),
        Word::Lower(name) => Some(name),
        _ => None,
    }
}

/// The three words after one.
fn three_after(text: &str, keyword: &Span) -> Option<(Span, Span, Span)>
    requires { IsCutOut text.now keyword.now }
    ensures { AreWordsAfter text.now keyword.now result }
{
    let equals = word_after(text, keyword)?;
    let named = word_after(text, &equals)?;
    let semicolon = word_after(text, &named)?;
    Some((equals, named, semicolon))
}

/// Whether the words are those of an entry, but for the name.
fn are_entry(text: &str, keyword: &Span, equals: &Span, semicolon: &Span) -> bool
    requires keyword { IsCutOut text.now keyword.now }
    requires equals { IsCutOut text.now equals.now }
    requires semicolon { IsCutOut text.now semicolon.now }
    ensures { result ≡ are_entry text.now keyword.now equals.now semicolon.now }
{
    spelling(text, keyword) == "tokenVocab"
        && spelling(text, equals) == "="
        && spelling(text, semicolon) == ";"
}

/// The entry of four words, where they are one.
fn entry_with(
    alloc: Global,
    text: &str,
    keyword: Span,
    equals: Span,
    named: Span,
    semicolon: Span,
) -> Result<Option<Entry>, Memory>
    requires keyword { IsCutOut text.now keyword }
    requires equals { IsCutOut text.now equals }
    requires named { IsCutOut text.now named }
    requires semicolon { IsCutOut text.now semicolon }
    ensures entry { IfOk result (λ found. option_map entry_view found ≡ entry_with text.now keyword equals named semicolon) }
    ensures within { IfOk result (λ found. IfSome found (IsEntryWithin (length text.now))) }
{
    if !are_entry(text, &keyword, &equals, &semicolon) {
        return Ok(None);
    }
    match name_in(alloc, spelling(text, &named))? {
        None => Ok(None),
        Some(name) => Ok(Some(Entry {
            keyword,
            equals,
            named,
            semicolon,
            name,
        })),
    }
}

/// The entry that begins with the word.
pub fn entry_at(alloc: Global, text: &str, keyword: &Span) -> Result<Option<Entry>, Memory>
    requires { IsCutOut text.now keyword.now }
    ensures entry { IfOk result (λ found. option_map entry_view found ≡ entry_of text.now (spans_left text.now (Some keyword.now))) }
    ensures within { IfOk result (λ found. IfSome found (IsEntryWithin (length text.now))) }
{
    match three_after(text, keyword) {
        None => Ok(None),
        Some((equals, named, semicolon)) => {
            entry_with(alloc, text, *keyword, equals, named, semicolon)
        }
    }
}
