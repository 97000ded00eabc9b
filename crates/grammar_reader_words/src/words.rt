//! The words of a text, one after another.

ghost use Rattle.std.specs.Prelude.{◌≡◌, ◌<◌, ◌≤◌, ◌&&◌, ◌==◌, ◌+◌, ◌∷◌, IfOk, IfSome, length, drop, take, string_bytes, cond};
ghost use Rattle.std.specs.Str.{chars, encode_utf8_all};
ghost use Rattle.grammar_reader_words.specs.Cursor.{seen};
ghost use Rattle.grammar_reader_words.specs.inner.Cursor.{seen_content, seen_rest, seen_word};
ghost use Rattle.grammar_reader_words.specs.Names.{is_part, name_word};
ghost use Rattle.grammar_reader_words.specs.Quoted.{literal_piece, outer_dashes_plain, pieces_from, ranges_of, set_piece};
ghost use Rattle.std.specs.List.{prefix_len};
ghost use Rattle.grammar_reader_words.specs.declared.word.Word.TheVariants.{Property, Set};
ghost use Rattle.grammar_reader_words.specs.Words.{after_close, comment, content_word, gap, is_blank, literal_word};
ghost use Rattle.grammar_reader_words.specs.Words.{marked_word, name_at, set_word, single, symbol, word};

use crate::names::{lower_word, word_before_brace};
use crate::quoted::{Mark, Piece, literal_piece};
use crate::sets::{has_property, make_outer_dashes_plain, marks, ranges_of};
use crate::text::{begins_with, digits_len, first_char, line_len, name_len, skip};
use crate::word::{Placed, Ranges, Word};
use faults::Memory;
use grammar_tree::Text;
use std::alloc::Global;

fn is_blank(c: char) -> bool
    ensures { result ≡ is_blank c }
{
    c == ' ' || c == '\t' || c == '\n' || c == '\r' || c == '\u{c}'
}

/// What follows the next `*/`.
fn after_close(text: &str) -> Option<&str>
    ensures same { seen_rest result ≡ after_close (chars text.now) }
    ensures fits { IfSome result (λ rest. length rest.now ≤ length text.now) }
{
    let mut rest = text;
    while let Some((c, after)) = first_char(rest) {
        if c == '*' && begins_with(after, '/') {
            return Some(skip(after, 1));
        }
        rest = after;
    }
    None
}

/// What follows the comment whose first `/` is read.
fn comment(text: &str) -> Option<&str>
    ensures same { seen_rest result ≡ comment (chars text.now) }
    ensures fits { IfSome result (λ rest. length rest.now ≤ length text.now) }
{
    match first_char(text) {
        None => None,
        Some((c, rest)) => {
            if c == '/' {
                Some(skip(rest, line_len(rest)))
            } else if c == '*' {
                after_close(rest)
            } else {
                None
            }
        }
    }
}

/// What follows a blank or a comment.
pub fn gap(text: &str) -> Option<&str>
    ensures same { seen_rest result ≡ gap (chars text.now) }
    ensures fits { IfSome result (λ rest. length rest.now ≤ length text.now) }
{
    match first_char(text) {
        None => None,
        Some((c, rest)) => {
            if is_blank(c) {
                Some(rest)
            } else if c == '/' {
                comment(rest)
            } else {
                None
            }
        }
    }
}

fn single(c: char) -> Word
    ensures { result ≡ single c }
{
    match c {
        ':' => Word::Colon,
        ';' => Word::Semicolon,
        '|' => Word::Bar,
        '(' => Word::Open,
        ')' => Word::Close,
        '?' => Word::Question,
        '*' => Word::Star,
        '~' => Word::Tilde,
        '=' => Word::Equals,
        ',' => Word::Comma,
        '#' => Word::Hash,
        '<' => Word::Less,
        '>' => Word::Greater,
        '{' => Word::OpenBrace,
        '}' => Word::CloseBrace,
        '@' => Word::At,
        _ => Word::Bad,
    }
}

/// The longest symbol that begins with `c`, and what follows it.
pub fn symbol(c: char, rest: &str) -> (Word, &str)
    ensures { (result.0, chars result.1.now) ≡ symbol c (chars rest.now) }
{
    match c {
        '.' if begins_with(rest, '.') => (Word::Dots, skip(rest, 1)),
        '.' => (Word::Dot, rest),
        '+' if begins_with(rest, '=') => (Word::PlusEquals, skip(rest, 1)),
        '+' => (Word::Plus, rest),
        '-' if begins_with(rest, '>') => (Word::Arrow, skip(rest, 1)),
        '-' => (Word::Bad, rest),
        _ => (single(c), rest),
    }
}

/// The first `n` characters.
fn front(alloc: Global, text: &str, n: usize) -> Result<String, Memory>
    ensures { IfOk result (λ s. string_bytes s ≡ encode_utf8_all (take n (chars text.now))) }
{
    let mut name = String::new(alloc);
    let mut rest = text;
    let mut remaining = n;
    while remaining > 0 {
        match first_char(rest) {
            None => return Ok(name),
            Some((c, after)) => {
                name.push(c)?;
                rest = after;
            }
        }
        remaining -= 1;
    }
    Ok(name)
}

/// The name that begins with the letter `c`, and what follows it.
fn name_at(alloc: Global, c: char, text: &str) -> Result<(Word, &str), Memory>
    ensures { IfOk result (λ p. seen_word p ≡ name_at c (chars text.now)) }
{
    let n = name_len(text);
    let name = front(alloc, text, n)?;
    let name = Text::new(alloc, name.as_str())?;
    Ok((named(c, name), skip(text, n)))
}

fn named(c: char, name: Text) -> Word
    ensures { result ≡ name_word c name }
{
    if c.is_ascii_uppercase() {
        Word::Upper(name)
    } else {
        lower_word(name)
    }
}

/// The characters up to the closing quote, and what follows it.
fn content(alloc: Global, text: &str) -> Result<Option<(String, &str)>, Memory>
    ensures { IfOk result (λ o. seen_content o ≡ pieces_from literal_piece 0 (chars text.now)) }
{
    let mut content = String::new(alloc);
    let mut rest = text;
    while let Some((c, after)) = first_char(rest) {
        match literal_piece(c, after) {
            Piece::Broken => return Ok(None),
            Piece::Closed(further) => return Ok(Some((content, further))),
            Piece::One(character, further) => {
                content.push(character)?;
                rest = further;
            }
        }
    }
    Ok(None)
}

fn content_word(alloc: Global, content: &String) -> Result<Word, Memory>
    ensures { IfOk result (λ w. w ≡ content_word (chars (string_bytes content.now))) }
{
    match first_char(content.as_str()) {
        None => Ok(Word::Bad),
        Some(_) => Ok(Word::Literal(Text::new(alloc, content.as_str())?)),
    }
}

/// The literal of which the opening quote is read.
fn literal_word(alloc: Global, text: &str) -> Result<(Word, &str), Memory>
    ensures { IfOk result (λ p. seen_word p ≡ literal_word (chars text.now) (pieces_from literal_piece 0 (chars text.now))) }
{
    match content(alloc, text)? {
        None => Ok((Word::Bad, text)),
        Some((content, rest)) => Ok((content_word(alloc, &content)?, rest)),
    }
}

/// The set of which the opening bracket is read.
fn set_word(alloc: Global, text: &str) -> Result<(Word, &str), Memory>
    ensures { IfOk result (λ p. seen_word p ≡ set_word (chars text.now) (pieces_from set_piece 0 (chars text.now))) }
{
    match marks(alloc, text)? {
        None => Ok((Word::Bad, text)),
        Some((marks, rest)) => Ok((marked_word(alloc, marks)?, rest)),
    }
}

fn marked_word(alloc: Global, mut marks: Vec<Mark>) -> Result<Word, Memory>
    ensures { IfOk result (λ w. w ≡ marked_word marks.items (ranges_of (outer_dashes_plain marks.items))) }
{
    if marks.is_empty() {
        return Ok(Word::Bad);
    }
    let is_property = has_property(&marks);
    make_outer_dashes_plain(&mut marks);
    match ranges_of(alloc, &marks)? {
        None => Ok(Word::Bad),
        Some(ranges) => Ok(range_word(is_property, ranges)),
    }
}

fn range_word(is_property: bool, ranges: Vec<(u32, u32)>) -> Word
    ensures { result ≡ cond is_property Property (Set ranges.items) }
{
    if is_property {
        Word::Property
    } else {
        Word::Set(Ranges::new(ranges))
    }
}

/// The word at the front of a text that isn't over, and what follows it.
pub fn word(alloc: Global, text: &str) -> Result<(Word, &str), Memory>
    ensures { IfOk result (λ p. seen_word p ≡ word (chars text.now)) }
{
    match first_char(text) {
        None => Ok((Word::End, text)),
        Some((c, rest)) => word_from(alloc, text, c, rest),
    }
}

fn word_from<'a>(
    alloc: Global,
    text: &'a str,
    c: char,
    rest: &'a str,
) -> Result<(Word, &'a str), Memory>
    requires { chars text.now ≡ c ∷ chars rest.now }
    ensures { IfOk result (λ p. seen_word p ≡ word (c ∷ chars rest.now)) }
{
    if c.is_ascii_alphabetic() {
        name_at(alloc, c, text)
    } else if c.is_ascii_digit() {
        Ok((Word::Number, skip(rest, digits_len(rest))))
    } else if c == '\'' {
        literal_word(alloc, rest)
    } else if c == '[' {
        set_word(alloc, rest)
    } else {
        Ok(symbol(c, rest))
    }
}
