//! Where the words of a text begin and end.

ghost use Rattle.std.specs.Prelude.{◌≡◌, ◌∷◌, IfSome};
ghost use Rattle.std.specs.Str.{IsCharBoundary, chars};
ghost use Rattle.grammar_reader_words.specs.inner.Cursor.{seen_rest};
ghost use Rattle.grammar_reader_words.specs.inner.Parts.{after_code, after_dash, after_mark, has_item};
ghost use Rattle.grammar_reader_words.specs.Quoted.{literal_piece, pieces_from, set_piece};
ghost use Rattle.grammar_reader_words.specs.Spans.{IsCutOut, chars_at, span_of, spans_at, spans_left, word_rest};
ghost use Rattle.grammar_reader_words.specs.Words.{literal_word, set_word, symbol, word};

use crate::cursor::{is_last, skip_gaps, without_mark};
use crate::quoted::{Mark, Piece, literal_piece, set_piece};
use crate::text::{digits_len, first_char, name_len, skip};
use crate::words::symbol;

/// Where a word is in its text: its first byte, and the byte after its last one, from 0.
#[derive(Clone, Copy, Debug, PartialEq, Eq, Drop)]
pub struct Span {
    pub start: u64,
    pub end: u64,

    /// Whether it is a word of the notation. What isn't ends with the text.
    pub good: bool,
}

/// What is read of a set, as far as what may follow depends on it.
#[derive(Clone, Copy, Debug, PartialEq, Eq, Drop)]
pub enum SetPart {
    /// Nothing.
    Start,

    /// A range of two, or items before it too.
    Between,

    /// A code, which may begin a range.
    After(u32),

    /// This code, and the sign of a range.
    Sign(u32),

    /// A `-` that is itself where it is the last item.
    Last,
}

/// What follows the closing quote of the literal of which the opening quote is read.
fn past_literal(text: &str) -> Option<&str>
    ensures { seen_rest result ≡ word_rest (literal_word (chars text.now) (pieces_from literal_piece 0 (chars text.now))) }
{
    let mut some = false;
    let mut rest = text;
    while let Some((c, after)) = first_char(rest) {
        match literal_piece(c, after) {
            Piece::Broken => return None,
            Piece::Closed(further) => return if some { Some(further) } else { None },
            Piece::One(_, further) => {
                some = true;
                rest = further;
            }
        }
    }
    None
}

fn after_code(part: SetPart, code: u32) -> Option<SetPart>
    ensures { result ≡ after_code part code }
{
    match part {
        SetPart::Start | SetPart::Between | SetPart::After(_) => Some(SetPart::After(code)),
        SetPart::Sign(first) => {
            if first <= code {
                Some(SetPart::Between)
            } else {
                None
            }
        }
        SetPart::Last => None,
    }
}

fn after_dash(part: SetPart) -> Option<SetPart>
    ensures { result ≡ after_dash part }
{
    match part {
        SetPart::Start => Some(SetPart::After(45)),
        SetPart::Between => Some(SetPart::Last),
        SetPart::After(first) => Some(SetPart::Sign(first)),
        SetPart::Sign(first) => {
            if first <= 45 {
                Some(SetPart::Last)
            } else {
                None
            }
        }
        SetPart::Last => None,
    }
}

fn after_mark(part: SetPart, mark: Mark) -> Option<SetPart>
    ensures { result ≡ after_mark part mark }
{
    match mark {
        Mark::Code(code) => after_code(part, code),
        Mark::Dash => after_dash(part),
        Mark::Property => None,
    }
}

fn has_item(part: SetPart) -> bool
    ensures { result ≡ has_item part }
{
    !matches!(part, SetPart::Start)
}

/// What follows the closing bracket of the set of which the opening bracket is read.
fn past_set(text: &str) -> Option<&str>
    ensures { seen_rest result ≡ word_rest (set_word (chars text.now) (pieces_from set_piece 0 (chars text.now))) }
{
    let mut part = SetPart::Start;
    let mut rest = text;
    while let Some((c, after)) = first_char(rest) {
        match set_piece(c, after) {
            Piece::Broken => return None,
            Piece::Closed(further) => return if has_item(part) { Some(further) } else { None },
            Piece::One(mark, further) => {
                let Some(next) = after_mark(part, mark) else {
                    return None
                };
                part = next;
                rest = further;
            }
        }
    }
    None
}

/// What follows the symbol that begins with `c`.
fn past_symbol(c: char, rest: &str) -> Option<&str>
    ensures { seen_rest result ≡ word_rest (symbol c (chars rest.now)) }
{
    let (word, after) = symbol(c, rest);
    if is_last(&word) { None } else { Some(after) }
}

/// What follows the word at the front of a text; nothing where it is none of the notation.
fn past_word(text: &str) -> Option<&str>
    ensures { seen_rest result ≡ word_rest (word (chars text.now)) }
{
    match first_char(text) {
        None => None,
        Some((c, rest)) => past_word_from(text, c, rest),
    }
}

fn past_word_from<'a>(text: &'a str, c: char, rest: &'a str) -> Option<&'a str>
    requires { chars text.now ≡ c ∷ chars rest.now }
    ensures { seen_rest result ≡ word_rest (word (c ∷ chars rest.now)) }
{
    if c.is_ascii_alphabetic() {
        Some(skip(text, name_len(text)))
    } else if c.is_ascii_digit() {
        Some(skip(rest, digits_len(rest)))
    } else if c == '\'' {
        past_literal(rest)
    } else if c == '[' {
        past_set(rest)
    } else {
        past_symbol(c, rest)
    }
}

/// The text from a byte on, without a byte order mark at its start.
fn text_at(text: &str, offset: usize) -> &str
    requires { IsCharBoundary text.now offset }
    ensures { chars result.now ≡ chars_at text.now offset }
{
    if offset == 0 {
        without_mark(text)
    } else {
        &text[offset..]
    }
}

/// The word at the front of `start`, with which a text of `total` bytes ends.
fn span_of(total: usize, start: &str) -> Span
    ensures { result ≡ span_of total (chars start.now) (word_rest (word (chars start.now))) }
{
    let begin = total.saturating_sub(start.len());
    match past_word(start) {
        None => Span {
            start: begin as u64,
            end: total as u64,
            good: false,
        },
        Some(rest) => Span {
            start: begin as u64,
            end: total.saturating_sub(rest.len()) as u64,
            good: true,
        },
    }
}

/// The first word of a text that begins at this byte or later, where neither a word nor a comment is
/// cut: none where only blanks and comments follow. It takes no memory.
///
/// After a good word the next one is the first from its end on. It takes time linear in the blanks and
/// comments before the word, and in the word.
pub fn word_at(text: &str, offset: u64) -> Option<Span>
    requires { IsCharBoundary text.now offset }
    ensures first { spans_at text.now offset ≡ spans_left text.now result }
    ensures cut_out { IfSome result (λ span. IsCutOut text.now span) }
{
    let start = skip_gaps(text_at(text, offset as usize));
    if start.is_empty() {
        return None;
    }
    Some(span_of(text.len(), start))
}
