//! What is read of a lexer text and of a parser text: each with the words that only such a text has
//! replaced by spaces.

ghost use Rattle.std.specs.Prelude.{◌≡◌, ◌≤◌, ◌↔◌, ◌∷◌, ◌++◌, [], IfOk, IfSome, IsTrue, OnOk, Some, length, option_map};
ghost use Rattle.grammar_reader_words.specs.Spans.{IsCutOut, spans_left, spans_of};
ghost use Rattle.grammar_pair.specs.Bodies.{BeginsWith, all_blanked, blanked, entries_of, entry_at, first_word, put, vocabularies, words_in};
ghost use Rattle.grammar_pair.specs.inner.View.{IsEntryWithin, entry_view};

use crate::entries::{Entry, Part, after_word, entry_at, spelling, word_after};
use grammar_reader_words::{Span, word_at};
use grammar_tree::{Memory, Text};
use std::alloc::Global;

/// Replaces the bytes of a word by spaces.
fn blank(body: &mut [u8], span: &Span)
    requires in_order { span.now.start ≤ span.now.end }
    requires within { span.now.end ≤ length body.old }
    ensures body { body.new ≡ blanked span.now body.old }
    ensures same_length { length body.new ≡ length body.old }
{
    body[span.start as usize..span.end as usize].fill(b' ');
}

/// Replaces the bytes of a first word by spaces, where it is this one, and says whether it is.
pub fn blank_first(body: &mut [u8], text: &str, word: &str) -> bool
    requires { length body.old ≡ length text.now }
    ensures body { body.new ≡ all_blanked (first_word word.now text.now (spans_of text.now)) body.old }
    ensures found { IsTrue result ↔ BeginsWith word.now text.now }
    ensures same_length { length body.new ≡ length body.old }
{
    match word_at(text, 0) {
        Some(span) if spelling(text, &span) == word => {
            blank(body, &span);
            true
        }
        _ => false,
    }
}

/// Replaces the words of an entry by spaces.
fn blank_entry(body: &mut [u8], entry: &Entry)
    requires { IsEntryWithin (length body.old) entry.now }
    ensures body { body.new ≡ all_blanked (words_in (entry_view entry.now ∷ [])) body.old }
    ensures same_length { length body.new ≡ length body.old }
{
    blank(body, &entry.keyword);
    blank(body, &entry.equals);
    blank(body, &entry.named);
    blank(body, &entry.semicolon);
}

/// The entry that begins with the word, where one may begin.
fn entry_in(alloc: Global, part: Part, text: &str, span: &Span) -> Result<Option<Entry>, Memory>
    requires { IsCutOut text.now span.now }
    ensures entry { IfOk result (λ found. option_map entry_view found ≡ entry_at part text.now (spans_left text.now (Some span.now))) }
    ensures within { IfOk result (λ found. IfSome found (IsEntryWithin (length text.now))) }
{
    match part {
        Part::AtEntry => entry_at(alloc, text, span),
        _ => Ok(None),
    }
}

/// Replaces the words of the entry by spaces that begins with the word, where one may begin, and adds
/// the name of its vocabulary.
fn take_entry(
    alloc: Global,
    part: Part,
    text: &str,
    span: &Span,
    body: &mut [u8],
    names: &mut Vec<Text>,
) -> Result<(), Memory>
    requires cut_out { IsCutOut text.now span.now }
    requires whole { length body.old ≡ length text.now }
    ensures body { OnOk result (body.new ≡ all_blanked (words_in (put (entry_at part text.now (spans_left text.now (Some span.now))) [])) body.old) }
    ensures names { OnOk result (names.new.items ≡ names.old.items ++ vocabularies (put (entry_at part text.now (spans_left text.now (Some span.now))) [])) }
    ensures same_length { length body.new ≡ length body.old }
{
    match entry_in(alloc, part, text, span)? {
        None => Ok(()),
        Some(entry) => {
            blank_entry(body, &entry);
            names.push(entry.name)?;
            Ok(())
        }
    }
}

/// Replaces the words of the entries by spaces that name a vocabulary in a block of options before the
/// first rule, and gives these names in their order.
pub fn blank_entries(alloc: Global, body: &mut [u8], text: &str) -> Result<Vec<Text>, Memory>
    requires { length body.old ≡ length text.now }
    ensures body { OnOk result (body.new ≡ all_blanked (words_in (entries_of text.now)) body.old) }
    ensures names { IfOk result (λ names. names.items ≡ vocabularies (entries_of text.now)) }
    ensures same_length { length body.new ≡ length body.old }
{
    let mut names = Vec::new(alloc);
    let mut part = Part::Head;
    let mut next = word_at(text, 0);
    while let Some(span) = next {
        if let Part::Rules = part {
            return Ok(names);
        }
        take_entry(alloc, part, text, &span, body, &mut names)?;
        part = after_word(part, spelling(text, &span));
        next = word_after(text, &span);
    }
    Ok(names)
}
