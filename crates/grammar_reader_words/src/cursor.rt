//! Going over the words of a text.

ghost use Rattle.std.specs.Prelude.{◌≡◌, ◌≢◌, ◌≤◌, ◌∷◌, [], ℕ, IfOk, MatchOption, IfSome, length, None, false, true};
ghost use Rattle.std.specs.Str.{chars};
ghost use Rattle.grammar_reader_words.specs.Spans.{spans_from};
ghost use Rattle.grammar_reader_words.specs.inner.Spans.{AreLast};
ghost use Rattle.grammar_reader_words.specs.Words.{brace_from, gap, is_last, settled, without_mark, words_from, words_of};

use crate::names::word_before_brace;
use crate::text::{begins_with, first_char};
use crate::word::{Placed, Word};
use crate::words::{gap, word};
use faults::Memory;
use std::alloc::Global;
use std::marker::Model;

/// The words of a text that remain. Contracts see them as a list.
#[derive(Drop)]
pub struct Words<'a> {
    rest: &'a str,
    total: usize,
    is_over: bool,
}

impl<'a> Model for Words<'a> {
    ghost use Rattle.std.specs.Prelude.{List};
    ghost use Rattle.std.specs.Str.{chars};
    ghost use Rattle.grammar_reader_words.specs.inner.Words.{words_left};
    ghost use Rattle.grammar_reader_words.specs.declared.word.Placed.{Placed};

    ghost Value = { List Placed };

    ghost view = { λ w. words_left w.is_over w.total (chars w.rest.now) };
}

/// The text after blanks and comments.
pub fn skip_gaps(text: &str) -> &str
    ensures same { (total : ℕ) → words_from total 0 (chars text.now) ≡ words_from total 0 (chars result.now) }
    ensures spans { (total : ℕ) → spans_from total 0 (chars text.now) ≡ spans_from total 0 (chars result.now) }
    ensures last { AreLast (chars text.now) (chars result.now) }
    ensures brace { brace_from 0 (chars text.now) ≡ brace_from 0 (chars result.now) }
    ensures none { gap (chars result.now) ≡ None }
    ensures fits { length result.now ≤ length text.now }
{
    let mut rest = text;
    while let Some(after) = gap(rest) {
        rest = after;
    }
    rest
}

pub fn is_last(word: &Word) -> bool
    ensures { result ≡ is_last word.now }
{
    matches!(word, Word::End | Word::Bad | Word::Property)
}

/// Whether `{` is the next word.
fn brace_follows(text: &str) -> bool
    ensures { result ≡ brace_from 0 (chars text.now) }
{
    begins_with(skip_gaps(text), '{')
}

/// The word, which may be another one where `{` follows.
fn settled(word: Word, rest: &str) -> Word
    ensures { result ≡ settled word (brace_from 0 (chars rest.now)) }
{
    match word {
        Word::Lower(name) => {
            if brace_follows(rest) {
                word_before_brace(name)
            } else {
                Word::Lower(name)
            }
        }
        _ => word,
    }
}

/// The text after a byte order mark at its start.
pub fn without_mark(text: &str) -> &str
    ensures same { chars result.now ≡ without_mark (chars text.now) }
    ensures fits { length result.now ≤ length text.now }
{
    match first_char(text) {
        None => text,
        Some((c, rest)) => { if c == '\u{feff}' { rest } else { text } }
    }
}

impl<'a> Words<'a> {
    /// The words of a text.
    pub fn new(text: &'a str) -> Words<'a>
        ensures words { result ≡ words_of text.now }
        ensures some { result ≢ [] }
    {
        Words {
            rest: without_mark(text),
            total: text.len(),
            is_over: false,
        }
    }

    /// The next word. There is none after the last one: the end of the text, a bad word, or a set
    /// with a property.
    pub fn next(&mut self, alloc: Global) -> Result<Option<Placed>, Memory>
        ensures word { IfOk result (λ o. MatchOption o ((self.old ≡ []) × (self.new ≡ [])) (λ p. self.old ≡ p ∷ self.new)) }
        ensures ends { IfOk result (λ o. IfSome o (λ p. is_last p.word ≡ true → self.new ≡ [])) }
        ensures goes_on { IfOk result (λ o. IfSome o (λ p. is_last p.word ≡ false → self.new ≢ [])) }
    {
        if self.is_over {
            return Ok(None);
        }
        let start = skip_gaps(self.rest);
        let offset = self.total.saturating_sub(start.len());
        let (word, rest) = word(alloc, start)?;
        self.is_over = is_last(&word);
        self.rest = rest;
        Ok(Some(Placed {
            word: settled(word, rest),
            offset,
        }))
    }
}
