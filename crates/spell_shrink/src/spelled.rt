//! Kept tokens with their spellings, and their text.

ghost use Rattle.std.specs.Prelude.{◌≡◌, ◌≤◌, ◌<◌, ◌+◌, ◌-◌, ◌^◌, ℕ, List, IfOk, OnErr, OnOk, length, map, slice_index, string_bytes};
ghost use Rattle.std.specs.Str.{chars};
ghost use Rattle.grammar_tree.specs.Lexes.{PlacedToken};
ghost use Rattle.lexer.specs.Tokens.{HasTokens, token_of};
ghost use Rattle.token_print.specs.declared.style.Skips.{Skips};
ghost use Rattle.token_print.specs.declared.style.Style.{Style};
ghost use Rattle.token_print.specs.Kept.{AreKept};
ghost use Rattle.spell_shrink.specs.Respelling.{own_spellings, with_word_at, word_at};
ghost use Rattle.spell_shrink.specs.inner.Spelled.{IsPrintOf, IsTextOf, respelling_of};

use crate::change::Change;
use crate::cut_text::CutText;
use crate::printing::{PrintedWords, own_words, print_words};
use faults::Memory;
use lexer::{Lexer, Tokens};
use std::alloc::Global;
use token_print::{
    Layout, keeps_tokens, no_longer_than_start, no_longer_than_twice, tokens_are_in_order,
};

/// Kept tokens of a start, by their numbers from 0, with their spellings, and their text.
#[derive(Drop)]
pub(crate) struct Spelled<'a> {
    alloc: Global,
    pub(crate) kept: Vec<u32>,

    /// The spelling of each kept token.
    pub(crate) words: Vec<&'a str>,

    /// Where each begins in the text, in bytes from 0.
    places: Vec<usize>,
    pub(crate) text: CutText,
}

/// The start of a layout; as the result of a call it is known to be UTF-8.
fn start_of<'a>(layout: Layout<'a>) -> &'a str
    ensures { result.now ≡ layout.entry.start.now }
{
    layout.start
}

/// Moves the offsets that come after the one at the index back by so many bytes.
fn move_back(places: &mut [usize], index: usize, lost: usize)
    requires index { index < length places.old }
    requires enough { (k : ℕ) → index < k → k < length places.old → lost ≤ slice_index places.old k }
    ensures len { length places.new ≡ length places.old }
    ensures before { (k : ℕ) → k ≤ index → k < length places.old → slice_index places.new k ≡ slice_index places.old k }
    ensures after { (k : ℕ) → index < k → k < length places.old → slice_index places.new k ≡ slice_index places.old k - lost }
{
    for k in index + 1..places.len() {
        places[k] -= lost;
    }
}

impl<'a> Spelled<'a> {
    /// The tokens of the layout's start with these numbers, each with its own spelling. It takes as long as to
    /// print and to lex the text.
    pub(crate) fn own(
        alloc: Global,
        layout: Layout<'a>,
        tokens: &Tokens,
        lexer: &Lexer,
        kept: Vec<u32>,
    ) -> Result<Spelled<'a>, Memory>
        requires tokens { HasTokens lexer.now.grammar (chars layout.start.now) (map token_of tokens.now.items.items) }
        requires same { map token_of layout.tokens.now ≡ map token_of tokens.now.items.items }
        requires kept { AreKept (map token_of layout.tokens.now) kept.items }
        requires small { length layout.start.now < 2 ^ 31 - 1 }
        ensures print { IfOk result (IsPrintOf lexer.now.grammar layout.entry.skips layout.entry.start.now (map token_of layout.entry.tokens.now)
            layout.entry.style) }
        ensures own { IfOk result (λ spelled. respelling_of spelled ≡ own_spellings layout.entry.start.now (map token_of layout.entry.tokens.now) kept.items) }
    {
        tokens_are_in_order();
        no_longer_than_start();
        no_longer_than_twice();
        let start = start_of(layout);
        let words = own_words(alloc, layout, &kept)?;
        let PrintedWords { text, places } = print_words(alloc, layout, &kept, &words)?;
        let keeps = keeps_tokens(start, tokens, lexer, &kept, text.as_bytes())?;
        let text = CutText::new(alloc, lexer, text, keeps)?;
        Ok(Spelled {
            alloc,
            kept,
            words,
            places,
            text,
        })
    }

    /// The same again.
    pub(crate) fn copy(&self) -> Result<Spelled<'a>, Memory>
        ensures kept { IfOk result (λ copy. copy.kept.items ≡ self.now.kept.items) }
        ensures words { IfOk result (λ copy. copy.words.items ≡ self.now.words.items) }
        ensures places { IfOk result (λ copy. copy.places.items ≡ self.now.places.items) }
        ensures text { IfOk result (λ copy. string_bytes copy.text.text ≡ string_bytes self.now.text.text) }
        ensures marks { IfOk result (λ copy. copy.text.marks.items ≡ self.now.text.marks.items) }
    {
        let kept = Vec::from_slice(self.alloc, &self.kept)?;
        let words = Vec::from_slice(self.alloc, &self.words)?;
        let places = Vec::from_slice(self.alloc, &self.places)?;
        let text = self.text.copy()?;
        Ok(Spelled {
            alloc: self.alloc,
            kept,
            words,
            places,
            text,
        })
    }

    /// The change of the text by this spelling of the token at the index.
    pub(crate) fn change(&self, token: usize, word: &'a str) -> Change<'a>
        requires token { token < length (respelling_of self.now) }
        requires places { length self.now.places.items ≡ length self.now.kept.items }
        requires fits { slice_index self.now.places.items token + length (word_at (respelling_of self.now) token) < 2 ^ 64 }
        ensures from { result.from ≡ slice_index self.now.places.items token }
        ensures to { result.to ≡ slice_index self.now.places.items token + length (word_at (respelling_of self.now) token) }
        ensures word { result.word.now ≡ word.now }
    {
        let from = self.places[token];
        Change {
            from,
            to: from + self.words[token].len(),
            word,
        }
    }

    /// The token at the index takes a shorter spelling, with which this is the text; it is said whether that
    /// is cut into the tokens. It takes as long as to lex the text. After an error all is as before.
    pub(crate) fn take(
        &mut self,
        lexer: &Lexer,
        token: usize,
        word: &'a str,
        text: String,
        keeps: bool,
    ) -> Result<(), Memory>
        requires printed { ∥ ((skips : Skips) × (start : List ℕ) × (tokens : List PlacedToken) × (style : Style)
            × IsPrintOf lexer.now.grammar skips start tokens style self.old) ∥₁ }
        requires token { token < length (respelling_of self.old) }
        requires shorter { length word.now < length (word_at (respelling_of self.old) token) }
        requires small { length (string_bytes text) < 2 ^ 32 - 1 }
        ensures taken { OnOk result (respelling_of self.new ≡ with_word_at (respelling_of self.old) token word.now) }
        ensures print { (skips : Skips) (start : List ℕ) (tokens : List PlacedToken) (style : Style)
            → IsPrintOf lexer.now.grammar skips start tokens style self.old
            → IsTextOf lexer.now.grammar skips start tokens style (with_word_at (respelling_of self.old) token word.now) (string_bytes text) keeps
            → OnOk result (IsPrintOf lexer.now.grammar skips start tokens style self.new) }
        ensures same { OnErr result (self.new ≡ self.old) }
    {
        self.text = CutText::new(self.alloc, lexer, text, keeps)?;
        let lost = self.words[token].len() - word.len();
        self.words[token] = word;
        move_back(&mut self.places, token, lost);
        Ok(())
    }
}
