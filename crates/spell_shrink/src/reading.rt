//! Whether a changed text is cut into the tokens of a respelling.

ghost use Rattle.std.specs.Prelude.{◌≡◌, ◌≢◌, ◌↔◌, ◌≤◌, ◌<◌, ◌+◌, ◌-◌, ◌^◌, ℕ, suc, true, false, IfOk, IfSome, IsTrue, MatchOption, Some, length, slice_get};
ghost use Rattle.std.specs.Str.{chars, IsCharBoundary, IsUtf8};
ghost use Rattle.grammar_tree.specs.Written.{WrittenGrammar};
ghost use Rattle.token_print.specs.LexingLaws.{IsSlice};
ghost use Rattle.token_print.specs.Spells.{SpellsTokens};
ghost use Rattle.spell_shrink.specs.Respelling.{word_at};
ghost use Rattle.spell_shrink.specs.inner.Changes.{HasMarkAt};
ghost use Rattle.spell_shrink.specs.inner.Rereads.{AreExpected, IsOffsetBefore, IsOtherPiece, IsPassed, IsReadTo, IsReread, IsStopped};
ghost use Rattle.spell_shrink.specs.inner.Rereads.{expected_pieces, respelling_after};

use crate::change::Change;
use crate::cut_text::{CutText, Progress};
use faults::Memory;
use lexer::{Piece, PieceReader, Token};
use token_print::tokens_are_pieces;

/// The kept tokens of a start, in bytes from 0, with their spellings, of which one is replaced.
#[derive(Clone, Copy)]
pub(crate) struct Expected<'a> {
    pub(crate) tokens: &'a [Token],
    pub(crate) kept: &'a [u32],
    pub(crate) words: &'a [&'a str],

    /// The index, among the kept tokens, of the one that is replaced.
    pub(crate) index: usize,
    pub(crate) word: &'a str,
}

impl<'a> Expected<'a> {
    /// The spelling of the token at an index.
    fn word(&self, index: usize) -> &'a str
        requires index { index < length self.now.kept.now }
        requires words { length self.now.words.now ≡ length self.now.kept.now }
        ensures { result.now ≡ word_at (respelling_after self.now) index }
    {
        if index == self.index {
            self.word
        } else {
            self.words[index]
        }
    }

    /// Whether the token at an index has this kind and this spelling. False where there is no such token.
    fn is_next(&self, index: usize, kind: u32, word: &str) -> bool
        requires expected { AreExpected self.now }
        ensures yes { result ≡ true → slice_get (expected_pieces self.now) index ≡ Some (record { kind = kind; text = chars word.now }) }
        ensures no { result ≡ false → slice_get (expected_pieces self.now) index ≢ Some (record { kind = kind; text = chars word.now }) }
        ensures small { result ≡ true → index < 2 ^ 64 - 1 }
    {
        if index >= self.kept.len() {
            return false;
        }
        let number = self.kept[index];
        let token = self.tokens[number as usize];
        if token.kind != kind {
            return false;
        }
        self.word(index) == word
    }

    /// Passes over a piece of the text. None where it is a token, but not the next one.
    fn pass<R: PieceReader>(
        &self,
        text: &str,
        piece: Piece,
        found: usize,
        reader: &R,
    ) -> Option<Progress>
        requires expected { AreExpected self.now }
        requires slice { IsSlice text.now piece.start piece.end }
        ensures { MatchOption result (IsOtherPiece (R.grammar reader.now) self.now text.now piece found)
            (IsPassed (R.grammar reader.now) self.now text.now piece found) }
    {
        let at = piece.end as usize;
        if reader.is_gap(piece.kind) {
            return Some(Progress { at, found });
        }
        if !self.is_next(found, piece.kind, &text[piece.start as usize..at]) {
            return None;
        }
        Some(Progress {
            at,
            found: found + 1,
        })
    }
}

/// A text that is changed at one token, and what it has to be cut into.
#[derive(Clone, Copy)]
pub(crate) struct Reread<'a> {
    pub(crate) before: &'a CutText,
    pub(crate) change: Change<'a>,
    pub(crate) expected: Expected<'a>,
    pub(crate) text: &'a str,
}

impl<'a> Reread<'a> {
    /// Whether the tokens from here on are those that come next, where the text goes on as before the change,
    /// from a piece on that begins here. None where it doesn't.
    fn goes_on(&self, progress: Progress) -> Option<bool>
        requires reread { ∥ ((G : WrittenGrammar) × IsReread G self.now) ∥₁ }
        requires within { progress.at ≤ length self.now.text.now }
        ensures { IfSome result (λ same. (before : ℕ) × (tokens : ℕ) × IsOffsetBefore self.now.change progress.at before
            × HasMarkAt self.now.before.now before tokens × (IsTrue same ↔ ((tokens ≡ progress.found) × (self.now.expected.index < progress.found)))) }
    {
        let before = self.change.offset_before(progress.at)?;
        let tokens = self.before.tokens_before(before)?;
        Some(tokens == progress.found && self.expected.index < progress.found)
    }

    /// Reads the piece that comes next, and passes over it. None where there is none, or where it is a token,
    /// but not the next one.
    fn read<R: PieceReader>(
        &self,
        progress: Progress,
        reader: &mut R,
    ) -> Result<Option<Progress>, Memory>
        requires expected { AreExpected self.now.expected }
        requires utf8 { IsUtf8 self.now.text.now }
        requires small { length self.now.text.now < 2 ^ 32 - 1 }
        requires inside { progress.at < length self.now.text.now }
        requires starts { IsCharBoundary self.now.text.now progress.at }
        requires few { R.reads reader.old < 2 ^ 64 - 1 }
        ensures next { IfOk result (λ next. MatchOption next
            (IsStopped (R.grammar reader.old) self.now.expected self.now.text.now progress)
            (IsReadTo (R.grammar reader.old) self.now.expected self.now.text.now progress)) }
        ensures grammar { R.grammar reader.new ≡ R.grammar reader.old }
        ensures reads { R.reads reader.new ≡ suc (R.reads reader.old) }
    {
        let found = reader.piece_at(self.text, progress.at as u32)?;
        let Some(piece) = found else {
            return Ok(None);
        };
        Ok(self.expected.pass(self.text, piece, progress.found, reader))
    }

    /// Whether the text is cut into the expected tokens. Of its pieces only those are read that come after
    /// the ones that haven't seen the change, up to the first one after it that is as before.
    pub(crate) fn keeps<R: PieceReader>(&self, reader: &mut R) -> Result<bool, Memory>
        requires reread { ∥ IsReread (R.grammar reader.old) self.now ∥₁ }
        requires few { R.reads reader.old < 2 ^ 63 }
        ensures keeps { IfOk result (λ keeps.
            IsTrue keeps ↔ ∥ SpellsTokens (R.grammar reader.old) self.now.text.now (expected_pieces self.now.expected) ∥₁) }
        ensures grammar { R.grammar reader.new ≡ R.grammar reader.old }
    {
        tokens_are_pieces();
        let mut progress = self.before.carried(self.change.from);
        if progress.found > self.expected.index {
            return Ok(false);
        }
        while progress.at < self.text.len() {
            if let Some(same) = self.goes_on(progress) {
                return Ok(same);
            }
            let passed = self.read(progress, reader)?;
            match passed {
                Some(next) => progress = next,
                None => return Ok(false),
            }
        }
        Ok(progress.found == self.expected.kept.len())
    }
}
