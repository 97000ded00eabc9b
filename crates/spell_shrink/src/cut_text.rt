//! A text that is cut into pieces.

ghost use Rattle.std.specs.Prelude.{◌≡◌, ◌⊎◌, ◌≤◌, ◌<◌, ◌-◌, ◌^◌, false, [], IfOk, IfSome, List, MatchOption, length, string_bytes};
ghost use Rattle.std.specs.Str.{IsCharBoundary};
ghost use Rattle.grammar_tree.specs.Written.{WrittenGrammar};
ghost use Rattle.lexer.specs.declared.piece.Piece.{Piece as PlacedPiece};
ghost use Rattle.lexer.specs.Pieces.{HasPieces};
ghost use Rattle.spell_shrink.specs.inner.Changes.{AreMarks, HasMarkAt, HasNoMarkAt, IsCarriedTo, IsCut, changed, mark_after};

use crate::change::Change;
use faults::Memory;
use lexer::{LexFault, LexReader, Lexer, Piece, PieceReader};
use std::alloc::Global;

/// A piece of a text: where it begins, in bytes from 0, up to where it and those before it have seen, and
/// how many tokens come before it.
#[derive(Clone, Copy)]
pub(crate) struct Mark {
    start: u32,
    reach: u32,
    pub(crate) tokens: u32,
}

/// How far a text was read: the offset, and how many tokens were found before it.
#[derive(Clone, Copy)]
pub(crate) struct Progress {
    pub(crate) at: usize,
    pub(crate) found: usize,
}

/// A text with the marks of its pieces. Where it isn't cut into the tokens that it was printed of, it has no
/// marks: then of a changed text all is read.
#[derive(Drop)]
pub(crate) struct CutText {
    alloc: Global,
    pub(crate) text: String,
    marks: Vec<Mark>,
}

/// The mark of the piece after the last one, with its mark.
fn next_mark<R: PieceReader>(reader: &R, last: Option<(Mark, Piece)>, piece: Piece) -> Mark
    requires { IfSome last (λ l. l.0.tokens < 2 ^ 32 - 1) }
    ensures { result ≡ mark_after (R.grammar reader.now) last piece }
{
    match last {
        None => Mark {
            start: piece.start,
            reach: piece.seen,
            tokens: 0,
        },
        Some((mark, before)) => Mark {
            start: piece.start,
            reach: mark.reach.max(piece.seen),
            tokens: if reader.is_gap(before.kind) {
                mark.tokens
            } else {
                mark.tokens + 1
            },
        },
    }
}

/// The marks of these pieces.
fn marks_of(alloc: Global, lexer: &Lexer, pieces: &[Piece]) -> Result<Vec<Mark>, Memory>
    requires { length pieces.now < 2 ^ 32 }
    ensures { IfOk result (λ marks. AreMarks lexer.now.grammar pieces.now marks.items) }
{
    let reader = LexReader::new(lexer);
    let mut marks = Vec::new(alloc);
    let mut last = None;
    for piece in pieces {
        let mark = next_mark(&reader, last, *piece);
        marks.push(mark)?;
        last = Some((mark, *piece));
    }
    Ok(marks)
}

/// The marks of a text's pieces. None where it isn't cut into pieces, or where this is said.
fn text_marks(alloc: Global, lexer: &Lexer, text: &str, keeps: bool) -> Result<Vec<Mark>, Memory>
    requires { length text.now < 2 ^ 32 - 1 }
    ensures cut { IfOk result (λ marks. (marks.items ≡ []) ⊎ ((pieces : List PlacedPiece) × HasPieces lexer.now.grammar text.now pieces
        × AreMarks lexer.now.grammar pieces marks.items)) }
    ensures none { IfOk result (λ marks. keeps ≡ false → marks.items ≡ []) }
{
    let none = Vec::new(alloc);
    if !keeps {
        return Ok(none);
    }
    match lexer.pieces(text) {
        Ok(pieces) => marks_of(alloc, lexer, &pieces.items),
        Err(LexFault::NoToken { .. }) => Ok(none),
        Err(LexFault::Memory(memory)) => Err(memory),
    }
}

impl CutText {
    /// The text, with the marks of its pieces where it is cut into its tokens. It takes as long as to lex
    /// the text.
    pub(crate) fn new(
        alloc: Global,
        lexer: &Lexer,
        text: String,
        keeps: bool,
    ) -> Result<CutText, Memory>
        requires { length (string_bytes text) < 2 ^ 32 - 1 }
        ensures text { IfOk result (λ cut. string_bytes cut.text ≡ string_bytes text) }
        ensures cut { IfOk result (IsCut lexer.now.grammar) }
        ensures none { IfOk result (λ cut. keeps ≡ false → cut.marks.items ≡ []) }
    {
        let marks = text_marks(alloc, lexer, text.as_str(), keeps)?;
        Ok(CutText { alloc, text, marks })
    }

    /// The same again.
    pub(crate) fn copy(&self) -> Result<CutText, Memory>
        ensures text { IfOk result (λ copy. string_bytes copy.text ≡ string_bytes self.now.text) }
        ensures marks { IfOk result (λ copy. copy.marks.items ≡ self.now.marks.items) }
    {
        let text = String::from_str(self.alloc, self.text.as_str())?;
        let marks = Vec::from_slice(self.alloc, &self.marks)?;
        Ok(CutText {
            alloc: self.alloc,
            text,
            marks,
        })
    }

    /// The changed text.
    pub(crate) fn changed(&self, change: Change<'_>) -> Result<String, Memory>
        requires rises { change.from ≤ change.to }
        requires within { change.to ≤ length (string_bytes self.now.text) }
        requires starts { IsCharBoundary (string_bytes self.now.text) change.from }
        requires ends { IsCharBoundary (string_bytes self.now.text) change.to }
        ensures { IfOk result (λ text. string_bytes text ≡ changed (string_bytes self.now.text) change.entry) }
    {
        let before = self.text.as_str();
        let mut text = String::new(self.alloc);
        text.push_str(&before[..change.from])?;
        text.push_str(change.word)?;
        text.push_str(&before[change.to..])?;
        Ok(text)
    }

    /// How far a text is read that has the same bytes before the offset, by the pieces that it has in common
    /// with this one: those up to the first that has seen beyond the offset.
    pub(crate) fn carried(&self, offset: usize) -> Progress
        requires { ∥ ((G : WrittenGrammar) × IsCut G self.now) ∥₁ }
        ensures { IsCarriedTo self.now offset result }
    {
        let index = self
            .marks
            .partition_point(|mark| mark.reach as usize <= offset);
        if index < self.marks.len() {
            let mark = self.marks[index];
            Progress {
                at: mark.start as usize,
                found: mark.tokens as usize,
            }
        } else {
            Progress { at: 0, found: 0 }
        }
    }

    /// How many tokens come before the piece that begins at the offset. None where no piece begins there.
    pub(crate) fn tokens_before(&self, offset: usize) -> Option<usize>
        requires { ∥ ((G : WrittenGrammar) × IsCut G self.now) ∥₁ }
        ensures { MatchOption result (HasNoMarkAt self.now offset) (HasMarkAt self.now offset) }
    {
        let index = self
            .marks
            .partition_point(|mark| (mark.start as usize) < offset);
        if index >= self.marks.len() {
            return None;
        }
        let mark = self.marks[index];
        if mark.start as usize != offset {
            return None;
        }
        Some(mark.tokens as usize)
    }
}
