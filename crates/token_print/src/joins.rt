//! Whether a printed text is cut into the kept tokens: only what isn't carried over from the start is read.

ghost use Rattle.std.specs.Prelude.{◌≡◌, ◌↔◌, ◌<◌, ◌≤◌, ◌+◌, ◌-◌, ◌^◌, ◌++◌, ◌∷◌, true, false, IfOk, IsTrue, MatchOption, List, ℕ, length, map, slice_index_or};
ghost use Rattle.std.specs.List.{All, between, list_any, range_with_len};
ghost use Rattle.std.specs.List.Sorted.{IsNonDecreasingBy, IsStrictlyIncreasing};
ghost use Rattle.std.specs.Str.{chars, IsCharBoundary};
ghost use Rattle.grammar_tree.specs.Lexes.{Piece as PlainPiece};
ghost use Rattle.lexer.specs.Pieces.{AreFarthest, ArePiecesOf};
ghost use Rattle.lexer.specs.Tokens.{HasTokens, token_of};
ghost use Rattle.token_print.specs.LexingLaws.{AreInOrder, IsSlice};
ghost use Rattle.token_print.specs.Spelling.{kind_and_spelling, kinds_and_spellings};
ghost use Rattle.token_print.specs.inner.Ahead.{IsCurrent};
ghost use Rattle.token_print.specs.inner.Copies.{AreCopied};
ghost use Rattle.token_print.specs.inner.Joins.{AreCarried, AreOthers, ArePassed, IsCarriedStretch, IsJoinsOf, IsKeptFrom, IsPassed, PiecesRise};
ghost use Rattle.token_print.specs.inner.Joins.{ReadsFewFrom, runs_of, spelled_from, spelled_in, stretch_from, stretch_to};
ghost use Rattle.token_print.specs.Kept.{AreKept, KeepsTokens};
ghost use Rattle.token_print.specs.Printed.{IsPrinted};
ghost use Rattle.token_print.specs.Reads.{ReadsFew};
ghost use Rattle.token_print.specs.Runs.{is_carried, is_copy_at};

use crate::layout::Layout;
use crate::lexing_laws::{gaps_are_slices, tokens_are_in_order, tokens_are_pieces};
use crate::runs::{Run, Runs};
use crate::same::{are_same, is_same};
use crate::style::{Skips, Style};
use faults::Memory;
use lexer::{Piece, PieceReader, Pieces, Token, Tokens};

/// How far a text was read: the offset, and how many tokens were found before it.
#[derive(Clone, Copy)]
struct Progress {
    at: usize,
    found: usize,
}

/// The indexes of some pieces or tokens that follow one another: the first one, and the one after the last.
#[derive(Clone, Copy)]
struct Stretch {
    first: usize,
    end: usize,
}

/// How many of the pieces begin before the offset.
fn pieces_before(pieces: &[Piece], offset: usize) -> usize
    requires { IsNonDecreasingBy (λ (p : Piece). p.start) pieces.now }
    ensures inside { result ≤ length pieces.now }
    ensures before { (k : ℕ) (d : Piece) → k < result → (slice_index_or pieces.now k d).start < offset }
    ensures others { (k : ℕ) (d : Piece) → result ≤ k → k < length pieces.now → offset ≤ (slice_index_or pieces.now k d).start }
{
    pieces.partition_point(|piece| (piece.start as usize) < offset)
}

/// How many of the tokens begin before the offset.
fn tokens_before(tokens: &[Token], offset: usize) -> usize
    requires { IsNonDecreasingBy (λ (t : Token). t.start) tokens.now }
    ensures inside { result ≤ length tokens.now }
    ensures before { (k : ℕ) (d : Token) → k < result → (slice_index_or tokens.now k d).start < offset }
    ensures others { (k : ℕ) (d : Token) → result ≤ k → k < length tokens.now → offset ≤ (slice_index_or tokens.now k d).start }
{
    tokens.partition_point(|token| (token.start as usize) < offset)
}

/// For so many pieces, one after another, [`Pieces`] has one offset that none of them has seen beyond.
const BLOCK: usize = 64;

/// Whether none of the pieces of the block that begins at the index has seen beyond the offset. False also
/// where no block begins there.
fn is_near(pieces: &Pieces, index: usize, limit: usize) -> bool
    requires { AreFarthest pieces.now.items.items pieces.now.farthest.items }
    ensures { result ≡ true → (k : ℕ) (d : Piece) → index ≤ k → k < index + 64 → k < length pieces.now.items.items
        → (slice_index_or pieces.now.items.items k d).seen ≤ limit }
{
    if index % BLOCK != 0 {
        return false;
    }
    let block = index / BLOCK;
    let farthest = pieces.farthest.as_slice();
    if block >= farthest.len() {
        return false;
    }
    farthest[block] as usize <= limit
}

/// The index after some pieces from this index on that haven't seen beyond the offset. None where the first
/// one has.
fn past(pieces: &Pieces, index: usize, limit: usize) -> Option<usize>
    requires inside { index < length pieces.now.items.items }
    requires farthest { AreFarthest pieces.now.items.items pieces.now.farthest.items }
    ensures { MatchOption result ((d : Piece) → limit < (slice_index_or pieces.now.items.items index d).seen)
        (λ next. (index < next) × ((k : ℕ) (d : Piece) → index ≤ k → k < next → k < length pieces.now.items.items
        → (slice_index_or pieces.now.items.items k d).seen ≤ limit)) }
{
    if is_near(pieces, index, limit) {
        return Some(index + BLOCK);
    }
    let items = pieces.items.as_slice();
    if items[index].seen as usize > limit {
        return None;
    }
    Some(index + 1)
}

/// The index of the first of these pieces that has seen beyond the offset, and the end where none has.
fn first_beyond(pieces: &Pieces, among: Stretch, limit: usize) -> usize
    requires rises { among.first ≤ among.end }
    requires inside { among.end ≤ length pieces.now.items.items }
    requires farthest { AreFarthest pieces.now.items.items pieces.now.farthest.items }
    ensures rises { among.first ≤ result }
    ensures inside { result ≤ among.end }
    ensures near { (k : ℕ) (d : Piece) → among.first ≤ k → k < result → (slice_index_or pieces.now.items.items k d).seen ≤ limit }
    ensures beyond { (d : Piece) → result < among.end → limit < (slice_index_or pieces.now.items.items result d).seen }
{
    let mut at = among.first;
    while at < among.end {
        match past(pieces, at, limit) {
            Some(next) => at = next,
            None => return at,
        }
    }
    among.end
}

/// Whether these are the numbers from the first one on, one after another: as they rise, the first and the
/// last tell.
fn is_range(numbers: &[u32], first: usize) -> bool
    requires { IsStrictlyIncreasing numbers.now }
    ensures { result ≡ true → numbers.now ≡ range_with_len first (length numbers.now) }
{
    let count = numbers.len();
    if count == 0 {
        return true;
    }
    if numbers[0] as usize != first {
        return false;
    }
    numbers[count - 1] as usize == first + (count - 1)
}

/// A start with its pieces and tokens, and a printed text of some of them.
#[derive(Clone, Copy)]
struct Joins<'a> {
    layout: Layout<'a>,
    pieces: &'a Pieces,
    kept: &'a [u32],
    text: &'a str,
}

impl<'a> Joins<'a> {
    /// The pieces of the start that the run carries from the offset of the text on, up to the first one
    /// that it doesn't carry. None where it carries none there.
    fn carried(&self, run: Run, at: usize) -> Option<Stretch>
        requires rise { PiecesRise self.now.pieces.now.items.items }
        requires farthest { AreFarthest self.now.pieces.now.items.items self.now.pieces.now.farthest.items }
        requires room { at + run.from < 2 ^ 64 }
        ensures { MatchOption result (list_any (is_copy_at at run) self.now.pieces.now.items.items ≡ false)
            (AreCarried self.now.pieces.now.items.items run at) }
    {
        if at < run.at {
            return None;
        }
        let offset = run.from + (at - run.at);
        let items = self.pieces.items.as_slice();
        let first = pieces_before(items, offset);
        let end = pieces_before(items, run.to);
        if first >= end {
            return None;
        }
        if items[first].start as usize != offset {
            return None;
        }
        let end = first_beyond(self.pieces, Stretch { first, end }, run.limit);
        if end == first {
            return None;
        }
        Some(Stretch { first, end })
    }

    /// The pieces of the start that one of the runs carries from the offset of the text on. The current run
    /// is the first one that ends after the offset.
    fn carried_in(&self, current: Option<Run>, at: usize) -> Option<Stretch>
        requires rise { PiecesRise self.now.pieces.now.items.items }
        requires farthest { AreFarthest self.now.pieces.now.items.items self.now.pieces.now.farthest.items }
        requires copied { AreCopied self.now.layout.start.now self.now.text.now 0 (runs_of self.now) }
        requires small { length self.now.layout.start.now < 2 ^ 32 }
        requires room { at < 2 ^ 32 }
        requires current { IsCurrent (runs_of self.now) at current }
        ensures { MatchOption result (is_carried self.now.pieces.now.items.items (runs_of self.now) at ≡ false) (IsCarriedStretch self.now at) }
    {
        match current {
            Some(run) => self.carried(run, at),
            None => None,
        }
    }

    /// Whether these tokens of the start have the kinds and spellings of the kept ones. Where they are
    /// the kept ones themselves, nothing is compared.
    fn are_these(&self, stretch: Stretch, kept: &[u32]) -> bool
        requires order { AreInOrder self.now.layout.start.now (map token_of self.now.layout.tokens.now) }
        requires rises { stretch.first ≤ stretch.end }
        requires inside { stretch.end ≤ length self.now.layout.tokens.now }
        requires count { length kept.now ≡ stretch.end - stretch.first }
        requires rise { IsStrictlyIncreasing kept.now }
        requires kept { All (λ i. i < length self.now.layout.tokens.now) kept.now }
        ensures { IsTrue result
            ↔ (map (kind_and_spelling self.now.layout.start.now) (map token_of (between stretch.first stretch.end self.now.layout.tokens.now))
            ≡ kinds_and_spellings self.now.layout.start.now (map token_of self.now.layout.tokens.now) kept.now) }
    {
        let tokens = &self.layout.tokens[stretch.first..stretch.end];
        if is_range(kept, stretch.first) {
            return true;
        }
        let start = self.layout.start;
        are_same(start, tokens, start, self.layout.tokens, kept)
    }

    /// Whether these tokens of the start have the kinds and spellings of the next kept ones.
    fn are_next(&self, stretch: Stretch, found: usize) -> bool
        requires order { AreInOrder self.now.layout.start.now (map token_of self.now.layout.tokens.now) }
        requires kept { AreKept (map token_of self.now.layout.tokens.now) self.now.kept.now }
        requires rises { stretch.first ≤ stretch.end }
        requires inside { stretch.end ≤ length self.now.layout.tokens.now }
        requires found { found ≤ length self.now.kept.now }
        ensures few { result ≡ true → found + (stretch.end - stretch.first) ≤ length self.now.kept.now }
        ensures yes { result ≡ true → spelled_from self.now found ≡ map (kind_and_spelling self.now.layout.start.now)
            (map token_of (between stretch.first stretch.end self.now.layout.tokens.now)) ++ spelled_from self.now (found + (stretch.end - stretch.first)) }
        ensures no { result ≡ false → (rest : List PlainPiece)
            → ¬ (spelled_from self.now found ≡ map (kind_and_spelling self.now.layout.start.now)
            (map token_of (between stretch.first stretch.end self.now.layout.tokens.now)) ++ rest) }
    {
        let count = stretch.end - stretch.first;
        let numbers = self.kept;
        if count > numbers.len() - found {
            return false;
        }
        self.are_these(stretch, &numbers[found..found + count])
    }

    /// The tokens of the start that begin in these pieces.
    fn tokens_in(&self, from: usize, to: usize) -> Stretch
        requires order { AreInOrder self.now.layout.start.now (map token_of self.now.layout.tokens.now) }
        requires rises { from ≤ to }
        ensures rises { result.first ≤ result.end }
        ensures inside { result.end ≤ length self.now.layout.tokens.now }
        ensures tokens { map (kind_and_spelling self.now.layout.start.now) (map token_of (between result.first result.end self.now.layout.tokens.now))
            ≡ spelled_in self.now from to }
    {
        let first = tokens_before(self.layout.tokens, from);
        let end = tokens_before(self.layout.tokens, to);
        Stretch { first, end }
    }

    /// Passes over pieces that are carried. None where their tokens aren't the next ones.
    fn pass(&self, stretch: Stretch, progress: Progress) -> Option<Progress>
        requires order { AreInOrder self.now.layout.start.now (map token_of self.now.layout.tokens.now) }
        requires kept { AreKept (map token_of self.now.layout.tokens.now) self.now.kept.now }
        requires found { progress.found ≤ length self.now.kept.now }
        requires at { progress.at < 2 ^ 32 }
        requires rises { stretch.first < stretch.end }
        requires inside { stretch.end ≤ length self.now.pieces.now.items.items }
        requires spans { stretch_from self.now stretch ≤ stretch_to self.now stretch }
        ensures { MatchOption result (AreOthers self.now stretch progress.found) (ArePassed self.now stretch progress) }
    {
        let items = self.pieces.items.as_slice();
        let from = items[stretch.first].start as usize;
        let to = items[stretch.end - 1].end as usize;
        let tokens = self.tokens_in(from, to);
        if !self.are_next(tokens, progress.found) {
            return None;
        }
        Some(Progress {
            at: progress.at + (to - from),
            found: progress.found + (tokens.end - tokens.first),
        })
    }

    /// Passes over the token of the text. None where it isn't the next one.
    fn take(&self, token: Token, found: usize) -> Option<Progress>
        requires order { AreInOrder self.now.layout.start.now (map token_of self.now.layout.tokens.now) }
        requires kept { AreKept (map token_of self.now.layout.tokens.now) self.now.kept.now }
        requires slice { IsSlice self.now.text.now token.start token.end }
        requires found { found ≤ length self.now.kept.now }
        ensures { MatchOption result ((rest : List PlainPiece) → ¬ (spelled_from self.now found ≡ kind_and_spelling self.now.text.now (token_of token) ∷ rest))
            (λ q. (q.at ≡ token.end) × (q.found ≤ length self.now.kept.now)
            × (spelled_from self.now found ≡ kind_and_spelling self.now.text.now (token_of token) ∷ spelled_from self.now q.found)) }
    {
        let numbers = self.kept;
        if found >= numbers.len() {
            return None;
        }
        let kept = self.layout.tokens[numbers[found] as usize];
        if !is_same(self.text, token, self.layout.start, kept) {
            return None;
        }
        Some(Progress {
            at: token.end as usize,
            found: found + 1,
        })
    }

    /// Passes over the piece that is read at the offset. None where there is none, or where it is a token
    /// but not the next one.
    fn read<R: PieceReader>(
        &self,
        progress: Progress,
        reader: &mut R,
    ) -> Result<Option<Progress>, Memory>
        requires of { IsJoinsOf (R.grammar reader.old) self.now }
        requires inside { progress.at < length self.now.text.now }
        requires starts { IsCharBoundary self.now.text.now progress.at }
        requires found { progress.found ≤ length self.now.kept.now }
        requires few { R.reads reader.old < 2 ^ 64 - 1 }
        requires uncarried { is_carried self.now.pieces.now.items.items (runs_of self.now) progress.at ≡ false }
        ensures grammar { R.grammar reader.new ≡ R.grammar reader.old }
        ensures reads { ReadsFewFrom (R.grammar reader.old) self.now progress.at (R.reads reader.old) (R.reads reader.new) }
        ensures passed { IfOk result (λ o. MatchOption o (¬ IsKeptFrom (R.grammar reader.old) self.now progress)
            (λ q. (progress.at < q.at) × IsPassed (R.grammar reader.old) self.now progress q (R.reads reader.old) (R.reads reader.new))) }
    {
        let found = reader.piece_at(self.text, progress.at as u32)?;
        let Some(piece) = found else {
            return Ok(None);
        };
        if reader.is_gap(piece.kind) {
            return Ok(Some(Progress {
                at: piece.end as usize,
                found: progress.found,
            }));
        }
        let token = Token {
            kind: piece.kind,
            start: piece.start,
            end: piece.end,
        };
        Ok(self.take(token, progress.found))
    }

    /// Passes over what comes next in the text: pieces that a run carries, or the one piece that is read.
    /// None where the tokens aren't the next ones.
    fn step<R: PieceReader>(
        &self,
        current: Option<Run>,
        progress: Progress,
        reader: &mut R,
    ) -> Result<Option<Progress>, Memory>
        requires of { IsJoinsOf (R.grammar reader.old) self.now }
        requires inside { progress.at < length self.now.text.now }
        requires starts { IsCharBoundary self.now.text.now progress.at }
        requires found { progress.found ≤ length self.now.kept.now }
        requires few { R.reads reader.old < 2 ^ 64 - 1 }
        requires current { IsCurrent (runs_of self.now) progress.at current }
        ensures grammar { R.grammar reader.new ≡ R.grammar reader.old }
        ensures reads { ReadsFewFrom (R.grammar reader.old) self.now progress.at (R.reads reader.old) (R.reads reader.new) }
        ensures passed { IfOk result (λ o. MatchOption o
            (¬ IsKeptFrom (R.grammar reader.old) self.now progress)
            (λ q. (progress.at < q.at) × IsPassed (R.grammar reader.old) self.now progress q (R.reads reader.old) (R.reads reader.new))) }
    {
        match self.carried_in(current, progress.at) {
            Some(stretch) => Ok(self.pass(stretch, progress)),
            None => self.read(progress, reader),
        }
    }

    /// Whether the tokens of the text are the kept ones.
    fn are_kept<R: PieceReader>(&self, reader: &mut R) -> Result<bool, Memory>
        requires of { IsJoinsOf (R.grammar reader.old) self.now }
        requires few { R.reads reader.old < 2 ^ 63 }
        ensures grammar { R.grammar reader.new ≡ R.grammar reader.old }
        ensures reads { ReadsFewFrom (R.grammar reader.old) self.now 0 (R.reads reader.old) (R.reads reader.new) }
        ensures keeps { IfOk result (λ keeps. IsTrue keeps ↔ IsKeptFrom (R.grammar reader.old) self.now (record { at = 0; found = 0 })) }
    {
        let mut runs = Runs::new(self.layout, self.kept);
        let mut progress = Progress { at: 0, found: 0 };
        while progress.at < self.text.len() {
            runs.go_to(progress.at);
            let passed = self.step(runs.current, progress, reader)?;
            match passed {
                Some(next) => progress = next,
                None => return Ok(false),
            }
        }
        Ok(progress.found == self.kept.len())
    }
}

/// Whether the printed text of the kept tokens of the start is cut into tokens with exactly the kinds and
/// spellings of these, in their order, wherever they are in the text: what
/// [`keeps_tokens`](crate::keeps_tokens) answers. The kept ones are given by their numbers, from 0.
///
/// A piece of the text isn't read where it is the copy of a piece of the start, in a run that is as it is
/// in the start and has all that this piece has seen. The reader is called at most once for each other
/// piece, and at most once where the text has no piece. Besides, the call takes up to 126 steps for each
/// run and each read, one for each 64 carried pieces, the logarithms of how many tokens and pieces there
/// are for each run and each read, and what the reads take. Carried tokens are compared byte by byte only
/// where they aren't the next kept ones themselves.
pub fn keeps_printed<R: PieceReader>(
    start: &str,
    pieces: &Pieces,
    tokens: &Tokens,
    kept: &[u32],
    style: Style,
    text: &[u8],
    reader: &mut R,
) -> Result<bool, Memory>
    requires tokens { HasTokens (R.grammar reader.old) (chars start.now) (map token_of tokens.now.items.items) }
    requires pieces { ArePiecesOf (R.grammar reader.old) start.now pieces.now }
    requires kept { AreKept (map token_of tokens.now.items.items) kept.now }
    requires printed { IsPrinted (R.grammar reader.old) start.now (map token_of tokens.now.items.items) kept.now style text.now }
    requires small_start { length start.now < 2 ^ 32 - 1 }
    requires small { length text.now < 2 ^ 32 - 1 }
    requires few { R.reads reader.old < 2 ^ 63 }
    ensures keeps { IfOk result (λ keeps. IsTrue keeps ↔ KeepsTokens (R.grammar reader.old) start.now (map token_of tokens.now.items.items) kept.now text.now) }
    ensures reads { ReadsFew (R.grammar reader.old) start.now pieces.now.items.items (map token_of tokens.now.items.items) kept.now style text.now
        (R.reads reader.old) (R.reads reader.new) }
    ensures grammar { R.grammar reader.new ≡ R.grammar reader.old }
{
    tokens_are_in_order();
    gaps_are_slices();
    tokens_are_pieces();
    let text = unsafe { str::from_utf8_unchecked(text) };
    let skips = Skips {
        newline: reader.skips('\n'),
        space: reader.skips(' '),
    };
    let layout = Layout {
        start,
        tokens: &tokens.items,
        skips,
        style,
    };
    let joins = Joins {
        layout,
        pieces,
        kept,
        text,
    };
    joins.are_kept(reader)
}
