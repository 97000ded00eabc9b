//! Reading single pieces of a text.

ghost use Rattle.std.specs.Prelude.{◌≡◌, ◌↔◌, ◌<◌, ◌-◌, ◌^◌, suc, IfOk, IsTrue, MatchOption, ⊤, length};
ghost use Rattle.std.specs.Str.{IsCharBoundary};
ghost use Rattle.grammar_tree.specs.Lexes.{is_gap_kind};
ghost use Rattle.lexer.specs.Pieces.{HasNoPieceAt, IsPieceOf};
ghost use Rattle.lexer.specs.Tokens.{IsGapText};
ghost use Rattle.lexer_match.specs.Dead.{HasNoDead};
ghost use Rattle.lexer_match.specs.Reading.{IsReady};

use crate::lexer::Lexer;
use crate::piece::Piece;
use crate::read_pieces::piece_from;
use crate::rules::Rules;
use crate::tokens::is_gap;
use faults::Memory;
use grammar_tree::Checked;
use lexer_match::Reading;
use std::marker::Model;

/// What reads single pieces of texts by the rules of a lexer.
pub trait PieceReader {
    ghost use Rattle.std.specs.Prelude.{ℕ};
    ghost use Rattle.grammar_tree.specs.Written.{WrittenGrammar};

    /// The grammar by whose rules it reads.
    ghost grammar: { Self → WrittenGrammar };

    /// How often it was called, also where memory ran out.
    ghost reads: { Self → ℕ };

    /// Whether the kind with this number is a gap kind.
    fn is_gap(&self, kind: u32) -> bool
        ensures { result ≡ is_gap_kind (grammar self.now) kind };

    /// Whether the text of this one character is one piece of a gap kind.
    fn skips(&self, c: char) -> bool
        ensures { IsTrue result ↔ IsGapText (grammar self.now) c };

    /// The piece of the text at the offset, in bytes from 0, of one of its characters. None exactly where
    /// no rule matches a character there.
    fn piece_at(&mut self, text: &str, offset: u32) -> Result<Option<Piece>, Memory>
        requires small { length text.now < 2 ^ 32 - 1 }
        requires inside { offset < length text.now }
        requires starts { IsCharBoundary text.now offset }
        requires few { reads self.old < 2 ^ 64 - 1 }
        ensures grammar { grammar self.new ≡ grammar self.old }
        ensures reads { reads self.new ≡ suc (reads self.old) }
        ensures piece { IfOk result (λ found. MatchOption found (HasNoPieceAt (grammar self.old) text.now offset)
            (λ p. (p.start ≡ offset) × IsPieceOf (grammar self.old) text.now p)) };
}

/// A reader by a lexer, which is lent. Contracts see the lexer's grammar and the number of reads.
///
/// A read takes time in proportion to the text from the offset up to the piece's `seen`, for each
/// alternative that can begin so. What earlier reads found out isn't kept, since each read may be of
/// another text. The first read takes memory in proportion to the states of the lexer.
#[derive(Drop)]
pub struct LexReader<'a> {
    checked: &'a Checked,
    rules: &'a Rules,

    /// What reading takes. None before the first read, and after one that failed.
    reading: Option<Reading>,
    reads: u64,
}

impl<'a> Model for LexReader<'a> {
    ghost use Rattle.lexer.specs.Reads.{LexReads};
    ghost use Rattle.lexer.specs.inner.Reads.{lex_reads_coded};

    ghost Value = { LexReads };

    ghost coded = { lex_reads_coded };

    ghost use Rattle.lexer.specs.inner.Reads.{IsReaderOf};

    ghost view = { λ r. record { checked = r.checked.now; reads = r.reads } };

    ghost invariant = { λ r. IsReaderOf r.checked.now r.rules.now r.reading };
}

impl<'a> LexReader<'a> {
    /// A reader by this lexer, which has read nothing.
    pub fn new(lexer: &'a Lexer) -> LexReader<'a>
        ensures { result ≡ record { checked = lexer.now; reads = 0 } }
    {
        LexReader {
            checked: lexer.checked(),
            rules: lexer.rules(),
            reading: None,
            reads: 0,
        }
    }

    /// How often it was called.
    pub fn reads(&self) -> u64
        ensures { result ≡ self.now.reads }
    {
        self.reads
    }
}

/// What reading a text takes, with nothing known of the text: what an earlier reading took, or else made
/// anew.
fn fresh_reading(kept: Option<Reading>, rules: &Rules) -> Result<Reading, Memory>
    requires { MatchOption kept ⊤ (IsReady (length rules.now.states.items)) }
    ensures ready { IfOk result (IsReady (length rules.now.states.items)) }
    ensures none { IfOk result (λ reading. HasNoDead reading.dead) }
{
    match kept {
        Some(mut reading) => {
            reading.forget();
            Ok(reading)
        }
        None => rules.reading(*rules.states.allocator()),
    }
}

impl<'a> PieceReader for LexReader<'a> {
    ghost grammar = { λ r. r.checked.grammar };

    ghost reads = { λ r. r.reads };

    fn is_gap(&self, kind: u32) -> bool {
        self.checked.is_checked();
        is_gap(self.checked.kinds(), kind)
    }

    fn skips(&self, c: char) -> bool {
        self.rules.gaps.contains(c)
    }

    fn piece_at(&mut self, text: &str, offset: u32) -> Result<Option<Piece>, Memory> {
        self.reads += 1;
        let mut reading = fresh_reading(self.reading.take(), self.rules)?;
        let found = piece_from(
            self.checked,
            self.rules,
            &mut reading,
            text,
            offset as usize,
        )?;
        self.reading = Some(reading);
        Ok(found)
    }
}
