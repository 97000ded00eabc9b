//! How a text is cut into pieces.

ghost use Rattle.std.specs.Prelude.{◌≡◌, ◌<◌, ◌-◌, ◌^◌, ◌++◌, ◌∷◌, [], IfErr, IfOk, MatchOption, OnOk, length};
ghost use Rattle.std.specs.Str.{chars, IsCharBoundary};
ghost use Rattle.lexer.specs.inner.Built.{IsBuilt};
ghost use Rattle.lexer.specs.Pieces.{AreCutTo, AreFarthest, HasBlocks, HasNoPieceAt, IsPieceOf, seen_to};
ghost use Rattle.lexer.specs.Tokens.{ReportsStop};
ghost use Rattle.lexer_match.specs.Dead.{AreDead, HasNoDead};
ghost use Rattle.lexer_match.specs.Reading.{IsReady};

use crate::piece::Piece;
use crate::rules::Rules;
use crate::token::LexFault;
use faults::Memory;
use grammar_tree::Checked;
use lexer_match::{Reading, Seen};
use std::alloc::Global;

/// For so many pieces, one after another, there is one offset that none of them has seen beyond.
const BLOCK: usize = 64;

/// The offset in a text of so many bytes.
fn seen_offset(size: usize, seen: Seen) -> u32
    requires { size < 2 ^ 32 - 1 }
    ensures { result ≡ seen_to size seen }
{
    match seen {
        Seen::Until(remaining) => size.saturating_sub(remaining) as u32,
        Seen::All => size as u32 + 1,
    }
}

/// The piece of the text at the offset, which is that of one of its characters. None where no rule matches
/// a character there.
pub(crate) fn piece_from(
    checked: &Checked,
    rules: &Rules,
    reading: &mut Reading,
    text: &str,
    at: usize,
) -> Result<Option<Piece>, Memory>
    requires built { IsBuilt checked.now rules.now }
    requires small { length text.now < 2 ^ 32 - 1 }
    requires inside { at < length text.now }
    requires starts { IsCharBoundary text.now at }
    requires ready { IsReady (length rules.now.states.items) reading.old }
    requires dead { AreDead rules.now.states.items text.now reading.old.dead }
    ensures ready { OnOk result (IsReady (length rules.now.states.items) reading.new) }
    ensures dead { OnOk result (AreDead rules.now.states.items text.now reading.new.dead) }
    ensures piece { IfOk result (λ found. MatchOption found (HasNoPieceAt checked.now.grammar text.now at)
        (λ p. (p.start ≡ at) × IsPieceOf checked.now.grammar text.now p)) }
{
    let found = rules.next(reading, &text[at..])?;
    let Some(next) = found else {
        return Ok(None);
    };
    Ok(Some(Piece {
        kind: next.found.kind,
        start: at as u32,
        end: (at + next.found.len) as u32,
        seen: seen_offset(text.len(), next.seen),
    }))
}

/// Adds the piece to the pieces before it, with the offset that none of its block has seen beyond.
fn add_piece(pieces: &mut Vec<Piece>, farthest: &mut Vec<u32>, piece: Piece) -> Result<(), Memory>
    requires farthest { AreFarthest pieces.old.items farthest.old.items }
    requires blocks { HasBlocks pieces.old.items farthest.old.items }
    ensures pieces { OnOk result (pieces.new.items ≡ pieces.old.items ++ piece ∷ []) }
    ensures farthest { OnOk result (AreFarthest pieces.new.items farthest.new.items) }
    ensures blocks { OnOk result (HasBlocks pieces.new.items farthest.new.items) }
{
    let block = pieces.len() / BLOCK;
    pieces.push(piece)?;
    if block < farthest.len() {
        farthest[block] = farthest[block].max(piece.seen);
        return Ok(());
    }
    farthest.push(piece.seen)?;
    Ok(())
}

/// Reads the text, and adds its pieces.
fn add_pieces(
    pieces: &mut Vec<Piece>,
    farthest: &mut Vec<u32>,
    reading: &mut Reading,
    checked: &Checked,
    rules: &Rules,
    text: &str,
) -> Result<(), LexFault>
    requires built { IsBuilt checked.now rules.now }
    requires small { length text.now < 2 ^ 32 - 1 }
    requires empty { pieces.old.items ≡ [] }
    requires no_block { farthest.old.items ≡ [] }
    requires ready { IsReady (length rules.now.states.items) reading.old }
    requires none { HasNoDead reading.old.dead }
    ensures cut { OnOk result (AreCutTo checked.now.grammar text.now 0 (length text.now) pieces.new.items) }
    ensures farthest { OnOk result (AreFarthest pieces.new.items farthest.new.items) }
    ensures blocks { OnOk result (HasBlocks pieces.new.items farthest.new.items) }
    ensures fault { IfErr result (ReportsStop checked.now.grammar (chars text.now)) }
{
    let mut at = 0;
    while at < text.len() {
        let found = piece_from(checked, rules, reading, text, at)?;
        let Some(piece) = found else {
            return Err(LexFault::NoToken { offset: at as u64 });
        };
        add_piece(pieces, farthest, piece)?;
        at = piece.end as usize;
    }
    Ok(())
}

/// Pieces with, for each block of them, the offset that none of it has seen beyond.
#[derive(Drop)]
pub(crate) struct ReadPieces {
    pub(crate) items: Vec<Piece>,
    pub(crate) farthest: Vec<u32>,
}

/// The pieces of the text.
pub(crate) fn read_pieces(
    alloc: Global,
    checked: &Checked,
    rules: &Rules,
    text: &str,
) -> Result<ReadPieces, LexFault>
    requires built { IsBuilt checked.now rules.now }
    requires small { length text.now < 2 ^ 32 - 1 }
    ensures cut { IfOk result (λ read. AreCutTo checked.now.grammar text.now 0 (length text.now) read.items.items) }
    ensures farthest { IfOk result (λ read. AreFarthest read.items.items read.farthest.items) }
    ensures blocks { IfOk result (λ read. HasBlocks read.items.items read.farthest.items) }
    ensures fault { IfErr result (ReportsStop checked.now.grammar (chars text.now)) }
{
    let mut reading = rules.reading(alloc)?;
    let mut items = Vec::new(alloc);
    let mut farthest = Vec::new(alloc);
    add_pieces(
        &mut items,
        &mut farthest,
        &mut reading,
        checked,
        rules,
        text,
    )?;
    Ok(ReadPieces { items, farthest })
}
