//! The pieces of texts.

use anyhow::{Result, bail};
use grammar_tree::Checked;
use lexer::{LexReader, Lexer, Piece, PieceReader};
use std::alloc::Global;

/// Whether a reader of single pieces gives the piece too.
fn is_read_alone(lexer: &Lexer, text: &str, piece: Piece) -> Result<bool> {
    let at = piece.start as usize;
    if text.len() >= u32::MAX as usize || at >= text.len() || !text.is_char_boundary(at) {
        bail!("no piece begins there");
    }
    match LexReader::new(lexer).piece_at(text, piece.start)? {
        Some(read) => Ok(read == piece),
        None => Ok(false),
    }
}

/// The piece, with the offset up to which the text decides it.
fn piece_shown(alloc: Global, lexer: &Lexer, text: &str, piece: Piece) -> Result<String> {
    if !is_read_alone(lexer, text, piece)? {
        bail!("another piece is read alone");
    }
    let Piece {
        kind,
        start,
        end,
        seen,
    } = piece;
    Ok(format!(in alloc; "{kind}@{start}-{end} sees {seen}; ")?)
}

/// The pieces, one after another.
fn all_shown(alloc: Global, lexer: &Lexer, text: &str, pieces: &[Piece]) -> Result<String> {
    let mut out = String::new(alloc);
    for piece in pieces {
        out.push_str(piece_shown(alloc, lexer, text, *piece)?.as_str())?;
    }
    Ok(out)
}

/// The pieces that the text is cut into, or where no rule matches.
fn cut_text(alloc: Global, lexer: &Lexer, text: &str) -> Result<String> {
    if text.len() >= u32::MAX as usize {
        bail!("the text is too long");
    }
    match lexer.pieces(text) {
        Ok(pieces) => all_shown(alloc, lexer, text, &pieces.items),
        Err(fault) => Ok(fault.to_string(alloc)?),
    }
}

/// The pieces of the text, with the offsets up to which the text decides them, or where no rule matches.
pub(crate) fn pieces_shown(alloc: Global, checked: &Checked, text: &str) -> Result<String> {
    let lexer = Lexer::build(alloc, checked)?;
    cut_text(alloc, &lexer, text)
}
