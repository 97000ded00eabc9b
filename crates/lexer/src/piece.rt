//! Pieces of a text.

/// A piece of a text: the number of its kind, where it begins, where it ends, and up to where the text
/// decides it, in bytes from 0. `end` is the offset after its last byte. `seen` is the least offset such
/// that no rule matches anything of which the text from `start` up to there is a proper prefix, and the
/// text's length plus one where there is none. What the text has from `seen` on changes neither the
/// piece's kind nor its end.
#[derive(Clone, Copy, Debug, PartialEq, Eq)]
pub struct Piece {
    pub kind: u32,
    pub start: u32,
    pub end: u32,
    pub seen: u32,
}

/// All pieces of a text in their order, those of gap kinds too.
#[derive(Debug, Drop)]
pub struct Pieces {
    pub items: Vec<Piece>,

    /// For each 64 pieces, one after another, an offset that none of them has seen beyond. So a search for
    /// one that has seen far passes over 64 at a time.
    pub farthest: Vec<u32>,
}
