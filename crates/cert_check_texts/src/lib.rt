//! Whether a text may be asked in the reduction of a start, decided from the text alone: whether some of
//! the start's lines, one after another, are the text; or whether it is printed of some of the start's
//! tokens, is cut into them again, and is in the grammar's language.
//!
//! Enter by [`LineTexts`] and [`TreeTexts`], which are [`Candidates`]; read `specs/Texts.antt` first.
//! [`texts_are_candidates`] says that these are the candidates of the reduction.
//!
//! A printed text is gone through along the offsets of the print, token by token of the text's own: for
//! each of them the start's tokens of its spelling are found after which the print can go on, and where
//! (`specs/inner/Reached.antt`). These pairs are sorted, and each is kept once. The pieces that the lexer
//! finds in the text play no part in this, since gap text of the text may lie across tokens of the print.
//!
//! A text of lines takes its bytes times the logarithm of how many lines the start has, and its bytes for
//! each keep text.
//!
//! A printed text of more than twice the start's bytes, and one, is refused at once. Any other takes its
//! bytes for each keep text, and as long as to cut it into tokens and to find whether the start rule
//! derives them: see [`Lexer::lex`](lexer::Lexer::lex) and [`derives`](chart_parser_ends::derives), whose
//! tables grow with the grammar too. Between the two, a print is gone through in each style, token by
//! token of the text, up to one more than the start has:
//!
//! - First only the 8 least pairs are gone on from. For each token of the text they are tried with the
//!   token that follows, and the first of them with the next 8 tokens of this spelling. So a token needs
//!   16 tries at most, but the one after the first. Where the text's end is reached, it is printed so.
//! - Where it isn't, all pairs are gone on from.
//! - For each token of the text, each pair is tried with the token that follows, and each offset with the
//!   start's tokens of this spelling. A try takes at most the bytes of a gap and a spelling; and the
//!   pairs that are reached are sorted.
//! - From one offset a second one is reached only by gap text within which the token's spelling begins
//!   too. While one is reached, the tries are at most so many as the start has tokens of this spelling
//!   and of the one before it.
//! - Where one token needs more than 2,097,152 tries, the answer is `Memory`. So many aren't needed while
//!   one offset is reached.
#![tactic(auto)]

mod candidates;
mod laws;
mod line_texts;
mod numbers;
mod prefix;
mod prints;
mod reached;
mod tree_texts;

pub use candidates::Candidates;
pub use faults::Memory;
pub use laws::{texts_are_candidates, texts_are_short};
pub use line_texts::LineTexts;
pub use tree_texts::TreeTexts;
