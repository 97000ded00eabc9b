//! The words of a grammar's text.
//!
//! Begin with [`Words::new`] and [`Words::next`]: they go over the words from the left, each with the
//! byte at which it begins. The last word is the end of the text or the first bad word. Of
//! `A : 'x' ;` they are an upper name at 0, `:` at 2, a literal at 4, `;` at 8 and the end at 9. Read
//! `words_of` in `specs/Words.antt` first.
#![tactic(auto)]

mod cursor;
mod laws;
mod names;
mod quoted;
mod sets;
mod span;
mod text;
mod word;
mod words;

pub use cursor::Words;
pub use laws::{words_are_at_spans, words_from_on};
pub use names::is;
pub use span::{Span, word_at};
pub use text::first_char;
pub use word::{Placed, Ranges, Reserved, Word};
