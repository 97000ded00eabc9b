//! Places in a text as editors count them, the line of a place with a mark below it, and what is wrong
//! there in a grammar or an input.
//!
//! [`excerpt_at`] gives place and line of a byte of a text; read `specs/Place.antt` first. Lines and
//! columns count from 1, columns in characters. Bytes that aren't UTF-8 are shown as the character U+FFFD.
//! [`GrammarFiles::add_fault`] says what is wrong with a grammar, [`add_no_tokens`] and [`add_no_parse`] why
//! an input by it isn't cut into tokens or isn't derived, each with its place. No contract says what a
//! person reads.
#![tactic(auto)]

mod excerpt;
mod following;
mod grammar;
mod input;
mod place;
mod quote;
mod text_file;

pub use excerpt::{Excerpt, excerpt_at};
pub use grammar::GrammarFiles;
pub use input::{add_no_parse, add_no_tokens};
pub use place::{Place, place_after};
pub use quote::Quoted;
pub use text_file::TextFile;
