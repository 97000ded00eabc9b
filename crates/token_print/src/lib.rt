//! The text of the kept tokens of a start, and whether a text is cut into them again.
//!
//! Begin with [`print`] and [`keeps_tokens`]; [`are_kept`] tests what they ask of the kept tokens. Read
//! `printed` in `specs/Printed.antt` first, then `KeepsTokens` in `specs/Kept.antt`; `specs/Laws.antt`
//! has what is known of printed texts. All tokens as they were give the start itself
//! ([`all_kept_is_start`]).
//!
//! [`keeps_printed`] answers the same of a printed text, and reads only what isn't carried over from the
//! start: a printed text is made of runs that are as they are in the start (`runs`; `specs/Runs.antt`),
//! and a piece in a run that has all that it has seen comes again (`joins`).
//!
//! [`Layout`] has the parts of which a text is printed: what may be printed before and after each token.
//!
//! What is known of the tokens of any text, `specs/LexingLaws.antt` says, for the proofs of the crates
//! that take texts apart and put them together again. It begins with `specs/Spelling.antt`, a token's
//! spelling and the gaps between tokens over the bytes of a text; `specs/Spells.antt` says of a text that
//! it is cut into given tokens, and `specs/Reading.antt` has the tokens of a text as a function. A text
//! has one list of tokens at most ([`tokens_are_unique`]). Each law is a function that does nothing: a
//! caller calls it so that its proof has the law.
#![tactic(auto)]

mod joins;
mod keeps;
mod kept_numbers;
mod laws;
mod layout;
mod lexing_laws;
mod print_kept;
mod runs;
mod same;
mod spellings;
mod style;

pub use faults::Memory;
pub use joins::keeps_printed;
pub use keeps::keeps_tokens;
pub use kept_numbers::are_kept;
pub use laws::{
    all_kept_is_start, kept_kinds, no_longer_than_all, no_longer_than_start, no_longer_than_twice,
    printed_one_way, printed_with_skips, start_keeps_tokens, worked_texts,
};
pub use layout::Layout;
pub use lexing_laws::{
    each_text_is_read, equal_characters_equal_bytes, gaps_and_spellings_are_text, gaps_are_found,
    gaps_are_gap_pieces, gaps_are_slices, runs_are_text, spelled_are_found, spelled_kinds,
    spelled_one_way, tokens_are_found, tokens_are_in_order, tokens_are_longest_matches,
    tokens_are_pieces, tokens_are_unique, tokens_have_kinds, tokens_have_no_stop,
};
pub use print_kept::{print, skips};
pub use runs::Run;
pub use spellings::spelling;
pub use style::{Skips, Style};
