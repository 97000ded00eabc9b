//! How the commands of the program read the files that are named, and how they end: with an answer on
//! `out`, or with a refusal, which has a status and a line.
//!
//! Enter by [`end_with`], by which a command ends; [`read_file`], [`read_input`] and [`write_file`] give the
//! refusals of the files. Read first `ending_of` in `specs/Status.antt`, the status and the line of each
//! refusal, and then `specs/World.antt`, what a command sees and what may have become of it, in whose words
//! each command says how it ends.
#![tactic(auto)]

mod end;
mod file;
mod keep;
mod status;

pub use end::{Ended, end_refused, end_with};
pub use file::{GRAMMAR_LIMIT, JOURNAL_LIMIT, read_file, read_input, write_file};
pub use keep::held_texts;
pub use status::{NamedFile, Refusal};
