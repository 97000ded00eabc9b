//! Why words are no command line, and how the program is used.
//!
//! Enter by [`word_fault`]. It says which word is wrong, or what is missing, of words that `command_words`
//! reads as no command line; `command_words` alone decides whether they are one. [`USAGE`] is the text for
//! whoever asks for help.
#![tactic(auto)]

mod fault;
mod rows;
mod usage;
mod words;

pub use fault::WordFault;
pub use usage::USAGE;
pub use words::word_fault;
