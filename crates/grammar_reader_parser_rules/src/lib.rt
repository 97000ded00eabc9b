//! The reader's machine in parser rules: the state after one more word.
//!
//! Begin with [`step_parser`], which takes the rule so far, where in it the words have come to, and a
//! word. After `s : 'x'` the word `*` gives the state after a suffix. What the next state is
//! `grammar_reader_machine` says, in `specs/Machine.antt`. What one word makes is in `src/terms.rt`:
//! terms with a suffix, references, and whether a word is a name.
#![tactic(auto)]

mod parser;
mod terms;

pub use parser::step_parser;
