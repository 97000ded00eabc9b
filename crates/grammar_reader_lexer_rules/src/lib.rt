//! The reader's machine in lexer rules: the state after one more word.
//!
//! Begin with [`step_lexer`], which takes the rule so far, where in it the words have come to, and a
//! word. After `A : 'a'` the word `+` gives the state after a suffix. At the end of an alternative,
//! where commands and what follows a non-greedy loop are, [`step_top`] does the same: after
//! `A : 'a' ->` the word `skip` gives the state after a command. What the next state is
//! `grammar_reader_machine` says, in `specs/Machine.antt`. What one word makes is in `src/terms.rt`.
#![tactic(auto)]

mod item;
mod lexer;
mod terms;
mod top;

pub use item::step_lexer;
pub use top::step_top;
