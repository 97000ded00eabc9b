//! The reader of grammars as a pushdown machine: what has been read so far, and what one more word
//! makes of it.
//!
//! Begin with `State` and `step` in `specs/Machine.antt`: `step` takes one word and gives the next
//! state, or none where the word can't follow. Of `grammar G; s : 'x' ;` the words lead from `AtStart`
//! to `AtEnd`, which has the grammar. A state in memory is a [`State`], which contracts see through
//! `state_of` in `specs/View.antt`, and the one after a word, or none, is a [`Next`]. The step of states
//! in memory is `step` of `grammar_reader`.
#![tactic(auto)]

mod frame;
mod next;
mod rules;
mod state;

pub use frame::{Frame, LexFrame};
pub use next::{Next, failed};
pub use rules::{with_rule, with_token};
pub use state::{
    Body, EndPosition, Head, ItemPosition, LexBody, LexerPosition, Owner, ParserPosition, State,
    TopBody, ValueOf,
};
