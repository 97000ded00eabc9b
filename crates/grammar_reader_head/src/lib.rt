//! The reader's machine outside the alternatives of rules: the state after one more word, in the text's
//! head, in prequels, in options and at a rule's name.
//!
//! Begin with [`step_start`]: each state there has a function of its own, which takes what the state has
//! and a word. What the next state is `grammar_reader_machine` says, in `specs/Machine.antt`.
#![tactic(auto)]

mod header;

pub use header::{
    step_after_token, step_after_value, step_colon, step_entry, step_entry_equals, step_fragment,
    step_head, step_name, step_options_brace, step_path, step_path_name, step_prequel, step_rule,
    step_semicolon, step_start, step_token, step_tokens_brace, step_value,
};
