//! One word further.

ghost use Rattle.grammar_reader_machine.specs.Machine as m;
ghost use Rattle.grammar_reader_machine.specs.View.{Gives, state_of};
ghost use Rattle.grammar_reader_machine.specs.NextState.{NextIs};

use faults::Memory;
use grammar_reader_head::{
    step_after_token, step_after_value, step_colon, step_entry, step_entry_equals, step_fragment,
    step_head, step_name, step_options_brace, step_path, step_path_name, step_prequel, step_rule,
    step_semicolon, step_start, step_token, step_tokens_brace, step_value,
};
use grammar_reader_lexer_rules::{step_lexer, step_top};
use grammar_reader_machine::{Next, State};
use grammar_reader_parser_rules::step_parser;
use grammar_reader_words::Word;
use std::alloc::Global;

fn next_state(alloc: Global, state: State, word: Word) -> Result<Next, Memory>
    ensures { NextIs result (m.step 64 (state_of state) word) }
{
    match state {
        State::Start => Ok(step_start(word)),
        State::Name => Ok(step_name(word)),
        State::Semicolon(name) => Ok(step_semicolon(alloc, name, word)),
        State::Prequel(grammar) => Ok(step_prequel(grammar, word)),
        State::Rule(grammar) => Ok(step_rule(grammar, word)),
        State::OptionsBrace(grammar, owner) => Ok(step_options_brace(grammar, owner, word)),
        State::Entry(grammar, owner) => Ok(step_entry(grammar, owner, word)),
        State::EntryEquals(grammar, owner) => Ok(step_entry_equals(grammar, owner, word)),
        State::Value(value) => Ok(step_value(value, word)),
        State::Path(value) => Ok(step_path(value, word)),
        State::PathName(value) => Ok(step_path_name(value, word)),
        State::AfterValue(value) => Ok(step_after_value(value, word)),
        State::TokensBrace(grammar) => Ok(step_tokens_brace(grammar, word)),
        State::Token(grammar) => step_token(grammar, word),
        State::AfterToken(grammar) => Ok(step_after_token(grammar, word)),
        State::FragmentName(grammar) => Ok(step_fragment(grammar, word)),
        State::Head(grammar, head) => Ok(step_head(alloc, grammar, head, word)),
        State::Colon(grammar, head) => Ok(step_colon(alloc, grammar, head, word)),
        State::Parser(body, position) => step_parser(alloc, body, position, word),
        State::Lexer(body, position) => step_lexer(alloc, body, position, word),
        State::Top(body, position) => step_top(alloc, body, position, word),
        State::End(_) => Ok(Next::refused(word)),
    }
}

/// The state after the word, or none where the word can't follow.
pub(crate) fn step(alloc: Global, state: State, word: Word) -> Result<Option<State>, Memory>
    ensures { Gives result (m.step 64 (state_of state) word) }
{
    Ok(next_state(alloc, state, word)?.state())
}
