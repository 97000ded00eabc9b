//! One word further outside the alternatives of rules: in the text's head, in prequels, in options
//! and at a rule's name.

ghost use Rattle.std.specs.Prelude.{◌≡◌, Some};
ghost use Rattle.grammar_tree.specs.GrammarView.{grammar_of};
ghost use Rattle.grammar_reader_machine.specs.Machine as m;
ghost use Rattle.grammar_reader_notation.specs.Notation.{may_name_option};
ghost use Rattle.grammar_reader_machine.specs.View.{body_of, head_of, owner_of, value_of};
ghost use Rattle.grammar_reader_machine.specs.NextState.{NextIs};

use faults::Memory;
use grammar_reader_machine::{
    Body, Frame, Head, LexBody, LexFrame, LexerPosition, Next, Owner, ParserPosition, State,
    ValueOf, with_token,
};
use grammar_reader_words::{Word, is};
use grammar_tree::{Grammar, Text};
use std::alloc::Global;

/// How many blocks may be open, one in another.
const MOST_BLOCKS: u32 = 64;

pub fn step_start(word: Word) -> Next
    ensures { result ≡ m.step_start word }
{
    match word {
        Word::Grammar => Next::some(State::Name),
        _ => Next::refused(word),
    }
}

pub fn step_name(word: Word) -> Next
    ensures { result ≡ m.step_name word }
{
    match word {
        Word::Upper(name) => Next::some(State::Semicolon(name)),
        Word::Lower(name) => Next::some(State::Semicolon(name)),
        _ => Next::refused(word),
    }
}

pub fn step_semicolon(alloc: Global, name: Text, word: Word) -> Next
    ensures { result ≡ m.step_semicolon name word }
{
    match word {
        Word::Semicolon => Next::some(State::Prequel(Grammar {
            name,
            tokens: Vec::new(alloc),
            rules: Vec::new(alloc),
        })),
        _ => Next::refused(word),
    }
}

pub fn step_rule(grammar: Grammar, word: Word) -> Next
    ensures { result ≡ m.step_rule (grammar_of grammar) word }
{
    match word {
        Word::Lower(name) => Next::some(State::Head(grammar, Head::Parser(name))),
        Word::Upper(name) => Next::some(State::Head(
            grammar,
            Head::Lexer {
                name,
                fragment: false,
            },
        )),
        Word::Fragment => Next::some(State::FragmentName(grammar)),
        Word::End => Next::some(State::End(grammar)),
        _ => Next::refused(word),
    }
}

pub fn step_prequel(grammar: Grammar, word: Word) -> Next
    ensures { result ≡ m.step_prequel (grammar_of grammar) word }
{
    match word {
        Word::Options => Next::some(State::OptionsBrace(grammar, Owner::Text)),
        Word::Tokens => Next::some(State::TokensBrace(grammar)),
        _ => step_rule(grammar, word),
    }
}

pub fn step_options_brace(grammar: Grammar, owner: Owner, word: Word) -> Next
    ensures { result ≡ m.step_options_brace (grammar_of grammar) (owner_of owner) word }
{
    match word {
        Word::OpenBrace => Next::some(State::Entry(grammar, owner)),
        _ => Next::refused_word(ValueOf::Entry(grammar, owner), word),
    }
}

fn after_options(grammar: Grammar, owner: Owner) -> Next
    ensures { result ≡ Some (m.after_options (grammar_of grammar) (owner_of owner)) }
{
    match owner {
        Owner::Text => Next::some(State::Prequel(grammar)),
        Owner::Rule(head) => Next::some(State::Colon(grammar, head)),
    }
}

/// Whether an option of a profile text may have the name.
fn may_name_option(name: &Text) -> bool
    ensures { result ≡ may_name_option name.now }
{
    !is(name, "caseInsensitive") && !is(name, "tokenVocab")
}

/// After an option's name, where a profile text may have it.
fn after_option_name(grammar: Grammar, owner: Owner, name: Text) -> Next
    ensures { result ≡ m.provided (may_name_option name) (m.AtEntryEquals (grammar_of grammar) (owner_of owner)) }
{
    if may_name_option(&name) {
        Next::some(State::EntryEquals(grammar, owner))
    } else {
        Next::none()
    }
}

pub fn step_entry(grammar: Grammar, owner: Owner, word: Word) -> Next
    ensures { result ≡ m.step_entry (grammar_of grammar) (owner_of owner) word }
{
    match word {
        Word::Upper(name) => after_option_name(grammar, owner, name),
        Word::Lower(name) => after_option_name(grammar, owner, name),
        Word::CloseBrace => after_options(grammar, owner),
        _ => Next::refused_word(ValueOf::Entry(grammar, owner), word),
    }
}

pub fn step_entry_equals(grammar: Grammar, owner: Owner, word: Word) -> Next
    ensures { result ≡ m.step_entry_equals (grammar_of grammar) (owner_of owner) word }
{
    match word {
        Word::Equals => Next::some(State::Value(ValueOf::Entry(grammar, owner))),
        _ => Next::refused_word(ValueOf::Entry(grammar, owner), word),
    }
}

pub fn step_value(value: ValueOf, word: Word) -> Next
    ensures { result ≡ m.step_value (value_of value) word }
{
    match word {
        Word::Upper(_) => Next::some(State::Path(value)),
        Word::Lower(_) => Next::some(State::Path(value)),
        Word::Literal(_) => Next::some(State::AfterValue(value)),
        Word::Number => Next::some(State::AfterValue(value)),
        _ => Next::refused_word(value, word),
    }
}

fn step_after_entry(grammar: Grammar, owner: Owner, word: Word) -> Next
    ensures { result ≡ m.step_after_value (m.InEntry (grammar_of grammar) (owner_of owner)) word }
{
    match word {
        Word::Semicolon => Next::some(State::Entry(grammar, owner)),
        _ => Next::refused_word(ValueOf::Entry(grammar, owner), word),
    }
}

fn step_after_opening(body: Body, word: Word) -> Next
    ensures { result ≡ m.step_after_value (m.InOpening (body_of body)) word }
{
    match word {
        Word::Greater => Next::some(State::Parser(body, ParserPosition::Elements)),
        _ => Next::refused_word(ValueOf::Opening(body), word),
    }
}

pub fn step_after_value(value: ValueOf, word: Word) -> Next
    ensures { result ≡ m.step_after_value (value_of value) word }
{
    match value {
        ValueOf::Entry(grammar, owner) => step_after_entry(grammar, owner, word),
        ValueOf::Opening(body) => step_after_opening(body, word),
    }
}

pub fn step_path(value: ValueOf, word: Word) -> Next
    ensures { result ≡ m.step_path (value_of value) word }
{
    match word {
        Word::Dot => Next::some(State::PathName(value)),
        _ => step_after_value(value, word),
    }
}

pub fn step_path_name(value: ValueOf, word: Word) -> Next
    ensures { result ≡ m.step_path_name (value_of value) word }
{
    match word {
        Word::Upper(_) => Next::some(State::Path(value)),
        Word::Lower(_) => Next::some(State::Path(value)),
        _ => Next::refused_word(value, word),
    }
}

pub fn step_tokens_brace(grammar: Grammar, word: Word) -> Next
    ensures { result ≡ m.step_tokens_brace (grammar_of grammar) word }
{
    match word {
        Word::OpenBrace => Next::some(State::Token(grammar)),
        _ => Next::refused(word),
    }
}

pub fn step_token(grammar: Grammar, word: Word) -> Result<Next, Memory>
    ensures { NextIs result (m.step_token (grammar_of grammar) word) }
{
    match word {
        Word::Upper(name) => Ok(Next::some(State::AfterToken(with_token(grammar, name)?))),
        Word::CloseBrace => Ok(Next::some(State::Prequel(grammar))),
        _ => Ok(Next::refused(word)),
    }
}

pub fn step_after_token(grammar: Grammar, word: Word) -> Next
    ensures { result ≡ m.step_after_token (grammar_of grammar) word }
{
    match word {
        Word::Comma => Next::some(State::Token(grammar)),
        Word::CloseBrace => Next::some(State::Prequel(grammar)),
        _ => Next::refused(word),
    }
}

pub fn step_fragment(grammar: Grammar, word: Word) -> Next
    ensures { result ≡ m.step_fragment (grammar_of grammar) word }
{
    match word {
        Word::Upper(name) => Next::some(State::Head(
            grammar,
            Head::Lexer {
                name,
                fragment: true,
            },
        )),
        _ => Next::refused(word),
    }
}

/// Whether the alternatives have commands, as far as it is known before the first one.
fn no_commands(fragment: bool) -> Option<bool>
    ensures { result ≡ m.no_commands fragment }
{
    if fragment { Some(false) } else { None }
}

/// The first alternative of a rule.
fn body_at(alloc: Global, grammar: Grammar, head: Head) -> Next
    ensures { result ≡ Some (m.body_at 64 (grammar_of grammar) (head_of head)) }
{
    match head {
        Head::Parser(name) => {
            let body = Body {
                grammar,
                name,
                blocks_left: MOST_BLOCKS,
                enclosing: Vec::new(alloc),
                current: Frame::fresh(alloc),
            };
            Next::some(State::Parser(body, ParserPosition::Alt))
        }
        Head::Lexer { name, fragment } => {
            let body = LexBody {
                grammar,
                name,
                fragment,
                known: no_commands(fragment),
                blocks_left: MOST_BLOCKS,
                enclosing: Vec::new(alloc),
                current: LexFrame::fresh(alloc),
            };
            Next::some(State::Lexer(body, LexerPosition::Elements))
        }
    }
}

pub fn step_colon(alloc: Global, grammar: Grammar, head: Head, word: Word) -> Next
    ensures { result ≡ m.step_colon 64 (grammar_of grammar) (head_of head) word }
{
    match word {
        Word::Colon => body_at(alloc, grammar, head),
        _ => Next::refused(word),
    }
}

pub fn step_head(alloc: Global, grammar: Grammar, head: Head, word: Word) -> Next
    ensures { result ≡ m.step_head 64 (grammar_of grammar) (head_of head) word }
{
    match word {
        Word::Options => Next::some(State::OptionsBrace(grammar, Owner::Rule(head))),
        _ => step_colon(alloc, grammar, head, word),
    }
}
