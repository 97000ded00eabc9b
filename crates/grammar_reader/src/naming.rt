//! What the first word that can't follow is called.

ghost use Rattle.std.specs.Prelude.{◌≡◌, ◌&&◌, Some, None, cond};
ghost use Rattle.grammar_reader_notation.specs.Notation.{is_eof};
ghost use Rattle.grammar_reader.specs.Positions as at;
ghost use Rattle.grammar_reader.specs.Rows.{breaks_command, fault_at, is_deep, last_row, later_row, loop_row, of_loop, option_row, own_row, reserved_row};
ghost use Rattle.grammar_reader_machine.specs.View.{state_of};

use crate::positions::{
    after_arrow, after_last, after_loop, after_name, after_suffix, at_arrow, at_block, at_colon,
    at_option, at_rule, at_start, ends_lex_alt, takes_action, within_lexer_rule,
    within_parser_rule,
};
use grammar_reader_machine::State;
use grammar_reader_notation::{ReadFault, What};
use grammar_reader_words::{Reserved, Word, is};
use grammar_tree::Text;

fn row_if(fits: bool, what: What) -> Option<What>
    ensures { result ≡ cond fits (Some what) None }
{
    if fits { Some(what) } else { None }
}

/// The row of a reserved word.
fn reserved_row(state: &State, reserved: Reserved) -> Option<What>
    ensures { result ≡ reserved_row (state_of state.now) reserved }
{
    match reserved {
        Reserved::Lexer => row_if(at_start(state), What::LexerGrammar),
        Reserved::Parser => row_if(at_start(state), What::ParserGrammar),
        Reserved::Import => row_if(at_rule(state), What::Import),
        Reserved::Mode => row_if(at_rule(state), What::Mode),
        Reserved::Channels => row_if(at_rule(state), What::Channels),
        Reserved::Returns => row_if(after_name(state), What::Returns),
        Reserved::Locals => row_if(after_name(state), What::Locals),
        Reserved::Throws => row_if(after_name(state), What::Throws),
        Reserved::Catch => row_if(at_rule(state), What::Catch),
        Reserved::Finally => row_if(at_rule(state), What::Finally),
        Reserved::Public => row_if(at_rule(state), What::Modifier),
        Reserved::Private => row_if(at_rule(state), What::Modifier),
        Reserved::Protected => row_if(at_rule(state), What::Modifier),
    }
}

/// The row above `command` that fits, if there is one.
fn own_row(state: &State, word: &Word) -> Option<What>
    ensures { result ≡ own_row (state_of state.now) word.now }
{
    match word {
        Word::Reserved(reserved) => reserved_row(state, *reserved),
        Word::OpenBrace => row_if(takes_action(state), What::Action),
        Word::At => row_if(at_rule(state) || at_colon(state), What::Action),
        Word::Set(_) => row_if(
            after_name(state) || within_parser_rule(state),
            What::Argument,
        ),
        _ => None,
    }
}

/// Whether the word breaks the form of a command or the conditions on one.
fn breaks_command(state: &State, word: &Word) -> bool
    ensures { result ≡ breaks_command (state_of state.now) word.now }
{
    match word {
        Word::Arrow => after_arrow(state) || ends_lex_alt(state),
        Word::Bar => after_arrow(state) || at_arrow(state),
        Word::Semicolon => after_arrow(state) || at_arrow(state),
        _ => after_arrow(state),
    }
}

/// The row of an option's name.
fn option_row(state: &State, name: &Text) -> Option<What>
    ensures { result ≡ option_row (state_of state.now) name.now }
{
    if !at_option(state) {
        return None;
    }
    if is(name, "caseInsensitive") {
        return Some(What::CaseInsensitive);
    }
    row_if(is(name, "tokenVocab"), What::TokenVocab)
}

/// Whether the state is after a non-greedy loop, or after what follows it.
fn of_loop(state: &State) -> bool
    ensures { result ≡ of_loop (state_of state.now) }
{
    after_loop(state) || after_last(state)
}

/// The row of a word that can't follow a suffix, or a loop or what follows it.
fn loop_row(state: &State, word: &Word) -> Option<What>
    ensures { result ≡ loop_row (state_of state.now) word.now }
{
    match word {
        Word::Question => row_if(of_loop(state) || after_suffix(state), What::NonGreedy),
        _ => row_if(of_loop(state), What::NonGreedy),
    }
}

/// Whether the name is that of the end of the input, in a lexer rule.
fn is_lexer_eof(state: &State, name: &Text) -> bool
    ensures { result ≡ (at.within_lexer_rule (state_of state.now) && is_eof name.now) }
{
    within_lexer_rule(state) && is(name, "EOF")
}

/// The row below `command` that fits first, if there is one.
fn last_row(state: &State, word: &Word) -> Option<What>
    ensures { result ≡ last_row (state_of state.now) word.now }
{
    match word {
        Word::Property => Some(What::Property),
        Word::Lower(name) => option_row(state, name).or(loop_row(state, word)),
        Word::Upper(name) => {
            loop_row(state, word).or(row_if(is_lexer_eof(state, name), What::Eof))
        }
        _ => loop_row(state, word),
    }
}

/// The row from `command` on that fits first, if there is one.
fn later_row(state: &State, word: &Word) -> Option<What>
    ensures { result ≡ later_row (state_of state.now) word.now }
{
    if breaks_command(state, word) {
        return Some(What::Command);
    }
    last_row(state, word)
}

fn is_deep(state: &State, word: &Word) -> bool
    ensures { result ≡ is_deep (state_of state.now) word.now }
{
    match word {
        Word::Open => at_block(state),
        _ => false,
    }
}

/// What a word is called that can't follow.
pub(crate) fn fault_at(state: &State, word: &Word, offset: u64) -> ReadFault
    ensures { result ≡ fault_at (state_of state.now) word.now offset }
{
    if is_deep(state, word) {
        return ReadFault::NestedTooDeep { offset };
    }
    match own_row(state, word).or(later_row(state, word)) {
        Some(what) => ReadFault::Unsupported { what, offset },
        None => ReadFault::Syntax { offset },
    }
}
