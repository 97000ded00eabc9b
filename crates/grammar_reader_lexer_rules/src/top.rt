//! One word further at the end of an alternative of a lexer rule.
#![tactic(auto, using(crate::proofs::Views::views))]

ghost use Rattle.std.specs.Prelude.{◌≡◌, ◌++◌, ◌∷◌, [], ℕ, Some, IfOk, false};
ghost use Rattle.grammar_tree.specs.View.{lex_term};
ghost use Rattle.grammar_tree.specs.Written.{LexerTerm};
ghost use Rattle.grammar_reader_notation.specs.Sets.{within};
ghost use Rattle.grammar_reader_machine.specs.Machine as m;
ghost use Rattle.grammar_reader_machine.specs.NextState.{NextIs};
ghost use Rattle.grammar_reader_machine.specs.View.{lex_body_of, top_body_of, top_state};

use faults::Memory;
use grammar_reader_machine::{
    EndPosition, LexBody, LexerPosition, Next, State, TopBody, with_rule,
};
use grammar_reader_notation::within;
use grammar_reader_words::{Word, is};
use grammar_tree::{CharSet, LexTerm, Rule};
use std::alloc::Global;

/// The rule with no block open.
fn rule_body(alloc: Global, body: TopBody) -> LexBody
    ensures { lex_body_of result ≡ top_body_of body }
{
    let TopBody {
        grammar,
        name,
        fragment,
        known,
        current,
    } = body;
    LexBody {
        grammar,
        name,
        fragment,
        known,
        blocks_left: 64,
        enclosing: Vec::new(alloc),
        current,
    }
}

fn at(body: TopBody, position: EndPosition) -> Next
    ensures { result ≡ Some (top_state (top_body_of body) position) }
{
    Next::some(State::Top(body, position))
}

/// The position, if `fits` holds.
fn at_if(fits: bool, body: TopBody, position: EndPosition) -> Next
    ensures { result ≡ m.provided fits (top_state (top_body_of body) position) }
{
    if fits {
        at(body, position)
    } else {
        Next::refused(body)
    }
}

/// The next alternative of the rule; `gap` says whether that before has a command.
fn next_top(alloc: Global, body: TopBody, gap: bool) -> Result<Next, Memory>
    ensures { NextIs result (Some (m.next_top (top_body_of body) gap)) }
{
    let current = body.current.next_alt(alloc)?;
    let body = TopBody {
        known: Some(gap),
        current,
        ..body
    };
    let body = rule_body(alloc, body);
    Ok(Next::some(State::Lexer(body, LexerPosition::Elements)))
}

/// The rule ends; `gap` says whether its alternatives have commands.
fn end_top(body: TopBody, gap: bool) -> Result<Next, Memory>
    ensures { NextIs result (Some (m.end_top (top_body_of body) gap)) }
{
    let TopBody {
        grammar,
        name,
        fragment,
        known: _,
        current,
    } = body;
    let alts = current.whole()?;
    let rule = Rule::Lexer {
        name,
        fragment,
        gap,
        alts,
    };
    Ok(Next::some(State::Rule(with_rule(grammar, rule)?)))
}

/// The next alternative, after one with no command.
fn next_without_command(alloc: Global, body: TopBody) -> Result<Next, Memory>
    ensures { NextIs result (m.without_command body.known (m.next_top (top_body_of body) false)) }
{
    match body.known {
        Some(true) => Ok(Next::refused(body)),
        _ => next_top(alloc, body, false),
    }
}

/// The rule ends after an alternative with no command.
fn end_without_command(body: TopBody) -> Result<Next, Memory>
    ensures { NextIs result (m.without_command body.known (m.end_top (top_body_of body) false)) }
{
    match body.known {
        Some(true) => Ok(Next::refused(body)),
        _ => end_top(body, false),
    }
}

/// Whether an alternative may have a command, where that is so of those before.
fn may_have_command(known: Option<bool>) -> bool
    ensures { (s : m.State) → m.with_command known s ≡ m.provided result s }
{
    match known {
        Some(false) => false,
        _ => true,
    }
}

/// A command begins, if an alternative may have one.
fn command(body: TopBody) -> Next
    ensures { result ≡ m.with_command body.known (m.AtCommand (top_body_of body)) }
{
    at_if(may_have_command(body.known), body, EndPosition::Command)
}

/// After what an alternative consists of.
pub fn step_done(alloc: Global, body: TopBody, word: Word) -> Result<Next, Memory>
    ensures { NextIs result (m.step_done (top_body_of body) word) }
{
    match word {
        Word::Bar => next_without_command(alloc, body),
        Word::Semicolon => end_without_command(body),
        Word::Arrow => Ok(command(body)),
        _ => Ok(Next::refused_word(body, word)),
    }
}

fn add(body: TopBody, term: LexTerm) -> Result<TopBody, Memory>
    ensures { IfOk result (λ b. top_body_of b ≡ m.lex_add (top_body_of body) (lex_term term)) }
{
    let current = body.current.with_term(term)?;
    Ok(TopBody { current, ..body })
}

/// A non-greedy loop of the set.
fn short(set: CharSet) -> LexTerm
    ensures { lex_term result ≡ LexerTerm.short set }
{
    LexTerm::Short(set)
}

fn add_short(body: TopBody, set: CharSet) -> Result<TopBody, Memory>
    ensures { IfOk result (λ b. top_body_of b ≡ m.lex_add (top_body_of body) (LexerTerm.short set)) }
{
    add(body, short(set))
}

fn with_loop(body: TopBody, set: CharSet, last: LexTerm) -> Result<TopBody, Memory>
    ensures { IfOk result (λ b. top_body_of b ≡ m.with_loop (top_body_of body) set (lex_term last)) }
{
    add(add_short(body, set)?, last)
}

/// After a non-greedy loop and what follows it.
fn loop_then(body: TopBody, set: CharSet, last: LexTerm) -> Result<Next, Memory>
    ensures { NextIs result (Some (m.AltDone (m.with_loop (top_body_of body) set (lex_term last)))) }
{
    Ok(at(with_loop(body, set, last)?, EndPosition::Done))
}

fn loop_then_set(
    alloc: Global,
    body: TopBody,
    set: CharSet,
    ranges: &[(u32, u32)],
) -> Result<Next, Memory>
    ensures { NextIs result (Some (m.AltDone (m.with_loop (top_body_of body) set (LexerTerm.set (within ranges.now))))) }
{
    loop_then(body, set, LexTerm::Set(within(alloc, ranges)?))
}

fn step_loop(alloc: Global, body: TopBody, set: CharSet, word: Word) -> Result<Next, Memory>
    ensures { NextIs result (m.step_loop (top_body_of body) set word) }
{
    match word {
        Word::Literal(text) => loop_then(body, set, LexTerm::Literal(text)),
        Word::Set(ranges) => loop_then_set(alloc, body, set, ranges.as_slice()),
        _ => Ok(Next::refused_word(body, word)),
    }
}

fn step_command(body: TopBody, word: Word) -> Next
    ensures { result ≡ m.step_command (top_body_of body) word }
{
    match word {
        Word::Lower(name) => {
            if is(&name, "skip") {
                at(body, EndPosition::AfterCommand)
            } else {
                at_if(is(&name, "channel"), body, EndPosition::ChannelOpen)
            }
        }
        _ => Next::refused_word(body, word),
    }
}

fn step_channel_open(body: TopBody, word: Word) -> Next
    ensures { result ≡ m.step_channel_open (top_body_of body) word }
{
    match word {
        Word::Open => at(body, EndPosition::ChannelName),
        _ => Next::refused_word(body, word),
    }
}

fn step_channel_name(body: TopBody, word: Word) -> Next
    ensures { result ≡ m.step_channel_name (top_body_of body) word }
{
    match word {
        Word::Upper(name) => at_if(is(&name, "HIDDEN"), body, EndPosition::ChannelClose),
        _ => Next::refused_word(body, word),
    }
}

fn step_channel_close(body: TopBody, word: Word) -> Next
    ensures { result ≡ m.step_channel_close (top_body_of body) word }
{
    match word {
        Word::Close => at(body, EndPosition::AfterCommand),
        _ => Next::refused_word(body, word),
    }
}

fn step_after_command(alloc: Global, body: TopBody, word: Word) -> Result<Next, Memory>
    ensures { NextIs result (m.step_after_command (top_body_of body) word) }
{
    match word {
        Word::Bar => next_top(alloc, body, true),
        Word::Semicolon => end_top(body, true),
        _ => Ok(Next::refused_word(body, word)),
    }
}

/// One word further at the end of an alternative of a lexer rule.
pub fn step_top(
    alloc: Global,
    body: TopBody,
    position: EndPosition,
    word: Word,
) -> Result<Next, Memory>
    ensures { (depth : ℕ) → NextIs result (m.step depth (top_state (top_body_of body) position) word) }
{
    match position {
        EndPosition::Loop(set) => step_loop(alloc, body, set, word),
        EndPosition::Done => step_done(alloc, body, word),
        EndPosition::Command => Ok(step_command(body, word)),
        EndPosition::ChannelOpen => Ok(step_channel_open(body, word)),
        EndPosition::ChannelName => Ok(step_channel_name(body, word)),
        EndPosition::ChannelClose => Ok(step_channel_close(body, word)),
        EndPosition::AfterCommand => step_after_command(alloc, body, word),
    }
}
