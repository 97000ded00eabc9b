//! One word further in a lexer rule.
#![tactic(auto, using(crate::proofs::Views::views))]

ghost use Rattle.std.specs.Prelude.{◌≡◌, Some, IfOk, length};
ghost use Rattle.grammar_tree.specs.View.{lex_term};
ghost use Rattle.grammar_tree.specs.Written.{LexerTerm};
ghost use Rattle.grammar_reader_machine.specs.Machine as m;
ghost use Rattle.grammar_reader_machine.specs.NextState.{NextIs};
ghost use Rattle.grammar_reader_notation.specs.Sets.{outside, within};
ghost use Rattle.grammar_reader_machine.specs.View.{lex_body_of, lexer_state, top_body_of};
ghost use Rattle.grammar_reader_lexer_rules.specs.inner.Terms.{lex_suffixed};

use crate::terms::{BlockEnd, end_in_block, lex_suffixed, negated};
use crate::top::step_done;
use faults::Memory;
use grammar_reader_machine::{LexBody, LexFrame, LexerPosition, Next, State, TopBody, failed};
use grammar_reader_notation::within;
use grammar_reader_words::{Word, is};
use grammar_tree::{CharSet, LexTerm, Suffix};
use std::alloc::Global;

pub fn at(body: LexBody, position: LexerPosition) -> Result<Next, Memory>
    ensures { NextIs result (Some (lexer_state (lex_body_of body) position)) }
{
    Ok(Next::some(State::Lexer(body, position)))
}

fn add(mut body: LexBody, term: LexTerm) -> Result<LexBody, Memory>
    ensures { IfOk result (λ b. lex_body_of b ≡ m.lex_add (lex_body_of body) (lex_term term)) }
{
    body.current = body.current.with_term(term)?;
    Ok(body)
}

/// A block begins, if one more may be open.
fn with_block(alloc: Global, mut body: LexBody) -> Result<Next, Memory>
    ensures { NextIs result (m.lex_with_block (lex_body_of body) body.blocks_left) }
{
    if body.blocks_left == 0 {
        return Ok(Next::refused(body));
    }
    let around = body.current;
    body.enclosing.push(around)?;
    body.current = LexFrame::fresh(alloc);
    body.blocks_left -= 1;
    at(body, LexerPosition::Elements)
}

/// A block ends, if one is open.
fn block_end(mut body: LexBody) -> Result<Next, Memory>
    ensures { NextIs result (m.lex_block_end (lex_body_of body) (lex_body_of body).enclosing) }
{
    match body.enclosing.pop() {
        None => Ok(Next::refused(body)),
        Some(around) => {
            let block = LexTerm::Block(body.current.whole()?);
            body.blocks_left += 1;
            body.current = around;
            at(body, LexerPosition::After(block))
        }
    }
}

/// The next alternative of a block.
fn next_alternative(alloc: Global, mut body: LexBody) -> Result<Next, Memory>
    ensures { NextIs result (Some (m.InLex (m.lex_with (lex_body_of body) (m.next_alt (lex_body_of body).current)))) }
{
    body.current = body.current.next_alt(alloc)?;
    at(body, LexerPosition::Elements)
}

/// The body of the rule itself, where no block is open.
pub fn top(body: LexBody) -> TopBody
    requires { length body.enclosing.items ≡ 0 }
    ensures { top_body_of result ≡ lex_body_of body }
{
    let LexBody {
        grammar,
        name,
        fragment,
        known,
        blocks_left: _,
        enclosing: _,
        current,
    } = body;
    TopBody {
        grammar,
        name,
        fragment,
        known,
        current,
    }
}

/// After an alternative in a block.
fn step_inner_end(alloc: Global, body: LexBody, word: Word) -> Result<Next, Memory>
    ensures { NextIs result (m.step_inner_end (lex_body_of body) word) }
{
    match end_in_block(word) {
        Some(BlockEnd::Alternative) => next_alternative(alloc, body),
        Some(BlockEnd::Block) => block_end(body),
        None => Ok(Next::refused(body)),
    }
}

fn step_lex_end(alloc: Global, body: LexBody, word: Word) -> Result<Next, Memory>
    ensures { NextIs result (m.step_lex_end (lex_body_of body) (lex_body_of body).enclosing word) }
{
    if body.enclosing.is_empty() {
        step_done(alloc, top(body), word)
    } else {
        step_inner_end(alloc, body, word)
    }
}

/// After a set that may be the operand of a non-greedy loop.
fn after_set(alloc: Global, body: LexBody, ranges: &[(u32, u32)]) -> Result<Next, Memory>
    ensures { NextIs result (Some (m.AfterSet (lex_body_of body) (within ranges.now))) }
{
    match within(alloc, ranges) {
        Ok(set) => at(body, LexerPosition::Set(set)),
        Err(error) => Err(failed(body, error)),
    }
}

pub fn after_but(alloc: Global, body: LexBody, ranges: &[(u32, u32)]) -> Result<Next, Memory>
    ensures { NextIs result (Some (m.AfterSet (lex_body_of body) (outside ranges.now))) }
{
    match negated(alloc, ranges) {
        Ok(position) => at(body, position),
        Err(error) => Err(failed(body, error)),
    }
}

pub fn step_lex(alloc: Global, body: LexBody, word: Word) -> Result<Next, Memory>
    ensures { NextIs result (m.step_lex (lex_body_of body) word) }
{
    match word {
        Word::Literal(text) => at(body, LexerPosition::Literal(text)),
        Word::Upper(name) => {
            if is(&name, "EOF") {
                Ok(Next::refused(body))
            } else {
                at(body, LexerPosition::After(LexTerm::Name(name)))
            }
        }
        Word::Set(ranges) => after_set(alloc, body, ranges.as_slice()),
        Word::Dot => after_but(alloc, body, &[]),
        Word::Tilde => at(body, LexerPosition::Item),
        Word::Open => with_block(alloc, body),
        _ => step_lex_end(alloc, body, word),
    }
}

/// With one more element, which has the suffix.
fn add_suffixed(
    alloc: Global,
    body: LexBody,
    term: LexTerm,
    suffix: Suffix,
) -> Result<LexBody, Memory>
    ensures { IfOk result (λ b. lex_body_of b ≡ m.lex_add (lex_body_of body) (lex_suffixed suffix (lex_term term))) }
{
    match lex_suffixed(alloc, term, suffix) {
        Ok(term) => add(body, term),
        Err(error) => Err(failed(body, error)),
    }
}

/// After an element that has the suffix.
fn with_suffix(alloc: Global, body: LexBody, term: LexTerm, suffix: Suffix) -> Result<Next, Memory>
    ensures { NextIs result (Some (m.LexSuffixed (m.lex_add (lex_body_of body) (lex_suffixed suffix (lex_term term))))) }
{
    at(
        add_suffixed(alloc, body, term, suffix)?,
        LexerPosition::Suffixed,
    )
}

/// After an element with no suffix.
fn step_past(alloc: Global, body: LexBody, term: LexTerm, word: Word) -> Result<Next, Memory>
    ensures { NextIs result (m.step_lex (m.lex_add (lex_body_of body) (lex_term term)) word) }
{
    match add(body, term) {
        Ok(body) => step_lex(alloc, body, word),
        Err(error) => Err(failed(word, error)),
    }
}

/// After a set with a star.
pub fn step_past_star(
    alloc: Global,
    body: LexBody,
    set: CharSet,
    word: Word,
) -> Result<Next, Memory>
    ensures { NextIs result (m.step_lex (m.lex_add (lex_body_of body) (LexerTerm.star (LexerTerm.set set))) word) }
{
    match add_suffixed(alloc, body, LexTerm::Set(set), Suffix::Star) {
        Ok(body) => step_lex(alloc, body, word),
        Err(error) => Err(failed(word, error)),
    }
}

pub fn step_lex_after(
    alloc: Global,
    body: LexBody,
    term: LexTerm,
    word: Word,
) -> Result<Next, Memory>
    ensures { NextIs result (m.step_lex_after (lex_body_of body) (lex_term term) word) }
{
    match word {
        Word::Question => with_suffix(alloc, body, term, Suffix::Question),
        Word::Star => with_suffix(alloc, body, term, Suffix::Star),
        Word::Plus => with_suffix(alloc, body, term, Suffix::Plus),
        _ => step_past(alloc, body, term, word),
    }
}
