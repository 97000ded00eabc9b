//! One word further in a parser rule.
#![tactic(auto, using(crate::proofs::Views::views))]

ghost use Rattle.std.specs.Prelude.{◌≡◌, ℕ, Some, IfOk};
ghost use Rattle.grammar_tree.specs.View.{parser_term};
ghost use Rattle.grammar_tree.specs.Written.{WrittenTerm};
ghost use Rattle.grammar_reader_machine.specs.Machine as m;
ghost use Rattle.grammar_reader_machine.specs.View.{body_of, parser_state, refs_of};
ghost use Rattle.grammar_reader_machine.specs.NextState.{NextIs};
ghost use Rattle.grammar_reader_parser_rules.specs.inner.References.{after_listed, after_reference};
ghost use Rattle.grammar_reader_parser_rules.specs.inner.Terms.{is_name, reference_of, suffixed};

use crate::terms::{is_name, more_refs, named, past_label, reference, suffixed};
use faults::Memory;
use grammar_reader_machine::{
    Body, Frame, Next, ParserPosition, State, ValueOf, failed, with_rule,
};
use grammar_reader_words::Word;
use grammar_tree::{ParserTerm, Rule, Suffix, TokenRef, TokenRefs};
use std::alloc::Global;

fn at(body: Body, position: ParserPosition) -> Result<Next, Memory>
    ensures { NextIs result (Some (parser_state (body_of body) position)) }
{
    Ok(Next::some(State::Parser(body, position)))
}

fn add(mut body: Body, term: ParserTerm) -> Result<Body, Memory>
    ensures { IfOk result (λ b. body_of b ≡ m.add (body_of body) (parser_term term)) }
{
    body.current = body.current.with_term(term)?;
    Ok(body)
}

/// A block begins, if one more may be open.
fn with_block(alloc: Global, mut body: Body) -> Result<Next, Memory>
    ensures { NextIs result (m.with_block (body_of body) body.blocks_left) }
{
    if body.blocks_left == 0 {
        return Ok(Next::refused(body));
    }
    let around = body.current;
    body.enclosing.push(around)?;
    body.current = Frame::fresh(alloc);
    body.blocks_left -= 1;
    at(body, ParserPosition::Alt)
}

/// A block ends, if one is open.
fn block_end(mut body: Body) -> Result<Next, Memory>
    ensures { NextIs result (m.block_end (body_of body) (body_of body).enclosing) }
{
    match body.enclosing.pop() {
        None => Ok(Next::refused(body)),
        Some(around) => {
            let block = ParserTerm::Block(body.current.whole()?);
            body.blocks_left += 1;
            body.current = around;
            at(body, ParserPosition::After(block))
        }
    }
}

/// The rule ends, if no block is open.
fn rule_end(body: Body) -> Result<Next, Memory>
    ensures { NextIs result (m.rule_end (body_of body) (body_of body).enclosing) }
{
    if !body.enclosing.is_empty() {
        return Ok(Next::refused(body));
    }
    let alts = body.current.whole()?;
    let rule = Rule::Parser {
        name: body.name,
        alts,
    };
    Ok(Next::some(State::Rule(with_rule(body.grammar, rule)?)))
}

/// The next alternative begins.
fn next_alternative(alloc: Global, mut body: Body) -> Result<Next, Memory>
    ensures { NextIs result (Some (m.next_alternative (body_of body))) }
{
    body.current = body.current.next_alt(alloc)?;
    at(body, ParserPosition::Alt)
}

fn step_alt_end(alloc: Global, body: Body, word: Word) -> Result<Next, Memory>
    ensures { NextIs result (m.step_alt_end (body_of body) word) }
{
    match word {
        Word::Bar => next_alternative(alloc, body),
        Word::Semicolon => rule_end(body),
        Word::Close => block_end(body),
        _ => Ok(Next::refused_word(body, word)),
    }
}

/// The name of the alternative may follow, if no block is open.
fn before_alternative_name(body: Body) -> Result<Next, Memory>
    ensures { NextIs result (m.before_alternative_name (body_of body) (body_of body).enclosing) }
{
    if body.enclosing.is_empty() {
        at(body, ParserPosition::AltName)
    } else {
        Ok(Next::refused(body))
    }
}

fn step_atom(alloc: Global, body: Body, word: Word) -> Result<Next, Memory>
    ensures { NextIs result (m.step_atom (body_of body) word) }
{
    match word {
        Word::Literal(text) => at(body, ParserPosition::After(ParserTerm::Literal(text))),
        Word::Upper(name) => at(body, ParserPosition::After(named(name))),
        Word::Lower(name) => at(body, ParserPosition::After(ParserTerm::Name(name))),
        Word::Dot => at(body, ParserPosition::After(ParserTerm::Any)),
        Word::Tilde => at(body, ParserPosition::Ref),
        Word::Open => with_block(alloc, body),
        _ => Ok(Next::refused_word(body, word)),
    }
}

fn step_elements(alloc: Global, body: Body, word: Word) -> Result<Next, Memory>
    ensures { NextIs result (m.step_elements (body_of body) word) }
{
    match word {
        Word::Upper(name) => at(body, ParserPosition::Name(named(name))),
        Word::Lower(name) => at(body, ParserPosition::Name(ParserTerm::Name(name))),
        Word::Hash => before_alternative_name(body),
        Word::Bar | Word::Semicolon | Word::Close => step_alt_end(alloc, body, word),
        _ => step_atom(alloc, body, word),
    }
}

/// After a term that has the suffix.
fn with_suffix(alloc: Global, body: Body, term: ParserTerm, suffix: Suffix) -> Result<Next, Memory>
    ensures { NextIs result (Some (m.Suffixed (m.add (body_of body) (suffixed suffix (parser_term term))))) }
{
    match suffixed(alloc, term, suffix) {
        Ok(term) => at(add(body, term)?, ParserPosition::Suffixed),
        Err(error) => Err(failed(body, error)),
    }
}

/// One word further after a term that has no suffix.
fn without_suffix(alloc: Global, body: Body, term: ParserTerm, word: Word) -> Result<Next, Memory>
    ensures { NextIs result (m.step_elements (m.add (body_of body) (parser_term term)) word) }
{
    match add(body, term) {
        Ok(body) => step_elements(alloc, body, word),
        Err(error) => Err(failed(word, error)),
    }
}

fn step_after(alloc: Global, body: Body, term: ParserTerm, word: Word) -> Result<Next, Memory>
    ensures { NextIs result (m.step_after (body_of body) (parser_term term) word) }
{
    match word {
        Word::Question => with_suffix(alloc, body, term, Suffix::Question),
        Word::Star => with_suffix(alloc, body, term, Suffix::Star),
        Word::Plus => with_suffix(alloc, body, term, Suffix::Plus),
        _ => without_suffix(alloc, body, term, word),
    }
}

/// After a label.
fn after_label(body: Body, name: ParserTerm) -> Result<Next, Memory>
    ensures { NextIs result (Some (m.AtAtom (body_of body))) }
{
    at(body, past_label(name))
}

fn step_after_name(alloc: Global, body: Body, term: ParserTerm, word: Word) -> Result<Next, Memory>
    ensures { NextIs result (m.step_after_name (body_of body) (parser_term term) word) }
{
    match word {
        Word::Equals => after_label(body, term),
        Word::PlusEquals => after_label(body, term),
        _ => step_after(alloc, body, term, word),
    }
}

fn step_alt(alloc: Global, body: Body, word: Word) -> Result<Next, Memory>
    ensures { NextIs result (m.step_alt (body_of body) word) }
{
    match word {
        Word::Less => at(body, ParserPosition::OpeningName),
        _ => step_elements(alloc, body, word),
    }
}

/// The position, if the word is a name.
fn at_name(body: Body, position: ParserPosition, word: Word) -> Result<Next, Memory>
    ensures { NextIs result (m.provided (is_name word) (parser_state (body_of body) position)) }
{
    if is_name(word) {
        at(body, position)
    } else {
        Ok(Next::refused(body))
    }
}

fn step_opening_name(body: Body, word: Word) -> Result<Next, Memory>
    ensures { NextIs result (m.step_opening_name (body_of body) word) }
{
    at_name(body, ParserPosition::OpeningEquals, word)
}

fn step_opening_equals(body: Body, word: Word) -> Result<Next, Memory>
    ensures { NextIs result (m.step_opening_equals (body_of body) word) }
{
    match word {
        Word::Equals => Ok(Next::some(State::Value(ValueOf::Opening(body)))),
        _ => Ok(Next::refused_word(body, word)),
    }
}

fn but(body: Body, refs: Vec<TokenRef>) -> Result<Next, Memory>
    ensures { NextIs result (Some (m.AfterAtom (body_of body) (WrittenTerm.but (refs_of refs)))) }
{
    at(
        body,
        ParserPosition::After(ParserTerm::Not(TokenRefs { items: refs })),
    )
}

/// After `~` and one reference, if there is one.
fn after_reference(alloc: Global, body: Body, token: Option<TokenRef>) -> Result<Next, Memory>
    ensures { NextIs result (after_reference (body_of body) (reference_of token)) }
{
    match token {
        Some(token) => match more_refs(Vec::new(alloc), token) {
            Ok(refs) => but(body, refs),
            Err(error) => Err(failed(body, error)),
        },
        None => Ok(Next::refused(body)),
    }
}

fn step_ref(alloc: Global, body: Body, word: Word) -> Result<Next, Memory>
    ensures { NextIs result (m.step_ref (body_of body) word) }
{
    match word {
        Word::Open => at(body, ParserPosition::RefIn(Vec::new(alloc))),
        _ => after_reference(alloc, body, reference(word)),
    }
}

/// After one more reference in brackets, if there is one.
fn after_listed(body: Body, refs: Vec<TokenRef>, token: Option<TokenRef>) -> Result<Next, Memory>
    ensures { NextIs result (after_listed (body_of body) (refs_of refs) (reference_of token)) }
{
    match token {
        Some(token) => match more_refs(refs, token) {
            Ok(refs) => at(body, ParserPosition::AfterRef(refs)),
            Err(error) => Err(failed(body, error)),
        },
        None => Ok(Next::refused(body)),
    }
}

fn step_ref_in(body: Body, refs: Vec<TokenRef>, word: Word) -> Result<Next, Memory>
    ensures { NextIs result (m.step_ref_in (body_of body) (refs_of refs) word) }
{
    after_listed(body, refs, reference(word))
}

fn step_after_ref(body: Body, refs: Vec<TokenRef>, word: Word) -> Result<Next, Memory>
    ensures { NextIs result (m.step_after_ref (body_of body) (refs_of refs) word) }
{
    match word {
        Word::Bar => at(body, ParserPosition::RefIn(refs)),
        Word::Close => but(body, refs),
        _ => Ok(Next::refused_word(body, word)),
    }
}

fn step_alt_name(body: Body, word: Word) -> Result<Next, Memory>
    ensures { NextIs result (m.step_alt_name (body_of body) word) }
{
    at_name(body, ParserPosition::AfterAltName, word)
}

/// One word further in a parser rule.
pub fn step_parser(
    alloc: Global,
    body: Body,
    position: ParserPosition,
    word: Word,
) -> Result<Next, Memory>
    ensures { (depth : ℕ) → NextIs result (m.step depth (parser_state (body_of body) position) word) }
{
    match position {
        ParserPosition::Alt => step_alt(alloc, body, word),
        ParserPosition::OpeningName => step_opening_name(body, word),
        ParserPosition::OpeningEquals => step_opening_equals(body, word),
        ParserPosition::Elements => step_elements(alloc, body, word),
        ParserPosition::Suffixed => step_elements(alloc, body, word),
        ParserPosition::Name(term) => step_after_name(alloc, body, term, word),
        ParserPosition::Atom => step_atom(alloc, body, word),
        ParserPosition::After(term) => step_after(alloc, body, term, word),
        ParserPosition::Ref => step_ref(alloc, body, word),
        ParserPosition::RefIn(refs) => step_ref_in(body, refs, word),
        ParserPosition::AfterRef(refs) => step_after_ref(body, refs, word),
        ParserPosition::AltName => step_alt_name(body, word),
        ParserPosition::AfterAltName => step_alt_end(alloc, body, word),
    }
}
