//! One word further after a literal, a set, or `~` in a lexer rule.
#![tactic(auto, using(crate::proofs::Views::views, crate::proofs::OneChars::one_chars))]

ghost use Rattle.std.specs.Prelude.{◌≡◌, ◌++◌, ◌∷◌, [], ℕ, Some, IfOk, nat_le};
ghost use Rattle.grammar_tree.specs.Written.{LexerTerm};
ghost use Rattle.grammar_reader_machine.specs.Machine as m;
ghost use Rattle.grammar_reader_machine.specs.NextState.{NextIs};
ghost use Rattle.grammar_reader_lexer_rules.specs.inner.OneChar.{only_char};
ghost use Rattle.grammar_reader_notation.specs.Sets.{within};
ghost use Rattle.grammar_reader_machine.specs.View.{item_position_of, lex_body_of, lexer_state};

use crate::lexer::{after_but, at, step_lex, step_lex_after, step_past_star, top};
use crate::terms::range_set;
use faults::Memory;
use grammar_reader_machine::{
    EndPosition, ItemPosition, LexBody, LexerPosition, Next, State, failed,
};
use grammar_reader_notation::outside;
use grammar_reader_words::{Word, first_char};
use grammar_tree::{CharSet, LexTerm, Text};
use std::alloc::Global;

/// The character of a text that has just one.
fn only_char(text: &Text) -> Option<u32>
    ensures { result ≡ only_char text.now }
{
    match first_char(text.as_str()) {
        None => None,
        Some((c, rest)) => match first_char(rest) {
            None => Some(u32::from(c)),
            Some(_) => None,
        },
    }
}

fn start_of_range(body: LexBody, text: Text) -> Result<Next, Memory>
    ensures { NextIs result (m.start_of_range (lex_body_of body) text) }
{
    match only_char(&text) {
        None => Ok(Next::refused(body)),
        Some(first) => at(body, LexerPosition::RangeEnd(first)),
    }
}

fn step_after_literal(alloc: Global, body: LexBody, text: Text, word: Word) -> Result<Next, Memory>
    ensures { NextIs result (m.step_after_literal (lex_body_of body) text word) }
{
    match word {
        Word::Dots => start_of_range(body, text),
        _ => step_lex_after(alloc, body, LexTerm::Literal(text), word),
    }
}

/// A range of characters, if its ends are in order.
fn range(alloc: Global, body: LexBody, first: u32, last: u32) -> Result<Next, Memory>
    ensures { NextIs result (m.provided (nat_le first last) (m.AfterLexAtom (lex_body_of body) (LexerTerm.set (within ((first, last) ∷ []))))) }
{
    match range_set(alloc, first, last) {
        Ok(Some(set)) => at(body, LexerPosition::After(LexTerm::Set(set))),
        Ok(None) => Ok(Next::refused(body)),
        Err(error) => Err(failed(body, error)),
    }
}

fn end_of_range(alloc: Global, body: LexBody, first: u32, text: Text) -> Result<Next, Memory>
    ensures { NextIs result (m.end_of_range (λ c. m.AfterLexAtom (lex_body_of body) (LexerTerm.set (within ((first, c) ∷ [])))) first text) }
{
    match only_char(&text) {
        None => Ok(Next::refused(body)),
        Some(last) => range(alloc, body, first, last),
    }
}

fn step_range_end(alloc: Global, body: LexBody, first: u32, word: Word) -> Result<Next, Memory>
    ensures { NextIs result (m.step_range_end (lex_body_of body) first word) }
{
    match word {
        Word::Literal(text) => end_of_range(alloc, body, first, text),
        _ => Ok(Next::refused_word(body, word)),
    }
}

fn step_after_set(alloc: Global, body: LexBody, set: CharSet, word: Word) -> Result<Next, Memory>
    ensures { NextIs result (m.step_after_set (lex_body_of body) set word) }
{
    match word {
        Word::Star => at(body, LexerPosition::SetStar(set)),
        _ => step_lex_after(alloc, body, LexTerm::Set(set), word),
    }
}

/// A non-greedy loop, if there may be one.
fn loop_end(body: LexBody, set: CharSet) -> Result<Next, Memory>
    ensures { NextIs result (m.loop_end (lex_body_of body) set (lex_body_of body).enclosing body.fragment) }
{
    if !body.enclosing.is_empty() {
        return Ok(Next::refused(body));
    }
    if body.fragment {
        return Ok(Next::refused(body));
    }
    Ok(Next::some(State::Top(top(body), EndPosition::Loop(set))))
}

fn step_after_set_star(
    alloc: Global,
    body: LexBody,
    set: CharSet,
    word: Word,
) -> Result<Next, Memory>
    ensures { NextIs result (m.step_after_set_star (lex_body_of body) set word) }
{
    match word {
        Word::Question => loop_end(body, set),
        _ => step_past_star(alloc, body, set, word),
    }
}

/// The ranges of the items before, and those of one more.
fn with_ranges(
    mut before: Vec<(u32, u32)>,
    ranges: &[(u32, u32)],
) -> Result<Vec<(u32, u32)>, Memory>
    ensures { IfOk result (λ all. all.items ≡ before.items ++ ranges.now) }
{
    before.extend_from_slice(ranges)?;
    Ok(before)
}

/// After an item, alone or in brackets.
fn after_item(
    alloc: Global,
    body: LexBody,
    position: ItemPosition,
    ranges: &[(u32, u32)],
) -> Result<Next, Memory>
    ensures { NextIs result (Some (m.after_item (lex_body_of body) (item_position_of position) ranges.now)) }
{
    match position {
        ItemPosition::Alone => after_but(alloc, body, ranges),
        ItemPosition::Listed(before) => match with_ranges(before, ranges) {
            Ok(ranges) => at(body, LexerPosition::AfterItem(ranges)),
            Err(error) => Err(failed(body, error)),
        },
    }
}

fn start_of_item(body: LexBody, position: ItemPosition, text: Text) -> Result<Next, Memory>
    ensures { NextIs result (m.one_char (lex_body_of body) (item_position_of position) text) }
{
    match only_char(&text) {
        None => Ok(Next::refused(body)),
        Some(char) => at(body, LexerPosition::ItemChar(position, char)),
    }
}

fn step_item_in(
    alloc: Global,
    body: LexBody,
    position: ItemPosition,
    word: Word,
) -> Result<Next, Memory>
    ensures { NextIs result (m.step_item_in (lex_body_of body) (item_position_of position) word) }
{
    match word {
        Word::Set(ranges) => after_item(alloc, body, position, ranges.as_slice()),
        Word::Literal(text) => start_of_item(body, position, text),
        _ => Ok(Next::refused_word(body, word)),
    }
}

fn step_item(alloc: Global, body: LexBody, word: Word) -> Result<Next, Memory>
    ensures { NextIs result (m.step_item (lex_body_of body) word) }
{
    match word {
        Word::Open => at(
            body,
            LexerPosition::ItemIn(ItemPosition::Listed(Vec::new(alloc))),
        ),
        _ => step_item_in(alloc, body, ItemPosition::Alone, word),
    }
}

fn step_after_item(
    alloc: Global,
    body: LexBody,
    ranges: Vec<(u32, u32)>,
    word: Word,
) -> Result<Next, Memory>
    ensures { NextIs result (m.step_after_item (lex_body_of body) ranges.items word) }
{
    match word {
        Word::Bar => at(body, LexerPosition::ItemIn(ItemPosition::Listed(ranges))),
        Word::Close => after_but(alloc, body, &ranges),
        _ => Ok(Next::refused_word(body, word)),
    }
}

/// After an item of one character, with which no range begins.
fn step_after_one(
    alloc: Global,
    body: LexBody,
    position: ItemPosition,
    char: u32,
    word: Word,
) -> Result<Next, Memory>
    ensures { NextIs result (m.step_after_one (lex_body_of body) (item_position_of position) ((char, char) ∷ []) word) }
{
    match position {
        ItemPosition::Alone => match outside(alloc, &[(char, char)]) {
            Ok(set) => step_after_set(alloc, body, set, word),
            Err(error) => Err(failed(body, failed(word, error))),
        },
        ItemPosition::Listed(before) => match with_ranges(before, &[(char, char)]) {
            Ok(ranges) => step_after_item(alloc, body, ranges, word),
            Err(error) => Err(failed(body, failed(word, error))),
        },
    }
}

fn step_after_item_char(
    alloc: Global,
    body: LexBody,
    position: ItemPosition,
    char: u32,
    word: Word,
) -> Result<Next, Memory>
    ensures { NextIs result (m.step_after_item_char (lex_body_of body) (item_position_of position) char word) }
{
    match word {
        Word::Dots => at(body, LexerPosition::ItemEnd(position, char)),
        _ => step_after_one(alloc, body, position, char, word),
    }
}

/// An item that is a range, if its ends are in order.
fn item_range(
    alloc: Global,
    body: LexBody,
    position: ItemPosition,
    first: u32,
    last: u32,
) -> Result<Next, Memory>
    ensures { NextIs result (m.provided (nat_le first last) (m.after_item (lex_body_of body) (item_position_of position) ((first, last) ∷ []))) }
{
    if first > last {
        return Ok(Next::refused(body));
    }
    after_item(alloc, body, position, &[(first, last)])
}

fn end_of_item(
    alloc: Global,
    body: LexBody,
    position: ItemPosition,
    first: u32,
    text: Text,
) -> Result<Next, Memory>
    ensures { NextIs result (m.end_of_range (λ c. m.after_item (lex_body_of body) (item_position_of position) ((first, c) ∷ [])) first text) }
{
    match only_char(&text) {
        None => Ok(Next::refused(body)),
        Some(last) => item_range(alloc, body, position, first, last),
    }
}

fn step_item_end(
    alloc: Global,
    body: LexBody,
    position: ItemPosition,
    first: u32,
    word: Word,
) -> Result<Next, Memory>
    ensures { NextIs result (m.step_item_end (lex_body_of body) (item_position_of position) first word) }
{
    match word {
        Word::Literal(text) => end_of_item(alloc, body, position, first, text),
        _ => Ok(Next::refused_word(body, word)),
    }
}

/// One word further in a lexer rule.
pub fn step_lexer(
    alloc: Global,
    body: LexBody,
    position: LexerPosition,
    word: Word,
) -> Result<Next, Memory>
    ensures { (depth : ℕ) → NextIs result (m.step depth (lexer_state (lex_body_of body) position) word) }
{
    match position {
        LexerPosition::Elements => step_lex(alloc, body, word),
        LexerPosition::Suffixed => step_lex(alloc, body, word),
        LexerPosition::After(term) => step_lex_after(alloc, body, term, word),
        LexerPosition::Literal(text) => step_after_literal(alloc, body, text, word),
        LexerPosition::RangeEnd(first) => step_range_end(alloc, body, first, word),
        LexerPosition::Set(set) => step_after_set(alloc, body, set, word),
        LexerPosition::SetStar(set) => step_after_set_star(alloc, body, set, word),
        LexerPosition::Item => step_item(alloc, body, word),
        LexerPosition::ItemIn(position) => step_item_in(alloc, body, position, word),
        LexerPosition::ItemChar(position, char) => step_after_item_char(
            alloc, body, position, char, word,
        ),
        LexerPosition::ItemEnd(position, first) => step_item_end(
            alloc, body, position, first, word,
        ),
        LexerPosition::AfterItem(ranges) => step_after_item(alloc, body, ranges, word),
    }
}
