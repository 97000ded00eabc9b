//! Prints what the crates of grammars answer to the questions of its input, one a line, for the gate
//! to compare.
//!
//! A line is a question and a text, with a blank between. `grammar NAME` takes the grammar of that
//! name, or in the file NAME, for the questions after it, which are those of [`answer`], and
//! `grammar NAME START` the same with that rule as its start. In a text `%` and two hexadecimal digits
//! are a byte, as `%0A` for a newline. The answers in `stdout` are worked out by hand from the
//! definitions; none comes from a run.
//!
//! Which texts the terms and rules of a lexer match, plain and slow programs decide (`lexer_rules`), as
//! the definitions of `grammar_tree` say, also in grammars that no lexer is built of: with rules that use
//! themselves or each other, and with several rules of a name. Read `Matches` in `grammar_tree` first,
//! then `Spans` in `specs/Patterns.antt`. Terms are seen as patterns over lists of characters. A table
//! (`chart`) has from where to where each rule is known to span in the list; it grows by the rules' bodies
//! until nothing more is found. For a list of n characters and r rules at most r (n + 1)^2 rounds find
//! more, each over all rules and positions, so it is for small inputs. It recurses as deep as the patterns
//! do.
#![tactic(auto)]

mod bounds;
mod chart;
mod checks;
mod forms;
mod kinds;
mod lexer_rules;
mod lexing;
mod matching;
mod pattern;
mod pieces;
mod positions;
mod sets;

use crate::bounds::{blocks_shown, built_shown, chain_shown};
use crate::checks::fault_shown;
use crate::forms::{derived_shown, form_shown, start_shown};
use crate::kinds::{copied_shown, kinds_shown};
use crate::lexing::{skipped_shown, text_shown};
use crate::matching::{matched_shown, nothing_shown, term_shown};
use crate::pieces::pieces_shown;
use crate::sets::{lacking_shown, sets_shown};
use anyhow::{Result, bail};
use grammar_tree::Checked;
use percent_encoding::percent_decode;
use std::alloc::Global;
use std::fs;
use test_grammars::checked;
use test_grammars::grammars::{JOINED, MINI, STATEMENTS};

/// The checked grammar that the text spells. Its start is the rule of this name, or else the first
/// parser rule.
pub(crate) fn checked_of(alloc: Global, text: &str, start: Option<&str>) -> Result<Checked> {
    match checked(alloc, text, start) {
        Ok(checked) => Ok(checked),
        Err(refused) => bail!("the grammar is refused: {refused:?}"),
    }
}

/// What is answered to a question about a text alone.
fn text_answer(alloc: Global, question: &str, text: &str) -> Result<String> {
    match question {
        "blocks" => blocks_shown(alloc, text),
        "build" => built_shown(alloc, text),
        "chain" => chain_shown(alloc, text),
        "fault" => fault_shown(alloc, text),
        "matches" => matched_shown(alloc, text),
        "nothing" => nothing_shown(alloc, text),
        "term" => term_shown(alloc, text),
        _ => bail!("no question: {question}"),
    }
}

/// What is answered to a question about the grammar, or about a text alone.
fn answer(alloc: Global, checked: &Checked, question: &str, text: &str) -> Result<String> {
    match question {
        "copied" => copied_shown(alloc, checked),
        "derives" => derived_shown(alloc, checked, text),
        "form" => form_shown(alloc, checked),
        "kinds" => kinds_shown(alloc, checked),
        "lacking" => lacking_shown(alloc, checked, text),
        "pieces" => pieces_shown(alloc, checked, text),
        "sets" => sets_shown(alloc, checked),
        "skipped" => skipped_shown(alloc, checked),
        "start" => start_shown(alloc, checked, text),
        "tokens" => text_shown(alloc, checked, text),
        _ => text_answer(alloc, question, text),
    }
}

/// The text, in which `%` and two hexadecimal digits are a byte.
fn decoded(alloc: Global, text: &str) -> Result<String> {
    let mut bytes = Vec::new(alloc);
    percent_decode(text.as_bytes()).append_to(&mut bytes)?;
    Ok(String::from_utf8(bytes)?)
}

/// The grammar of this name that tests and benches share.
fn shared_grammar(name: &str) -> Option<&'static str> {
    match name {
        "Mini" => Some(MINI),
        "Statements" => Some(STATEMENTS),
        "Joined" => Some(JOINED),
        _ => None,
    }
}

/// The grammar of the name that the text begins with, or else in the file of this name. After a blank
/// the text may have the name of its start.
fn grammar_named(rt: &HostRuntime, alloc: Global, text: &str) -> Result<Checked> {
    let (name, start) = match text.split_once(' ') {
        Some((name, start)) => (name, Some(start)),
        None => (text, None),
    };
    match shared_grammar(name) {
        Some(text) => checked_of(alloc, text, start),
        None => checked_of(alloc, fs::read_to_string(rt, name)?.as_str(), start),
    }
}

/// Answers a question.
fn print_answer(
    rt: &HostRuntime,
    alloc: Global,
    grammar: &Checked,
    question: &str,
    text: &str,
) -> Result<()> {
    let text = decoded(alloc, text)?;
    let answer = answer(alloc, grammar, question, text.as_str())?;
    println!(rt; "    {answer}")?;
    Ok(())
}

/// Prints the line, and then takes the grammar that it names, or prints the answer to its question.
fn answer_line(rt: &HostRuntime, alloc: Global, grammar: &mut Checked, line: &str) -> Result<()> {
    println!(rt; "{line}")?;
    let (question, text) = line.split_once(' ').unwrap_or((line, ""));
    if question != "grammar" {
        return print_answer(rt, alloc, grammar, question, text);
    }
    *grammar = grammar_named(rt, alloc, text)?;
    Ok(())
}

/// Answers the lines of the input, one after another.
fn answer_lines(rt: &HostRuntime, alloc: Global, grammar: &mut Checked) -> Result<()> {
    for line in rt.lines(alloc) {
        answer_line(rt, alloc, grammar, line?.as_str())?;
    }
    Ok(())
}

fn main(rt: HostRuntime) -> Result<()> {
    let alloc = rt.alloc();
    let mut grammar = checked_of(alloc, "grammar G; a : 'a' ;", None)?;
    answer_lines(&rt, alloc, &mut grammar)
}
