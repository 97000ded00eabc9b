//! Prints what the parser and the chart answer to the questions of its input, one a line, for the
//! gate to compare.
//!
//! A line is a question and a text, with a blank between. `grammar NAME` takes the grammar of that
//! name, or in the file NAME, for the questions after it, which are those of [`answer`]. The answers
//! in `stdout` are worked out by hand from the definitions; none comes from a run. `compare` takes two
//! lengths and a grammar: on all short lists of its kinds the parser is compared with a plain one that
//! tries all trees (`compare`), and the numbers in `stdout` are counted from the grammars.
#![tactic(auto)]

mod compare;
mod lists;
mod plain;
mod prefixes;
mod showing;

use crate::compare::compared_shown;
use crate::showing::{ends_shown, file_shown, nested_shown, tree_shown};
use anyhow::{Result, bail};
use cases_answers::Language;
use std::alloc::Global;
use std::fs;
use test_grammars::grammars::{MINI, STATEMENTS};

/// What is answered to a question about the grammar.
fn answer(
    rt: &HostRuntime,
    alloc: Global,
    language: &Language,
    question: &str,
    text: &str,
) -> Result<String> {
    match question {
        "compare" => compared_shown(alloc, text),
        "tree" => tree_shown(alloc, language, text),
        "ends" => ends_shown(alloc, language, text),
        "nested" => nested_shown(alloc, language, text),
        "file" => file_shown(alloc, language, fs::read_to_string(rt, text)?.as_str()),
        _ => bail!("no question: {question}"),
    }
}

/// The grammar of this name that tests and benches share.
fn shared_grammar(name: &str) -> Option<&'static str> {
    match name {
        "Mini" => Some(MINI),
        "Statements" => Some(STATEMENTS),
        _ => None,
    }
}

/// The grammar of this name, or else in the file of this name.
fn language_named(rt: &HostRuntime, alloc: Global, name: &str) -> Result<Language> {
    match shared_grammar(name) {
        Some(text) => Ok(Language::new(alloc, text)?),
        None => Ok(Language::new(alloc, fs::read_to_string(rt, name)?.as_str())?),
    }
}

/// Prints the line, and then takes the grammar that it names, or prints the answer to its question.
fn answer_line(rt: &HostRuntime, alloc: Global, language: &mut Language, line: &str) -> Result<()> {
    println!(rt; "{line}")?;
    let (question, text) = line.split_once(' ').unwrap_or((line, ""));
    if question == "grammar" {
        *language = language_named(rt, alloc, text)?;
        return Ok(());
    }
    let answer = answer(rt, alloc, language, question, text)?;
    println!(rt; "    {answer}")?;
    Ok(())
}

/// Answers the lines of the input, one after another.
fn answer_lines(rt: &HostRuntime, alloc: Global, language: &mut Language) -> Result<()> {
    for line in rt.lines(alloc) {
        answer_line(rt, alloc, language, line?.as_str())?;
    }
    Ok(())
}

fn main(rt: HostRuntime) -> Result<()> {
    let alloc = rt.alloc();
    let mut language = Language::new(alloc, "grammar G; a : 'a' ;")?;
    answer_lines(&rt, alloc, &mut language)
}
