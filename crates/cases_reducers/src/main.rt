//! Prints what reducers ask, for `rt ci` to compare with `stdout`: of lines, of trees in both modes, of
//! spellings, and of a small mode with an opening and states that aren't listed (`src/byte_round.rt`); what
//! is ahead of them; and what they rest on: the inputs of reductions of trees, keep texts, and the nodes
//! that wait.
//!
//! A line of its input is a word, and what it is about. Settings: `case` and a text begins a case, without
//! keep texts; `grammar` and the text of a grammar, or `Mini` or `Statements`; `keep` and a keep text; `stays`
//! and the number of a line of the start, from 0, that stays. Questions about a reducer: `run MODE ANSWERS
//! TEXT`, the texts that are asked, each after its answer, and what comes of them; `copy MODE ANSWERS OWN
//! COPYS TEXT`, the same where after its answers the reducer is copied, and both go on, each with its own;
//! `ahead MODE ANSWERS MOST TEXT`, at most so many texts that are ahead then. The answers are letters, `y` and
//! `n`, or `-` where there are none. The other questions are those of [`add_answer`].
//!
//! In a text `%` and two hexadecimal digits are a byte. The answers in `stdout` were worked out by hand, or,
//! of what is ahead, apart from the reducers; none comes from a run.
#![tactic(auto)]

mod byte_round;
mod case;
mod laws;
mod modes;
mod parts;
mod spelling;
mod task;
mod trees;

use crate::case::Case;
use crate::laws::{asks_candidates, ends_minimal, follows_reduction};
use crate::modes::add_task;
use crate::parts::{add_admits, add_input, add_lacking, add_waiting};
use anyhow::Result;
use percent_encoding::percent_decode;
use reduce_trees_input::InputFault;
use std::alloc::{AllocError, Global};

/// The bytes of a text, in which `%` and two hexadecimal digits are a byte.
pub(crate) fn decoded(alloc: Global, text: &str) -> Result<Vec<u8>, AllocError> {
    let mut bytes = Vec::new(alloc);
    percent_decode(text.as_bytes()).append_to(&mut bytes)?;
    Ok(bytes)
}

/// The first word, and what comes after the blank behind it.
pub(crate) fn first_of(text: &str) -> (&str, &str) {
    text.split_once(' ').unwrap_or((text, ""))
}

/// The number that the word spells; 0 where it spells none.
pub(crate) fn number_of(word: &str) -> u32 {
    word.parse::<u32>().unwrap_or(0)
}

/// Adds the answer to a question: `input TEXT`, how many tokens the text has, and how many of the leaves of
/// its tree are one of them; `lacks TEXT`, which keep text it lacks; `admits KEPT TEXT`, whether they admit it;
/// `waiting NODES`, in which order nodes are taken; or a question about a reducer.
fn add_answer(
    out: &mut String,
    alloc: Global,
    case: &Case,
    question: &str,
    text: &str,
) -> Result<(), InputFault> {
    match question {
        "input" => add_input(out, alloc, case, text),
        "lacks" => Ok(add_lacking(out, alloc, case, text)?),
        "admits" => Ok(add_admits(out, alloc, case, text)?),
        "waiting" => Ok(add_waiting(out, alloc, text)?),
        _ => add_task(out, alloc, case, question, text),
    }
}

/// Prints the lines of the answer, each with four blanks before it.
fn print_answer(rt: &impl Print, answer: &str) -> Result<()> {
    for line in answer.lines() {
        println!(rt; "    {line}")?;
    }
    Ok(())
}

/// The answer to a question; the fault where a text has no input.
fn answer_of(alloc: Global, case: &Case, question: &str, text: &str) -> Result<String, AllocError> {
    let mut answer = String::new(alloc);
    if let Err(fault) = add_answer(&mut answer, alloc, case, question, text) {
        write!(answer, "{fault}")?;
    }
    Ok(answer)
}

/// Prints the answer to a question.
fn answer_question(
    rt: &impl Print,
    alloc: Global,
    case: &Case,
    question: &str,
    text: &str,
) -> Result<()> {
    let answer = answer_of(alloc, case, question, text)?;
    print_answer(rt, answer.as_str())
}

/// Prints the line, and the answer to its question, where it is one.
fn answer_line(rt: &impl Print, alloc: Global, case: &mut Case, line: &str) -> Result<()> {
    println!(rt; "{line}")?;
    let (word, text) = first_of(line);
    if case.set(alloc, word, text)? {
        return Ok(());
    }
    answer_question(rt, alloc, case, word, text)
}

/// Answers the lines of the input, one after another.
fn answer_lines(rt: &HostRuntime, alloc: Global, case: &mut Case) -> Result<()> {
    for line in rt.lines(alloc) {
        answer_line(rt, alloc, case, line?.as_str())?;
    }
    Ok(())
}

/// The laws of reducers hold of the mode of bytes.
fn has_laws() {
    follows_reduction();
    asks_candidates();
    ends_minimal();
}

fn main(rt: HostRuntime) -> Result<()> {
    has_laws();
    let alloc = rt.alloc();
    let mut case = Case::new(alloc);
    answer_lines(&rt, alloc, &mut case)
}
