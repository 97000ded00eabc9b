//! Prints what commands rest on, for `rt ci` to compare with `stdout`: what words ask for, and what is said
//! of other words; the places in a text that are shown; what a gate and a journal count, and how far a run
//! is; and the generated programs and their grammar.
//!
//! Its input is a list of questions, each on a line with what it is about. `case` and a text show what the
//! questions after it are there for. The other questions are those of [`add_answer`]. After each comes its
//! answer. In a piece of a text `%` and two hexadecimal digits are a byte, as `%0A` for a newline; a command
//! line is as it is written. The answers in `stdout` are worked out by hand; none comes from a run.
#![tactic(auto)]

mod asked;
mod counted;
mod notices;
mod programs;

use crate::asked::add_asked;
use crate::counted::{add_gate, add_journal};
use crate::notices::{add_excerpt, add_fault, add_place, add_progress, add_usage};
use crate::programs::{add_count, add_grammar, add_length, add_program};
use anyhow::Result;
use faults::Memory;
use percent_encoding::percent_decode;
use std::alloc::{AllocError, Global};
use std::time::Clock;

/// The words of a line, which are apart by one blank each: two blanks have an empty word between them.
pub(crate) fn words_of(alloc: Global, line: &str) -> Result<Vec<String>, AllocError> {
    let mut words = Vec::new(alloc);
    for word in line.split(' ') {
        words.push(String::from_str(alloc, word)?)?;
    }
    Ok(words)
}

/// The bytes of a text, in which `%` and two hexadecimal digits are a byte.
pub(crate) fn decoded(alloc: Global, text: &str) -> Result<Vec<u8>, AllocError> {
    let mut bytes = Vec::new(alloc);
    percent_decode(text.as_bytes()).append_to(&mut bytes)?;
    Ok(bytes)
}

/// The first word, and what comes after the blank behind it.
pub(crate) fn first_of(text: &str) -> (&str, &str) {
    text.split_once(' ').unwrap_or((text, ""))
}

/// The number that the word spells; 0 where it spells none.
pub(crate) fn number_of(word: &str) -> u64 {
    word.parse::<u64>().unwrap_or(0)
}

/// Adds the answer to a question about how the program speaks of words, places and runs.
fn add_notice(out: &mut String, alloc: Global, question: &str, text: &str) -> Result<(), Memory> {
    match question {
        "fault" => add_fault(out, alloc, text)?,
        "usage" => add_usage(out, text)?,
        "place" => add_place(out, alloc, text)?,
        "excerpt" => add_excerpt(out, alloc, text)?,
        "progress" => add_progress(out, alloc, text)?,
        "journal" => add_journal(out, alloc, text)?,
        _ => out.push_str("no such question")?,
    }
    Ok(())
}

/// Adds the answer to a question about what words ask for or what programs there are, or another one.
fn add_answer<C: Clock + Clone + Drop>(
    out: &mut String,
    clock: &C,
    alloc: Global,
    question: &str,
    text: &str,
) -> Result<(), Memory> {
    match question {
        "asks" => add_asked(out, alloc, text),
        "program" => add_program(out, alloc, text),
        "length" => add_length(out, alloc, text),
        "count" => add_count(out, alloc, text),
        "grammar" => add_grammar(out, alloc, text),
        "gate" => add_gate(out, clock, alloc, text),
        _ => add_notice(out, alloc, question, text),
    }
}

/// Prints the lines of the answer, each with four blanks before it.
fn print_answer(rt: &impl Print, answer: &str) -> Result<()> {
    for line in answer.split('\n') {
        println!(rt; "    {line}")?;
    }
    Ok(())
}

/// Prints the answer to a question.
fn answer_question<R: Print + Clock + Clone + Drop>(
    rt: &R,
    alloc: Global,
    question: &str,
    text: &str,
) -> Result<()> {
    let mut answer = String::new(alloc);
    add_answer(&mut answer, rt, alloc, question, text)?;
    print_answer(rt, answer.as_str())
}

/// Prints the line, and the answer to its question.
fn answer_line<R: Print + Clock + Clone + Drop>(rt: &R, alloc: Global, line: &str) -> Result<()> {
    println!(rt; "{line}")?;
    let (question, text) = first_of(line);
    if question == "case" {
        return Ok(());
    }
    answer_question(rt, alloc, question, text)
}

fn main(rt: HostRuntime) -> Result<()> {
    let alloc = rt.alloc();
    for line in rt.lines(alloc) {
        answer_line(&rt, alloc, line?.as_str())?;
    }
    Ok(())
}
