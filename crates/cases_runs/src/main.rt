//! Prints what runs leave, for `rt ci` to compare with `stdout`, which was worked out by hand: journals that
//! are written, read back and cut off; the report; and what workers do over a reduction that was worked out by
//! hand (`src/small_step.rt`): that of `a=1;b=2;c=3;`, statement by statement.
//!
//! A line of its input is a word, and what it is about. Settings: `case` and a text begins a case; `begin
//! BYTES`, what comes before the bytes of each question after it; `resume BYTES`, the journal whose verdicts
//! are kept; `history EVENTS`, what `put` puts. Questions on journals are those of [`add_read`], and
//! those on runs of [`add_run`].
//!
//! In bytes `%` and two hexadecimal digits are a byte, and `{head}` is the head of version 2, with the SHA-256
//! of `a=1;b=2;c=3;`. So it is in what is printed too.
#![tactic(auto)]

mod alone;
mod boards;
mod case;
mod hands;
mod history;
mod journals;
mod shown;
mod small_step;

use crate::alone::{add_left, add_more, add_resumed, add_run_alone};
use crate::boards::add_hands;
use crate::case::Case;
use crate::history::add_put;
use crate::journals::{add_cuts, add_digest, add_events, add_reading, add_report, add_verdict};
use anyhow::Result;
use faults::Memory;
use std::alloc::Global;
use std::sync::Wait;

/// The first word, and what comes after the blank behind it.
pub(crate) fn first_of(text: &str) -> (&str, &str) {
    text.split_once(' ').unwrap_or((text, ""))
}

/// The number that the word spells; 0 where it spells none.
pub(crate) fn number_of(word: &str) -> u64 {
    word.parse::<u64>().unwrap_or(0)
}

/// Adds the answer to a question on journals: `read BYTES`, what they are read as; `events BYTES`, their events;
/// `cuts BYTES`, what their beginnings are read as; `verdict TEXT`, what is kept of a text; `digest TEXT`, its
/// SHA-256; `put N`, what is put of the history where put N fails, from 1; `report NUMBERS`, the report of
/// the units, the bytes, the rounds, the answers used and the records.
fn add_read(
    out: &mut String,
    alloc: Global,
    case: &Case,
    question: &str,
    text: &str,
) -> Result<(), Memory> {
    match question {
        "read" => add_reading(out, alloc, case, text),
        "events" => add_events(out, alloc, case, text),
        "cuts" => add_cuts(out, alloc, case, text),
        "verdict" => add_verdict(out, alloc, case, text),
        "digest" => add_digest(out, alloc, text),
        "put" => add_put(out, alloc, case, text),
        "report" => add_report(out, alloc, text),
        _ => Ok(out.push_str("no such question")?),
    }
}

/// Adds the answer to a question on runs. Of one worker: `run GATE SIZE N`, what it comes to with a journal of so
/// many bytes whose put N fails, from 1, and how many texts are asked; `more GATE SIZE N`, whether the reducer
/// asks something then; `left SIZE N`, whether what is left can be read; `resumed BYTES`, after how many of its
/// cuts a journal is resumed to its end, where no text is asked that has a record. Of two workers by hand, `hands
/// GATE GATE SIZE N STEPS`. A gate is `b`, which says yes where there is a `b`; or its answers, with commas between,
/// of which the last one comes again and again.
fn add_run<W: Wait>(
    out: &mut String,
    rt: &W,
    alloc: Global,
    case: &Case,
    question: &str,
    text: &str,
) -> Result<(), Memory> {
    match question {
        "run" => add_run_alone(out, rt, alloc, case, text),
        "more" => add_more(out, rt, alloc, case, text),
        "left" => add_left(out, rt, alloc, text),
        "resumed" => add_resumed(out, rt, alloc, case, text),
        "hands" => add_hands(out, rt, alloc, case, text),
        _ => add_read(out, alloc, case, question, text),
    }
}

/// Prints the lines of the answer, each with four blanks before it.
fn print_answer(rt: &impl Print, answer: &str) -> Result<()> {
    for line in answer.lines() {
        println!(rt; "    {line}")?;
    }
    Ok(())
}

/// Prints the answer to a question.
fn answer_question(
    rt: &impl Print,
    wait: &impl Wait,
    alloc: Global,
    case: &Case,
    question: &str,
    text: &str,
) -> Result<()> {
    let mut answer = String::new(alloc);
    add_run(&mut answer, wait, alloc, case, question, text)?;
    print_answer(rt, answer.as_str())
}

/// Prints the line, and the answer to its question, where it is one.
fn answer_line(
    rt: &impl Print,
    wait: &impl Wait,
    alloc: Global,
    case: &mut Case,
    line: &str,
) -> Result<()> {
    println!(rt; "{line}")?;
    let (word, text) = first_of(line);
    if case.set(alloc, word, text)? {
        return Ok(());
    }
    answer_question(rt, wait, alloc, case, word, text)
}

/// Answers the lines of the input, one after another.
fn answer_lines(rt: &HostRuntime, wait: &impl Wait, alloc: Global, case: &mut Case) -> Result<()> {
    for line in rt.lines(alloc) {
        answer_line(rt, wait, alloc, case, line?.as_str())?;
    }
    Ok(())
}

fn main(rt: HostRuntime) -> Result<()> {
    let alloc = rt.alloc();
    let mut case = Case::new(alloc);
    answer_lines(&rt, &rt, alloc, &mut case)
}
