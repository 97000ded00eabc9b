//! What is asked about a reducer, whatever its mode.

use crate::{first_of, number_of};
use faults::Memory;
use percent_encoding::{CONTROLS, percent_encode};
use reduce_rounds::{ReducerStep, Round, Rounds};
use reduce_step::Step;
use script_gate_trait::{Bytes, Verdict};
use std::alloc::AllocError;

/// What is shown of a reducer after its answers.
#[derive(Clone, Copy)]
pub(crate) enum Shown<'a> {
    /// What it comes to.
    End,
    /// What is ahead of it, at most so many texts.
    Ahead(u32),
    /// What it comes to by these further answers, and its copy by those.
    Both(&'a str, &'a str),
}

/// A question about a reducer: its mode, the answers that it gets, and what is shown then.
#[derive(Clone, Copy)]
pub(crate) struct Task<'a> {
    pub(crate) mode: &'a str,
    pub(crate) answers: &'a str,
    pub(crate) shown: Shown<'a>,
}

impl<'a> Task<'a> {
    /// The task that the question and its words give, and the text that they end with.
    pub(crate) fn read(question: &str, words: &'a str) -> (Task<'a>, &'a str) {
        let (mode, words) = first_of(words);
        let (answers, words) = first_of(words);
        let (shown, text) = shown_in(question, words);
        let task = Task {
            mode,
            answers,
            shown,
        };
        (task, text)
    }
}

fn shown_in<'a>(question: &str, words: &'a str) -> (Shown<'a>, &'a str) {
    let (first, rest) = first_of(words);
    match question {
        "ahead" => (Shown::Ahead(number_of(first)), rest),
        "copy" => {
            let (second, text) = first_of(rest);
            (Shown::Both(first, second), text)
        }
        _ => (Shown::End, words),
    }
}

/// The verdict that a letter stands for.
fn verdict_of(letter: u8) -> Option<Verdict> {
    match letter {
        b'y' => Some(Verdict::Yes),
        b'n' => Some(Verdict::No),
        _ => None,
    }
}

/// Adds a text between quotation marks.
fn add_text(out: &mut String, text: &[u8]) -> Result<(), AllocError> {
    out.push('"')?;
    percent_encode(text, CONTROLS).append_to(out)?;
    out.push('"')
}

/// Adds an answer, and the text that it is given to.
fn add_given(out: &mut String, verdict: Verdict, asked: &[u8]) -> Result<(), AllocError> {
    out.push_str(match verdict {
        Verdict::Yes => "yes ",
        Verdict::No => "no ",
    })?;
    add_text(out, asked)?;
    out.push('\n')
}

/// Gives this answer, and adds what was asked.
fn add_answer<S: Step>(out: &mut String, step: &mut S, verdict: Verdict) -> Result<(), Memory> {
    let Some(asked) = step.asks() else {
        return Ok(out.push_str("nothing is asked\n")?);
    };
    add_given(out, verdict, asked)?;
    step.answer(verdict)
}

/// Gives these answers, and adds what was asked.
fn add_answers<S: Step>(out: &mut String, step: &mut S, answers: &str) -> Result<(), Memory> {
    for letter in answers.bytes() {
        if let Some(verdict) = verdict_of(letter) {
            add_answer(out, step, verdict)?;
        }
    }
    Ok(())
}

/// Adds what the reducer has come to.
fn add_end<R: ReducerStep>(out: &mut String, reducer: &R) -> Result<(), AllocError> {
    if let Some(asked) = reducer.asks() {
        out.push_str("asks ")?;
        add_text(out, asked)?;
        return write!(out, ": used {}\n", reducer.used());
    }
    out.push_str("ends with ")?;
    add_text(out, reducer.result())?;
    let (units, used, rounds) = (reducer.units(), reducer.used(), reducer.rounds());
    let refused = if reducer.refused() { ", refused" } else { "" };
    write!(
        out,
        ": units {units}, used {used}, rounds {rounds}{refused}\n"
    )
}

/// Gives these answers, as far as something is asked.
fn give_answers<S: Step>(step: &mut S, answers: &str) -> Result<(), Memory> {
    for letter in answers.bytes() {
        if let Some(verdict) = verdict_of(letter) {
            let Some(_) = step.asks() else {
                return Ok(());
            };
            step.answer(verdict)?;
        }
    }
    Ok(())
}

/// Adds the texts, each on a line of its own.
fn add_texts(out: &mut String, texts: &[Bytes]) -> Result<(), Memory> {
    if texts.is_empty() {
        return Ok(out.push_str("nothing is ahead\n")?);
    }
    for text in texts {
        add_text(out, text.as_slice())?;
        out.push('\n')?;
    }
    Ok(())
}

/// Adds the texts that are ahead, at most so many.
fn add_ahead<S: Step>(out: &mut String, step: &S, most: u32) -> Result<(), Memory> {
    let texts = step.ahead(most)?;
    add_texts(out, &texts)
}

/// Adds what the reducer and its copy ask, each by its own answers, and what they come to.
fn add_both<R: ReducerStep>(
    out: &mut String,
    reducer: &mut R,
    copy: &mut R,
    own: &str,
    copys: &str,
) -> Result<(), Memory> {
    out.push_str("the reducer goes on\n")?;
    add_answers(out, reducer, own)?;
    out.push_str("its copy goes on\n")?;
    add_answers(out, copy, copys)?;
    out.push_str("the reducer ")?;
    add_end(out, reducer)?;
    out.push_str("its copy ")?;
    Ok(add_end(out, copy)?)
}

/// Copies the reducer, and adds what both ask and come to.
fn add_copies<R: Round + Drop>(
    out: &mut String,
    reducer: &mut Rounds<R>,
    own: &str,
    copys: &str,
) -> Result<(), Memory> {
    let mut copy = reducer.copy()?;
    add_both(out, reducer, &mut copy, own, copys)
}

/// Gives the reducer its answers, and adds what is shown of it.
fn add_shown<R: Round + Drop>(
    out: &mut String,
    reducer: &mut Rounds<R>,
    task: Task<'_>,
) -> Result<(), Memory> {
    if let Shown::Ahead(most) = task.shown {
        give_answers(reducer, task.answers)?;
        return add_ahead(out, reducer, most);
    }
    add_answers(out, reducer, task.answers)?;
    match task.shown {
        Shown::Both(own, copys) => add_copies(out, reducer, own, copys),
        _ => Ok(add_end(out, reducer)?),
    }
}

/// Adds what is asked about the reducer.
pub(crate) fn add_by<R: Round + Drop>(
    out: &mut String,
    mut reducer: Rounds<R>,
    task: Task<'_>,
) -> Result<(), Memory> {
    add_shown(out, &mut reducer, task)
}
