//! Prints what the readers of one or two texts answer to the questions of its input, one a line, and then
//! the normal forms of five grammars (`forms`), for the gate to compare.
//!
//! A line is a question and its texts, with a blank between. In a text `%` and two hexadecimal digits
//! are a byte, as `%20` for a blank. The questions are those of [`answer`]. The answers in `stdout` are
//! worked out from the notation; none comes from a run.
#![tactic(auto)]

mod forms;

use crate::forms::show_forms;
use anyhow::{Result, bail};
use grammar_check::check;
use grammar_pair::join;
use grammar_reader_words::word_at;
use normal_form_build::normalise;
use normal_form_print::normal_text;
use percent_encoding::percent_decode;
use std::alloc::Global;

/// The most bytes of a text.
const MOST_BYTES: usize = 1_000_000;

/// Where the words are, each with its first byte and the byte after its last one.
fn spans_shown(alloc: Global, text: &str) -> Result<String> {
    let mut shown = String::new(alloc);
    let mut at = 0;
    for _ in 0..=text.len() {
        let Some(span) = word_at(text, at) else {
            return Ok(shown)
        };
        let (start, end) = (span.start, span.end);
        if !span.good {
            shown.push_str(format!(in alloc; "{start}-{end} bad")?.as_str())?;
            return Ok(shown);
        }
        shown.push_str(format!(in alloc; "{start}-{end} ")?.as_str())?;
        at = end;
    }
    Ok(shown)
}

/// The normal form of the grammar of a lexer text and a parser text, or their first fault.
fn joined_shown(alloc: Global, lexer: &[u8], parser: &[u8]) -> Result<String> {
    if lexer.len() > MOST_BYTES || parser.len() > MOST_BYTES {
        bail!("a text is too long");
    }
    let grammar = match join(alloc, lexer, parser) {
        Ok(grammar) => grammar,
        Err(fault) => return Ok(fault.to_string(alloc)?),
    };
    match check(alloc, grammar, None) {
        Ok(checked) => {
            let normal = normalise(alloc, &checked)?;
            Ok(String::from_utf8(normal_text(alloc, &checked, &normal)?)?)
        }
        Err(fault) => Ok(fault.to_string(alloc)?),
    }
}

fn decoded(alloc: Global, text: &str) -> Result<Vec<u8>> {
    let mut bytes = Vec::new(alloc);
    percent_decode(text.as_bytes()).append_to(&mut bytes)?;
    Ok(bytes)
}

/// What is answered to a question about the texts.
fn answer(alloc: Global, question: &str, first: &[u8], second: &[u8]) -> Result<String> {
    match question {
        "spans" => spans_shown(alloc, std::str::from_utf8(first)?),
        "join" => joined_shown(alloc, first, second),
        _ => bail!("no question: {question}"),
    }
}

fn main(rt: HostRuntime) -> Result<()> {
    let alloc = rt.alloc();
    for line in rt.lines(alloc) {
        let line = line?;
        let (question, texts) = line.as_str().split_once(' ').unwrap_or((line.as_str(), ""));
        let (first, second) = texts.split_once(' ').unwrap_or((texts, ""));
        let answer = answer(
            alloc,
            question,
            &decoded(alloc, first)?,
            &decoded(alloc, second)?,
        )?;
        println!(rt; "{line}\n    {answer}")?;
    }
    show_forms(&rt, alloc)
}
