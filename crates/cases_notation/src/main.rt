//! Prints what the readers of grammars answer to the questions of its input, one a line, for the gate
//! to compare.
//!
//! A line is a question and a text, with a blank between. In the text `%` and two hexadecimal digits
//! are a byte, as `%0A` for a newline. The questions are those of [`answer`]. The answers in `stdout`
//! are worked out by hand from the notation; none comes from a run.
#![tactic(auto)]

mod sets;
mod words;

use crate::sets::{sets_shown, union_shown};
use crate::words::words_shown;
use anyhow::{Result, bail};
use cases_answers::reading_shown;
use grammar_reader::read_grammar;
use percent_encoding::percent_decode;
use std::alloc::Global;

/// How many of the beginnings of the bytes, the empty one and the whole too, are read as a grammar.
fn beginnings(alloc: Global, bytes: &[u8]) -> Result<String> {
    let mut read = 0usize;
    for end in 0..=bytes.len() {
        if let Some(beginning) = bytes.get(..end) {
            if read_grammar(alloc, beginning).is_ok() {
                read = read.saturating_add(1);
            }
        }
    }
    Ok(read.to_string(alloc)?)
}

/// What is answered to a question about the bytes.
fn answer(alloc: Global, question: &str, bytes: &[u8]) -> Result<String> {
    match question {
        "words" => words_shown(alloc, std::str::from_utf8(bytes)?),
        "read" => Ok(reading_shown(alloc, &read_grammar(alloc, bytes))?),
        "prefixes" => beginnings(alloc, bytes),
        "sets" => sets_shown(alloc, bytes),
        "union" => union_shown(alloc, bytes),
        _ => bail!("no question: {question}"),
    }
}

fn main(rt: HostRuntime) -> Result<()> {
    let alloc = rt.alloc();
    for line in rt.lines(alloc) {
        let line = line?;
        let (question, text) = line.as_str().split_once(' ').unwrap_or((line.as_str(), ""));
        let mut bytes = Vec::new(alloc);
        percent_decode(text.as_bytes()).append_to(&mut bytes)?;
        let answer = answer(alloc, question, &bytes)?;
        println!(rt; "{line}\n    {answer}")?;
    }
    Ok(())
}
