//! What words ask for, as one text.

use crate::words_of;
use command_words::{
    CheckLine, CommandLine, ModeLine, NamedGrammar, ProtectLine, ReduceLine, SelftestLine,
    journal_name, read_words,
};
use faults::Memory;
use reduce_step::TreeMode;
use std::alloc::{AllocError, Global};

fn mode_name(mode: TreeMode) -> &'static str {
    match mode {
        TreeMode::Perses => "perses",
        TreeMode::Hdd => "hdd",
    }
}

fn add_grammar(out: &mut String, grammar: NamedGrammar<'_>) -> Result<(), AllocError> {
    out.push_str(grammar.path)?;
    if let Some(lexer) = grammar.lexer {
        write!(out, " with {lexer}")?;
    }
    write!(out, " from {}", grammar.start.unwrap_or("-"))
}

fn add_mode(out: &mut String, mode: ModeLine<'_>) -> Result<(), AllocError> {
    match mode {
        ModeLine::Lines => out.push_str("lines"),
        ModeLine::ByGrammar(line) => {
            write!(out, "{} by ", mode_name(line.mode))?;
            add_grammar(out, line.grammar)?;
            out.push_str(if line.squeeze { " squeezed" } else { "" })
        }
    }
}

/// Adds the texts, each after a comma and this word.
fn add_texts(out: &mut String, word: &str, texts: &[&str]) -> Result<(), AllocError> {
    for text in texts {
        write!(out, ", {word} {text}")?;
    }
    Ok(())
}

/// Adds which lines must stay, with a comma before each.
fn add_protects(out: &mut String, protects: &ProtectLine<'_>) -> Result<(), AllocError> {
    for span in &protects.lines {
        write!(out, ", protect {}-{}", span.first, span.last)?;
    }
    add_texts(out, "protect with", &protects.texts)?;
    if let Some(only) = protects.only {
        write!(out, ", only {}-{}", only.first, only.last)?;
    }
    Ok(())
}

/// Adds the files, the journal, the work folder and how many workers there are.
fn add_files(out: &mut String, alloc: Global, line: &ReduceLine<'_>) -> Result<(), Memory> {
    let journal = journal_name(alloc, line)?;
    write!(
        out,
        ": {} to {} asking {}, {journal}, {}, {}",
        line.input, line.output, line.script, line.work, line.jobs
    )?;
    Ok(())
}

fn add_reduce(out: &mut String, alloc: Global, line: &ReduceLine<'_>) -> Result<(), Memory> {
    add_mode(out, line.mode)?;
    add_files(out, alloc, line)?;
    if let Some(resume) = line.resume {
        write!(out, ", resuming {resume}")?;
    }
    add_texts(out, "keep", &line.keeps)?;
    add_protects(out, &line.protects)?;
    Ok(())
}

fn add_selftest(out: &mut String, line: SelftestLine) -> Result<(), AllocError> {
    let mode = mode_name(line.mode);
    write!(out, "selftest {} {} {mode}", line.number, line.size)
}

fn add_check(out: &mut String, line: &CheckLine<'_>) -> Result<(), AllocError> {
    out.push_str("check ")?;
    add_mode(out, line.mode)?;
    write!(out, ": {} to {}, {}", line.input, line.output, line.journal)?;
    add_texts(out, "keep", &line.keeps)
}

fn add_line(out: &mut String, alloc: Global, line: &CommandLine<'_>) -> Result<(), Memory> {
    match line {
        CommandLine::Reduce(line) => add_reduce(out, alloc, line)?,
        CommandLine::Normal(grammar) => {
            out.push_str("normal ")?;
            add_grammar(out, *grammar)?;
        }
        CommandLine::Selftest(line) => add_selftest(out, *line)?,
        CommandLine::Check(line) => add_check(out, line)?,
    }
    Ok(())
}

/// Adds what the words ask for; `usage` where they are no command line.
fn add_words(out: &mut String, alloc: Global, words: &[String]) -> Result<(), Memory> {
    match read_words(alloc, words)? {
        None => Ok(out.push_str("usage")?),
        Some(line) => add_line(out, alloc, &line),
    }
}

/// Adds what a line asks for; `usage` where it is no command line. The program's name comes first in it.
pub(crate) fn add_asked(out: &mut String, alloc: Global, line: &str) -> Result<(), Memory> {
    let words = words_of(alloc, line)?;
    add_words(out, alloc, &words)
}
