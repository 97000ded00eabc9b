//! What is said at the end, by status.

use crate::files::{add_failure, add_run_too_long, add_too_long};
use crate::script::{LastAsk, add_fault, add_no};
use command_words::{CheckLine, CommandLine, ModeLine, NamedGrammar, ReduceLine};
use memchr::memmem;
use notice_counts::{Snapshot, TimeText, milliseconds_in};
use notice_places::{GrammarFiles, Quoted, TextFile, add_no_parse, add_no_tokens};
use std::alloc::{AllocError, Global};
use std::io;
use std::time::Duration;

/// Why calls of the machine failed, where they did.
#[derive(Clone, Copy)]
pub struct Reasons {
    /// The last failure of a file.
    pub files: Option<io::Error>,
    /// The last failure of the journal.
    pub journal: Option<io::Error>,
    /// The last failure of standard output.
    pub out: Option<io::Error>,
}

/// A run that ended.
#[derive(Clone, Copy)]
pub struct Ending<'a> {
    /// The words that it was asked by.
    pub line: &'a CommandLine<'a>,
    /// The status that it ended with.
    pub status: u8,
    /// The path of its journal.
    pub journal: &'a str,
    /// How long it took.
    pub took: Duration,
    /// What was counted.
    pub counted: Snapshot,
    /// Why calls failed.
    pub reasons: Reasons,
    /// The bytes of the grammar, where they were read.
    pub grammar: Option<&'a [u8]>,
    /// Those of its lexer, where one is named and they were read.
    pub lexer: Option<&'a [u8]>,
    /// The bytes of the input, where they were read.
    pub input: Option<&'a [u8]>,
    /// The bytes of the result that is checked, where they were read.
    pub result: Option<&'a [u8]>,
    /// The last ask of a worker whose script failed, or else that was asked.
    pub ask: Option<LastAsk<'a>>,
    /// The columns of the terminal.
    pub width: usize,
}

/// The grammar of a mode.
fn grammar_in<'a>(mode: ModeLine<'a>) -> Option<NamedGrammar<'a>> {
    match mode {
        ModeLine::ByGrammar(by) => Some(by.grammar),
        ModeLine::Lines => None,
    }
}

/// The grammar that a command line names.
fn grammar_of<'a>(line: &CommandLine<'a>) -> Option<NamedGrammar<'a>> {
    match line {
        CommandLine::Normal(grammar) => Some(*grammar),
        CommandLine::Reduce(line) => grammar_in(line.mode),
        CommandLine::Check(line) => grammar_in(line.mode),
        CommandLine::Selftest(_) => None,
    }
}

/// The file of the grammar that couldn't be read; none where all were.
fn unread_grammar<'a>(ending: &Ending<'a>) -> Option<&'a str> {
    let grammar = grammar_of(ending.line)?;
    if ending.grammar.is_none() {
        return Some(grammar.path);
    }
    match ending.lexer {
        None => grammar.lexer,
        Some(_) => None,
    }
}

/// The file of a reduction that couldn't be read: the input is read first, then the journal that is resumed.
fn unread_of_reduction<'a>(ending: &Ending<'a>, line: &ReduceLine<'a>) -> &'a str {
    match ending.input {
        None => line.input,
        Some(_) => line.resume.unwrap_or(line.input),
    }
}

/// The file of a run that couldn't be read: the input is read first, then the result, then the journal.
fn unread_of_run<'a>(ending: &Ending<'a>, line: &CheckLine<'a>) -> &'a str {
    match (ending.input, ending.result) {
        (None, _) => line.input,
        (Some(_), None) => line.output,
        (Some(_), Some(_)) => line.journal,
    }
}

/// The file that couldn't be read: the grammar is read first, and its lexer next.
fn unread<'a>(ending: &Ending<'a>) -> &'a str {
    match (unread_grammar(ending), ending.line) {
        (Some(path), _) => path,
        (None, CommandLine::Reduce(line)) => unread_of_reduction(ending, line),
        (None, CommandLine::Check(line)) => unread_of_run(ending, line),
        _ => "the grammar",
    }
}

/// Why the journal that is named isn't resumed.
fn add_unresumed(text: &mut String, ending: &Ending<'_>) -> Result<(), AllocError> {
    let CommandLine::Reduce(line) = ending.line else {
        return Ok(());
    };
    let (input, journal) = (line.input, line.resume.unwrap_or(ending.journal));
    match ending.status {
        13 => write!(
            text,
            "perses: {journal} is the journal of another input than {input}; without --resume the run begins anew\n"
        ),
        _ => write!(
            text,
            "perses: {journal} isn't a journal that can be read; without --resume the run begins anew\n"
        ),
    }
}

/// What couldn't be written: the output, or else standard output.
fn add_unwritten(text: &mut String, ending: &Ending<'_>) -> Result<(), AllocError> {
    match (ending.line, ending.reasons.files) {
        (CommandLine::Reduce(line), Some(reason)) => add_failure(text, line.output, Some(reason)),
        _ => add_failure(text, "standard output", ending.reasons.out),
    }
}

/// The first keep text that isn't in the input of this name.
fn add_keep(text: &mut String, name: &str, keeps: &[&str], input: &[u8]) -> Result<(), AllocError> {
    for keep in keeps {
        if memmem::find(input, keep.as_bytes()).is_none() {
            let keep = Quoted(*keep);
            return write!(text, "perses: {name} doesn't hold {keep}\n");
        }
    }
    Ok(())
}

/// What the status says of the keep texts.
fn add_missing(text: &mut String, ending: &Ending<'_>) -> Result<(), AllocError> {
    match (ending.line, ending.input) {
        (CommandLine::Reduce(line), Some(input)) => {
            add_keep(text, line.input, &line.keeps, input)
        }
        (CommandLine::Check(line), Some(input)) => add_keep(text, line.input, &line.keeps, input),
        _ => Ok(()),
    }
}

/// The file that is too long. Once the input was read, it is of a run that is checked.
fn add_long(text: &mut String, ending: &Ending<'_>) -> Result<(), AllocError> {
    match (ending.line, ending.input) {
        (CommandLine::Check(_), Some(_)) => add_run_too_long(text, unread(ending)),
        _ => add_too_long(text, unread(ending)),
    }
}

/// A file of this path as it was read.
fn text_file<'a>(path: &'a str, bytes: Option<&'a [u8]>, width: usize) -> Option<TextFile<'a>> {
    let bytes = bytes?;
    Some(TextFile { path, bytes, width })
}

/// The grammar as it was read.
fn grammar_files<'a>(ending: &Ending<'a>) -> Option<GrammarFiles<'a>> {
    let grammar = grammar_of(ending.line)?;
    let lexer = match grammar.lexer {
        None => None,
        Some(path) => Some(text_file(path, ending.lexer, ending.width)?),
    };
    Some(GrammarFiles {
        file: text_file(grammar.path, ending.grammar, ending.width)?,
        lexer,
        start: grammar.start,
    })
}

/// The input as it was read.
fn input_file<'a>(ending: &Ending<'a>) -> Option<TextFile<'a>> {
    let path = match ending.line {
        CommandLine::Reduce(line) => line.input,
        CommandLine::Check(line) => line.input,
        _ => return None,
    };
    text_file(path, ending.input, ending.width)
}

/// What the status says of the grammar, or of an input by it.
fn add_language(text: &mut String, alloc: Global, ending: &Ending<'_>) -> Result<(), AllocError> {
    let Some(grammar) = grammar_files(ending) else {
        return Ok(());
    };
    match (ending.status, input_file(ending)) {
        (5, _) => grammar.add_fault(text, alloc),
        (6, Some(input)) => add_no_tokens(text, alloc, grammar, input),
        (7, Some(input)) => add_no_parse(text, alloc, grammar, input),
        _ => Ok(()),
    }
}

/// Which limit the grammar passes, where memory ran out for a run by it.
fn add_limit(text: &mut String, alloc: Global, ending: &Ending<'_>) -> Result<(), AllocError> {
    match (ending.line, grammar_files(ending)) {
        (CommandLine::Reduce(_) | CommandLine::Check(_), Some(grammar)) => {
            grammar.add_limit(text, alloc)
        }
        _ => Ok(()),
    }
}

/// What the status says of the script.
fn add_script(text: &mut String, ending: &Ending<'_>) -> Result<(), AllocError> {
    let Some(ask) = ending.ask else {
        return Ok(());
    };
    match ask.fault {
        Some(fault) => add_fault(text, &ask, &fault),
        None => add_no(text, &ask),
    }
}

/// Why the run ended without its result.
fn add_cause(text: &mut String, alloc: Global, ending: &Ending<'_>) -> Result<(), AllocError> {
    match ending.status {
        1 => add_limit(text, alloc, ending),
        3 => add_failure(text, unread(ending), ending.reasons.files),
        4 => add_unwritten(text, ending),
        5 | 6 | 7 => add_language(text, alloc, ending),
        8 | 11 => add_script(text, ending),
        9 => add_missing(text, ending),
        10 => add_long(text, ending),
        12 => add_failure(text, ending.journal, ending.reasons.journal),
        13 | 14 => add_unresumed(text, ending),
        _ => Ok(()),
    }
}

/// The part of the workers' time in which their scripts ran, in percent.
fn share_of_scripts(ending: &Ending<'_>, jobs: u32) -> u64 {
    let asking = milliseconds_in(ending.counted.asking);
    let all = milliseconds_in(ending.took).saturating_mul(jobs as u64);
    match asking.saturating_mul(100).checked_div(all) {
        Some(share) => share.min(100),
        None => 0,
    }
}

/// How long the run took, and where its result is, or what there is of it.
fn add_summary(
    text: &mut String,
    ending: &Ending<'_>,
    line: &ReduceLine<'_>,
) -> Result<(), AllocError> {
    let (took, share) = (TimeText(ending.took), share_of_scripts(ending, line.jobs));
    let (output, journal) = (line.output, ending.journal);
    let Snapshot {
        records,
        best_bytes,
        ..
    } = ending.counted;
    if ending.status == 0 {
        return write!(
            text,
            "perses: done after {took}, {share}% of it in the script: {output}, journal {journal}\n"
        );
    }
    if records == 0 || ending.status == 8 {
        return Ok(());
    }
    write!(
        text,
        "perses: ended after {took}, {share}% of it in the script; {journal} holds {records} answers\n"
    )?;
    if best_bytes == 0 {
        return Ok(());
    }
    let journal = Quoted(journal);
    write!(
        text,
        "perses: the best text so far has {best_bytes} bytes: tools/journal {journal} --last-yes >FILE\n"
    )
}

/// What is said of a run that ended.
pub fn ending_text(alloc: Global, ending: &Ending<'_>) -> Result<String, AllocError> {
    let mut text = String::new(alloc);
    add_cause(&mut text, alloc, ending)?;
    if let CommandLine::Reduce(line) = ending.line {
        add_summary(&mut text, ending, line)?;
    }
    Ok(text)
}
