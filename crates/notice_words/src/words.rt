//! The first fault of a command line's words.

use crate::fault::WordFault;
use crate::rows::{Row, Takes, options_of, row_named, row_of};

/// Whether the word asks for help.
fn is_help(word: &str) -> bool {
    word == "--help" || word == "-h"
}

/// The name in `--name` or `--name=value`, and the value.
fn parts_of(word: &str) -> Option<(&str, Option<&str>)> {
    let option = word.strip_prefix("--")?;
    match option.split_once('=') {
        Some((name, value)) => Some((name, Some(value))),
        None => Some((option, None)),
    }
}

/// The option that waits for the next word as its value, after this word.
fn after_word<'a>(
    command: &'a str,
    waiting: Option<Row>,
    word: &'a str,
) -> Result<Option<Row>, WordFault<'a>> {
    if let Some(row) = waiting {
        row.check(word)?;
        return Ok(None);
    }
    let unknown = WordFault::NoOption { command, word };
    let (name, value) = parts_of(word).ok_or(unknown)?;
    let row = row_named(command, name).ok_or(unknown)?;
    match value {
        None if row.takes == Takes::Nothing => Ok(None),
        None => Ok(Some(row)),
        Some(_) if row.takes == Takes::Nothing => Err(WordFault::Value { option: row.name }),
        Some(value) => {
            row.check(value)?;
            Ok(None)
        }
    }
}

/// Goes through the words one after another.
fn check_words<'a>(command: &'a str, words: &'a [String]) -> Result<(), WordFault<'a>> {
    let mut waiting = None;
    for word in words {
        waiting = after_word(command, waiting, word.as_str())?;
    }
    match waiting {
        Some(row) => Err(WordFault::NoValue { option: row.name }),
        None => Ok(()),
    }
}

/// How often the option is there. No value begins with a hyphen.
fn count_of(words: &[String], option: &str) -> usize {
    let mut count = 0usize;
    for word in words {
        if let Some((name, _)) = parts_of(word.as_str())
            && name == option
        {
            count = count.saturating_add(1);
        }
    }
    count
}

/// Whether the mode `lines` is chosen.
fn chooses_lines(words: &[String]) -> bool {
    let mut chosen = false;
    let mut before = "";
    for word in words {
        let word = word.as_str();
        chosen = chosen || word == "--mode=lines" || (before == "--mode" && word == "lines");
        before = word;
    }
    chosen
}

/// How often each option is there.
fn check_counts<'a>(
    command: &'a str,
    options: &'static [&'static str],
    words: &'a [String],
) -> Result<(), WordFault<'a>> {
    for option in options {
        let row = row_of(command, *option);
        let (option, most) = (row.name, row.most);
        let count = count_of(words, option);
        if count > most {
            return Err(WordFault::TooOften { option, most });
        }
        if row.required && count == 0 {
            return Err(WordFault::Missing { command, option });
        }
    }
    Ok(())
}

/// Whether what is said of a grammar goes with the mode.
fn check_grammar<'a>(command: &'a str, words: &'a [String]) -> Result<(), WordFault<'a>> {
    let option = "grammar";
    if command != "reduce" && command != "check" {
        return Ok(());
    }
    if !chooses_lines(words) {
        if count_of(words, option) == 0 {
            return Err(WordFault::Missing { command, option });
        }
        return Ok(());
    }
    for option in ["grammar", "lexer", "start", "squeeze", "respell"] {
        if count_of(words, option) > 0 {
            return Err(WordFault::NotWithLines { option });
        }
    }
    Ok(())
}

/// Whether `--respell` goes with what else is there.
fn check_respell<'a>(words: &'a [String]) -> Result<(), WordFault<'a>> {
    let option = "respell";
    if count_of(words, option) == 0 {
        return Ok(());
    }
    for other in ["protect", "protect-text", "only"] {
        if count_of(words, other) > 0 {
            return Err(WordFault::NotWith { option, other });
        }
    }
    Ok(())
}

fn check<'a>(
    command: &'a str,
    options: &'static [&'static str],
    words: &'a [String],
) -> Result<(), WordFault<'a>> {
    check_words(command, words)?;
    check_counts(command, options, words)?;
    check_grammar(command, words)?;
    check_respell(words)
}

/// What is wrong with words that are no command line, the first of which is the program's name. None
/// where nothing wrong is found.
pub fn word_fault(words: &[String]) -> Option<WordFault<'_>> {
    let [_, command, rest @ ..] = words else {
        return Some(WordFault::Help);
    };
    let command = command.as_str();
    if is_help(command) || rest.iter().any(|word| is_help(word.as_str())) {
        return Some(WordFault::Help);
    }
    let Some(options) = options_of(command) else {
        return Some(WordFault::NoCommand { word: command });
    };
    check(command, options, rest).err()
}
