//! The options of the commands.

use crate::fault::WordFault;

/// Which values an option takes.
#[derive(Clone, Copy, Debug, PartialEq, Eq)]
pub(crate) enum Takes {
    /// None at all.
    Nothing,
    /// Any text.
    Text,
    /// A way to reduce.
    Mode,
    /// A way to reduce by a grammar.
    TreeMode,
    /// A number from the first to the second.
    Number(u64, u64),
    /// The numbers of a first and a last line.
    Lines,
}

/// An option of a command.
#[derive(Clone, Copy, Debug)]
pub(crate) struct Row {
    /// Its name, without the hyphens.
    pub(crate) name: &'static str,
    /// Its values.
    pub(crate) takes: Takes,
    /// How often it may be there.
    pub(crate) most: usize,
    /// Whether it must be there. `--grammar` of `reduce` and `check` must be unless the mode is `lines`.
    pub(crate) required: bool,
}

static REDUCE: [&str; 17] = [
    "input",
    "output",
    "script",
    "grammar",
    "lexer",
    "mode",
    "start",
    "jobs",
    "journal",
    "resume",
    "work",
    "keep",
    "squeeze",
    "respell",
    "protect",
    "protect-text",
    "only",
];

static NORMAL: [&str; 3] = ["grammar", "lexer", "start"];

static SELFTEST: [&str; 3] = ["number", "size", "mode"];

static CHECK: [&str; 9] = [
    "input", "output", "journal", "grammar", "lexer", "mode", "start", "keep", "squeeze",
];

/// The names of the command's options.
pub(crate) fn options_of(command: &str) -> Option<&'static [&'static str]> {
    match command {
        "reduce" => Some(REDUCE.as_slice()),
        "normal" => Some(NORMAL.as_slice()),
        "selftest" => Some(SELFTEST.as_slice()),
        "check" => Some(CHECK.as_slice()),
        _ => None,
    }
}

fn takes_of(command: &str, option: &str) -> Takes {
    match option {
        "squeeze" | "respell" => Takes::Nothing,
        "protect" | "only" => Takes::Lines,
        "jobs" => Takes::Number(1, 16),
        "number" => Takes::Number(0, 4_294_967_295),
        "size" => Takes::Number(1, 1500),
        "mode" if command == "selftest" => Takes::TreeMode,
        "mode" => Takes::Mode,
        _ => Takes::Text,
    }
}

/// How often the option may be there.
fn most_of(option: &str) -> usize {
    match option {
        "keep" | "protect" | "protect-text" => 8,
        _ => 1,
    }
}

fn is_required(command: &str, option: &str) -> bool {
    match option {
        "input" | "output" | "script" | "number" | "size" => true,
        "grammar" => command == "normal",
        "journal" => command == "check",
        _ => false,
    }
}

/// The option of the command that has this name.
pub(crate) fn row_of(command: &str, name: &'static str) -> Row {
    Row {
        name,
        takes: takes_of(command, name),
        most: most_of(name),
        required: is_required(command, name),
    }
}

/// The option of the command that a word names.
pub(crate) fn row_named(command: &str, word: &str) -> Option<Row> {
    let name = options_of(command)?.iter().find(|name| **name == word)?;
    Some(row_of(command, *name))
}

/// Whether the text is a number from `least` to `most`, in digits without a leading zero.
fn is_number(text: &str, least: u64, most: u64) -> bool {
    let digits = text.as_bytes();
    let plain = digits.iter().all(|digit| digit.is_ascii_digit())
        && (digits.len() == 1 || digits.first() != Some(&b'0'));
    match text.parse::<u64>() {
        Ok(number) => plain && least <= number && number <= most,
        Err(_) => false,
    }
}

/// Whether the text is the numbers of a first and a last line, from 1, with a hyphen between them.
fn is_lines(text: &str) -> bool {
    let Some((first, last)) = text.split_once('-') else {
        return false;
    };
    if !is_number(first, 1, 4_294_967_295) || !is_number(last, 1, 4_294_967_295) {
        return false;
    }
    match (first.parse::<u64>(), last.parse::<u64>()) {
        (Ok(first), Ok(last)) => first <= last,
        _ => false,
    }
}

impl Takes {
    /// Whether the option takes this value.
    fn accepts(self, value: &str) -> bool {
        match self {
            Takes::Nothing | Takes::Text => true,
            Takes::Mode => value == "perses" || value == "hdd" || value == "lines",
            Takes::TreeMode => value == "perses" || value == "hdd",
            Takes::Number(least, most) => is_number(value, least, most),
            Takes::Lines => is_lines(value),
        }
    }
}

impl Row {
    /// What is wrong with this value of the option, if anything.
    pub(crate) fn check<'a>(&self, value: &'a str) -> Result<(), WordFault<'a>> {
        let option = self.name;
        if value.is_empty() {
            return Err(WordFault::EmptyValue { option });
        }
        if value.starts_with('-') {
            return Err(WordFault::HyphenValue { option, value });
        }
        if self.takes.accepts(value) {
            return Ok(());
        }
        match self.takes {
            Takes::Number(least, most) => Err(WordFault::NoNumber {
                option,
                value,
                least,
                most,
            }),
            Takes::Lines => Err(WordFault::NoLines { option, value }),
            _ => Err(WordFault::NoMode { value }),
        }
    }
}
