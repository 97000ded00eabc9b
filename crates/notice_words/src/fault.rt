use std::fmt;

/// What is wrong with the words of a command line. Options are named without their hyphens.
#[derive(Clone, Copy, Debug, PartialEq, Eq)]
pub enum WordFault<'a> {
    /// There is no word, or one asks for help.
    Help,
    /// No command has this name.
    NoCommand {
        word: &'a str,
    },
    /// The command has no option like this word.
    NoOption {
        command: &'a str,
        word: &'a str,
    },
    /// The words end before the option's value.
    NoValue {
        option: &'static str,
    },
    /// The option's value is empty.
    EmptyValue {
        option: &'static str,
    },
    /// The option's value begins with a hyphen.
    HyphenValue {
        option: &'static str,
        value: &'a str,
    },
    /// The option takes no value, and has one.
    Value {
        option: &'static str,
    },
    /// The option's value isn't a number from `least` to `most`.
    NoNumber {
        option: &'static str,
        value: &'a str,
        least: u64,
        most: u64,
    },
    /// The option's value isn't the numbers of a first and a last line.
    NoLines {
        option: &'static str,
        value: &'a str,
    },
    /// The command has no mode of this name.
    NoMode {
        value: &'a str,
    },
    /// The option is there more than `most` times.
    TooOften {
        option: &'static str,
        most: usize,
    },
    /// The option is missing.
    Missing {
        command: &'a str,
        option: &'static str,
    },
    /// The option is there, and the mode is `lines`.
    NotWithLines {
        option: &'static str,
    },
    /// Both options are there.
    NotWith {
        option: &'static str,
        other: &'static str,
    },
}

impl fmt::Display for WordFault<'_> {
    fn fmt<W: fmt::Write>(&self, f: &mut fmt::Formatter<W>) -> fmt::Result {
        match self {
            WordFault::Help => f.write_str("a command and its options are wanted"),
            WordFault::NoCommand { word } => {
                write!(
                    f,
                    "no command '{word}': it is reduce, normal, selftest or check"
                )
            }
            WordFault::NoOption { command, word } => write!(f, "{command} has no option '{word}'"),
            WordFault::NoValue { option } => write!(f, "--{option} lacks its value"),
            WordFault::EmptyValue { option } => write!(f, "the value of --{option} is empty"),
            WordFault::HyphenValue { option, value } => write!(
                f,
                "the value of --{option} is missing, or begins with a hyphen: '{value}' (write a file as ./{value})"
            ),
            WordFault::Value { option } => write!(f, "--{option} takes no value"),
            WordFault::NoNumber {
                option,
                value,
                least,
                most,
            } => write!(
                f,
                "--{option} wants a number from {least} to {most}, without a leading zero: '{value}'"
            ),
            WordFault::NoLines { option, value } => write!(
                f,
                "--{option} wants the numbers of a first and a last line, as 7-12: '{value}'"
            ),
            WordFault::NoMode { value } => write!(f, "no mode '{value}'"),
            WordFault::TooOften { option, most: 1 } => write!(f, "--{option} is there twice"),
            WordFault::TooOften { option, most } => {
                write!(f, "--{option} is there more than {most} times")
            }
            WordFault::Missing { command, option } => write!(f, "{command} lacks --{option}"),
            WordFault::NotWithLines { option } => {
                write!(f, "--{option} doesn't go with --mode lines")
            }
            WordFault::NotWith { option, other } => {
                write!(f, "--{option} doesn't go with --{other}")
            }
        }
    }
}
