//! The options of a command, read by `clap`.

ghost use Rattle.std.specs.Prelude.{◌≡◌, ◌<◌, IfOk, IfSome, length, List, fold, map, false, position, string_bytes};
ghost use Rattle.std.specs.List.{list_all};
ghost use Rattle.clap.specs.Words.{app_of, rule_of, with_rule};
ghost use Rattle.command_words.specs.Options.{OptionRow, is_equals, name_and_value};
ghost use Rattle.command_words.specs.inner.Read.{IsAnswered, IsTable, action_for, is_option_part, is_well_formed, option_rule, read_row, table_row};

use crate::values::is_value;
use clap::error::ErrorKind;
use clap::{Arg, ArgAction, ArgMatches, Command};
use faults::Memory;
use std::alloc::{AllocError, Global};

/// How often an option may be there, and whether it has a value.
#[derive(Clone, Copy, Debug, PartialEq, Eq)]
pub(crate) enum Takes {
    /// It may be there once, with a value.
    Value,
    /// It may be there several times, with a value each time.
    Several,
    /// It may be there once, and has no value.
    Nothing,
}

/// An option of a command, as `clap` is asked for it.
#[derive(Clone, Copy, Debug)]
pub(crate) struct ClapOption {
    /// Its name, without the hyphens.
    pub(crate) name: &'static str,
    /// How often it may be there, and whether it has a value.
    pub(crate) takes: Takes,
}

impl Takes {
    /// What a use of the option does, in the words of `clap`.
    fn action(self) -> ArgAction
        ensures { result ≡ action_for self }
    {
        match self {
            Takes::Value => ArgAction::Set,
            Takes::Several => ArgAction::Append,
            Takes::Nothing => ArgAction::SetTrue,
        }
    }
}

/// The option as `clap` wants it.
fn argument<'a>(alloc: Global, row: ClapOption) -> Arg<'a>
    ensures rule { rule_of result ≡ option_rule (read_row row) }
    ensures local { result.global ≡ false }
{
    Arg::new(alloc, row.name)
        .long(row.name)
        .action(row.takes.action())
}

/// The command with these options more.
fn with_options<'a>(
    alloc: Global,
    command: Command<'a>,
    rows: &[ClapOption],
) -> Result<Command<'a>, AllocError>
    ensures { IfOk result (λ c. app_of c ≡ fold with_rule (app_of command.entry) (map (λ row. option_rule (read_row row)) rows.now)) }
{
    let mut command = command;
    for row in rows {
        command = command.arg(argument(alloc, *row))?;
    }
    Ok(command)
}

/// Whether the word can be one of options: `--name`, `--name=value` or a value.
fn is_well_formed(word: &[u8]) -> bool
    ensures { result ≡ is_well_formed word.now }
{
    match word {
        [b'-', b'-', option @ ..] => is_option_part(option),
        _ => is_value(word),
    }
}

/// Whether what is after two hyphens is `name` or `name=value`.
fn is_option_part(option: &[u8]) -> bool
    ensures { let word = name_and_value option.now in result ≡ is_option_part word.name word.value }
{
    match option {
        [] => false,
        _ => match equals_in(option) {
            None => true,
            Some(end) => is_value(&option[end + 1..]),
        },
    }
}

/// Where the first `=` is.
fn equals_in(option: &[u8]) -> Option<usize>
    ensures place { result ≡ position is_equals option.now }
    ensures within { IfSome result (λ end. end < length option.now) }
{
    option.iter().position(|byte| *byte == b'=')
}

/// Whether each word can be one of options.
fn are_well_formed(words: &[String]) -> bool
    ensures { result ≡ list_all (λ word. is_well_formed (string_bytes word)) words.now }
{
    words.iter().all(|word| is_well_formed(word.as_bytes()))
}

/// What `clap` finds in the words by these options. None where they are no such options, or one is
/// there twice that may be there once. How often the others are there, whether one is missing, and
/// what their values are is left to the caller.
pub(crate) fn read_options<'a>(
    alloc: Global,
    command: &'static str,
    rows: &[ClapOption],
    words: &'a [String],
) -> Result<Option<ArgMatches<'a>>, Memory>
    ensures { (table : List OptionRow) → map read_row rows.now ≡ map table_row table → IsTable table
        → IfOk result (IsAnswered table (map string_bytes words.entry.now)) }
{
    if !are_well_formed(words) {
        return Ok(None);
    }
    let command = Command::new(alloc, command)
        .no_binary_name(true)
        .disable_help_flag(true);
    let command = with_options(alloc, command, rows)?;
    match command.try_get_matches_from(words) {
        Ok(matches) => Ok(Some(matches)),
        Err(error) => match error.kind() {
            // The kind is all that `clap` says of memory that it didn't get.
            ErrorKind::OutOfMemory => Err(Memory::from(AllocError)),
            _ => Ok(None),
        },
    }
}
