//! Command lines of `check`.

ghost use Rattle.std.specs.Prelude.{◌≡◌, List, IfOk, Some, map, option_and_then, option_map, string_bytes};
ghost use Rattle.command_words.specs.Options.{Use, where_fits};
ghost use Rattle.command_words.specs.Tables.{check_table};
ghost use Rattle.command_words.specs.inner.Found.{HasFound, check_with};
ghost use Rattle.command_words.specs.Commands.{check_line, check_of};
ghost use Rattle.command_words.specs.Lines.{check_read};

use crate::commands::CheckLine;
use crate::mode::mode_of;
use crate::options::{ClapOption, Takes, read_options};
use crate::protects::texts_of;
use clap::ArgMatches;
use faults::Memory;
use std::alloc::Global;

/// The options of `check`.
static OPTIONS: [ClapOption; 9] = [
    ClapOption {
        name: "input",
        takes: Takes::Value,
    },
    ClapOption {
        name: "output",
        takes: Takes::Value,
    },
    ClapOption {
        name: "journal",
        takes: Takes::Value,
    },
    ClapOption {
        name: "grammar",
        takes: Takes::Value,
    },
    ClapOption {
        name: "lexer",
        takes: Takes::Value,
    },
    ClapOption {
        name: "mode",
        takes: Takes::Value,
    },
    ClapOption {
        name: "start",
        takes: Takes::Value,
    },
    ClapOption {
        name: "keep",
        takes: Takes::Several,
    },
    ClapOption {
        name: "squeeze",
        takes: Takes::Nothing,
    },
];

/// What the words after `check` ask for. None where they are no options of it.
pub(crate) fn read_check<'a>(
    alloc: Global,
    words: &'a [String],
) -> Result<Option<CheckLine<'a>>, Memory>
    ensures { IfOk result (λ line. option_map check_read line ≡ check_line (map string_bytes words.entry.now)) }
{
    let Some(matches) = read_options(alloc, "check", &OPTIONS, words)? else {
        return Ok(None);
    };
    line_of(alloc, &matches)
}

/// What the options that were found ask for. None where one is missing, or a value is none that the
/// option takes.
fn line_of<'a>(alloc: Global, matches: &ArgMatches<'a>) -> Result<Option<CheckLine<'a>>, Memory>
    ensures { (uses : List Use) → HasFound check_table uses matches.now
        → IfOk result (λ line. option_map check_read line ≡ option_and_then check_of (where_fits check_table (Some uses))) }
{
    match texts_of(alloc, matches, "keep")? {
        None => Ok(None),
        Some(keeps) => Ok(line_with(matches, keeps)),
    }
}

/// What the options that were found ask for, with these keep texts. None as for `line_of`.
fn line_with<'a>(matches: &ArgMatches<'a>, keeps: Vec<&'a str>) -> Option<CheckLine<'a>>
    ensures { (uses : List Use) → HasFound check_table uses matches.now
        → option_map check_read result ≡ check_with uses (Some (map (λ keep. keep.now) keeps.entry.items)) }
{
    let input = matches.get_str("input")?;
    let output = matches.get_str("output")?;
    let journal = matches.get_str("journal")?;
    let mode = mode_of(matches)?;
    Some(CheckLine {
        mode,
        input,
        output,
        journal,
        keeps,
    })
}
