//! Command lines of `selftest`.

ghost use Rattle.std.specs.Prelude.{◌≡◌, ◌≤◌, List, IfOk, IfSome, length, map, option_map, string_bytes};
ghost use Rattle.command_words.specs.Options.{Use, values_for, where_fits};
ghost use Rattle.command_words.specs.Tables.{selftest_table};
ghost use Rattle.command_words.specs.Commands.{selftest_line, selftest_of};
ghost use Rattle.command_words.specs.inner.Found.{HasFound, fitting_number};
ghost use Rattle.command_words.specs.inner.Read.{NamesValue};
ghost use Rattle.command_words.specs.Lines.{selftest_read};

use crate::commands::SelftestLine;
use crate::mode::tree_mode_of;
use crate::options::{ClapOption, Takes, read_options};
use crate::values::read_number;
use clap::ArgMatches;
use faults::Memory;
use std::alloc::Global;

/// The options of `selftest`.
static OPTIONS: [ClapOption; 3] = [
    ClapOption {
        name: "number",
        takes: Takes::Value,
    },
    ClapOption {
        name: "size",
        takes: Takes::Value,
    },
    ClapOption {
        name: "mode",
        takes: Takes::Value,
    },
];

/// The most functions of a program.
const MOST_FUNCTIONS: u32 = 1500;

/// What the words after `selftest` ask for. None where they are no options of it.
pub(crate) fn read_selftest<'a>(
    alloc: Global,
    words: &'a [String],
) -> Result<Option<SelftestLine>, Memory>
    ensures line { IfOk result (λ line. option_map selftest_read line ≡ selftest_line (map string_bytes words.entry.now)) }
    ensures size { IfOk result (λ found. IfSome found (λ line. (1 ≤ line.size) × (line.size ≤ 1500))) }
{
    let Some(matches) = read_options(alloc, "selftest", &OPTIONS, words)? else {
        return Ok(None);
    };
    Ok(line_of(&matches))
}

/// What the options that were found ask for. None where one is missing, or a value is none that the
/// option takes.
fn line_of(matches: &ArgMatches<'_>) -> Option<SelftestLine>
    ensures line { (uses : List Use) → HasFound selftest_table uses matches.now
        → option_map selftest_read result ≡ option_map selftest_of (where_fits selftest_table (Some uses)) }
    ensures size { IfSome result (λ line. (1 ≤ line.size) × (line.size ≤ 1500)) }
{
    let number = number_of(matches, "number", 0, u32::MAX)?;
    let size = number_of(matches, "size", 1, MOST_FUNCTIONS)?;
    let mode = tree_mode_of(matches.get_str("mode").unwrap_or("perses"))?;
    Some(SelftestLine { number, size, mode })
}

/// The value of the option, where there is one and it is a number from `least` to `most`.
fn number_of(matches: &ArgMatches<'_>, name: &str, least: u32, most: u32) -> Option<u32>
    ensures value { (uses : List Use) → HasFound selftest_table uses matches.now → NamesValue selftest_table name.now → length (values_for name.now uses) ≤ 1
        → result ≡ fitting_number least most name.now uses }
    ensures bounds { IfSome result (λ number. (least ≤ number) × (number ≤ most)) }
{
    read_number(matches.get_str(name)?, least, most)
}
