//! The words of a command line.

ghost use Rattle.std.specs.Prelude.{◌≡◌, true, IfOk, IfSome, OnErr, map, option_map, string_bytes};
ghost use Rattle.command_words.specs.Commands.{command_line_of, command_of, is_command, names_command};
ghost use Rattle.command_words.specs.Lines.{IsSized, command_read};

use crate::check::read_check;
use crate::commands::CommandLine;
use crate::normal::read_normal;
use crate::reduce::read_reduce;
use crate::selftest::read_selftest;
use faults::Memory;
use std::alloc::Global;

/// What the words ask for, the first of which is the program's name. None where they are no command
/// line. The error says that memory ran out: the words name a command then, but may be no command line.
pub fn read_words<'a>(alloc: Global, words: &'a [String]) -> Result<Option<CommandLine<'a>>, Memory>
    ensures line { IfOk result (λ line. option_map command_read line ≡ command_line_of (map string_bytes words.entry.now)) }
    ensures size { IfOk result (λ line. IfSome line IsSized) }
    ensures names { OnErr result (names_command (map string_bytes words.entry.now) ≡ true) }
{
    let [_, command, words @ ..] = words else {
        return Ok(None);
    };
    read_command(alloc, command.as_str(), words)
}

/// What the words after the name of a command ask for.
fn read_command<'a>(
    alloc: Global,
    name: &str,
    words: &'a [String],
) -> Result<Option<CommandLine<'a>>, Memory>
    ensures line { IfOk result (λ line. option_map command_read line ≡ command_of name.now (map string_bytes words.entry.now)) }
    ensures size { IfOk result (λ line. IfSome line IsSized) }
    ensures names { OnErr result (is_command name.now ≡ true) }
{
    if name == "reduce" {
        match read_reduce(alloc, words)? {
            None => Ok(None),
            Some(line) => Ok(Some(CommandLine::Reduce(line))),
        }
    } else if name == "normal" {
        match read_normal(alloc, words)? {
            None => Ok(None),
            Some(grammar) => Ok(Some(CommandLine::Normal(grammar))),
        }
    } else if name == "selftest" {
        match read_selftest(alloc, words)? {
            None => Ok(None),
            Some(line) => Ok(Some(CommandLine::Selftest(line))),
        }
    } else if name == "check" {
        match read_check(alloc, words)? {
            None => Ok(None),
            Some(line) => Ok(Some(CommandLine::Check(line))),
        }
    } else {
        Ok(None)
    }
}
