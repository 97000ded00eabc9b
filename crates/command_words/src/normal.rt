//! Command lines of `normal`.

ghost use Rattle.std.specs.Prelude.{◌≡◌, IfOk, map, option_map, string_bytes};
ghost use Rattle.command_words.specs.Commands.{normal_line};
ghost use Rattle.command_words.specs.Lines.{grammar_read};

use crate::commands::NamedGrammar;
use crate::grammar::grammar_of;
use crate::options::{ClapOption, Takes, read_options};
use faults::Memory;
use std::alloc::Global;

/// The options of `normal`.
static OPTIONS: [ClapOption; 3] = [
    ClapOption {
        name: "grammar",
        takes: Takes::Value,
    },
    ClapOption {
        name: "lexer",
        takes: Takes::Value,
    },
    ClapOption {
        name: "start",
        takes: Takes::Value,
    },
];

/// What the words after `normal` ask for. None where they are no options of it.
pub(crate) fn read_normal<'a>(
    alloc: Global,
    words: &'a [String],
) -> Result<Option<NamedGrammar<'a>>, Memory>
    ensures { IfOk result (λ line. option_map grammar_read line ≡ normal_line (map string_bytes words.entry.now)) }
{
    let Some(matches) = read_options(alloc, "normal", &OPTIONS, words)? else {
        return Ok(None);
    };
    Ok(grammar_of(&matches))
}
