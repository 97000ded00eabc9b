//! The grammar of a command line.

ghost use Rattle.std.specs.Prelude.{◌≡◌, List, codes, option_map};
ghost use Rattle.command_words.specs.Options.{OptionRow, Use};
ghost use Rattle.command_words.specs.Commands.{named_grammar};
ghost use Rattle.command_words.specs.inner.Found.{HasFound};
ghost use Rattle.command_words.specs.Lines.{grammar_read};
ghost use Rattle.command_words.specs.inner.Read.{NamesValue};

use crate::commands::NamedGrammar;
use clap::ArgMatches;

/// The grammar that `--grammar`, `--lexer` and `--start` name, where there is one.
pub(crate) fn grammar_of<'a>(matches: &ArgMatches<'a>) -> Option<NamedGrammar<'a>>
    ensures { (table : List OptionRow) (uses : List Use) → HasFound table uses matches.now → NamesValue table (codes "grammar")
        → NamesValue table (codes "lexer") → NamesValue table (codes "start") → option_map grammar_read result ≡ named_grammar uses }
{
    let path = matches.get_str("grammar")?;
    let lexer = matches.get_str("lexer");
    let start = matches.get_str("start");
    Some(NamedGrammar { path, lexer, start })
}
