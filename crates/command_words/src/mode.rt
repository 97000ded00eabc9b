//! Which states are tried, as options say it.

ghost use Rattle.std.specs.Prelude.{◌≡◌, List, MatchOption, false, option_map, true};
ghost use Rattle.command_words.specs.Options.{OptionRow, Use, Values, takes_value};
ghost use Rattle.command_words.specs.Tables.{tree_modes};
ghost use Rattle.command_words.specs.inner.Found.{HasFound, HasModeOptions, fitting_mode};
ghost use Rattle.command_words.specs.Commands.{lines_options, names_grammar, says_grammar, tree_mode_named, trees_options};
ghost use Rattle.command_words.specs.Lines.{mode_of};

use crate::commands::{GrammarLine, ModeLine};
use crate::grammar::grammar_of;
use clap::ArgMatches;
use reduce_step::TreeMode;

/// The mode, with what belongs to it.
pub(crate) fn mode_of<'a>(matches: &ArgMatches<'a>) -> Option<ModeLine<'a>>
    ensures { (table : List OptionRow) (uses : List Use) → HasModeOptions table → HasFound table uses matches.now
        → option_map mode_of result ≡ fitting_mode uses }
{
    let mode = matches.get_str("mode").unwrap_or("perses");
    if mode == "lines" {
        lines_of(matches)
    } else {
        let mode = tree_mode_of(mode)?;
        trees_of(matches, mode)
    }
}

/// Mode `lines`, where nothing is said of a grammar.
fn lines_of<'a>(matches: &ArgMatches<'a>) -> Option<ModeLine<'a>>
    ensures { (table : List OptionRow) (uses : List Use) → HasModeOptions table → HasFound table uses matches.now
        → option_map mode_of result ≡ lines_options uses }
{
    if says_grammar(matches) {
        None
    } else {
        Some(ModeLine::Lines)
    }
}

/// Whether a file of a grammar is named.
fn names_grammar(matches: &ArgMatches<'_>) -> bool
    ensures { (table : List OptionRow) (uses : List Use) → HasModeOptions table → HasFound table uses matches.now
        → result ≡ names_grammar uses }
{
    matches.contains_id("grammar") || matches.contains_id("lexer")
}

/// Whether something is said of a grammar.
fn says_grammar(matches: &ArgMatches<'_>) -> bool
    ensures { (table : List OptionRow) (uses : List Use) → HasModeOptions table → HasFound table uses matches.now
        → result ≡ says_grammar uses }
{
    names_grammar(matches) || matches.contains_id("start") || matches.get_flag("squeeze")
}

/// A reduction by a grammar, where there is one.
fn trees_of<'a>(matches: &ArgMatches<'a>, mode: TreeMode) -> Option<ModeLine<'a>>
    ensures { (table : List OptionRow) (uses : List Use) → HasModeOptions table → HasFound table uses matches.now
        → option_map mode_of result ≡ trees_options mode uses }
{
    let grammar = grammar_of(matches)?;
    Some(ModeLine::ByGrammar(GrammarLine {
        grammar,
        mode,
        squeeze: matches.get_flag("squeeze"),
    }))
}

/// The mode of this name.
pub(crate) fn tree_mode_of(name: &str) -> Option<TreeMode>
    ensures { MatchOption result
        (takes_value (Values.one_of tree_modes) name.now ≡ false)
        (λ mode. (takes_value (Values.one_of tree_modes) name.now ≡ true) × (mode ≡ tree_mode_named name.now)) }
{
    if name == "perses" {
        Some(TreeMode::Perses)
    } else if name == "hdd" {
        Some(TreeMode::Hdd)
    } else {
        None
    }
}
