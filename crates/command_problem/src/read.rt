//! Reading the grammar and the input that a command line names.

ghost use Rattle.std.specs.Prelude.{[], ◌∷◌, ◌++◌, IfErr, IfOk, OnOk};
ghost use Rattle.edge_io.specs.Files.{SameFiles};
ghost use Rattle.command_grammar.specs.Texts.{grammar_paths};
ghost use Rattle.command_problem.specs.Read.{GivesTree, TreeCalls, TreeFails};
ghost use Rattle.command_words.specs.Lines.{grammar_read};
ghost use Rattle.command_ends.specs.World.{IsQuiet, WereRead, seen};

use command_ends::{Refusal, read_input};
use command_grammar::grammar_of_files;
use command_words::NamedGrammar;
use edge_io::Files;
use grammar_tree::Checked;
use reduce_trees_input::{ParsedInput, parsed_input};
use std::alloc::Global;

/// A grammar, and what it finds in an input.
#[derive(Drop)]
pub struct ReadTree {
    pub checked: Checked,
    pub found: ParsedInput,
}

/// The grammar in one file or two, which is read first, and what it finds in the input. No file is changed.
pub fn read_tree<F: Files>(
    alloc: Global,
    grammar: NamedGrammar<'_>,
    input: &str,
    files: &mut F,
) -> Result<ReadTree, Refusal>
    ensures tree { IfOk result (GivesTree (grammar_read grammar.entry) input.now (seen F.content F.faults files.old)) }
    ensures quiet { OnOk result (IsQuiet (seen F.content F.faults files.old) (seen F.content F.faults files.new)) }
    ensures same { SameFiles (F.content files.old) (F.content files.new) }
    ensures refused { IfErr result (λ refusal. TreeFails (grammar_read grammar.entry) input.now (seen F.content F.faults files.old)
        (seen F.content F.faults files.new) refusal) }
    ensures read { OnOk result (WereRead (grammar_paths (grammar_read grammar.entry) ++ input.now ∷ []) (F.calls files.old) (F.calls files.new)) }
    ensures calls { IfErr result (TreeCalls (grammar_read grammar.entry) input.now (F.calls files.old) (F.calls files.new)) }
{
    let checked = grammar_of_files(alloc, grammar, files)?;
    checked.is_checked();
    let bytes = read_input(files, input)?;
    match parsed_input(alloc, &checked, &bytes) {
        Ok(found) => Ok(ReadTree { checked, found }),
        Err(fault) => Err(Refusal::of_input(alloc, &fault)),
    }
}
