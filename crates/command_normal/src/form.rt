//! The command `normal`, step by step.

ghost use Rattle.std.specs.Prelude.{IfErr, IfOk, OnOk};
ghost use Rattle.edge_io.specs.Files.{SameFiles};
ghost use Rattle.command_normal.specs.Normal.{IsNormalOf, PrintsNormal};
ghost use Rattle.command_normal.specs.inner.Normal.{NormalFails};
ghost use Rattle.command_words.specs.Commands.{GrammarSource};
ghost use Rattle.command_words.specs.Lines.{grammar_read};
ghost use Rattle.command_grammar.specs.Grammar.{start_name};
ghost use Rattle.command_grammar.specs.Texts.{AreSpelled, GrammarTexts, GrammarWasRead, grammar_paths};
ghost use Rattle.command_ends.specs.World.{IsQuiet, OnePut, WereRead, seen};

use command_ends::{Refusal, end_with};
use command_grammar::grammar_of_files;
use command_words::NamedGrammar;
use edge_io::{Files, Sink};
use faults::Memory;
use grammar_tree::Checked;
use normal_form_build::normalise;
use normal_form_print::normal_text;
use std::alloc::Global;

/// The printed normal form of the grammar.
fn form_of(alloc: Global, checked: &Checked) -> Result<Vec<u8>, Memory>
    ensures { IfOk result (λ form. (named : GrammarSource) (texts : GrammarTexts) → AreSpelled texts (start_name named) checked.now
        → IsNormalOf named texts form.items) }
{
    let normal = normalise(alloc, checked)?;
    Ok(normal_text(alloc, checked, &normal)?)
}

/// The printed normal form of the grammar in one file or two.
fn form_of_files<F: Files>(
    alloc: Global,
    grammar: NamedGrammar<'_>,
    files: &mut F,
) -> Result<Vec<u8>, Refusal>
    ensures form { IfOk result (λ form. GrammarWasRead (grammar_read grammar.entry) (seen F.content F.faults files.old)
        (λ texts. IsNormalOf (grammar_read grammar.entry) texts form.items)) }
    ensures quiet { OnOk result (IsQuiet (seen F.content F.faults files.old) (seen F.content F.faults files.new)) }
    ensures refused { IfErr result (λ refusal. NormalFails (grammar_read grammar.entry) (seen F.content F.faults files.old)
        (seen F.content F.faults files.new) (F.calls files.old) (F.calls files.new) refusal) }
    ensures read { OnOk result (WereRead (grammar_paths (grammar_read grammar.entry)) (F.calls files.old) (F.calls files.new)) }
    ensures same { SameFiles (F.content files.old) (F.content files.new) }
{
    let checked = grammar_of_files(alloc, grammar, files)?;
    let form = form_of(alloc, &checked)?;
    Ok(form)
}

/// Puts the printed normal form of the grammar in one file or two on `out`, in one put, or the line that
/// says why there is none, and gives the status. Where the normal form can't be put, nothing
/// follows.
pub fn normal<F: Files, O: Sink>(
    alloc: Global,
    grammar: NamedGrammar<'_>,
    files: &mut F,
    out: &mut O,
) -> u8
    ensures ends { PrintsNormal (grammar_read grammar.entry) (seen F.content F.faults files.old) (seen F.content F.faults files.new)
        (F.calls files.old) (F.calls files.new) (seen O.put_so_far O.faults out.old) (seen O.put_so_far O.faults out.new) result }
    ensures one_put { OnePut (O.puts out.old) (O.puts out.new) }
{
    let outcome = form_of_files(alloc, grammar, files);
    end_with(out, &outcome)
}
