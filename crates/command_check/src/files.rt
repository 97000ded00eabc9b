//! Reading the files of a run that is checked.

ghost use Rattle.std.specs.Prelude.{◌≡◌, [], ◌∷◌, true, IfErr, IfOk, OnOk, map};
ghost use Rattle.edge_io.specs.Files.{SameFiles};
ghost use Rattle.keep_guard.specs.Keep.{holds_all};
ghost use Rattle.cert_check.specs.Findings.{head_in};
ghost use Rattle.command_check.specs.Check.{IsResultReached, RunRead, checked_problem};
ghost use Rattle.command_problem.specs.Problem.{problem_paths};
ghost use Rattle.command_check.specs.inner.Check.{CheckFails, IsSetupRead};
ghost use Rattle.command_words.specs.Lines.{check_read};
ghost use Rattle.command_words.specs.declared.commands.ModeLine.TheVariants.{ByGrammar, Lines};
ghost use Rattle.command_ends.specs.Status.{KeepsFail};
ghost use Rattle.command_ends.specs.World.{IsQuiet, SeenCalls, WereRead, seen};

use cert_check::Setup;
use command_ends::{JOURNAL_LIMIT, NamedFile, Refusal, held_texts, read_file, read_input};
use command_problem::{ReadTree, read_tree};
use command_words::{CheckLine, GrammarLine, ModeLine};
use edge_io::Files;
use faults::Memory;
use reduce_journal::{Journal, read_journal};
use reduce_trees_input::{inputs_are_in_language, inputs_are_one};
use script_gate_trait::Bytes;
use std::alloc::Global;

/// The longest result, in bytes.
const RESULT_LIMIT: u64 = 1_048_576;

/// The bytes of texts, in their order.
fn bytes_of(alloc: Global, texts: &[&str]) -> Result<Vec<Bytes>, Memory>
    ensures { IfOk result (λ bytes. bytes.items ≡ map (λ text. text.now) texts.now) }
{
    let mut bytes = Vec::new(alloc);
    for text in texts {
        bytes.push(Bytes::from_slice(alloc, text.as_bytes())?)?;
    }
    Ok(bytes)
}

/// The keep texts of a command line, each of which occurs in the start.
fn keeps_of(alloc: Global, texts: &[&str], start: &[u8]) -> Result<Vec<Bytes>, Refusal>
    ensures keeps { IfOk result (λ keeps. keeps.items ≡ map (λ text. text.now) texts.now) }
    ensures kept { OnOk result (holds_all (map (λ text. text.now) texts.now) start.now ≡ true) }
    ensures refused { IfErr result (λ refusal. KeepsFail (map (λ text. text.now) texts.now) start.now refusal) }
{
    held_texts(alloc, texts, start)?;
    Ok(bytes_of(alloc, texts)?)
}

/// What was reduced in mode `lines`.
fn lines_setup<F: Files>(
    alloc: Global,
    line: &CheckLine<'_>,
    files: &mut F,
) -> Result<Setup, Refusal>
    requires { line.now.mode ≡ Lines }
    ensures setup { IfOk result (IsSetupRead (check_read line.now) (seen F.content F.faults files.old)) }
    ensures quiet { OnOk result (IsQuiet (seen F.content F.faults files.old) (seen F.content F.faults files.new)) }
    ensures same { SameFiles (F.content files.old) (F.content files.new) }
    ensures refused { IfErr result (λ refusal. CheckFails (check_read line.now) (seen F.content F.faults files.old)
        (seen F.content F.faults files.new) (F.calls files.old) (F.calls files.new) refusal) }
    ensures read { OnOk result (WereRead (problem_paths (checked_problem (check_read line.now))) (F.calls files.old) (F.calls files.new)) }
{
    let start = read_input(files, line.input)?;
    let keeps = keeps_of(alloc, &line.keeps, &start)?;
    Ok(Setup::Lines {
        start: Bytes::from_slice(alloc, &start)?,
        keeps,
    })
}

/// What was reduced by a grammar.
fn tree_setup<F: Files>(
    alloc: Global,
    line: &CheckLine<'_>,
    trees: GrammarLine<'_>,
    files: &mut F,
) -> Result<Setup, Refusal>
    requires { line.now.mode ≡ ByGrammar trees }
    ensures setup { IfOk result (IsSetupRead (check_read line.now) (seen F.content F.faults files.old)) }
    ensures quiet { OnOk result (IsQuiet (seen F.content F.faults files.old) (seen F.content F.faults files.new)) }
    ensures same { SameFiles (F.content files.old) (F.content files.new) }
    ensures refused { IfErr result (λ refusal. CheckFails (check_read line.now) (seen F.content F.faults files.old)
        (seen F.content F.faults files.new) (F.calls files.old) (F.calls files.new) refusal) }
    ensures read { OnOk result (WereRead (problem_paths (checked_problem (check_read line.now))) (F.calls files.old) (F.calls files.new)) }
{
    inputs_are_one();
    inputs_are_in_language();
    let ReadTree { checked, found } = read_tree(alloc, trees.grammar, line.input, files)?;
    let keeps = keeps_of(alloc, &line.keeps, found.text.as_bytes())?;
    Ok(Setup::Tree {
        checked,
        start: found.text,
        mode: trees.mode,
        squeeze: trees.squeeze,
        keeps,
    })
}

/// What was reduced, and how.
pub(crate) fn read_setup<F: Files>(
    alloc: Global,
    line: &CheckLine<'_>,
    files: &mut F,
) -> Result<Setup, Refusal>
    ensures setup { IfOk result (IsSetupRead (check_read line.now) (seen F.content F.faults files.old)) }
    ensures quiet { OnOk result (IsQuiet (seen F.content F.faults files.old) (seen F.content F.faults files.new)) }
    ensures same { SameFiles (F.content files.old) (F.content files.new) }
    ensures refused { IfErr result (λ refusal. CheckFails (check_read line.now) (seen F.content F.faults files.old)
        (seen F.content F.faults files.new) (F.calls files.old) (F.calls files.new) refusal) }
    ensures read { OnOk result (WereRead (problem_paths (checked_problem (check_read line.now))) (F.calls files.old) (F.calls files.new)) }
{
    match line.mode {
        ModeLine::Lines => lines_setup(alloc, line, files),
        ModeLine::ByGrammar(trees) => tree_setup(alloc, line, trees, files),
    }
}

/// The result of a run, and its journal as it was read.
#[derive(Drop)]
pub(crate) struct Run {
    pub(crate) output: Vec<u8>,
    pub(crate) journal: Journal,
}

/// The result and the journal, once the problem was read.
pub(crate) fn read_run<F: Files>(
    alloc: Global,
    line: &CheckLine<'_>,
    files: &mut F,
) -> Result<Run, Refusal>
    ensures run { IfOk result (λ run. RunRead (check_read line.now) (seen F.content F.faults files.old) run.output.items
        (head_in run.journal) run.journal.events.items run.journal.torn) }
    ensures quiet { OnOk result (IsQuiet (seen F.content F.faults files.old) (seen F.content F.faults files.new)) }
    ensures same { SameFiles (F.content files.old) (F.content files.new) }
    ensures refused { IsResultReached (check_read line.now) (seen F.content F.faults files.old)
        → (calls : SeenCalls) → WereRead (problem_paths (checked_problem (check_read line.now))) calls (F.calls files.old)
        → IfErr result (λ refusal. CheckFails (check_read line.now)
        (seen F.content F.faults files.old) (seen F.content F.faults files.new) calls (F.calls files.new) refusal) }
    ensures read { OnOk result (WereRead (line.now.output.now ∷ line.now.journal.now ∷ []) (F.calls files.old) (F.calls files.new)) }
{
    let output = read_file(files, line.output, RESULT_LIMIT, NamedFile::Result)?;
    let read = read_file(files, line.journal, JOURNAL_LIMIT, NamedFile::Journal)?;
    let bytes = Bytes::from_vec(read)?;
    match read_journal(alloc, &bytes) {
        Ok(journal) => Ok(Run { output, journal }),
        Err(fault) => Err(Refusal::of_journal(alloc, fault)),
    }
}
