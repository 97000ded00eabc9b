//! Reading what is to be reduced: the grammar and the input.

ghost use Rattle.std.specs.Prelude.{◌≡◌, IfErr, IfOk, OnOk};
ghost use Rattle.edge_io.specs.Files.{SameFiles};
ghost use Rattle.run_problem.specs.declared.problem.ReadProblem.TheVariants.{Tree};
ghost use Rattle.run_problem.specs.Read.{IsReadAs, IsReady};
ghost use Rattle.command_reduce.specs.Reduce.{problem_in};
ghost use Rattle.command_reduce.specs.inner.Read.{admits_read};
ghost use Rattle.command_problem.specs.Problem.{ProblemRead, problem_paths};
ghost use Rattle.command_problem.specs.Read.{ProblemCalls, ProblemFails};
ghost use Rattle.command_words.specs.Lines.{reduce_read};
ghost use Rattle.command_ends.specs.World.{IsQuiet, WereRead, seen};

use command_ends::{Refusal, read_input};
use command_problem::read_tree;
use command_words::{ModeLine, ReduceLine};
use edge_io::Files;
use reduce_step::TreeMode;
use reduce_trees_input::{ParsedInput, inputs_are_one};
use run_problem::ReadProblem;
use std::alloc::Global;

/// What was found, to be reduced as the command line says.
fn tree_problem(found: ParsedInput, mode: TreeMode, squeeze: bool, respell: bool) -> ReadProblem
    ensures { result ≡ Tree found mode squeeze respell }
{
    ReadProblem::Tree {
        found,
        mode,
        squeeze,
        respell,
    }
}

/// What the files that the command line names have to be reduced.
pub fn read_problem<F: Files>(
    alloc: Global,
    line: &ReduceLine<'_>,
    files: &mut F,
) -> Result<ReadProblem, Refusal>
    ensures problem { IfOk result (λ problem. ProblemRead (problem_in (reduce_read line.now)) (seen F.content F.faults files.old)
        (IsReadAs (admits_read (reduce_read line.now) problem) problem)) }
    ensures ready { IfOk result IsReady }
    ensures quiet { OnOk result (IsQuiet (seen F.content F.faults files.old) (seen F.content F.faults files.new)) }
    ensures same { SameFiles (F.content files.old) (F.content files.new) }
    ensures refused { IfErr result (λ refusal. ProblemFails (problem_in (reduce_read line.now)) (seen F.content F.faults files.old)
        (seen F.content F.faults files.new) refusal) }
    ensures read { OnOk result (WereRead (problem_paths (problem_in (reduce_read line.now))) (F.calls files.old) (F.calls files.new)) }
    ensures calls { IfErr result (ProblemCalls (problem_in (reduce_read line.now)) (F.calls files.old) (F.calls files.new)) }
{
    match line.mode {
        ModeLine::Lines => {
            let start = read_input(files, line.input)?;
            Ok(ReadProblem::Lines(start))
        }
        ModeLine::ByGrammar(trees) => {
            inputs_are_one();
            let tree = read_tree(alloc, trees.grammar, line.input, files)?;
            Ok(tree_problem(tree.found, trees.mode, trees.squeeze, line.respell))
        }
    }
}
