//! The reduction.

ghost use Rattle.std.specs.Prelude.{◌≡◌, ◌≤◌, None, IfOk};
ghost use Rattle.faults.specs.Memory.{ran_out};
ghost use Rattle.grammar_load.specs.Answer.{Spells};
ghost use Rattle.case_maker.specs.Mini.{mini_text};
ghost use Rattle.run_gated.specs.declared.fault.RunFault.TheVariants.{Memory as OutOfMemory};
ghost use Rattle.run_problem.specs.Problem.{Problem};
ghost use Rattle.run_problem.specs.Read.{IsReadAs, IsReady};
ghost use Rattle.case_reduction.specs.Summary.{IsCaseProblem, IsSummary, admits_all};

use crate::language_laws::{cases_are_in_language, cases_get_yes, mini_is_spelled};
use crate::summary::summary;
use case_maker::{cases_are_short, make_case, mini_grammar};
use edge_io::NullSink;
use faults::Memory;
use grammar_load::{GrammarFault, checked_grammar};
use grammar_tree::Checked;
use keep_guard::{Guard, KeepTexts};
use reduce_trees_input::{InputFault, parsed_input};
use run_gated::{Known, Ran, RunFault};
use run_problem::{ReadProblem, TreeMode, problems_reduce_alike, run_problem};
use script_gate_trait::RuleGate;
use std::alloc::Global;
use std::sync::Wait;
use std::thread::Threads;
use worker_pool::Worker;

/// The rule: its two bytes are the letters Q and Z.
const RULE: u64 = 23_121;

/// The grammar Mini, checked.
fn mini(alloc: Global) -> Result<Checked, Memory>
    ensures { IfOk result (Spells mini_text None) }
{
    mini_is_spelled();
    match checked_grammar(alloc, mini_grammar(), None) {
        Ok(grammar) => Ok(grammar),
        Err(GrammarFault::Memory(memory)) => Err(memory),
        // The text spells a well-formed grammar.
        Err(_) => unreachable!(),
    }
}

/// The program, cut into tokens and parsed.
fn case_problem(
    alloc: Global,
    number: u32,
    size: u32,
    mode: TreeMode,
) -> Result<ReadProblem, Memory>
    requires least { 1 ≤ size }
    requires most { size ≤ 1500 }
    ensures ready { IfOk result IsReady }
    ensures case { IfOk result (λ read. (problem : Problem) × IsReadAs admits_all read problem × IsCaseProblem mode number size problem) }
{
    cases_are_in_language();
    cases_are_short();
    let grammar = mini(alloc)?;
    let text = make_case(alloc, number, size)?;
    match parsed_input(alloc, &grammar, &text) {
        Ok(found) => Ok(ReadProblem::Tree {
            found,
            mode,
            squeeze: false,
            respell: false,
        }),
        Err(InputFault::Memory(memory)) => Err(memory),
        // Each program is in the grammar's language.
        Err(_) => unreachable!(),
    }
}

/// Why a run of a program over the rule has no result: the rule says yes to each program, and neither
/// it nor the sink ever fails.
fn memory_of(fault: RunFault) -> Memory
    requires { fault ≡ OutOfMemory ran_out }
{
    match fault {
        RunFault::Memory(memory) => memory,
        _ => unreachable!(),
    }
}

/// The program of this number and size is reduced in this mode, with the letters Q and Z as the rule:
/// the first four lines of the report, and the text that is left. The time is that of
/// [`run_problem`].
pub fn case_summary<W: Threads + Wait + Sync>(
    rt: &W,
    alloc: Global,
    number: u32,
    size: u32,
    mode: TreeMode,
) -> Result<Vec<u8>, Memory>
    requires least { 1 ≤ size }
    requires most { size ≤ 1500 }
    ensures { IfOk result (λ text. IsSummary mode number size text.items) }
{
    cases_get_yes();
    problems_reduce_alike();
    let problem = case_problem(alloc, number, size, mode)?;
    let guard = Guard::new(KeepTexts::new(alloc));
    let mut workers = [Worker::new(RuleGate::<RULE>::new(alloc, false), 1)];
    let known = Known::of_start(alloc, problem.start());
    let journal = NullSink::new();
    let Ran { outcome, .. } = run_problem(rt, alloc, problem, guard, &mut workers, journal, known);
    match outcome {
        Ok(reduced) => summary(alloc, &reduced),
        Err(fault) => Err(memory_of(fault)),
    }
}
