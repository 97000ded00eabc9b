//! The run, by the mode of what was read.

ghost use Rattle.std.specs.Prelude.{◌≡◌, ◌≤◌, [], true, IfOk, IfSome, length};
ghost use Rattle.reduce_core.specs.Lines.{numbered_lines, numbers_of};
ghost use Rattle.reduce_step.specs.Limits.{text_limit};
ghost use Rattle.grammar_tree.specs.Faults.{IsWellFormed};
ghost use Rattle.reduce_trees_input.specs.Parsed.{tree_input};
ghost use Rattle.token_print.specs.Laws.{all_kept};
ghost use Rattle.reduce_rounds.specs.RoundsPlan.{plan_first};
ghost use Rattle.reduce_trees.specs.WalkMode.{walk_mode};
ghost use Rattle.reduce_trees_mode.specs.Input.{TreeInput};
ghost use Rattle.reduce_trees_mode.specs.Listed.{IsKept};
ghost use Rattle.run_gated.specs.Run.{run_of};
ghost use Rattle.run_gated.specs.Workers.{AreIdle};
ghost use Rattle.run_gated.specs.RunEnds.{IsRunIn, IsSound};
ghost use Rattle.run_problem.specs.Problem.{Problem, tree_problem};
ghost use Rattle.run_problem.specs.Read.{IsFoundIn, IsReadAs, IsReady, numbers_read, start_read};
ghost use Rattle.run_problem.specs.Ends.{IsRunOf};
ghost use Rattle.run_problem.specs.TreeMode.{IsSpellMode, IsTreeMode};
ghost use Rattle.spell_shrink.specs.KindWords.{AreWordsOf};
ghost use Rattle.spell_shrink.specs.SpellMode.{IsKeptInPhase, spell_mode};

use crate::laws::histories_go_by_questions;
use crate::problem::ReadProblem;
use compat_table::compat;
use edge_io::Sink;
use faults::Memory;
use keep_guard::{Guard, Relation};
use reduce_core::{line_reducer, lines_are_recursions, lines_end_minimal};
use reduce_hdd::TreeLevels;
use reduce_perses::TreeVisits;
use reduce_rounds::{ReducerStep, Rounds};
use reduce_step::{Step, TreeMode};
use reduce_trees::{
    HasInput, TreeParts, TreeReducer, TreeRound, hdd_is_its_recursion, hdd_reducer,
    perses_is_its_recursion, perses_reducer, walks_are_lawful, walks_ask_candidates, walks_begin,
    walks_end_minimal,
};
use reduce_trees_input::ParsedInput;
use reduce_trees_mode::{texts_are_no_longer, whole_is_start};
use reduce_walk::TreeWalk;
use run_gated::{Known, Ran, RunFault, run_to_text};
use script_gate_trait::Gate;
use spell_shrink::{
    Speller, Words, hdd_speller, hdd_speller_is_its_recursion, perses_speller,
    perses_speller_is_its_recursion, respells_candidates, respells_from_start, respells_reductions,
    respells_to_end, spell_mode_is_lawful, spell_phases_agree,
};
use std::alloc::Global;
use std::sync::Wait;
use std::thread::Threads;
use token_print::tokens_are_in_order;
use worker_pool::Worker;

/// The text that the lines of a start reduce to.
fn lines_result<
    F: Relation + Drop + Sync,
    G: Gate + Send,
    J: Sink + Drop + Send,
    T: Threads + Wait + Sync,
>(
    rt: &T,
    alloc: Global,
    start: &[u8],
    guard: &Guard<F>,
    workers: &mut [Worker<G>],
    journal: J,
    known: Known,
) -> Ran<J>
    requires few { length start.now ≤ text_limit }
    requires kept { F.admits guard.now (numbers_of (numbered_lines start.now)) start.now ≡ true }
    requires idle { AreIdle workers.old }
    requires empty { IfSome (J.put_so_far journal) (λ put. put.bytes ≡ []) }
    ensures idle { AreIdle workers.new }
    ensures as_many { length workers.new ≡ length workers.old }
    ensures sound { IsSound G.may_say (run_of G.log G.faults J.put_so_far J.faults workers.old workers.new journal known result) }
    ensures problem { IsRunOf (F.admits guard.now) (Problem.of_lines start.now)
        (run_of G.log G.faults J.put_so_far J.faults workers.old workers.new journal known result) }
{
    lines_are_recursions();
    lines_end_minimal();
    histories_go_by_questions();
    match line_reducer(alloc, start, guard) {
        Ok(reducer) => run_to_text(rt, alloc, reducer, workers, journal, known),
        Err(memory) => Ran::refused(alloc, journal, RunFault::Memory(memory)),
    }
}

/// The parts of a reduction of trees: what was found, the table of its symbols, and the guard.
pub fn tree_parts<F: Relation + Drop>(
    alloc: Global,
    found: ParsedInput,
    guard: Guard<F>,
    squeezes: bool,
) -> Result<TreeParts<F>, Memory>
    requires { IsFoundIn found }
    ensures { IfOk result (λ parts. (formed : IsWellFormed found.lexer.grammar found.lexer.start)
        → ⟦<TreeParts<F> as HasInput>⟧.input parts ≡ tree_input found formed (F.admits guard) squeezes) }
{
    let compat = compat(alloc, found.tree.normal())?;
    let ParsedInput {
        text,
        tokens,
        lexer,
        tree,
    } = found;
    TreeParts::new(text, tokens, lexer, compat, tree, guard, squeezes)
}

/// What holds of reductions of trees in the mode of a walk. It does nothing: a caller calls it so that
/// its proof knows.
fn walk_laws<W: TreeWalk>()
    ensures { IsTreeMode W.round W.IsEdit }
{
    walks_begin::<W>();
    walks_ask_candidates::<W>();
    texts_are_no_longer();
    walks_are_lawful::<W>();
    walks_end_minimal::<W>();
}

/// The text that a reducer of a tree comes to, in the mode of a walk.
fn walk_result<
    'p,
    F: Relation + Drop + Sync,
    W: TreeWalk + Drop + Send,
    G: Gate + Send,
    J: Sink + Drop + Send,
    T: Threads + Wait + Sync,
>(
    rt: &T,
    alloc: Global,
    reducer: TreeReducer<'p, F, W>,
    workers: &mut [Worker<G>],
    journal: J,
    known: Known,
) -> Ran<J>
    requires new { ⟦<Rounds<TreeRound<'p, F, W>> as Step>⟧.first reducer ≡ ⟦<Rounds<TreeRound<'p, F, W>> as Step>⟧.plan reducer }
    requires idle { AreIdle workers.old }
    requires empty { IfSome (J.put_so_far journal) (λ put. put.bytes ≡ []) }
    ensures idle { AreIdle workers.new }
    ensures as_many { length workers.new ≡ length workers.old }
    ensures sound { IsSound G.may_say (run_of G.log G.faults J.put_so_far J.faults workers.old workers.new journal known result) }
    ensures in_mode { (input : TreeInput) → ⟦<Rounds<TreeRound<'p, F, W>> as Step>⟧.first reducer.entry ≡ plan_first (walk_mode W.round input)
        → IsRunIn (walk_mode W.round input) (IsKept input) (⟦<Rounds<TreeRound<'p, F, W>> as ReducerStep>⟧.so_far reducer.entry)
        (run_of G.log G.faults J.put_so_far J.faults workers.old workers.new journal known result) }
{
    run_to_text(rt, alloc, reducer, workers, journal, known)
}

/// The text that the tree of an input reduces to, in this mode.
fn tree_result<
    F: Relation + Drop + Sync,
    G: Gate + Send,
    J: Sink + Drop + Send,
    T: Threads + Wait + Sync,
>(
    rt: &T,
    alloc: Global,
    mode: TreeMode,
    parts: &TreeParts<F>,
    workers: &mut [Worker<G>],
    journal: J,
    known: Known,
) -> Ran<J>
    requires kept { let input = ⟦<TreeParts<F> as HasInput>⟧.input parts.now in input.admits (all_kept input.tokens) input.start ≡ true }
    requires idle { AreIdle workers.old }
    requires empty { IfSome (J.put_so_far journal) (λ put. put.bytes ≡ []) }
    ensures idle { AreIdle workers.new }
    ensures as_many { length workers.new ≡ length workers.old }
    ensures sound { IsSound G.may_say (run_of G.log G.faults J.put_so_far J.faults workers.old workers.new journal known result) }
    ensures problem { let input = ⟦<TreeParts<F> as HasInput>⟧.input parts.now in IsRunOf input.admits (Problem.of_tree mode input)
        (run_of G.log G.faults J.put_so_far J.faults workers.old workers.new journal known result) }
{
    parts.is_input();
    whole_is_start();
    histories_go_by_questions();
    match mode {
        TreeMode::Perses => {
            walk_laws::<TreeVisits>();
            perses_is_its_recursion();
            match perses_reducer(alloc, parts) {
                Ok(reducer) => walk_result(rt, alloc, reducer, workers, journal, known),
                Err(memory) => Ran::refused(alloc, journal, RunFault::Memory(memory)),
            }
        }
        TreeMode::Hdd => {
            walk_laws::<TreeLevels>();
            hdd_is_its_recursion();
            match hdd_reducer(alloc, parts) {
                Ok(reducer) => walk_result(rt, alloc, reducer, workers, journal, known),
                Err(memory) => Ran::refused(alloc, journal, RunFault::Memory(memory)),
            }
        }
    }
}

/// What holds of reductions of trees in the mode of a walk, with the respelling of what is left. It does
/// nothing: a caller calls it so that its proof knows.
pub fn spell_laws<W: TreeWalk>()
    ensures { IsSpellMode W.round W.IsEdit }
{
    walk_laws::<W>();
    respells_from_start::<W>();
    respells_candidates::<W>();
    spell_mode_is_lawful::<W>();
    spell_phases_agree::<W>();
    respells_to_end::<W>();
    respells_reductions::<W>();
}

/// The text that a speller comes to, in the mode of a walk.
fn speller_result<
    'p,
    F: Relation + Drop + Sync,
    W: TreeWalk + Drop + Send,
    G: Gate + Send,
    J: Sink + Drop + Send,
    T: Threads + Wait + Sync,
>(
    rt: &T,
    alloc: Global,
    speller: Speller<'p, F, W>,
    workers: &mut [Worker<G>],
    journal: J,
    known: Known,
) -> Ran<J>
    requires new { ⟦<Speller<'p, F, W> as Step>⟧.first speller ≡ ⟦<Speller<'p, F, W> as Step>⟧.plan speller }
    requires idle { AreIdle workers.old }
    requires empty { IfSome (J.put_so_far journal) (λ put. put.bytes ≡ []) }
    ensures idle { AreIdle workers.new }
    ensures as_many { length workers.new ≡ length workers.old }
    ensures sound { IsSound G.may_say (run_of G.log G.faults J.put_so_far J.faults workers.old workers.new journal known result) }
    ensures in_mode { (input : TreeInput) → ⟦<Speller<'p, F, W> as Step>⟧.first speller.entry ≡ plan_first (spell_mode W.round input)
        → IsRunIn (spell_mode W.round input) (IsKeptInPhase input) (⟦<Speller<'p, F, W> as ReducerStep>⟧.so_far speller.entry)
        (run_of G.log G.faults J.put_so_far J.faults workers.old workers.new journal known result) }
{
    run_to_text(rt, alloc, speller, workers, journal, known)
}

/// The text that the tree of an input reduces to in this mode, with the shorter spellings that it takes.
/// The words are the spellings of the input.
fn spelled_result<
    F: Relation + Drop + Sync,
    G: Gate + Send,
    J: Sink + Drop + Send,
    T: Threads + Wait + Sync,
>(
    rt: &T,
    alloc: Global,
    mode: TreeMode,
    parts: &TreeParts<F>,
    words: &Words<'_>,
    workers: &mut [Worker<G>],
    journal: J,
    known: Known,
) -> Ran<J>
    requires kept { let input = ⟦<TreeParts<F> as HasInput>⟧.input parts.now in input.admits (all_kept input.tokens) input.start ≡ true }
    requires words { let input = ⟦<TreeParts<F> as HasInput>⟧.input parts.now in AreWordsOf input.start input.tokens words.now }
    requires idle { AreIdle workers.old }
    requires empty { IfSome (J.put_so_far journal) (λ put. put.bytes ≡ []) }
    ensures idle { AreIdle workers.new }
    ensures as_many { length workers.new ≡ length workers.old }
    ensures sound { IsSound G.may_say (run_of G.log G.faults J.put_so_far J.faults workers.old workers.new journal known result) }
    ensures problem { let input = ⟦<TreeParts<F> as HasInput>⟧.input parts.now in IsRunOf input.admits (Problem.of_respelling mode input)
        (run_of G.log G.faults J.put_so_far J.faults workers.old workers.new journal known result) }
{
    parts.is_input();
    whole_is_start();
    histories_go_by_questions();
    match mode {
        TreeMode::Perses => {
            spell_laws::<TreeVisits>();
            perses_speller_is_its_recursion();
            perses_is_its_recursion();
            match perses_speller(alloc, parts, words) {
                Ok(speller) => speller_result(rt, alloc, speller, workers, journal, known),
                Err(memory) => Ran::refused(alloc, journal, RunFault::Memory(memory)),
            }
        }
        TreeMode::Hdd => {
            spell_laws::<TreeLevels>();
            hdd_speller_is_its_recursion();
            hdd_is_its_recursion();
            match hdd_speller(alloc, parts, words) {
                Ok(speller) => speller_result(rt, alloc, speller, workers, journal, known),
                Err(memory) => Ran::refused(alloc, journal, RunFault::Memory(memory)),
            }
        }
    }
}

/// The same, with the spellings of the input.
fn respelled_result<
    F: Relation + Drop + Sync,
    G: Gate + Send,
    J: Sink + Drop + Send,
    T: Threads + Wait + Sync,
>(
    rt: &T,
    alloc: Global,
    mode: TreeMode,
    parts: &TreeParts<F>,
    workers: &mut [Worker<G>],
    journal: J,
    known: Known,
) -> Ran<J>
    requires kept { let input = ⟦<TreeParts<F> as HasInput>⟧.input parts.now in input.admits (all_kept input.tokens) input.start ≡ true }
    requires idle { AreIdle workers.old }
    requires empty { IfSome (J.put_so_far journal) (λ put. put.bytes ≡ []) }
    ensures idle { AreIdle workers.new }
    ensures as_many { length workers.new ≡ length workers.old }
    ensures sound { IsSound G.may_say (run_of G.log G.faults J.put_so_far J.faults workers.old workers.new journal known result) }
    ensures problem { let input = ⟦<TreeParts<F> as HasInput>⟧.input parts.now in IsRunOf input.admits (Problem.of_respelling mode input)
        (run_of G.log G.faults J.put_so_far J.faults workers.old workers.new journal known result) }
{
    parts.is_input();
    tokens_are_in_order();
    match Words::of(alloc, parts.start(), parts.tokens()) {
        Ok(words) => spelled_result(rt, alloc, mode, parts, &words, workers, journal, known),
        Err(memory) => Ran::refused(alloc, journal, RunFault::Memory(memory)),
    }
}

/// The text that the tree of an input reduces to in this mode, with the shorter spellings that it takes where
/// these are asked for.
fn result_by_tree<
    F: Relation + Drop + Sync,
    G: Gate + Send,
    J: Sink + Drop + Send,
    T: Threads + Wait + Sync,
>(
    rt: &T,
    alloc: Global,
    mode: TreeMode,
    respell: bool,
    parts: &TreeParts<F>,
    workers: &mut [Worker<G>],
    journal: J,
    known: Known,
) -> Ran<J>
    requires kept { let input = ⟦<TreeParts<F> as HasInput>⟧.input parts.now in input.admits (all_kept input.tokens) input.start ≡ true }
    requires idle { AreIdle workers.old }
    requires empty { IfSome (J.put_so_far journal) (λ put. put.bytes ≡ []) }
    ensures idle { AreIdle workers.new }
    ensures as_many { length workers.new ≡ length workers.old }
    ensures sound { IsSound G.may_say (run_of G.log G.faults J.put_so_far J.faults workers.old workers.new journal known result) }
    ensures problem { let input = ⟦<TreeParts<F> as HasInput>⟧.input parts.now in IsRunOf input.admits (tree_problem respell mode input)
        (run_of G.log G.faults J.put_so_far J.faults workers.old workers.new journal known result) }
{
    if respell {
        respelled_result(rt, alloc, mode, parts, workers, journal, known)
    } else {
        tree_result(rt, alloc, mode, parts, workers, journal, known)
    }
}

/// Reduces what was read, which the guard admits. The gates of the workers are asked, and the history is
/// written into the journal, whose head gets the digest of the start. The text that it reduces to is given,
/// with what the report says. No text is recorded twice; a text that has a kept verdict is recorded with it,
/// and the gates are asked as often as there are other records. A start whose verdict is no ends the run.
///
/// Beside what a gate takes, an answer costs what the reducer of the mode says.
pub fn run_problem<
    F: Relation + Drop + Sync,
    G: Gate + Send,
    J: Sink + Drop + Send,
    T: Threads + Wait + Sync,
>(
    rt: &T,
    alloc: Global,
    problem: ReadProblem,
    guard: Guard<F>,
    workers: &mut [Worker<G>],
    journal: J,
    known: Known,
) -> Ran<J>
    requires ready { IsReady problem }
    requires kept { F.admits guard (numbers_read problem) (start_read problem) ≡ true }
    requires idle { AreIdle workers.old }
    requires empty { IfSome (J.put_so_far journal) (λ put. put.bytes ≡ []) }
    ensures idle { AreIdle workers.new }
    ensures as_many { length workers.new ≡ length workers.old }
    ensures sound { IsSound G.may_say (run_of G.log G.faults J.put_so_far J.faults workers.old workers.new journal known result) }
    ensures problem { (one : Problem) → IsReadAs (F.admits guard) problem one
        → IsRunOf (F.admits guard) one (run_of G.log G.faults J.put_so_far J.faults workers.old workers.new journal known result) }
{
    match problem {
        ReadProblem::Lines(start) => lines_result(
            rt, alloc, &start, &guard, workers, journal, known,
        ),
        ReadProblem::Tree {
            found,
            mode,
            squeeze,
            respell,
        } => {
            match tree_parts(alloc, found, guard, squeeze) {
                Ok(parts) => result_by_tree(
                    rt, alloc, mode, respell, &parts, workers, journal, known,
                ),
                Err(memory) => Ran::refused(alloc, journal, RunFault::Memory(memory)),
            }
        }
    }
}
