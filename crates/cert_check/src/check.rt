//! The check of a run.

ghost use Rattle.std.specs.Prelude.{◌≡◌, ◌≢◌, ◌↔◌, ◌⊎◌, ◌≤◌, ℕ, List, true, IfOk, MatchOption, OnOk, length};
ghost use Rattle.keep_guard.specs.Keep.{holds_all, keeps_admit};
ghost use Rattle.reduce_core.specs.Candidates.{IsLineCandidate};
ghost use Rattle.reduce_step.specs.Limits.{text_limit};
ghost use Rattle.reduce_step.specs.Plan.{MayAsk};
ghost use Rattle.reduce_journal.specs.History.{records_of};
ghost use Rattle.reduce_trees.specs.Ends.{AdmitsStart};
ghost use Rattle.reduce_trees_mode.specs.Candidates.{InLanguage, IsCandidate};
ghost use Rattle.reduce_trees_input.specs.Parsed.{IsInputOf, IsParsed, MakesInputOf};
ghost use Rattle.run_problem.specs.Problem.{IsReductionOf, Problem, start_text};
ghost use Rattle.verdict_table.specs.TableState.{verdict_in};
ghost use Rattle.cert_check.specs.Findings.{IsFound, IsOfStart, head_in};
ghost use Rattle.cert_check.specs.Laws.{IsRunTo};
ghost use Rattle.cert_check.specs.Setup.{CanBeChecked, IsSetupOf, admits_in};
ghost use Rattle.cert_check.specs.inner.Inputs.{IsFindingOfSetup, IsFindingOfStart};
ghost use Rattle.cert_check.specs.inner.Steps.{IsFindingOfPlan};
ghost use Rattle.reduce_step.specs.declared.mode.TreeMode.TheVariants.{Hdd as IsHdd, Perses as IsPerses};
ghost use Rattle.cert_check.specs.declared.finding.Finding.TheVariants.{Yes as IsYes, No as IsNo};
ghost use Rattle.cert_check.specs.declared.finding.Why.TheVariants.{OtherStart as IsOther, Torn as IsTorn};
ghost use Rattle.reduce_journal.specs.declared.head.Head.TheVariants.{Version1};

use crate::candidates::first_other;
use crate::finding::{Finding, Why};
use crate::following::{end_of, follow_records};
use crate::laws::{
    confirmed_are_reductions, finished_runs_are_confirmed, legal_histories_follow, one_is_found,
    reducers_are_reductions, reducers_ask_candidates,
};
use crate::replayed::Replayed;
use crate::setup::Setup;
use cert_check_texts::{Candidates, LineTexts, TreeTexts, texts_are_candidates};
use faults::Memory;
use grammar_tree::Checked;
use keep_guard::{Guard, KeepTexts, Relation};
use reduce_core::line_reducer;
use reduce_journal::{Journal, digest_of};
use reduce_rounds::{ReducerStep, Rounds};
use reduce_step::{Step, TreeMode};
use reduce_trees::{HasInput, TreeParts, TreeReducer, TreeRound, hdd_reducer, perses_reducer};
use reduce_trees_input::{InputFault, ParsedInput, inputs_are_one, parsed_input};
use reduce_walk::TreeWalk;
use run_problem::tree_parts;
use script_gate_trait::Bytes;
use std::alloc::Global;
use token_print::tokens_are_unique;

/// The files of a run: its output, and its journal as it was read.
#[derive(Clone, Copy)]
struct Files<'a> {
    output: &'a [u8],
    journal: &'a Journal,
}

/// That the journal ends within an event, where it does.
fn torn_end(journal: &Journal) -> Option<Finding>
    ensures { MatchOption result (journal.now.torn ≡ 0) (λ finding. (finding ≡ IsNo (IsTorn journal.now.torn)) × (journal.now.torn ≢ 0)) }
{
    if journal.torn != 0 {
        return Some(Finding::No(Why::Torn {
            bytes: journal.torn,
        }));
    }
    None
}

/// That the head of the journal has the digest of another start than this, where it has.
fn other_start(journal: &Journal, start: &[u8]) -> Option<Finding>
    ensures { MatchOption result (IsOfStart (head_in journal.now) start.now)
        (λ finding. (finding ≡ IsNo IsOther) × (¬ IsOfStart (head_in journal.now) start.now)) }
{
    if journal.version != 2 {
        return None;
    }
    if journal.start == Some(digest_of(start)) {
        return None;
    }
    Some(Finding::No(Why::OtherStart))
}

/// Why the journal isn't that of a run over this start, as far as its head and its end say.
fn other_journal(journal: &Journal, start: &[u8]) -> Option<Finding>
    ensures { MatchOption result ((journal.now.torn ≡ 0) × IsOfStart (head_in journal.now) start.now)
        (λ finding. ((finding ≡ IsNo (IsTorn journal.now.torn)) × (journal.now.torn ≢ 0))
        ⊎ ((finding ≡ IsNo IsOther) × (journal.now.torn ≡ 0) × (¬ IsOfStart (head_in journal.now) start.now))) }
{
    if let Some(torn) = torn_end(journal) {
        return Some(torn);
    }
    other_start(journal, start)
}

/// What is found of a new reducer's run, where its events are whole: its events, which texts may be
/// asked, and its output.
fn finding_of<S: ReducerStep + Drop, C: Candidates>(
    alloc: Global,
    reducer: S,
    candidates: &C,
    files: Files<'_>,
) -> Result<Finding, Memory>
    requires new { S.first reducer ≡ S.plan reducer }
    requires asks { (asked : List ℕ) → MayAsk (S.first reducer) asked → C.IsCandidate candidates.now asked }
    ensures { IfOk result (IsFindingOfPlan (S.first reducer) (C.IsCandidate candidates.now) files.entry.output.now files.entry.journal.now.events.items 0) }
{
    legal_histories_follow();
    let mut replayed = Replayed::new(alloc, reducer);
    let illegal = replayed.take_all(&files.journal.events)?;
    if let Some(event) = illegal {
        return Ok(Finding::No(Why::NotLegal { event }));
    }
    let Replayed {
        mut reducer,
        table,
        mut marks,
    } = replayed;
    follow_records(&mut reducer, &table, &mut marks)?;
    let end = end_of(&reducer, files.output);
    let records = table.into_records();
    let other = first_other(candidates, &marks, records.as_slice())?;
    if let Some(number) = other {
        return Ok(Finding::No(Why::NotCandidate { number }));
    }
    Ok(end)
}

/// The keep texts, each with its searcher.
fn keep_texts<'a>(alloc: Global, keeps: &'a [Bytes]) -> Result<KeepTexts<'a>, Memory>
    ensures { IfOk result (λ texts. texts ≡ keeps.now) }
{
    let mut texts = KeepTexts::new(alloc);
    for keep in keeps {
        texts.push(keep.as_slice())?;
    }
    Ok(texts)
}

/// What is found of a run by the lines of a start, which the guard admits, where its events are whole.
fn guarded_finding<C: Candidates>(
    alloc: Global,
    start: &[u8],
    guard: &Guard<KeepTexts<'_>>,
    candidates: &C,
    files: Files<'_>,
) -> Result<Finding, Memory>
    requires short { length start.now ≤ text_limit }
    requires kept { holds_all guard.now start.now ≡ true }
    requires same { (asked : List ℕ) → C.IsCandidate candidates.now asked ↔ IsLineCandidate (keeps_admit guard.now) start.now asked }
    ensures { let journal = files.entry.journal.now in
        IfOk result (IsFound (keeps_admit guard.now) (Problem.of_lines start.now) files.entry.output.now Version1 journal.events.items 0) }
{
    reducers_ask_candidates();
    reducers_are_reductions();
    let reducer = line_reducer(alloc, start, guard)?;
    finding_of(alloc, reducer, candidates, files)
}

/// What is found of a run by the lines of a start.
fn lines_finding(
    alloc: Global,
    start: &[u8],
    keeps: &[Bytes],
    files: Files<'_>,
) -> Result<Finding, Memory>
    requires short { length start.now ≤ text_limit }
    requires kept { holds_all keeps.now start.now ≡ true }
    ensures { let journal = files.entry.journal.now in
        IfOk result (IsFound (keeps_admit keeps.now) (Problem.of_lines start.now) files.entry.output.now (head_in journal) journal.events.items journal.torn) }
{
    if let Some(other) = other_journal(files.journal, start) {
        return Ok(other);
    }
    let held = keep_texts(alloc, keeps)?;
    let guard = Guard::new(held);
    let stay = keep_texts(alloc, keeps)?;
    let candidates = LineTexts::new(alloc, start, stay)?;
    guarded_finding(alloc, start, &guard, &candidates, files)
}

/// What is found in the start, which is in the grammar's language.
fn found_in_start(alloc: Global, checked: &Checked, start: &str) -> Result<ParsedInput, Memory>
    requires short { length start.now ≤ text_limit }
    requires language { InLanguage checked.now start.now }
    ensures parsed { IfOk result (IsParsed checked.now start.now) }
    ensures input { IfOk result (MakesInputOf checked.now start.now) }
{
    match parsed_input(alloc, checked, start.as_bytes()) {
        Ok(found) => Ok(found),
        Err(InputFault::Memory(memory)) => Err(memory),
        // The start is in the language.
        Err(_) => unreachable!(),
    }
}

/// What is found of the run of a new reducer of a tree, by any walk, where its events are whole.
fn walk_finding<'p, F: Relation + Drop, W: TreeWalk + Drop, C: Candidates>(
    alloc: Global,
    reducer: TreeReducer<'p, F, W>,
    candidates: &C,
    files: Files<'_>,
) -> Result<Finding, Memory>
    requires new { ⟦<Rounds<TreeRound<'p, F, W>> as Step>⟧.first reducer ≡ ⟦<Rounds<TreeRound<'p, F, W>> as Step>⟧.plan reducer }
    requires asks { let first = ⟦<Rounds<TreeRound<'p, F, W>> as Step>⟧.first reducer in
        (asked : List ℕ) → MayAsk first asked → C.IsCandidate candidates.now asked }
    ensures { let first = ⟦<Rounds<TreeRound<'p, F, W>> as Step>⟧.first reducer.entry in
        IfOk result (IsFindingOfPlan first (C.IsCandidate candidates.now) files.entry.output.now files.entry.journal.now.events.items 0) }
{
    finding_of(alloc, reducer, candidates, files)
}

/// What is found of a run in mode `perses` by the tree of which these are the parts, where its events are whole.
fn perses_finding<'a, C: Candidates>(
    alloc: Global,
    parts: &TreeParts<KeepTexts<'a>>,
    candidates: &C,
    files: Files<'_>,
) -> Result<Finding, Memory>
    requires kept { AdmitsStart (⟦<TreeParts<KeepTexts<'a>> as HasInput>⟧.input parts.now) }
    requires same { let input = ⟦<TreeParts<KeepTexts<'a>> as HasInput>⟧.input parts.now in
        (asked : List ℕ) → C.IsCandidate candidates.now asked ↔ IsCandidate input asked }
    ensures { let input = ⟦<TreeParts<KeepTexts<'a>> as HasInput>⟧.input parts.now in
        IfOk result (IsFound input.admits (Problem.of_tree IsPerses input) files.entry.output.now Version1 files.entry.journal.now.events.items 0) }
{
    parts.is_input();
    reducers_are_reductions();
    reducers_ask_candidates();
    match perses_reducer(alloc, parts) {
        Ok(reducer) => walk_finding(alloc, reducer, candidates, files),
        Err(memory) => Err(memory),
    }
}

/// What is found of a run in mode `hdd` by the tree of which these are the parts, where its events are whole.
fn hdd_finding<'a, C: Candidates>(
    alloc: Global,
    parts: &TreeParts<KeepTexts<'a>>,
    candidates: &C,
    files: Files<'_>,
) -> Result<Finding, Memory>
    requires kept { AdmitsStart (⟦<TreeParts<KeepTexts<'a>> as HasInput>⟧.input parts.now) }
    requires same { let input = ⟦<TreeParts<KeepTexts<'a>> as HasInput>⟧.input parts.now in
        (asked : List ℕ) → C.IsCandidate candidates.now asked ↔ IsCandidate input asked }
    ensures { let input = ⟦<TreeParts<KeepTexts<'a>> as HasInput>⟧.input parts.now in
        IfOk result (IsFound input.admits (Problem.of_tree IsHdd input) files.entry.output.now Version1 files.entry.journal.now.events.items 0) }
{
    parts.is_input();
    reducers_are_reductions();
    reducers_ask_candidates();
    match hdd_reducer(alloc, parts) {
        Ok(reducer) => walk_finding(alloc, reducer, candidates, files),
        Err(memory) => Err(memory),
    }
}

/// What is found of a run by the tree of which these are the parts, where its events are whole.
fn tree_finding<'a, C: Candidates>(
    alloc: Global,
    mode: TreeMode,
    parts: &TreeParts<KeepTexts<'a>>,
    candidates: &C,
    files: Files<'_>,
) -> Result<Finding, Memory>
    requires kept { AdmitsStart (⟦<TreeParts<KeepTexts<'a>> as HasInput>⟧.input parts.now) }
    requires same { let input = ⟦<TreeParts<KeepTexts<'a>> as HasInput>⟧.input parts.now in
        (asked : List ℕ) → C.IsCandidate candidates.now asked ↔ IsCandidate input asked }
    ensures { let input = ⟦<TreeParts<KeepTexts<'a>> as HasInput>⟧.input parts.now in
        IfOk result (IsFound input.admits (Problem.of_tree mode input) files.entry.output.now Version1 files.entry.journal.now.events.items 0) }
{
    match mode {
        TreeMode::Perses => perses_finding(alloc, parts, candidates, files),
        TreeMode::Hdd => hdd_finding(alloc, parts, candidates, files),
    }
}

/// What is found of a run by the tree of a start of which these are the parts, where its events are whole.
fn parts_finding<'a>(
    alloc: Global,
    checked: &Checked,
    start: &str,
    keeps: &[Bytes],
    mode: TreeMode,
    parts: &TreeParts<KeepTexts<'a>>,
    files: Files<'_>,
) -> Result<Finding, Memory>
    requires short { length start.now ≤ text_limit }
    requires kept { holds_all keeps.now start.now ≡ true }
    requires language { InLanguage checked.now start.now }
    requires input { IsInputOf checked.now start.now (⟦<TreeParts<KeepTexts<'a>> as HasInput>⟧.input parts.now) }
    requires admits { (⟦<TreeParts<KeepTexts<'a>> as HasInput>⟧.input parts.now).admits ≡ keeps_admit keeps.now }
    ensures { let input = ⟦<TreeParts<KeepTexts<'a>> as HasInput>⟧.input parts.now in
        IfOk result (IsFound (keeps_admit keeps.now) (Problem.of_tree mode input) files.entry.output.now Version1 files.entry.journal.now.events.items 0) }
{
    tokens_are_unique();
    texts_are_candidates();
    let stay = keep_texts(alloc, keeps)?;
    let candidates = TreeTexts::new(alloc, checked, start, stay)?;
    tree_finding(alloc, mode, parts, &candidates, files)
}

/// What is found of a run by the tree of a start in which this was found, where its events are whole.
fn parsed_finding(
    alloc: Global,
    checked: &Checked,
    start: &str,
    found: ParsedInput,
    keeps: &[Bytes],
    mode: TreeMode,
    squeezes: bool,
    files: Files<'_>,
) -> Result<Finding, Memory>
    requires short { length start.now ≤ text_limit }
    requires kept { holds_all keeps.now start.now ≡ true }
    requires language { InLanguage checked.now start.now }
    requires parsed { IsParsed checked.now start.now found }
    requires input { MakesInputOf checked.now start.now found }
    ensures { IfOk result
        (IsFindingOfStart checked.now start.now keeps.now mode squeezes files.entry.output.now Version1 files.entry.journal.now.events.items 0) }
{
    checked.is_checked();
    let guard = Guard::new(keep_texts(alloc, keeps)?);
    let parts = tree_parts(alloc, found, guard, squeezes)?;
    parts_finding(alloc, checked, start, keeps, mode, &parts, files)
}

/// What is found of a run by the tree of a start in which this was found.
fn found_finding(
    alloc: Global,
    checked: &Checked,
    start: &str,
    found: ParsedInput,
    keeps: &[Bytes],
    mode: TreeMode,
    squeezes: bool,
    files: Files<'_>,
) -> Result<Finding, Memory>
    requires short { length start.now ≤ text_limit }
    requires kept { holds_all keeps.now start.now ≡ true }
    requires language { InLanguage checked.now start.now }
    requires parsed { IsParsed checked.now start.now found }
    requires input { MakesInputOf checked.now start.now found }
    ensures { let journal = files.entry.journal.now in IfOk result
        (IsFindingOfStart checked.now start.now keeps.now mode squeezes files.entry.output.now (head_in journal) journal.events.items journal.torn) }
{
    checked.is_checked();
    match other_journal(files.journal, start.as_bytes()) {
        Some(other) => Ok(other),
        None => parsed_finding(alloc, checked, start, found, keeps, mode, squeezes, files),
    }
}

/// What is found of a run by the tree of a start, which is in the grammar's language.
fn trees_finding(
    alloc: Global,
    checked: &Checked,
    start: &str,
    keeps: &[Bytes],
    mode: TreeMode,
    squeezes: bool,
    files: Files<'_>,
) -> Result<Finding, Memory>
    requires short { length start.now ≤ text_limit }
    requires kept { holds_all keeps.now start.now ≡ true }
    requires language { InLanguage checked.now start.now }
    ensures { let journal = files.entry.journal.now in IfOk result
        (IsFindingOfStart checked.now start.now keeps.now mode squeezes files.entry.output.now (head_in journal) journal.events.items journal.torn) }
{
    match found_in_start(alloc, checked, start) {
        Ok(found) => found_finding(alloc, checked, start, found, keeps, mode, squeezes, files),
        Err(memory) => Err(memory),
    }
}

/// What is found of a run that can be checked.
fn finding(alloc: Global, setup: &Setup, files: Files<'_>) -> Result<Finding, Memory>
    requires { CanBeChecked setup.now }
    ensures { let journal = files.entry.journal.now in
        IfOk result (IsFindingOfSetup setup.now files.entry.output.now (head_in journal) journal.events.items journal.torn) }
{
    match setup {
        Setup::Lines { start, keeps } => lines_finding(alloc, start.as_slice(), keeps, files),
        Setup::Tree {
            checked,
            start,
            mode,
            squeeze,
            keeps,
        } => trees_finding(
            alloc,
            checked,
            start.as_str(),
            keeps,
            *mode,
            *squeeze,
            files,
        ),
    }
}

/// Checks a finished run from its files: its output, and its journal as it was read. No script is run,
/// and which script gave the verdicts isn't checked.
///
/// A torn journal is answered first, and then one whose head has the digest of another start; only the
/// parse of a start by a grammar comes before. Then the reduction is made once, over the records. It asks
/// all that the run's reduction asked, equal texts again, and an answer costs what the reducer says. So
/// the journal's length doesn't bound the time: a few records may answer many more questions.
///
/// Each event and each answer takes a look into a [`Table`] of the records. Its hash has a fixed seed,
/// so that a journal can be made whose texts collide; a look then compares with all of these.
///
/// The text of a record that the reduction asks may be asked. Any other record is tested for itself (see
/// [`Candidates::is_candidate`]). By a grammar each such test also takes a time that grows with the
/// grammar, however short the text is.
///
/// By a grammar the start is cut into tokens three times and parsed once, and the lexer and the normal
/// form of the grammar are built twice.
///
/// [`Table`]: verdict_table::Table
pub fn check_run(
    alloc: Global,
    setup: &Setup,
    output: &[u8],
    journal: &Journal,
) -> Result<Finding, Memory>
    requires { CanBeChecked setup.now }
    ensures problem { OnOk result ((problem : Problem) × IsSetupOf setup.now problem) }
    ensures finding { IfOk result (λ finding. (problem : Problem) → IsSetupOf setup.now problem
        → IsFound (admits_in setup.now) problem output.now (head_in journal.now) journal.now.events.items journal.now.torn finding) }
    ensures reduction { IfOk result (λ finding. (problem : Problem) → IsSetupOf setup.now problem → finding ≡ IsYes
        → IsReductionOf (admits_in setup.now) (verdict_in (records_of journal.now.events.items)) problem output.now) }
    ensures finished { IfOk result (λ finding. (problem : Problem) → IsSetupOf setup.now problem → journal.now.torn ≡ 0
        → IsOfStart (head_in journal.now) (start_text problem)
        → IsRunTo (admits_in setup.now) problem journal.now.events.items output.now → finding ≡ IsYes) }
{
    inputs_are_one();
    confirmed_are_reductions();
    finished_runs_are_confirmed();
    one_is_found();
    finding(alloc, setup, Files { output, journal })
}
