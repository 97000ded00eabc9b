//! What a finding says, which runs are confirmed, and what this rests on. Each law is a function that does
//! nothing: a caller calls it so that its proof has the law.

ghost use Rattle.cert_check.specs.Laws.{ConfirmedAreReductions, FinishedRunsAreConfirmed, LegalHistoriesFollow};
ghost use Rattle.cert_check.specs.Laws.{OneIsFound, ReducersAreReductions, ReducersAskCandidates};

use reduce_core::{asks_candidates, follows_lines, lines_end_minimal};
use reduce_hdd::TreeLevels;
use reduce_perses::TreeVisits;
use reduce_trees::{hdd_is_its_recursion, perses_is_its_recursion};
use reduce_trees_mode::whole_is_start;
use run_problem::{histories_go_by_questions, spell_laws};
use spell_shrink::{hdd_speller_is_its_recursion, perses_speller_is_its_recursion};

/// One thing is found of files: they are confirmed, or one cause is the first.
pub fn one_is_found()
    ensures { OneIsFound }
{}

/// The files of a run that came to its end are confirmed.
pub fn finished_runs_are_confirmed()
    ensures { FinishedRunsAreConfirmed }
{
    histories_go_by_questions();
    whole_is_start();
}

/// To go on from where a history leads comes to the same as to begin anew, over each map of verdicts
/// that has its records.
pub fn legal_histories_follow()
    ensures { LegalHistoriesFollow }
{}

/// What the reducer of a problem does, followed over a map of verdicts, is its reduction.
pub fn reducers_are_reductions()
    ensures { ReducersAreReductions }
{
    follows_lines();
    perses_is_its_recursion();
    hdd_is_its_recursion();
    perses_speller_is_its_recursion();
    hdd_speller_is_its_recursion();
}

/// What the reducer of a problem may ask is a candidate, where its start is admitted.
pub fn reducers_ask_candidates()
    ensures { ReducersAskCandidates }
{
    asks_candidates();
    spell_laws::<TreeVisits>();
    spell_laws::<TreeLevels>();
}

/// Files that are confirmed hold a reduction over the verdicts of the records, and so a minimal one.
pub fn confirmed_are_reductions()
    ensures { ConfirmedAreReductions }
{
    lines_end_minimal();
    perses_is_its_recursion();
    hdd_is_its_recursion();
    perses_speller_is_its_recursion();
    hdd_speller_is_its_recursion();
    spell_laws::<TreeVisits>();
    spell_laws::<TreeLevels>();
}
