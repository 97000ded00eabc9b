//! What holds of two runs, by whatever workers each, for those who compare runs, how often a reducer is
//! answered, and that it asks the questions of its reduction.

ghost use Rattle.run_problem.specs.Laws.{AnswersAreBounded, HistoriesGoByQuestions, ProblemsReduceAlike, RunsReduceAlike, VerdictsAgree};

use reduce_core::lines_are_recursions;
use reduce_trees::{hdd_is_its_recursion, perses_is_its_recursion};
use script_gate_trait::Gate;
use spell_shrink::{hdd_speller_is_its_recursion, perses_speller_is_its_recursion};

/// Reductions of a problem over two maps of verdicts that agree are equal.
pub fn problems_reduce_alike()
    ensures { ProblemsReduceAlike }
{
    lines_are_recursions();
    perses_is_its_recursion();
    hdd_is_its_recursion();
    perses_speller_is_its_recursion();
    hdd_speller_is_its_recursion();
}

/// Two runs of a problem whose verdicts agree come to one text, and to one report but for the number
/// of records.
pub fn runs_reduce_alike()
    ensures { RunsReduceAlike }
{
    problems_reduce_alike();
}

/// The records of runs agree where a gate may say one verdict of each text.
pub fn verdicts_agree<G: Gate>()
    ensures { VerdictsAgree G.may_say }
{}

/// A reducer is answered at most as often as its height says, whatever the answers are, and at most as
/// often as there are questions.
pub fn answers_are_bounded()
    ensures { AnswersAreBounded }
{}

/// What is said of a history by a problem's reducer is what the questions of its reduction say.
pub fn histories_go_by_questions()
    ensures { HistoriesGoByQuestions }
{
    lines_are_recursions();
    perses_is_its_recursion();
    hdd_is_its_recursion();
    perses_speller_is_its_recursion();
    hdd_speller_is_its_recursion();
}
