//! What holds of each reduction, for the proofs of callers. Each law is given for the states of a
//! type that implements [`Round`], at any of its inputs.

ghost use Rattle.std.specs.Prelude.{List, ℕ, Option};
ghost use Rattle.script_gate_trait.specs.declared.gate.Verdict.{Verdict};
ghost use Rattle.reduce_rounds.specs.Trials.{IsTriedAtNo};
ghost use Rattle.reduce_rounds.specs.Laws.{AgreeingMapsReduceAlike, AheadAreCandidates, AheadIsStartAlone, AsksCandidates, EndsMinimal};
ghost use Rattle.reduce_rounds.specs.Laws.{GoesByItsRounds, IsTheReduction, RecursionsReduceAlike, RefusesAtNo};
ghost use Rattle.reduce_rounds.specs.ByTrials.{recursion_of};
ghost use Rattle.reduce_rounds.specs.Mode.{IsLawful};
ghost use Rattle.reduce_rounds.specs.RoundsPlan.{plan_first};

use crate::round::Round;

/// Followed over a map of verdicts, the machine ends exactly where the map has a verdict for each
/// text that the recursive reduction asks, and then with the reduction's result and counts.
pub fn follows_reduction<R: Round>()
    ensures { (input : R.Input) (V : List ℕ → Option Verdict) → IsTheReduction (plan_first (R.mode input)) (recursion_of (R.mode input)) V }
{}

/// The start is refused exactly where its verdict is no.
pub fn refuses_at_no<R: Round>()
    ensures { (input : R.Input) → RefusesAtNo (plan_first (R.mode input)) (recursion_of (R.mode input)) }
{}

/// A reduction of a listed start that was not refused ends at a yes that is listed and kept, and each
/// state that a round without a yes tries from there isn't listed, or its verdict is no.
pub fn ends_minimal<R: Round>()
    ensures { (input : R.Input) → EndsMinimal (R.mode input) (R.Kept input) (λ state other. IsTriedAtNo ((R.mode input).round state) other) }
{
    R::phases_agree();
}

/// All that may be asked of a listed start is the text of a listed state that is kept.
pub fn asks_candidates<R: Round>()
    ensures { (input : R.Input) → AsksCandidates (R.mode input) (R.Kept input) }
{}

/// Whatever was answered, all that is ahead of a listed start is the text of a listed state that is
/// kept.
pub fn ahead_are_candidates<R: Round>()
    ensures { (input : R.Input) → AheadAreCandidates (R.mode input) (R.Kept input) }
{}

/// Before the start is answered it is ahead alone.
pub fn ahead_is_start_alone<R: Round>()
    ensures { (input : R.Input) → AheadIsStartAlone (R.mode input) }
{}

/// The rounds of a reduction are one round and what follows it, until one has no yes.
pub fn goes_by_its_rounds<R: Round>()
    ensures { (input : R.Input) → IsLawful (R.mode input) (R.Kept input) → GoesByItsRounds (recursion_of (R.mode input)) (R.Kept input) }
{}

/// Reductions over two maps of verdicts that agree are equal, where each map has a verdict for each
/// text that its own reduction asks.
pub fn agreeing_maps<R: Round>()
    ensures { (input : R.Input) → AgreeingMapsReduceAlike (recursion_of (R.mode input)) }
{}

/// A recursion whose opening, and whose rounds from kept states, come to what the mode's trials come to
/// gives the same reductions.
pub fn recursions_reduce_alike<R: Round>()
    ensures { (input : R.Input) → RecursionsReduceAlike (R.mode input) (R.Kept input) }
{}
