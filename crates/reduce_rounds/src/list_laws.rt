//! What holds of list steps as trials, for the proofs of callers. Each law is given for the states of
//! a type that implements [`Round`]. The lemmas behind them, in `proofs/`, hold at any type, and of
//! any property where a law has a Boolean test.

ghost use Rattle.std.specs.Prelude.{◌≡◌, true, Bool, List, ℕ};
ghost use Rattle.reduce_rounds.specs.Trials.{Trials};
ghost use Rattle.reduce_rounds.specs.StateTexts.{StateTexts};
ghost use Rattle.reduce_rounds.specs.ListLaws.{BecomesSmaller, EndsAsListStep, GoesByQuestions, SameByKeepLists, TriesDeletions, TriesSelections};
ghost use Rattle.reduce_rounds.specs.Worked.{WorkedTrials};

use crate::round::Round;

/// A question is tried, and each answer goes on from the machine's next state; at the end it goes on
/// from the elements that remain.
pub fn goes_by_questions<R: Round>()
    ensures { (state_of : List Bool → R.State) (next : List Bool → Trials R.State) → GoesByQuestions state_of next }
{}

/// Only selections of the elements are tried, and what is tried from all elements or a selection: all
/// of it passes a test where the states of selections do, and all that is tried after them.
pub fn tries_selections<R: Round>()
    ensures { (test : R.State → Bool) (state_of : List Bool → R.State) (next : List Bool → Trials R.State)
        → TriesSelections (λ state. test state ≡ true) state_of next }
{}

/// Each yes makes the state smaller, where fewer elements do.
pub fn becomes_smaller<R: Round>()
    ensures { (size : R.State → ℕ) (state_of : List Bool → R.State) (next : List Bool → Trials R.State) → BecomesSmaller size state_of next }
{}

/// If all answers are no, each list with one element fewer is tried, and then what is tried from all
/// elements.
pub fn tries_deletions<R: Round>()
    ensures { (state_of : List Bool → R.State) (next : List Bool → Trials R.State) → TriesDeletions state_of next }
{}

/// Over the states' texts and a verdict, the trials end as the list step does, and as what goes on from
/// its result.
pub fn ends_as_list_step<R: Round>()
    ensures { (texts : StateTexts R.State) (verdict : List ℕ → Bool) (state_of : List Bool → R.State) (next : List Bool → Trials R.State)
        → EndsAsListStep texts verdict state_of next }
{}

/// Trials are the same where selections have the same states, and remainders go on in the same way.
pub fn same_by_keep_lists<R: Round>()
    ensures { (state_of state_of' : List Bool → R.State) (next next' : List Bool → Trials R.State) → SameByKeepLists state_of state_of' next next' }
{}

/// The trials of three elements are those that were worked out by hand.
pub fn worked_trials()
    ensures { WorkedTrials }
{}
