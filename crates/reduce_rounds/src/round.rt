//! What a mode brings to a reduction.

ghost use Rattle.std.specs.Prelude.{◌≡◌, ◌≤◌, IsSome, IfSome, IfOk, OnOk, length, Option};
ghost use Rattle.std.specs.Option.{option_copied};
ghost use Rattle.reduce_step.specs.Limits.{text_limit};
ghost use Rattle.reduce_rounds.specs.Trials.{Done, Trials, is_done, state_after, tried_state, trials_after};
ghost use Rattle.reduce_rounds.specs.Mode.{IsLawful, PhasesAgree, RoundMode};
ghost use Rattle.reduce_rounds.specs.Fields.{WentOn, listed_text};

use faults::Memory;

/// One round after another of a mode: the state that remains, and what is still tried from it.
///
/// Before the first round it is the mode's start, with the mode's opening. After an error a round is
/// spent: it isn't used again, but its input is as before.
pub trait Round {
    /// What never changes: the start, and what may be tried.
    ghost Input: { Type 0 };

    /// What is reduced.
    ghost State: { Type 0 };

    /// What is tried from a start.
    ghost mode: { Input → RoundMode State };

    /// What holds of each state that the mode reaches.
    ghost Kept: { Input → State → Type 0 };

    /// What it was made of.
    ghost input: { Self → Input };

    /// The last yes.
    ghost state: { Self → State };

    /// What the present round, or the opening, still tries.
    ghost rest: { Self → Trials State };

    /// Whether nothing more is tried.
    fn is_over(&self) -> bool
        ensures { result ≡ is_done (rest self.now) };

    /// The text of the state that is tried now. None where that state isn't listed, or nothing is
    /// tried.
    fn asks(&self) -> Option<&[u8]>
        ensures text { option_copied result ≡ listed_text (mode (input self.now)) (rest self.now) }
        ensures short { IfSome result (λ text. length text.now ≤ text_limit) };

    /// How many units the state has that is tried now.
    fn units(&self) -> u64
        requires { IsSome (tried_state (rest self.now)) }
        ensures { IfSome (tried_state (rest self.now)) (λ state. result ≡ (mode (input self.now)).size state) };

    /// Takes the answer to the state that is tried now. At yes that state remains.
    fn answer(&mut self, yes: bool) -> Result<(), Memory>
        requires { IsSome (tried_state (rest self.old)) }
        ensures rest { OnOk result (rest self.new ≡ trials_after (rest self.old) yes) }
        ensures state { OnOk result (state self.new ≡ state_after (state self.old) (rest self.old) yes) }
        ensures input { input self.new ≡ input self.old };

    /// Begins another round, with the state that remains.
    fn begin_round(&mut self) -> Result<(), Memory>
        requires { rest self.old ≡ Done }
        ensures rest { OnOk result (rest self.new ≡ (mode (input self.old)).round (state self.old)) }
        ensures state { OnOk result (state self.new ≡ state self.old) }
        ensures input { input self.new ≡ input self.old }
        ensures lawful { OnOk result (IsLawful (mode (input self.old)) (Kept (input self.old))) };

    /// Goes on to the next phase, where there is one, and says whether there is.
    fn next_phase(&mut self) -> Result<bool, Memory>
        requires { rest self.old ≡ Done }
        ensures state { IfOk result (WentOn ((mode (input self.old)).next_phase (state self.old)) (state self.old) (state self.new)) }
        ensures rest { OnOk result (rest self.new ≡ Done) }
        ensures input { input self.new ≡ input self.old };

    /// A phase begins with the text and the units that the one before ended with: a caller calls this so
    /// that its proof knows.
    fn phases_agree()
        ensures { (input : Input) → PhasesAgree (mode input) };

    /// A round that goes on by its own answers from the same state.
    fn copy(&self) -> Result<Self, Memory>
        ensures input { IfOk result (λ round. input round ≡ input self.now) }
        ensures state { IfOk result (λ round. state round ≡ state self.now) }
        ensures rest { IfOk result (λ round. rest round ≡ rest self.now) };
}
