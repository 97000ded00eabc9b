//! What holds of the reducer of bytes.

ghost use Rattle.std.specs.Prelude.{List, ℕ, Option};
ghost use Rattle.script_gate_trait.specs.declared.gate.Verdict.{Verdict};
ghost use Rattle.reduce_rounds.specs.ByTrials.{recursion_of};
ghost use Rattle.reduce_rounds.specs.RoundsPlan.{plan_first};
ghost use Rattle.reduce_rounds.specs.Laws.{AsksCandidates, EndsMinimal, IsTheReduction};
ghost use Rattle.cases_reducers.specs.ByteMode.{IsByteEdit, IsNoLonger, byte_mode};

/// Followed over a map of verdicts, the reducer is the recursion of its mode.
pub fn follows_reduction()
    ensures { (start : List ℕ) (V : List ℕ → Option Verdict) → IsTheReduction (plan_first (byte_mode start)) (recursion_of (byte_mode start)) V }
{}

/// All that is asked of a listed start is a listed text that has at most as many bytes after the mark.
pub fn asks_candidates()
    ensures { (start : List ℕ) → AsksCandidates (byte_mode start) (IsNoLonger start) }
{}

/// The end is a yes, and without any one byte after the mark what remains isn't listed, or its
/// verdict is no.
pub fn ends_minimal()
    ensures { (start : List ℕ) → EndsMinimal (byte_mode start) (IsNoLonger start) IsByteEdit }
{}
