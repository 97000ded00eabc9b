//! What holds of the reducer of lines, for the proofs of callers.

ghost use Rattle.reduce_core.specs.Laws.{AheadAreCandidates, AsksCandidates, FollowsLines, LinesAreRecursions};
ghost use Rattle.reduce_core.specs.Laws.{LinesAreTheText, LinesEndMinimal, LinesGoByRounds, RefusesLinesAtNo};

/// The lines of a text, one after another, are the text.
pub fn lines_are_the_text()
    ensures { LinesAreTheText }
{}

/// The reductions in mode `lines` are those of the recursion whose rounds are list steps.
pub fn lines_are_recursions()
    ensures { LinesAreRecursions }
{}

/// Followed over a map of verdicts, the reducer ends exactly where the map has a verdict for each
/// text that the recursion asks, and then with the recursion's result and counts.
pub fn follows_lines()
    ensures { FollowsLines }
{}

/// The start is refused exactly where its verdict is no.
pub fn refuses_lines_at_no()
    ensures { RefusesLinesAtNo }
{}

/// The rounds from any lines are one round and what follows it, until one has no yes.
pub fn lines_go_by_rounds()
    ensures { LinesGoByRounds }
{}

/// A reduction of an admitted start that was not refused ends at a yes that is admitted, and without
/// any one of its lines what remains isn't admitted, or its verdict is no.
pub fn lines_end_minimal()
    ensures { LinesEndMinimal }
{}

/// All that the reducer may ask is some of an admitted start's lines, one after another in their
/// order, and admitted.
pub fn asks_candidates()
    ensures { AsksCandidates }
{}

/// Whatever the reducer was answered, all that is ahead of it is some of an admitted start's lines, one
/// after another in their order, and admitted.
pub fn ahead_are_candidates()
    ensures { AheadAreCandidates }
{}
