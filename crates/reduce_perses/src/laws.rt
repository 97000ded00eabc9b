//! What holds of rounds of mode `perses`. Each law is a function that does nothing: a caller calls
//! it so that its proof has the law.

ghost use Rattle.reduce_perses.specs.Laws.{LosesLeaves, RoundBegins, RoundsEndByVisits, RoundsGoByVisits};
ghost use Rattle.reduce_perses.specs.Laws.{TriesEditsAndSelections, TriesKeptTrees, TriesSingleEdits, VisitsGoOn};
ghost use Rattle.reduce_perses.specs.Worked.{BlocksGo, BracketsGo, PlusKeepsOne};

use syntax_tree::elements_have_tokens;

/// A round begins with the root as the one node that waits, if it can.
pub fn round_begins()
    ensures { RoundBegins }
{}

/// A round visits node after node until none waits: the bound in its definition is never met.
pub fn rounds_go_by_visits()
    ensures { RoundsGoByVisits }
{}

/// Over the trees' texts and a verdict on every text a round comes to what its recursion does: node after node is
/// visited until none waits.
pub fn rounds_end_by_visits()
    ensures { RoundsEndByVisits }
{}

/// After a visit a round is at a tree and a queue again, whatever the answers were.
pub fn visits_go_on()
    ensures { VisitsGoOn }
{}

/// Only trees for the slot that are left of the whole tree are tried.
pub fn tries_kept_trees()
    ensures { TriesKeptTrees }
{}

/// Each tree that is tried comes from the last that had a yes by a single edit, or by a selection of
/// the elements of one list.
pub fn tries_edits_and_selections()
    ensures { TriesEditsAndSelections }
{}

/// Each tree that is tried has fewer leaves than the last that had a yes.
pub fn loses_leaves()
    ensures { LosesLeaves }
{
    elements_have_tokens();
}

/// A round whose answers are all no has tried each single edit of its tree.
pub fn tries_single_edits()
    ensures { TriesSingleEdits }
{}

/// Three rounds try what was worked out by hand.
pub fn worked_rounds()
    ensures brackets { BracketsGo }
    ensures blocks { BlocksGo }
    ensures plus { PlusKeepsOne }
{}
