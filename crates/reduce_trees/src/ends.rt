//! What a reduction of trees asks, and what it ends with, whatever walks the tree. Each law is a function
//! that does nothing: a caller calls it so that its proof has the law.

ghost use Rattle.reduce_trees.specs.Ends.{WalksAskCandidates, WalksBegin, WalksEndMinimal};

use crate::laws::walks_try_edits;
use reduce_trees_mode::{listed_are_candidates, listed_is_decided, whole_is_start};
use reduce_walk::TreeWalk;

/// A reduction asks the start's own bytes first, and these may be asked where they are admitted.
pub fn walks_begin<W: TreeWalk>()
    ensures { WalksBegin W.round }
{
    whole_is_start();
    listed_is_decided();
}

/// The texts that a reduction may ask, by `asks_candidates` of `reduce_rounds`, are candidates:
/// above all, they are in the language of the grammar as it is written.
pub fn walks_ask_candidates<W: TreeWalk>()
    ensures { WalksAskCandidates W.round }
{
    listed_are_candidates();
    listed_is_decided();
}

/// The end of a reduction, by `ends_minimal` of `reduce_rounds`, is a minimal tree, since a round
/// without a yes has tried each edit.
pub fn walks_end_minimal<W: TreeWalk>()
    ensures { WalksEndMinimal W.round W.IsEdit }
{
    walks_try_edits::<W>();
    listed_is_decided();
}
