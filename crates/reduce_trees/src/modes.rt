//! The two modes: the reducer of each, over its walk, and what its rounds come to.

ghost use Rattle.std.specs.Prelude.{◌≡◌, IfOk};
ghost use Rattle.reduce_rounds.specs.RoundsPlan.{IsStart, plan_first};
ghost use Rattle.reduce_trees.specs.HddMode.{hdd_mode};
ghost use Rattle.reduce_step.specs.declared.mode.TreeMode.TheVariants as mode;
ghost use Rattle.reduce_perses.specs.VisitRounds.{visit_round};
ghost use Rattle.reduce_hdd.specs.LevelRounds.{level_round};
ghost use Rattle.reduce_trees.specs.Laws.{HddRoundsAreLevels, PersesRoundsAreVisits, WalksAreRecursions};
ghost use Rattle.reduce_trees.specs.PersesMode.{perses_mode};

use crate::laws::walks_are_lawful;
use crate::parts::{HasInput, TreeParts};
use crate::reducer::tree_reducer;
use crate::tree_round::TreeRound;
use faults::Memory;
use keep_guard::Relation;
use reduce_hdd::{TreeLevels, ends_by_levels};
use reduce_perses::{TreeVisits, rounds_end_by_visits};
use reduce_rounds::{ReducerStep, Round, Rounds};
use reduce_step::Step;
use reduce_trees_mode::{opening_is_one_test, rounds_keep_style};
use std::alloc::Global;
use syntax_tree::{left_is_part, whole_trees_rise};

/// Before the first round of mode `perses`: the whole tree, and where it is asked for its squeezed text.
pub fn perses_round<'a, F: Relation>(
    alloc: Global,
    parts: &'a TreeParts<F>,
) -> Result<TreeRound<'a, F, TreeVisits<'a>>, Memory>
    ensures input { IfOk result (λ round. ⟦<TreeRound<'a, F, TreeVisits<'a>> as Round>⟧.input round ≡ ⟦<TreeParts<F> as HasInput>⟧.input parts.now) }
    ensures state { IfOk result (λ round. ⟦<TreeRound<'a, F, TreeVisits<'a>> as Round>⟧.state round
        ≡ (perses_mode (⟦<TreeParts<F> as HasInput>⟧.input parts.now)).start) }
    ensures rest { IfOk result (λ round. ⟦<TreeRound<'a, F, TreeVisits<'a>> as Round>⟧.rest round
        ≡ (perses_mode (⟦<TreeParts<F> as HasInput>⟧.input parts.now)).opening) }
{
    let walk = TreeVisits::new(alloc, &parts.tree, &parts.compat)?;
    TreeRound::new(alloc, parts, walk)
}

/// The reducer of mode `perses`: the reduction of what its parts are of, as [`tree_reducer`] says.
pub fn perses_reducer<'a, F: Relation>(
    alloc: Global,
    parts: &'a TreeParts<F>,
) -> Result<Rounds<TreeRound<'a, F, TreeVisits<'a>>>, Memory>
    ensures plan { IfOk result (λ reducer. ⟦<Rounds<TreeRound<'a, F, TreeVisits<'a>>> as Step>⟧.plan reducer ≡ plan_first
        (perses_mode (⟦<TreeParts<F> as HasInput>⟧.input parts.now))) }
    ensures first { IfOk result (λ reducer. ⟦<Rounds<TreeRound<'a, F, TreeVisits<'a>>> as Step>⟧.first reducer ≡ plan_first
        (perses_mode (⟦<TreeParts<F> as HasInput>⟧.input parts.now))) }
    ensures start { IfOk result (λ reducer. IsStart (perses_mode (⟦<TreeParts<F> as HasInput>⟧.input parts.now))
        (⟦<Rounds<TreeRound<'a, F, TreeVisits<'a>>> as ReducerStep>⟧.so_far reducer)) }
{
    let walk = TreeVisits::new(alloc, &parts.tree, &parts.compat)?;
    tree_reducer(alloc, parts, walk)
}

/// Over a verdict on every text a round is the recursion that visits node after node, over the trees in
/// the style of its state.
#[tactic(auto, using(crate::proofs::PersesRounds::are_visits))]
pub fn perses_rounds_are_visits()
    ensures { PersesRoundsAreVisits }
{
    whole_trees_rise();
    left_is_part();
    rounds_keep_style();
    rounds_end_by_visits();
}

/// The reductions of mode `perses` are those of the recursion whose rounds visit node after node.
pub fn perses_is_its_recursion()
    ensures { WalksAreRecursions mode.Perses visit_round }
{
    perses_rounds_are_visits();
    walks_are_lawful::<TreeVisits>();
    opening_is_one_test();
}

/// Before the first round of mode `hdd`: the whole tree, and where it is asked for its squeezed text.
pub fn hdd_round<'a, F: Relation>(
    alloc: Global,
    parts: &'a TreeParts<F>,
) -> Result<TreeRound<'a, F, TreeLevels<'a>>, Memory>
    ensures input { IfOk result (λ round. ⟦<TreeRound<'a, F, TreeLevels<'a>> as Round>⟧.input round ≡ ⟦<TreeParts<F> as HasInput>⟧.input parts.now) }
    ensures state { IfOk result (λ round. ⟦<TreeRound<'a, F, TreeLevels<'a>> as Round>⟧.state round
        ≡ (hdd_mode (⟦<TreeParts<F> as HasInput>⟧.input parts.now)).start) }
    ensures rest { IfOk result (λ round. ⟦<TreeRound<'a, F, TreeLevels<'a>> as Round>⟧.rest round
        ≡ (hdd_mode (⟦<TreeParts<F> as HasInput>⟧.input parts.now)).opening) }
{
    let walk = TreeLevels::new(alloc, &parts.tree)?;
    TreeRound::new(alloc, parts, walk)
}

/// The reducer of mode `hdd`: the reduction of what its parts are of, as [`tree_reducer`] says.
pub fn hdd_reducer<'a, F: Relation>(
    alloc: Global,
    parts: &'a TreeParts<F>,
) -> Result<Rounds<TreeRound<'a, F, TreeLevels<'a>>>, Memory>
    ensures plan { IfOk result (λ reducer. ⟦<Rounds<TreeRound<'a, F, TreeLevels<'a>>> as Step>⟧.plan reducer ≡ plan_first
        (hdd_mode (⟦<TreeParts<F> as HasInput>⟧.input parts.now))) }
    ensures first { IfOk result (λ reducer. ⟦<Rounds<TreeRound<'a, F, TreeLevels<'a>>> as Step>⟧.first reducer ≡ plan_first
        (hdd_mode (⟦<TreeParts<F> as HasInput>⟧.input parts.now))) }
    ensures start { IfOk result (λ reducer. IsStart (hdd_mode (⟦<TreeParts<F> as HasInput>⟧.input parts.now))
        (⟦<Rounds<TreeRound<'a, F, TreeLevels<'a>>> as ReducerStep>⟧.so_far reducer)) }
{
    let walk = TreeLevels::new(alloc, &parts.tree)?;
    tree_reducer(alloc, parts, walk)
}

/// Over a verdict on every text a round of mode `hdd` is the recursion that goes level after level, over
/// the trees in the style of its state.
#[tactic(auto, using(crate::proofs::HddRounds::are_levels))]
pub fn hdd_rounds_are_levels()
    ensures { HddRoundsAreLevels }
{
    rounds_keep_style();
    ends_by_levels();
}

/// The reductions of mode `hdd` are those of the recursion whose rounds go level after level.
pub fn hdd_is_its_recursion()
    ensures { WalksAreRecursions mode.Hdd level_round }
{
    hdd_rounds_are_levels();
    walks_are_lawful::<TreeLevels>();
    opening_is_one_test();
}
