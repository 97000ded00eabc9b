//! What holds of reductions with respelling, whatever walks the tree. Each law is a function that does
//! nothing: a caller calls it so that its proof has the law.

ghost use Rattle.reduce_step.specs.declared.mode.TreeMode.TheVariants as mode;
ghost use Rattle.reduce_hdd.specs.LevelRounds.{level_round};
ghost use Rattle.reduce_perses.specs.VisitRounds.{visit_round};
ghost use Rattle.spell_shrink.specs.Laws.{RespellsCandidates, RespellsFromStart, RespellsReductions, RespellsToEnd, RoundsTryNeighbours};
ghost use Rattle.spell_shrink.specs.Laws.{SpellModeIsLawful, SpellPhasesAgree, SpellersAreRecursions};

use normal_form::equal_languages;
use reduce_hdd::TreeLevels;
use reduce_perses::TreeVisits;
use reduce_trees::{
    hdd_rounds_are_levels, perses_rounds_are_visits, walks_are_lawful, walks_ask_candidates,
    walks_begin,
};
use reduce_trees_mode::{opening_is_one_test, texts_are_no_longer};
use reduce_walk::TreeWalk;
use syntax_tree::{leaves_keep_kinds, left_is_part, valid_trees_are_derived};
use syntax_tree_cut::weights_count_leaves;
use token_print::{spelled_are_found, spelled_kinds};

/// A round over respellings whose answers are all no has tried each shorter neighbour.
pub fn rounds_try_neighbours()
    ensures { RoundsTryNeighbours }
{}

/// The mode reaches kept states alone, and each yes within a round, and the next phase, has a smaller
/// measure, so that its rounds end.
pub fn spell_mode_is_lawful<W: TreeWalk>()
    ensures { SpellModeIsLawful W.round }
{
    walks_are_lawful::<W>();
    texts_are_no_longer();
    left_is_part();
}

/// A phase begins with the text and the tokens that the one before ended with.
pub fn spell_phases_agree<W: TreeWalk>()
    ensures { SpellPhasesAgree W.round }
{
    weights_count_leaves();
}

/// The reductions of mode `perses` with respelling are those of the recursion.
pub fn perses_speller_is_its_recursion()
    ensures { SpellersAreRecursions visit_round mode.Perses }
{
    perses_rounds_are_visits();
    spell_mode_is_lawful::<TreeVisits>();
    opening_is_one_test();
}

/// The reductions of mode `hdd` with respelling are those of the recursion.
pub fn hdd_speller_is_its_recursion()
    ensures { SpellersAreRecursions level_round mode.Hdd }
{
    hdd_rounds_are_levels();
    spell_mode_is_lawful::<TreeLevels>();
    opening_is_one_test();
}

/// What a speller comes to is the reduction of the tree, with the respelling that follows.
pub fn respells_reductions<W: TreeWalk>()
    ensures { RespellsReductions W.round }
{
    walks_are_lawful::<W>();
    spell_mode_is_lawful::<W>();
    left_is_part();
}

/// A speller asks the start's own bytes first, and these may be asked where they are admitted.
pub fn respells_from_start<W: TreeWalk>()
    ensures { RespellsFromStart W.round }
{
    walks_begin::<W>();
}

/// The texts that a speller may ask, by `asks_candidates` of `reduce_rounds`, are candidates of the
/// reduction or texts of listed respellings: both are in the language of the grammar as it is written, and
/// no longer than the start.
pub fn respells_candidates<W: TreeWalk>()
    ensures { RespellsCandidates W.round }
{
    walks_ask_candidates::<W>();
    texts_are_no_longer();
    spelled_are_found();
    spelled_kinds();
    left_is_part();
    valid_trees_are_derived();
    leaves_keep_kinds();
    equal_languages();
}

/// The end of a speller, by `ends_minimal` of `reduce_rounds`, is a respelling that has a yes, and each of
/// its shorter neighbours that may be asked has a no.
pub fn respells_to_end<W: TreeWalk>()
    ensures { RespellsToEnd W.round }
{
    rounds_try_neighbours();
    spelled_are_found();
}
