//! The laws.

ghost use Rattle.reduce_trees_mode.specs.InputParts.{PartsJoin};
ghost use Rattle.reduce_trees_mode.specs.Lawful.{TreeModeIsLawful, TreeModeTriesTrees};
ghost use Rattle.reduce_trees_mode.specs.Laws.{ListedAreCandidates, ListedIsDecided, OpeningIsKept, OpeningIsOneTest};
ghost use Rattle.reduce_trees_mode.specs.Laws.{RoundsKeepStyle, StylesStay, TextsAreNoLonger, WellFormedOnce, WholeIsStart};

use normal_form::equal_languages;
use syntax_tree::{leaves_keep_kinds, left_is_part, left_is_reflexive, valid_trees_are_derived};
use token_print::{
    all_kept_is_start, kept_kinds, no_longer_than_all, no_longer_than_start, printed_with_skips,
    spelled_are_found, start_keeps_tokens, tokens_are_found,
};

/// There is at most one proof that a grammar is well-formed, so that what is defined by such a proof
/// is one value.
pub fn well_formed_once()
    ensures { WellFormedOnce }
{}

/// Parts that are joined are an input. That they are joined is a proposition, which a type that holds
/// them can keep.
pub fn parts_join()
    ensures { PartsJoin }
{
    tokens_are_found();
}

/// `is_listed` is true exactly of the states that may be asked.
pub fn listed_is_decided()
    ensures { ListedIsDecided }
{
    spelled_are_found();
}

/// The text of a state that is kept and may be asked is a candidate: above all, it is in the language
/// of the grammar as it is written.
pub fn listed_are_candidates()
    ensures { ListedAreCandidates }
{
    printed_with_skips();
    left_is_part();
    valid_trees_are_derived();
    leaves_keep_kinds();
    kept_kinds();
    equal_languages();
}

/// The tree of all tokens has the start's text, and it may be asked where that is admitted.
pub fn whole_is_start()
    ensures { WholeIsStart }
{
    left_is_reflexive();
    all_kept_is_start();
    start_keeps_tokens();
}

/// No text of a state that is kept has more bytes than the start.
pub fn texts_are_no_longer()
    ensures { TextsAreNoLonger }
{
    no_longer_than_start();
    no_longer_than_all();
    left_is_part();
}

/// What the opening tries is kept.
pub fn opening_is_kept()
    ensures { OpeningIsKept }
{
    left_is_reflexive();
}

/// Trials of states in one style are those of their trees: each is kept, smaller and tried as its
/// tree is.
pub fn styles_stay()
    ensures { StylesStay }
{}

/// Over a verdict on every text a round of the mode comes to what the round from its tree comes to, over
/// the trees in its style.
pub fn rounds_keep_style()
    ensures { RoundsKeepStyle }
{}

/// Over a verdict on every text the opening comes to the one test of the squeezed text, where it is asked
/// for and shorter, and else to nothing.
pub fn opening_is_one_test()
    ensures { OpeningIsOneTest }
{}

/// The mode is lawful where a round of it tries kept trees alone and each yes makes the tree smaller.
pub fn tree_mode_is_lawful()
    ensures { TreeModeIsLawful }
{
    whole_is_start();
    opening_is_kept();
    styles_stay();
}

/// The mode tries the trees that a round of it tries, in the style of the state.
pub fn tree_mode_tries_trees()
    ensures { TreeModeTriesTrees }
{
    styles_stay();
}
