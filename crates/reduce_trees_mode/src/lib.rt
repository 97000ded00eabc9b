//! A reduction of trees, as a recursion and as a mode: its states, their texts, which of them may be
//! asked, and what it tries. These are definitions, and laws for the proofs of the reducer.
//!
//! Read `specs/Candidates.antt` first: which texts may be asked at all. Then `specs/Listed.antt`, the
//! text of a state and when it may be asked, and `specs/InStyles.antt`, the recursion; what it tries
//! as a mode is in `specs/TreeTrials.antt`. What follows is in
//! `specs/Laws.antt`, each law with a function of its name that does nothing: a caller calls it so that
//! its proof has the law. The text of a state that is kept and may be asked is in the language of the
//! grammar as it is written ([`listed_are_candidates`]).
#![tactic(auto)]

mod laws;

pub use laws::{
    listed_are_candidates, listed_is_decided, opening_is_kept, opening_is_one_test, parts_join,
    rounds_keep_style, styles_stay, texts_are_no_longer, tree_mode_is_lawful,
    tree_mode_tries_trees, well_formed_once, whole_is_start,
};
