//! The reduction of a start, in any mode: a mode says what a round tries, and [`Rounds`] makes one
//! round after another until one has no yes.
//!
//! Read `specs/Reduction.antt` first: the reduction as a recursion over a verdict on every text. After a
//! round without a yes a mode may have a next phase, whose rounds follow in the same way. What a
//! mode brings is a type that implements [`Round`]: its states, their texts, which of them may be
//! asked, what a round tries from a state, as a finite tree (`specs/Trials.antt`, `specs/Mode.antt`),
//! and what holds of each state that it reaches. What it tries comes to a recursion
//! (`specs/ByTrials.antt`), and a mode that is defined as one shows that it is the same
//! ([`recursions_reduce_alike`]). As code a reduction is a machine that is asked and
//! answered from outside: it is a [`Step`](reduce_step::Step), with the plan of
//! `specs/RoundsPlan.antt`. The laws tie the two together: each is a function that does nothing, which
//! a caller calls so that its proof has the law. Begin with the laws [`follows_reduction`], that the
//! machine comes to what the recursion does, and [`ends_minimal`].
//!
//! A list step of ddmin (Zeller and Hildebrandt, 2002) is part of the rounds of every mode: the states
//! that its keep lists stand for are tried, and at its end the round goes on from the elements that
//! remain. Read `list_trials` in `specs/ListTrials.antt`, and the trials of three elements in
//! `specs/Worked.antt`; the laws' statements are in `specs/ListLaws.antt`. Over any verdict the trials
//! end as the list step of `list_ddmin` does ([`ends_as_list_step`]).
#![tactic(auto)]

mod ahead;
mod laws;
mod list_laws;
mod reducer;
mod round;
mod rounds;
mod stage;

pub use faults::Memory;
pub use laws::{
    agreeing_maps, ahead_are_candidates, ahead_is_start_alone, asks_candidates, ends_minimal,
    follows_reduction, goes_by_its_rounds, recursions_reduce_alike, refuses_at_no,
};
pub use list_laws::{
    becomes_smaller, ends_as_list_step, goes_by_questions, same_by_keep_lists, tries_deletions,
    tries_selections, worked_trials,
};
pub use reducer::ReducerStep;
pub use round::Round;
pub use rounds::Rounds;
