//! The run of what was read: the lines of some bytes, or the tree of a text by a grammar, answered by
//! the gates of 1 to 16 workers, with its journal.
//!
//! Enter by [`run_problem`]. Read `specs/Problem.antt` first, what is reduced and what its reduction is
//! in any mode, then `specs/Committed.antt`, which of its questions a history answers, and
//! `specs/Ends.antt`, what the history of a run is and how it ends.
#![tactic(auto)]

mod laws;
mod problem;
mod run;

pub use laws::{
    answers_are_bounded, histories_go_by_questions, problems_reduce_alike, runs_reduce_alike,
    verdicts_agree,
};
pub use problem::ReadProblem;
pub use reduce_step::TreeMode;
pub use run::{run_problem, spell_laws, tree_parts};
