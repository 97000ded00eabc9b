//! The reducers, which are asked for texts and answered with verdicts until they ask nothing more.
//!
//! Enter by [`line_reducer`], the reducer of mode `lines` with the guard of its candidates, and then
//! `asks` and `answer` of `Step`; read `specs/Reduction.antt` first. What a reducer does is defined
//! there as a recursion over a verdict on every text; as code it is a mode of `reduce_rounds`
//! (`specs/LineMode.antt`), whose machine is asked and answered from outside. The laws tie the two
//! together: each is a function that does nothing, which a caller calls so that its proof has the law.
//! [`plain_reduction`] is the recursion itself as a plain program, with which a test compares the
//! machine.
#![tactic(auto)]

mod laws;
mod line_round;
mod lines;
mod plain;
mod reducer;

pub use faults::Memory;
pub use laws::{
    ahead_are_candidates, asks_candidates, follows_lines, lines_are_recursions, lines_are_the_text,
    lines_end_minimal, lines_go_by_rounds, refuses_lines_at_no,
};
pub use line_round::LineRound;
pub use lines::{Candidate, Line, Lines, first_line_end};
pub use plain::{Reduction, Test, plain_reduction};
pub use reduce_rounds::ReducerStep;
pub use reducer::{LineReducer, line_reducer};
