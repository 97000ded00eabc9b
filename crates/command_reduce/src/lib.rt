//! The command `reduce`: it reads the input and the grammar, runs the reduction over a gate with its
//! journal, and writes the result and the report.
//!
//! Enter by [`reduce`]; read `ReduceEnds` in `specs/Reduce.antt` first, how it ends at each status.
//! [`reduce_by_status`] says the same by the numbers of the statuses (`specs/ReduceByStatus.antt`). What
//! is read is in `specs/inner/Read.antt` and `specs/Resume.antt`, what a run leaves of the journal in
//! `specs/inner/Run.antt`. What it opens and writes is done by `command_reduce_calls`.
#![tactic(auto)]

mod laws;
mod read;
mod resume;
mod steps;

pub use laws::reduce_by_status;
pub use steps::reduce;
