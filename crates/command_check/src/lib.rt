//! The command `check`, which says whether files are those of a finished run. It runs no script, and
//! changes no file.
//!
//! Enter by [`check`]; read `CheckEnds` in `specs/Check.antt`, how it ends at each status. What is found is
//! said by `cert_check`.
#![tactic(auto)]

mod files;
mod steps;

pub use steps::check;
