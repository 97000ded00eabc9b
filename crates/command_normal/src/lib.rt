//! The command `normal`, which prints the normal form of a grammar.
//!
//! Enter by [`normal`]; read `NormalEnds` in `specs/Normal.antt`, how it ends at each status.
//! [`normal_by_status`] says the same by the numbers of the statuses (`specs/NormalByStatus.antt`).
//! Nothing is put before all is made, and then the form is put at once.
#![tactic(auto)]

mod form;
mod laws;

pub use form::normal;
pub use laws::normal_by_status;
