//! Whether a grammar is well-formed, and if not, its first fault.
//!
//! Begin with [`check`]. Read `IsWellFormed` in `grammar_tree/specs/Faults.antt` first, then
//! `IsFirstInTable` in `specs/CheckFaults.antt`. A grammar is well-formed exactly where it has no
//! fault, and it has one first fault at most ([`no_fault_is_well_formed`], [`first_fault_once`]).
#![tactic(auto)]

mod checking;
mod fault;
mod first_fault;
mod kinds;
mod laws;
mod lexer_fault;
mod parser_fault;

pub use checking::check;
pub use fault::CheckFault;
pub use laws::{first_fault_once, no_fault_is_well_formed, well_formed_has_no_fault};
