//! The input of a reduction of trees, from a grammar and bytes: their text, its tokens, and the
//! preferred tree of all of them, or why there is none.
//!
//! Begin with [`parsed_input`]. Read `IsInputOf` in `specs/Parsed.antt` first, then `IsInputFault` in
//! `specs/Faults.antt`. A text has one input or one fault, never both ([`inputs_are_one`],
//! [`input_fault_once`]).
#![tactic(auto)]

mod fault;
mod laws;
mod parsed;

pub use fault::InputFault;
pub use laws::{input_fault_once, inputs_are_in_language, inputs_are_one};
pub use parsed::{ParsedInput, parsed_input};
