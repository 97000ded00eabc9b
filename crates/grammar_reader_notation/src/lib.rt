//! The notation of grammars: which texts spell which grammars, and what else is a fault.
//!
//! It is the notation of ANTLR 4 without the parts that are listed as [`What`]. Read `IsText` in
//! `specs/Notation.antt` first, which has a family for each row of the notation, then `IsFirstFault` in
//! `specs/Reads.antt`: the first word that can't follow the ones before, and what it is called
//! (`specs/Naming.antt`). Of `grammar G; s : 'x' | ) ;` that is `)`, at byte 21, a fault of syntax. A
//! reader calls [`within`] and [`outside`] for the sets that a text writes. A text has one first fault
//! at most, and a word that can't follow has one name ([`faults_once`], [`named_once`]).
#![tactic(auto)]

mod fault;
mod laws;
mod set;

pub use fault::{ReadFault, What};
pub use laws::{faults_once, named_once};
pub use set::{outside, within};
