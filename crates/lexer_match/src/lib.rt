//! Nondeterministic finite automata, and the longest beginning of a text that one of them matches.
//!
//! Begin with [`Reading::extent`] and [`table_of`]. Read `Reads` in `specs/Nfa.antt` first, then
//! `IsRead` in `specs/Reading.antt`, `IsLongestLen` in `specs/Longest.antt` and `IsSeenTo` in
//! `specs/Seen.antt`.
//!
//! The states of an NFA (Thompson 1968; `nfa`) are read for one `alternative` at a time, one character
//! after another, from the set of states that it has reached (`state_set`, `reading`), or by a table
//! of such sets (`table`; the subset construction, `subsets`). Where a reading went on after its last
//! match and failed, its sets of states are kept as dead (`dead`; Reps 1998). How much of a text was
//! looked at follows from which states are live: some text is read from them (`specs/Live.antt`).
#![tactic(auto)]

mod alternative;
mod dead;
mod nfa;
mod reading;
mod state_set;
mod subsets;
mod table;

pub use alternative::{Alternative, Extent, Seen};
pub use dead::{DeadSet, DeadSets, SetAt};
pub use faults::Memory;
pub use nfa::State;
pub use reading::Reading;
pub use state_set::StateSet;
pub use subsets::table_of;
pub use table::{Reached, Step, Table};
