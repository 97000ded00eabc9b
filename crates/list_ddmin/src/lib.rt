//! Delta debugging over a list (ddmin of Zeller and Hildebrandt, 2002) as a machine that is asked
//! and answered.
//!
//! A reducer has a list of elements, as the lines of a file or the children of a node. [`Ddmin`]
//! says which of them the next candidate keeps, the reducer finds out whether that candidate will
//! do, and answers the machine. At the end the machine has the elements that stay, and no one of
//! them can go. Of eight elements, of which the third and the seventh are needed, it first asks
//! whether none will do, then each half, each half again as what the other leaves, each pair, and
//! then all without the first pair, which is a yes.
//!
//! Read `ddmin` and `list_step` in `specs/ListStep.antt` first: the procedure as it is published. The
//! contracts of [`Ddmin`] are exact over a state (`specs/Machine.antt`), and laws tie that state to
//! the procedure: each is a function that does nothing, which a caller calls so that its proof has
//! the law. [`plain_list_step`] is the procedure itself as a plain recursion, with which a test
//! compares the machine.
#![tactic(auto)]

mod laws;
mod machine;
mod plain;

pub use faults::Memory;
pub use laws::{
    agreeing_maps, asks_fewer, deletions_asked, ends_one_minimal, follows_list_step,
    goes_by_its_steps, parts_are_slices, questions_fit,
};
pub use machine::Ddmin;
pub use plain::{Outcome, Test, plain_list_step};
