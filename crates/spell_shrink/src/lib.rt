//! Shorter spellings: after a reduction each token may take a shorter spelling that its kind has in the
//! start.
//!
//! Read `specs/Respelling.antt` first, what a respelling is, then `specs/Texts.antt`, its text and when it
//! may be asked, and `specs/Respelled.antt`: what is tried, and what a reduction comes to with the
//! respelling that follows ([`respells_reductions`]). As code it is a mode of `reduce_rounds` with two
//! phases (`specs/SpellMode.antt`): rounds of trees, and then rounds of respellings. So its machine,
//! [`Speller`], is asked and answered as each other reducer. Enter by [`Words::of`], the spellings of each
//! kind, and [`perses_speller`] or [`hdd_speller`]. A round that ends without a yes has tried each shorter
//! neighbour ([`respells_to_end`]). No respelled text is said to be minimal under deletions.
#![tactic(auto)]

mod change;
mod cursor;
mod cut_text;
mod laws;
mod printing;
mod reading;
mod spell_round;
mod spell_step;
mod spelled;
mod speller;
mod words;

pub use faults::Memory;
pub use laws::{
    hdd_speller_is_its_recursion, perses_speller_is_its_recursion, respells_candidates,
    respells_from_start, respells_reductions, respells_to_end, rounds_try_neighbours,
    spell_mode_is_lawful, spell_phases_agree,
};
pub use spell_round::{HasTree, SpellRound};
pub use speller::{Speller, hdd_speller, perses_speller, tree_speller};
pub use words::{Word, Words};
