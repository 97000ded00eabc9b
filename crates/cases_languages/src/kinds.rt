//! The kinds and the starts of grammars.

use anyhow::Result;
use cases_answers::kind_shown;
use grammar_tree::{Checked, Kind};
use std::alloc::Global;

/// The kinds, one after another.
fn all_shown(alloc: Global, kinds: &[Kind]) -> Result<String> {
    let mut out = String::new(alloc);
    for kind in kinds {
        out.push_str(kind_shown(alloc, kind)?.as_str())?;
    }
    Ok(out)
}

/// The kinds of a copy of the grammar, in the order of their numbers.
pub(crate) fn kinds_shown(alloc: Global, checked: &Checked) -> Result<String> {
    let copy = checked.copy(alloc)?;
    all_shown(alloc, copy.kinds())
}

/// Which rule is the start of the grammar, counted from 0, and how many kinds it has.
fn start_shown(alloc: Global, checked: &Checked) -> Result<String> {
    let start = checked.start();
    let kinds = checked.kinds().len();
    Ok(format!(in alloc; "starts at {start}, {kinds} kinds")?)
}

/// The same of a copy of the grammar.
pub(crate) fn copied_shown(alloc: Global, checked: &Checked) -> Result<String> {
    let copy = checked.copy(alloc)?;
    start_shown(alloc, &copy)
}
