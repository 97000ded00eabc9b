//! The sets of kinds of normal forms.

use crate::forms::numbers;
use anyhow::Result;
use grammar_tree::Checked;
use normal_form_build::normalise;
use normal_form_sets::KindSets;
use std::alloc::Global;

/// The number, with a blank before it.
fn number_shown(alloc: Global, number: u32) -> Result<String> {
    Ok(format!(in alloc; " {number}")?)
}

/// Adds the numbers, each with a blank before it.
fn add_numbers(alloc: Global, numbers: &[u32], out: &mut String) -> Result<()> {
    for number in numbers {
        out.push_str(number_shown(alloc, *number)?.as_str())?;
    }
    Ok(())
}

/// The kinds below 16 that the set has, asked about one after another.
fn contained(alloc: Global, sets: &KindSets, set: u32) -> Result<Vec<u32>> {
    let mut kinds = Vec::new(alloc);
    for kind in 0..16u32 {
        if sets.contains(set, kind) {
            kinds.push(kind)?;
        }
    }
    Ok(kinds)
}

/// Adds which kinds the set has, and which of all it lacks. No set has the number where it lacks none
/// and has none.
fn add_set(alloc: Global, sets: &KindSets, set: u32, out: &mut String) -> Result<()> {
    let kinds = sets.kinds(alloc, set)?;
    if kinds.as_slice() != contained(alloc, sets, set)?.as_slice() {
        out.push_str("contains others; ")?;
    }
    out.push_str("has")?;
    add_numbers(alloc, &kinds, out)?;
    match sets.missing(set) {
        Some(missing) => {
            out.push_str(" lacks")?;
            add_numbers(alloc, missing, out)?;
        }
        None => out.push_str(" is no set")?,
    }
    out.push_str("; ")?;
    Ok(())
}

/// All kinds, and then each set, and the number after the last one.
fn sets_text(alloc: Global, sets: &KindSets) -> Result<String> {
    let mut out = String::from_str(alloc, "all")?;
    add_numbers(alloc, sets.all(), &mut out)?;
    out.push_str("; ")?;
    let mut number = 0u32;
    for _ in 0..sets.len().saturating_add(1) {
        add_set(alloc, sets, number, &mut out)?;
        number = number.saturating_add(1);
    }
    Ok(out)
}

/// The sets, and that their copy has the same ones.
fn copied_text(alloc: Global, sets: &KindSets) -> Result<String> {
    let text = sets_text(alloc, sets)?;
    let copied = sets_text(alloc, &sets.copy(alloc)?)?;
    if text.as_str() != copied.as_str() {
        return Ok(String::from_str(alloc, "the copy has others")?);
    }
    Ok(text)
}

/// The sets of the grammar's normal form, and that their copy has the same ones.
pub(crate) fn sets_shown(alloc: Global, checked: &Checked) -> Result<String> {
    let normal = normalise(alloc, checked)?;
    copied_text(alloc, normal.sets())
}

/// The lists of what sets lack, one after another.
fn lists_text(alloc: Global, lists: &[Vec<u32>]) -> Result<String> {
    let mut out = String::new(alloc);
    for list in lists {
        out.push_str("lacks")?;
        add_numbers(alloc, list, &mut out)?;
        out.push_str("; ")?;
    }
    Ok(out)
}

/// What the sets lack of the kinds.
fn lacking_text(alloc: Global, sets: &KindSets, kinds: &[u32]) -> Result<String> {
    let lists = sets.missing_of(alloc, kinds)?;
    lists_text(alloc, &lists)
}

/// What the sets of the grammar's normal form lack of the kinds in the text.
pub(crate) fn lacking_shown(alloc: Global, checked: &Checked, text: &str) -> Result<String> {
    let kinds = numbers(alloc, text)?;
    let normal = normalise(alloc, checked)?;
    lacking_text(alloc, normal.sets(), &kinds)
}
