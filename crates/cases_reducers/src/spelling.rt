//! The reducers of spellings.

ghost use Rattle.std.specs.Prelude.{IfOk};
ghost use Rattle.spell_shrink.specs.KindWords.{AreWordsOf};

use crate::task::{Task, add_by};
use faults::Memory;
use keep_guard::Relation;
use reduce_step::TreeMode;
use reduce_trees::{HasInput, TreeParts};
use reduce_walk::TreeWalk;
use spell_shrink::{Speller, Words, hdd_speller, perses_speller};
use std::alloc::Global;
use token_print::tokens_are_in_order;

/// The spellings of the parts' start.
fn spellings_of<'a, F: Relation + Drop>(
    alloc: Global,
    parts: &'a TreeParts<F>,
) -> Result<Words<'a>, Memory>
    ensures { let input = ⟦<TreeParts<F> as HasInput>⟧.input parts.now in IfOk result (AreWordsOf input.start input.tokens) }
{
    parts.is_input();
    tokens_are_in_order();
    Words::of(alloc, parts.start(), parts.tokens())
}

/// Adds what is asked about a speller, in the mode of any walk.
fn add_by_speller<'p, F: Relation + Drop, W: TreeWalk + Drop>(
    out: &mut String,
    speller: Speller<'p, F, W>,
    task: Task<'_>,
) -> Result<(), Memory> {
    add_by(out, speller, task)
}

/// Adds what is asked about the speller in mode `perses`.
fn add_by_perses<F: Relation + Drop>(
    out: &mut String,
    alloc: Global,
    parts: &TreeParts<F>,
    words: &Words<'_>,
    task: Task<'_>,
) -> Result<(), Memory>
    requires { let input = ⟦<TreeParts<F> as HasInput>⟧.input parts.now in AreWordsOf input.start input.tokens words.now }
{
    match perses_speller(alloc, parts, words) {
        Ok(speller) => add_by_speller(out, speller, task),
        Err(memory) => Err(memory),
    }
}

/// Adds what is asked about the speller in mode `hdd`.
fn add_by_hdd<F: Relation + Drop>(
    out: &mut String,
    alloc: Global,
    parts: &TreeParts<F>,
    words: &Words<'_>,
    task: Task<'_>,
) -> Result<(), Memory>
    requires { let input = ⟦<TreeParts<F> as HasInput>⟧.input parts.now in AreWordsOf input.start input.tokens words.now }
{
    match hdd_speller(alloc, parts, words) {
        Ok(speller) => add_by_speller(out, speller, task),
        Err(memory) => Err(memory),
    }
}

/// Adds what is asked about the speller of the parts' start in this mode.
pub(crate) fn add_respelled<F: Relation + Drop>(
    out: &mut String,
    alloc: Global,
    parts: &TreeParts<F>,
    mode: TreeMode,
    task: Task<'_>,
) -> Result<(), Memory> {
    let words = spellings_of(alloc, parts)?;
    match mode {
        TreeMode::Perses => add_by_perses(out, alloc, parts, &words, task),
        TreeMode::Hdd => add_by_hdd(out, alloc, parts, &words, task),
    }
}
