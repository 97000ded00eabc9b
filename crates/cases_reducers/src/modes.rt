//! The reducers of all modes.

use crate::byte_round::byte_reducer;
use crate::case::Case;
use crate::decoded;
use crate::parts::add_refused;
use crate::spelling::add_respelled;
use crate::task::{Task, add_by};
use crate::trees::parts_of;
use faults::Memory;
use grammar_tree::Checked;
use keep_guard::{Guard, KeepTexts, Relation};
use reduce_core::line_reducer;
use reduce_step::{TEXT_LIMIT, TreeMode};
use reduce_trees::{TreeParts, hdd_reducer, perses_reducer};
use reduce_trees_input::InputFault;
use std::alloc::Global;
use test_grammars::checked;
use test_lists::KeepsLine;

/// Adds what is asked about the reducer of a text's lines with this guard.
fn add_guarded<F: Relation>(
    out: &mut String,
    alloc: Global,
    guard: &Guard<F>,
    task: Task<'_>,
    text: &[u8],
) -> Result<(), Memory> {
    if text.len() > TEXT_LIMIT {
        return Ok(out.push_str("the text is too long")?);
    }
    add_by(out, line_reducer(alloc, text, guard)?, task)
}

/// The keep texts.
pub(crate) fn keep_texts<'a>(alloc: Global, texts: &'a [Vec<u8>]) -> Result<KeepTexts<'a>, Memory> {
    let mut keeps = KeepTexts::new(alloc);
    for text in texts {
        keeps.push(text.as_slice())?;
    }
    Ok(keeps)
}

/// Adds what is asked about the reducer of a text's lines.
fn add_by_lines(
    out: &mut String,
    alloc: Global,
    case: &Case,
    task: Task<'_>,
    text: &[u8],
) -> Result<(), Memory> {
    if let Some(line) = case.stays {
        return add_guarded(out, alloc, &Guard::new(KeepsLine(line)), task, text);
    }
    let guard = Guard::new(keep_texts(alloc, &case.keeps)?);
    add_guarded(out, alloc, &guard, task, text)
}

/// Adds what is asked about the reducer of a text's bytes.
fn add_by_bytes(
    out: &mut String,
    alloc: Global,
    task: Task<'_>,
    text: &[u8],
) -> Result<(), Memory> {
    if text.is_empty() || text.len() > TEXT_LIMIT {
        return Ok(out.push_str("no text of this length has a mark")?);
    }
    add_by(out, byte_reducer(alloc, text)?, task)
}

/// Adds what is asked about the reducer of trees, or of spellings.
fn add_by_parts(
    out: &mut String,
    alloc: Global,
    parts: &TreeParts<KeepTexts<'_>>,
    task: Task<'_>,
) -> Result<(), InputFault> {
    match task.mode {
        "perses" => add_by(out, perses_reducer(alloc, parts)?, task)?,
        "hdd" => add_by(out, hdd_reducer(alloc, parts)?, task)?,
        "respell-perses" => add_respelled(out, alloc, parts, TreeMode::Perses, task)?,
        "respell-hdd" => add_respelled(out, alloc, parts, TreeMode::Hdd, task)?,
        _ => out.push_str("no such mode")?,
    }
    Ok(())
}

/// Adds what is asked about the reducer of a text's tree.
fn add_by_tree(
    out: &mut String,
    alloc: Global,
    grammar: &Checked,
    task: Task<'_>,
    text: &str,
) -> Result<(), InputFault> {
    match parts_of(alloc, grammar, text)? {
        Some(parts) => add_by_parts(out, alloc, &parts, task),
        None => Ok(out.push_str("the text is too long")?),
    }
}

/// Adds what is asked about the reducer of a text's tree by the grammar of the case.
fn add_by_grammar(
    out: &mut String,
    alloc: Global,
    case: &Case,
    task: Task<'_>,
    text: &[u8],
) -> Result<(), InputFault> {
    match checked(alloc, case.grammar(), None) {
        Ok(grammar) => {
            let text = str::from_utf8(text).unwrap_or("");
            add_by_tree(out, alloc, &grammar, task, text)
        }
        Err(refused) => add_refused(out, &refused),
    }
}

/// Adds what is asked about the reducer of a text in this mode.
fn add_in_mode(
    out: &mut String,
    alloc: Global,
    case: &Case,
    task: Task<'_>,
    text: &[u8],
) -> Result<(), InputFault> {
    match task.mode {
        "lines" => Ok(add_by_lines(out, alloc, case, task, text)?),
        "bytes" => Ok(add_by_bytes(out, alloc, task, text)?),
        _ => add_by_grammar(out, alloc, case, task, text),
    }
}

/// Adds what is asked about a reducer, by the question and its words.
pub(crate) fn add_task(
    out: &mut String,
    alloc: Global,
    case: &Case,
    question: &str,
    words: &str,
) -> Result<(), InputFault> {
    let (task, text) = Task::read(question, words);
    let text = decoded(alloc, text)?;
    add_in_mode(out, alloc, case, task, &text)
}
