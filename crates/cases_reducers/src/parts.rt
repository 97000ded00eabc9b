//! What reducers rest on: inputs, keep texts, and nodes that wait.

use crate::case::Case;
use crate::modes::keep_texts;
use crate::{decoded, first_of, number_of};
use faults::Memory;
use grammar_tree::Checked;
use keep_guard::{Guard, KeepTexts, holds_all};
use node_queue::Queue;
use normal_form::Sym;
use reduce_trees_input::{InputFault, ParsedInput, parsed_input};
use std::alloc::Global;
use syntax_tree::Tree;
use test_grammars::{Refused, checked};

/// How many of the tree's leaves are a token.
fn leaf_count(tree: &Tree) -> usize {
    let leaves = tree
        .nodes()
        .iter()
        .filter(|node| matches!(node.sym, Sym::Kind(_)));
    leaves.count()
}

/// Adds how many tokens the input has, and how many of its tree's leaves are one of them.
fn add_counts(out: &mut String, input: &ParsedInput) -> Result<(), InputFault> {
    let tokens = input.tokens.items.len();
    let leaves = leaf_count(&input.tree);
    Ok(write!(out, "{tokens} tokens, {leaves} leaves")?)
}

/// Adds the same of the bytes' input.
fn add_found(
    out: &mut String,
    alloc: Global,
    grammar: &Checked,
    bytes: &[u8],
) -> Result<(), InputFault> {
    if bytes.len() > 1000 {
        return Ok(out.push_str("the text is too long")?);
    }
    let input = parsed_input(alloc, grammar, bytes)?;
    add_counts(out, &input)
}

/// Adds why there is no grammar.
pub(crate) fn add_refused(out: &mut String, refused: &Refused) -> Result<(), InputFault> {
    Ok(write!(out, "{refused:?}")?)
}

/// Adds the same by the grammar of the case.
fn add_found_by(
    out: &mut String,
    alloc: Global,
    case: &Case,
    bytes: &[u8],
) -> Result<(), InputFault> {
    match checked(alloc, case.grammar(), None) {
        Ok(grammar) => add_found(out, alloc, &grammar, bytes),
        Err(refused) => add_refused(out, &refused),
    }
}

/// Adds how many tokens the input of a text has, and how many of its tree's leaves are one of them.
pub(crate) fn add_input(
    out: &mut String,
    alloc: Global,
    case: &Case,
    text: &str,
) -> Result<(), InputFault> {
    let bytes = decoded(alloc, text)?;
    add_found_by(out, alloc, case, &bytes)
}

/// Adds the number of the first keep text that the bytes lack, from 0, and whether they hold all.
fn add_missing(out: &mut String, keeps: &KeepTexts<'_>, bytes: &[u8]) -> Result<(), Memory> {
    match keeps.first_missing(bytes) {
        Some(number) => write!(out, "lacks {number}, ")?,
        None => out.push_str("lacks none, ")?,
    }
    Ok(write!(out, "holds all: {}", holds_all(bytes, keeps))?)
}

/// Adds the number of the first keep text that a text lacks, from 0, and whether it holds all.
pub(crate) fn add_lacking(
    out: &mut String,
    alloc: Global,
    case: &Case,
    text: &str,
) -> Result<(), Memory> {
    let bytes = decoded(alloc, text)?;
    let keeps = keep_texts(alloc, &case.keeps)?;
    add_missing(out, &keeps, &bytes)
}

/// Adds whether the guard admits the bytes, where no numbers are kept, or 0 and 7.
fn add_admitted(
    out: &mut String,
    guard: &Guard<KeepTexts<'_>>,
    kept: &str,
    bytes: &[u8],
) -> Result<(), Memory> {
    let admits = match kept {
        "0,7" => guard.admits(&[0, 7], bytes),
        _ => guard.admits(&[], bytes),
    };
    Ok(write!(out, "{admits}")?)
}

/// Adds whether a guard over the keep texts admits a text. The numbers that are kept come before it: `0,7`, or `-` for
/// none.
pub(crate) fn add_admits(
    out: &mut String,
    alloc: Global,
    case: &Case,
    text: &str,
) -> Result<(), Memory> {
    let (kept, text) = first_of(text);
    let bytes = decoded(alloc, text)?;
    let guard = Guard::new(keep_texts(alloc, &case.keeps)?);
    add_admitted(out, &guard, kept, &bytes)
}

/// The nodes of a list, each as its number, its weight and the number of its first token.
fn queue_of(alloc: Global, nodes: &str) -> Result<Queue, Memory> {
    let mut queue = Queue::new(alloc);
    for node in nodes.split(' ') {
        let (number, rest) = node.split_once(':').unwrap_or((node, ""));
        let (weight, first) = rest.split_once(':').unwrap_or((rest, ""));
        queue.push(number_of(number), number_of(weight), number_of(first))?;
    }
    Ok(queue)
}

/// Adds the nodes as they are taken out.
fn add_taken(out: &mut String, queue: &mut Queue) -> Result<(), Memory> {
    for _ in 0..1000u32 {
        let Some(node) = queue.pop_heaviest() else {
            return Ok(write!(out, "and then empty: {}\n", queue.is_empty())?);
        };
        write!(out, "{node} ")?;
    }
    Ok(())
}

/// Adds the nodes as they are taken out of one queue, and then out of the other one.
fn add_both(out: &mut String, one: &mut Queue, other: &mut Queue) -> Result<(), Memory> {
    add_taken(out, one)?;
    add_taken(out, other)
}

/// Adds the nodes as they are taken out of the queue, and out of its copy.
fn add_with_copy(out: &mut String, queue: &mut Queue) -> Result<(), Memory> {
    let mut copy = queue.copy()?;
    add_both(out, queue, &mut copy)
}

/// Adds in which order nodes are taken out of a queue, and out of its copy; of no nodes whether it is empty.
pub(crate) fn add_waiting(out: &mut String, alloc: Global, nodes: &str) -> Result<(), Memory> {
    if nodes.is_empty() {
        return Ok(write!(out, "empty: {}", Queue::new(alloc).is_empty())?);
    }
    let mut queue = queue_of(alloc, nodes)?;
    add_with_copy(out, &mut queue)
}
