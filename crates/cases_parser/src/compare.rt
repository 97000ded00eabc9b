//! Compares the parser and the longest viable beginnings with plain ones on all short lists of kinds.
//!
//! For each list of at most so many of the grammar's kinds as the first length says, the parser's answer
//! has to be the preferred one of all trees, or none where there are none. For each list of at most so
//! many as the second length says, its longest beginning, and what can follow it, have to be those that
//! the lists with a tree show. For that the first length has to be enough: each beginning of a list with
//! a tree, of at most one kind more than the second length, has to begin one of these lists. The answer
//! has how many lists there are, and how many of them have a tree or begin one that has; it ends with the
//! first list for which something differs.

use crate::lists::lists_up_to;
use crate::plain::{Forest, Plain, PlainNode, preferred};
use crate::prefixes::Derived;
use anyhow::{Result, bail};
use cases_answers::start_tree;
use grammar_tree::Checked;
use normal_form::{Normal, NormalRule, Sym};
use normal_form_build::normalise;
use std::alloc::Global;
use syntax_tree::{Node, Tree};
use test_grammars::checked;

/// How deep the plain parser may go.
const DEPTH: u32 = 200;

/// A checked grammar with its normal form.
#[derive(Drop)]
struct Language {
    checked: Checked,
    normal: Normal,
}

/// Up to which lengths lists are compared: by their trees, and by their longest beginnings.
#[derive(Clone, Copy)]
pub(crate) struct Lengths {
    pub(crate) trees: u32,
    pub(crate) beginnings: u32,
}

/// The language of the grammar that the text spells.
fn language_of(alloc: Global, text: &str) -> Result<Language> {
    match checked(alloc, text, None) {
        Ok(checked) => {
            let normal = normalise(alloc, &checked)?;
            Ok(Language { checked, normal })
        }
        Err(refused) => bail!("the grammar is refused: {refused:?}"),
    }
}

/// The number of the alternative that the node has, or of what an optional is.
fn choice_of(normal: &Normal, node: &Node) -> u32 {
    let Sym::Rule(rule) = node.slot else {
        return node.alt;
    };
    match normal.rules().get(rule as usize) {
        Some(NormalRule::Opt(_)) if node.children == 0 => 1,
        _ => node.alt,
    }
}

/// The nodes of the parser's tree, as the plain parser has them.
fn plain_nodes(alloc: Global, normal: &Normal, nodes: &[Node]) -> Result<Vec<PlainNode>> {
    let mut plain = Vec::new(alloc);
    for node in nodes {
        plain.push(PlainNode {
            sym: node.sym,
            slot: node.slot,
            choice: choice_of(normal, node),
            children: node.children,
            first: node.first as usize,
            end: node.end as usize,
        })?;
    }
    Ok(plain)
}

/// Whether the parser's answer is the preferred one of all trees, or None where there are none.
fn is_same(
    alloc: Global,
    normal: &Normal,
    answer: &Option<Tree>,
    trees: &[Forest],
) -> Result<bool> {
    match answer {
        None => Ok(trees.is_empty()),
        Some(tree) => {
            let number = preferred(trees);
            if number >= trees.len() {
                return Ok(false);
            }
            Ok(plain_nodes(alloc, normal, tree.nodes())? == trees[number].nodes)
        }
    }
}

/// Compares the answers for a list. The answer is whether it has a tree.
fn compare_list(alloc: Global, language: &Language, kinds: &[u32]) -> Result<bool> {
    let normal = &language.normal;
    let answer = start_tree(alloc, normal, kinds)?;
    let plain = Plain {
        alloc,
        normal,
        kinds,
    };
    let trees = plain.trees(DEPTH, Sym::Rule(normal.start()), 0, kinds.len())?;
    if !is_same(alloc, normal, &answer, &trees)? {
        bail!(
            "of {kinds:?} the parser's tree isn't the preferred one of {}",
            trees.len()
        );
    }
    Ok(answer.is_some())
}

/// Compares the answers for the lists, and gives those that have a tree.
fn derived_lists(alloc: Global, language: &Language, lists: &[Vec<u32>]) -> Result<Vec<Vec<u32>>> {
    let mut derived = Vec::new(alloc);
    for list in lists {
        if compare_list(alloc, language, list)? {
            derived.push(list.clone()?)?;
        }
    }
    Ok(derived)
}

/// Compares the answers for all lists of the language's kinds up to the lengths, and says how many there
/// are.
fn compared_by(alloc: Global, language: &Language, lengths: Lengths) -> Result<String> {
    let kinds = language.checked.kinds().len();
    let lists = lists_up_to(alloc, kinds, lengths.trees)?;
    let derived = derived_lists(alloc, language, &lists)?;
    let short = lists_up_to(alloc, kinds, lengths.beginnings)?;
    let plain = Derived {
        alloc,
        normal: &language.normal,
        kinds,
        lists: &derived,
    };
    let viable = plain.viable_count(&short)?;
    Ok(format!(in alloc;
        "{} of {} lists have a tree, {viable} of {} begin one that has, and all answers are the same",
        derived.len(),
        lists.len(),
        short.len()
    )?)
}

/// The same for the grammar that a text spells.
pub(crate) fn compared(alloc: Global, grammar: &str, lengths: Lengths) -> Result<String> {
    let language = language_of(alloc, grammar)?;
    compared_by(alloc, &language, lengths)
}

/// What is answered to two lengths and a grammar, with blanks between.
pub(crate) fn compared_shown(alloc: Global, line: &str) -> Result<String> {
    let Some((trees, rest)) = line.split_once(' ') else {
        bail!("give two lengths and a grammar");
    };
    let Some((beginnings, grammar)) = rest.split_once(' ') else {
        bail!("give two lengths and a grammar");
    };
    let lengths = Lengths {
        trees: trees.parse::<u32>()?,
        beginnings: beginnings.parse::<u32>()?,
    };
    compared(alloc, grammar, lengths)
}
