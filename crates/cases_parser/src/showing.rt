//! Trees and ends as text.

use anyhow::{Result, bail};
use cases_answers::Language;
use chart_parser_ends::ends;
use normal_form::{Normal, Sym};
use std::alloc::Global;
use syntax_tree::Node;

/// A node: the number of its token, or its rule's name, its alternative and how many children it has.
/// Tokens and alternatives count from 0.
fn node_shown(alloc: Global, normal: &Normal, node: &Node) -> Result<String> {
    match node.sym {
        Sym::Kind(_) | Sym::Set(_) => Ok(format!(in alloc; "{}", node.first)?),
        Sym::Rule(rule) => {
            let Some(name) = normal.names().get(rule as usize) else {
                bail!("a rule without a name");
            };
            Ok(format!(in alloc; "{name}.{}:{}", node.alt, node.children)?)
        }
    }
}

/// The nodes, each before those below it, from left to right.
fn nodes_shown(alloc: Global, normal: &Normal, nodes: &[Node]) -> Result<String> {
    let mut text = String::new(alloc);
    for node in nodes {
        if !text.is_empty() {
            text.push_str(" ")?;
        }
        text.push_str(node_shown(alloc, normal, node)?.as_str())?;
    }
    Ok(text)
}

/// The preferred tree of a text.
pub(crate) fn tree_shown(alloc: Global, language: &Language, text: &str) -> Result<String> {
    match language.tree(alloc, text)? {
        Some(tree) => nodes_shown(alloc, &language.normal, tree.nodes()),
        None => Ok(String::from_str(alloc, "none")?),
    }
}

/// Where the rule with this number can end: the question has its number, the position where it begins,
/// and after a colon the text that is read.
pub(crate) fn ends_shown(alloc: Global, language: &Language, text: &str) -> Result<String> {
    let (numbers, text) = text.split_once(':').unwrap_or((text, ""));
    let (rule, first) = numbers.split_once(' ').unwrap_or((numbers, ""));
    let rule = rule.parse::<u32>()?;
    let first = first.parse::<u32>()?;
    let kinds = language.kinds(alloc, text)?;
    let found = ends(alloc, &language.normal, Sym::Rule(rule), &kinds, first)?;
    Ok(format!(in alloc; "{found:?}")?)
}

/// So many of a text, another one, and as many of a third one.
fn nested_text(alloc: Global, depth: u32, open: &str, inner: &str, close: &str) -> Result<String> {
    let mut text = String::new(alloc);
    for _ in 0..depth {
        text.push_str(open)?;
    }
    text.push_str(inner)?;
    for _ in 0..depth {
        text.push_str(close)?;
    }
    Ok(text)
}

/// How many tokens there are below the first of the nodes, which is a tree's root.
fn count_tokens(nodes: &[Node]) -> u32 {
    match nodes.first() {
        Some(root) => root.end,
        None => 0,
    }
}

/// How many nodes the tree has, and how many tokens.
fn counts_shown(alloc: Global, language: &Language, text: &str) -> Result<String> {
    match language.tree(alloc, text)? {
        Some(tree) => {
            let tokens = count_tokens(tree.nodes());
            Ok(format!(in alloc; "{} nodes, {tokens} tokens", tree.nodes().len())?)
        }
        None => Ok(String::from_str(alloc, "none")?),
    }
}

/// The same of a nested text: the question has the depth, and what opens, is inside and closes.
pub(crate) fn nested_shown(alloc: Global, language: &Language, text: &str) -> Result<String> {
    let words: Vec<&str> = text.split_whitespace().collect(alloc)?;
    if words.len() != 4 {
        bail!("give the depth, and what opens, is inside and closes");
    }
    let depth = words[0].parse::<u32>()?;
    let nested = nested_text(alloc, depth, words[1], words[2], words[3])?;
    counts_shown(alloc, language, nested.as_str())
}

/// How many tokens the tree of a file's text has.
pub(crate) fn file_shown(alloc: Global, language: &Language, text: &str) -> Result<String> {
    match language.tree(alloc, text)? {
        Some(tree) => {
            let tokens = count_tokens(tree.nodes());
            Ok(format!(in alloc; "a tree of {tokens} tokens")?)
        }
        None => Ok(String::from_str(alloc, "none")?),
    }
}
