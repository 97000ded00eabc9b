//! Trees that are left, as text.

ghost use Rattle.std.specs.Prelude.{map};
ghost use Rattle.std.specs.Str.{chars};
ghost use Rattle.lexer.specs.Tokens.{HasTokens, token_of};
ghost use Rattle.syntax_tree_cut.specs.Cuts.{IsCutOf};

use crate::case::Case;
use crate::node::Description;
use anyhow::{Result, bail};
use faults::Memory;
use normal_form::Sym;
use std::alloc::Global;
use syntax_tree::Tree;
use syntax_tree_cut::Cut;
use token_print::{Style, are_kept, print};

/// The greatest number of nodes of a tree that is shown node by node.
const SHOWN_NODES: usize = 200;

/// The greatest number of nodes of a parsed tree of which it is counted how many are left. Each is looked
/// for from the root on, so that the time is that number times the depth.
const COUNTED_NODES: usize = 2000;

/// What is still to be written of a tree.
#[derive(Clone, Copy)]
enum Part {
    Node(u32),
    Close,
}

/// A symbol: a letter for its sort, and its number.
fn symbol_shown(alloc: Global, symbol: Sym) -> Result<String> {
    match symbol {
        Sym::Kind(kind) => Ok(format!(in alloc; "k{kind}")?),
        Sym::Set(set) => Ok(format!(in alloc; "s{set}")?),
        Sym::Rule(rule) => Ok(format!(in alloc; "r{rule}")?),
    }
}

/// The slot of a node that is left, where it isn't the node's own symbol.
fn slot_shown(case: &Case<'_>, node: u32, slot: Sym) -> Result<String> {
    if let Some(entry) = case.tree.nodes().get(node as usize) {
        if entry.sym == slot {
            return Ok(String::new(case.alloc));
        }
    }
    let slot = symbol_shown(case.alloc, slot)?;
    Ok(format!(in case.alloc; "@{slot}")?)
}

/// Adds what comes after a node to what is still to be written: its children, and a bracket.
fn push_parts(children: &[u32], parts: &mut Vec<Part>) -> Result<(), Memory> {
    parts.push(Part::Close)?;
    for child in children.iter().rev() {
        parts.push(Part::Node(*child))?;
    }
    Ok(())
}

/// A token's number, where there is one.
fn token_shown(alloc: Global, token: Option<u32>) -> Result<String> {
    match token {
        Some(token) => Ok(format!(in alloc; "#{token}")?),
        None => Ok(String::new(alloc)),
    }
}

/// Writes a node that is left: its number, its slot where that is another symbol than its own, its
/// weight, and its first token where it has one.
fn write_left(
    case: &Case<'_>,
    node: u32,
    found: &Description,
    parts: &mut Vec<Part>,
    text: &mut String,
) -> Result<()> {
    let slot = slot_shown(case, node, found.slot)?;
    let token = token_shown(case.alloc, found.first_token)?;
    text.push_str(format!(in case.alloc; " {node}{slot}:{}{token}", found.weight)?.as_str())?;
    if !found.children.is_empty() {
        text.push_str(" (")?;
        push_parts(&found.children, parts)?;
    }
    Ok(())
}

/// Writes what comes next of a tree.
fn write_part(
    case: &Case<'_>,
    cut: &Cut,
    part: Part,
    parts: &mut Vec<Part>,
    text: &mut String,
) -> Result<()>
    requires { IsCutOf case.now.tree cut.now }
{
    let Part::Node(node) = part else {
        text.push_str(" )")?;
        return Ok(());
    };
    match case.describe(cut, node)? {
        Some(found) => write_left(case, node, &found, parts, text),
        None => bail!("a child that isn't left: {node}"),
    }
}

/// Refuses to go on where other nodes are left than those that were shown.
fn compare_count(tree: &Tree, cut: &Cut, shown: usize) -> Result<()>
    requires { IsCutOf tree.now cut.now }
{
    if tree.nodes().len() > COUNTED_NODES {
        return Ok(());
    }
    let mut count = 0usize;
    for number in 0..tree.nodes().len() as u32 {
        if cut.is_left(tree, number) {
            count = count.saturating_add(1);
        }
    }
    if count != shown {
        bail!("{count} nodes are left, and {shown} are in the tree");
    }
    Ok(())
}

/// The tree that is left as brackets; None where it has too many nodes.
fn tree_shown(case: &Case<'_>, cut: &Cut) -> Result<Option<String>>
    requires { IsCutOf case.now.tree cut.now }
{
    let mut text = String::new(case.alloc);
    let mut parts = Vec::new(case.alloc);
    parts.push(Part::Node(cut.root(&case.tree)))?;
    let mut shown = 0usize;
    for _ in 0..u32::MAX {
        let Some(part) = parts.pop() else {
            break;
        };
        if matches!(part, Part::Node(_)) {
            if shown >= SHOWN_NODES {
                return Ok(None);
            }
            shown = shown.saturating_add(1);
        }
        write_part(case, cut, part, &mut parts, &mut text)?;
    }
    compare_count(&case.tree, cut, shown)?;
    Ok(Some(text))
}

/// The text of the tokens that are left, as it was and squeezed.
fn text_shown(case: &Case<'_>, kept: &[u32]) -> Result<String>
    requires { HasTokens case.now.language.now.lexer.grammar (chars case.now.text.now) (map token_of case.now.tokens.items.items) }
{
    let alloc = case.alloc;
    let tokens = &case.tokens;
    let lexer = &case.language.lexer;
    if !are_kept(tokens, kept) {
        bail!("no such tokens");
    }
    let as_was = print(alloc, case.text, tokens, lexer, kept, Style::AsWas)?;
    let squeezed = print(alloc, case.text, tokens, lexer, kept, Style::Squeezed)?;
    let as_was = str::from_utf8(&as_was)?;
    let squeezed = str::from_utf8(&squeezed)?;
    Ok(format!(in alloc; "{as_was:?} {squeezed:?}")?)
}

/// A tree that is left: its texts and its nodes, or how many tokens it has where it is large.
pub(crate) fn cut_shown(case: &Case<'_>, cut: &Cut) -> Result<String>
    requires of { IsCutOf case.now.tree cut.now }
    requires tokens { HasTokens case.now.language.now.lexer.grammar (chars case.now.text.now) (map token_of case.now.tokens.items.items) }
{
    let kept = cut.kept_tokens(case.alloc, &case.tree)?;
    let Some(shown) = tree_shown(case, cut)? else {
        return Ok(format!(in case.alloc; "many nodes, {} tokens", kept.len())?);
    };
    let text = text_shown(case, &kept)?;
    Ok(format!(in case.alloc; "{text}{shown}")?)
}

/// The whole tree: its text and its nodes, or its counts where it is large.
pub(crate) fn whole_shown(case: &Case<'_>, cut: &Cut) -> Result<String>
    requires of { IsCutOf case.now.tree cut.now }
    requires tokens { HasTokens case.now.language.now.lexer.grammar (chars case.now.text.now) (map token_of case.now.tokens.items.items) }
{
    let nodes = case.tree.nodes().len();
    if nodes > SHOWN_NODES {
        let tokens = case.tokens.items.len();
        return Ok(format!(in case.alloc; "{nodes} nodes, {tokens} tokens")?);
    }
    cut_shown(case, cut)
}
