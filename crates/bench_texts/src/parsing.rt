//! How many nodes the tree of a text has, or how many tokens begin one.

ghost use Rattle.std.specs.Prelude.{◌<◌, ◌^◌, ℕ, List, IfOk, MatchOption, length};
ghost use Rattle.normal_form.specs.declared.normal.Sym.TheVariants.{Rule};
ghost use Rattle.normal_form.specs.NormalDerives.{NormalDerives};
ghost use Rattle.chart_parser.specs.Parse.{IsParse};
ghost use Rattle.chart_parser_prefix.specs.Prefixes.{IsLongestPrefix};

use anyhow::{Result, bail};
use chart_parser::{Memory, parse};
use chart_parser_prefix::{LongestPrefix, longest_prefix};
use grammar_tree::Checked;
use lexer::Lexer;
use normal_form::{Normal, Sym};
use normal_form_build::normalise;
use std::alloc::Global;
use syntax_tree::Tree;

/// The kinds of the text's tokens.
fn kinds_of(alloc: Global, lexer: &Lexer, text: &str) -> Result<Vec<u32>> {
    if text.len() > u32::MAX as usize {
        bail!("the file is too long");
    }
    let tokens = lexer.lex(text)?;
    let mut kinds = Vec::new(alloc);
    for token in &tokens.items {
        kinds.push(token.kind)?;
    }
    Ok(kinds)
}

/// The preferred tree of the kinds, which is made so many times, at least once; None where the start
/// rule doesn't derive them.
fn parsed(
    alloc: Global,
    normal: &Normal,
    kinds: &[u32],
    times: u32,
) -> std::result::Result<Option<Tree>, Memory>
    requires { length kinds.now < 2 ^ 32 }
    ensures { let start = Rule normal.now.start in
        IfOk result (λ answer. MatchOption answer (¬ NormalDerives normal.now start kinds.now) (IsParse normal.now start kinds.now)) }
{
    let start = Sym::Rule(normal.start());
    for _ in 1..times {
        parse(alloc, normal, start, kinds)?;
    }
    parse(alloc, normal, start, kinds)
}

/// The longest beginning of the kinds that some list of the start rule begins with, which is found so
/// many times, at least once; None where that derives nothing.
fn beginning(
    alloc: Global,
    normal: &Normal,
    kinds: &[u32],
    times: u32,
) -> std::result::Result<Option<LongestPrefix>, Memory>
    requires { length kinds.now < 2 ^ 32 }
    ensures { let start = Rule normal.now.start in
        IfOk result (λ answer. MatchOption answer ((w : List ℕ) → ¬ NormalDerives normal.now start w) (IsLongestPrefix normal.now start kinds.now)) }
{
    let start = Sym::Rule(normal.start());
    for _ in 1..times {
        longest_prefix(alloc, normal, start, kinds)?;
    }
    longest_prefix(alloc, normal, start, kinds)
}

/// Finds so many times how many of the tokens begin a text that has a tree, and says it.
fn beginning_shown(alloc: Global, normal: &Normal, kinds: &[u32], times: u32) -> Result<String>
    requires { length kinds.now < 2 ^ 32 }
{
    match beginning(alloc, normal, kinds, times)? {
        Some(prefix) => {
            Ok(format!(in alloc;
                "{} tokens, no tree, {} begin one",
                kinds.len(),
                prefix.length
            )?)
        }
        None => Ok(format!(in alloc; "{} tokens, there are no trees", kinds.len())?),
    }
}

/// Parses so many times, and says how many tokens there are and how many nodes their tree has. Where
/// they have none, it also finds as many times how many of them begin a text that has one.
fn counts_shown(alloc: Global, normal: &Normal, kinds: &[u32], times: u32) -> Result<String> {
    if kinds.len() > u32::MAX as usize {
        bail!("there are too many tokens");
    }
    match parsed(alloc, normal, kinds, times)? {
        Some(tree) => {
            Ok(format!(in alloc; "{} tokens, {} nodes", kinds.len(), tree.nodes().len())?)
        }
        None => beginning_shown(alloc, normal, kinds, times),
    }
}

/// The same of a text, by a grammar and its lexer.
pub fn parsed_shown(
    alloc: Global,
    checked: &Checked,
    lexer: &Lexer,
    text: &str,
    times: u32,
) -> Result<String> {
    let kinds = kinds_of(alloc, lexer, text)?;
    let normal = normalise(alloc, checked)?;
    counts_shown(alloc, &normal, kinds.as_slice(), times)
}
