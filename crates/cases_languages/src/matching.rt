//! Texts that lexer rules and their terms match. The grammars are read and not checked.

use crate::lexer_rules::{matches, matches_rule};
use anyhow::{Result, bail};
use grammar_reader::read_grammar;
use grammar_tree::{Grammar, LexAlts, Rule, Text};
use std::alloc::Global;

/// A grammar with the rules that come before `=>` in the text, and what comes after it.
fn parts(alloc: Global, text: &str) -> Result<(Grammar, String)> {
    let (rules, rest) = text.split_once("=>").unwrap_or((text, ""));
    let spelled = format!(in alloc; "grammar G; {rules}")?;
    let rest = String::from_str(alloc, rest)?;
    match read_grammar(alloc, spelled.as_bytes()) {
        Ok(grammar) => Ok((grammar, rest)),
        Err(fault) => bail!("{fault}"),
    }
}

/// The alternatives of the first rule, which is a lexer rule.
fn first_rule(grammar: &Grammar) -> Result<&LexAlts> {
    match grammar.rules.get(0) {
        Some(Rule::Lexer { alts, .. }) => Ok(alts),
        _ => bail!("the first rule is no lexer rule"),
    }
}

/// Whether the alternatives match the text.
fn alts_answer(alloc: Global, grammar: &Grammar, alts: &LexAlts, text: &str) -> Result<String> {
    let matched = matches_rule(alloc, grammar, alts, text)?;
    Ok(matched.to_string(alloc)?)
}

/// Whether the first rule of the grammar matches the text.
fn rule_answer(alloc: Global, grammar: &Grammar, text: &str) -> Result<String> {
    alts_answer(alloc, grammar, first_rule(grammar)?, text)
}

/// Whether the first rule matches the text.
pub(crate) fn matched_shown(alloc: Global, text: &str) -> Result<String> {
    let (grammar, text) = parts(alloc, text)?;
    rule_answer(alloc, &grammar, text.as_str())
}

/// Whether the first term of the grammar's first rule matches the text.
fn term_answer(alloc: Global, grammar: &Grammar, text: &str) -> Result<String> {
    let term = match first_rule(grammar)?.items.get(0) {
        Some(terms) => terms.items.get(0),
        None => None,
    };
    match term {
        Some(term) => Ok(matches(alloc, grammar, term, text)?.to_string(alloc)?),
        None => bail!("there is no term"),
    }
}

/// Whether the first term of the first rule matches the text.
pub(crate) fn term_shown(alloc: Global, text: &str) -> Result<String> {
    let (grammar, text) = parts(alloc, text)?;
    term_answer(alloc, &grammar, text.as_str())
}

/// Whether no alternatives match the text, in a grammar without rules.
pub(crate) fn nothing_shown(alloc: Global, text: &str) -> Result<String> {
    let grammar = Grammar {
        name: Text::new(alloc, "G")?,
        tokens: Vec::new(alloc),
        rules: Vec::new(alloc),
    };
    let items = Vec::new(alloc);
    alts_answer(alloc, &grammar, &LexAlts { items }, text)
}
